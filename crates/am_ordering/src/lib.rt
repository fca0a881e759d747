//! The rows of entries in their order: the sequencer with sends and reports, a member with the sequencer's packets, and both if somebody
//! joins or leaves.
#![tactic(auto)]

pub mod joining;
pub mod leaving;
mod numbering;
pub mod receiver;
pub mod sequencer;
mod serving;
mod storing;
pub mod welcomed;
