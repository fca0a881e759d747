//! The journal of a run, and what its users ask of it: the letters for a name, what an act asks of its name's node, and what a record gave.
#![tactic(auto)]

pub mod addressed;
pub mod asked;
pub mod delivered;
pub mod journal;
