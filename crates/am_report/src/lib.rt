//! The text of a run, part by part, after what was written before.
#![tactic(auto)]

pub mod entry;
pub mod event;
pub mod letter;
pub mod lines;
pub mod name;
pub mod number;
pub mod outcome;
pub mod play;
