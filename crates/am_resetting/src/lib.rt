//! The rows of a reset: promises, votes, what a coordinator decides, and how nodes catch up with a view.
#![tactic(auto)]

pub mod catching;
pub mod deciding;
pub mod promising;
pub mod serving;
pub mod stamps;
pub mod voting;
