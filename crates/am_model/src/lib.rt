//! Definitions of a node: its state, and the table of its steps, one function for each row; and the law that a step reads nothing below the
//! node's base.
#![tactic(auto)]

pub mod info;
pub mod laws;
pub mod status;
