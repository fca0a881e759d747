//! The words of the program: which form they have, and the numbers of `gen`.
#![tactic(auto)]

pub mod form;
pub mod node;
pub mod options;
