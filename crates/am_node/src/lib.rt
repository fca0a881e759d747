//! One node of a group, which keeps the end of its list.
#![tactic(auto)]

mod acting;
pub mod founding;
mod gate;
mod hearing;
pub mod info;
pub mod node;
