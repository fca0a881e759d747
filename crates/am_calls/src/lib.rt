//! The blocking calls of threads at their nodes, over the shared journal.
#![tactic(auto)]

mod acts;
pub mod caller;
mod crowd;
mod dealing;
pub mod gate;
pub mod job;
pub mod kernels;
pub mod naming;
pub mod node_box;
mod outcomes;
pub mod outset;
pub mod plans;
pub mod race;
pub mod ready;
mod steps;
