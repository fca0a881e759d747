//! The reader of races in JSON.
#![tactic(auto)]

mod call;
mod race;
pub mod read;
