//! A node's events and answers as bytes, which say the same as its lines and their answers (docs/EMBEDDING.md, "The binary call").
#![tactic(auto)]

pub mod answer;
mod event;
mod field;
pub mod laws;
mod outcome;
pub mod standing;
