//! The outside: sources of bytes and sinks for bytes, each with a count of its faults, and what text is written to.
#![tactic(auto)]

pub mod buffered;
pub mod outside;
pub mod standard;
pub mod whole;
pub mod writer;
