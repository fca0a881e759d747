//! The examples of docs/LIBRARY.md, docs/DIRECTORY.md and docs/EMBEDDING.md, as they stand there.
#![tactic(auto)]

pub mod counter;
pub mod member;
pub mod one_send;
pub mod send_and_take;
pub mod store;
