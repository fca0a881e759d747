//! The texts of services over a group: parts of a message, the messages in what nodes were given, nodes' directories, and their snapshots
//! (docs/MESSAGES.md, docs/DIRECTORY.md).
#![tactic(auto)]

pub mod directories;
pub mod messages;
pub mod snapshots;
mod telling;
