//! A whole group: its nodes, every letter that was sent, the one group list, and whether its run is lawful, kept event by event; and the
//! lossless schedule, done to a group.
#![tactic(auto)]

pub mod nodes;
pub mod records;
pub mod run;
pub mod settle;
pub mod using;
pub mod watching;
pub mod world;
