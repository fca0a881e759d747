//! A node's last ballot: votes, names given up, and how it ended.
#![tactic(auto)]

pub mod ballot;
