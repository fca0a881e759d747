//! All parts of a node together, what a row asks of them, and what a row replies, as data.
#![tactic(auto)]

pub mod owning;
pub mod packets;
pub mod parts;
pub mod reading;
pub mod reply;
pub mod serving;
pub mod votes;
