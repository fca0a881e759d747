//! A group's list as its users see it, and what a name was given of it.
#![tactic(auto)]

pub mod delivered;
pub mod group;
