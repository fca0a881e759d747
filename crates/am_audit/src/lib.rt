//! The auditor of a printed text: do its logs agree with each other, with the group list, and with the events?
#![tactic(auto)]

pub mod audit;
pub mod fault;
pub mod faults;
pub mod fields;
pub mod fitting;
pub mod line;
pub mod lists;
pub mod maps;
pub mod mark;
pub mod reading;
pub mod sends;
pub mod takes;
pub mod telling;
pub mod text;
mod walk;
