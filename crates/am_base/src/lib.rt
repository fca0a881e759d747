//! The plain data of a group, definitions on its list, and facts about whole lists.
#![tactic(auto)]

pub mod body;
pub mod entry;
pub mod event;
pub mod founding;
pub mod image;
pub mod items;
pub mod laws;
pub mod limits;
pub mod name;
pub mod names;
pub mod outcome;
pub mod taken;

pub use std::alloc::AllocError as NoMemory;
