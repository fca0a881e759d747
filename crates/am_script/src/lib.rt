//! The reader of scripts in JSON, whose parts other readers use too.
#![tactic(auto)]

pub mod document;
pub mod event;
pub mod fields;
pub mod founding;
mod play;
pub mod read;
pub mod tree;
