//! Plain data of what happens in a group: events, records, journals, and the plans of races; its letters, what each name was given, and the
//! list as its users see it.
#![tactic(auto)]

pub mod event;
pub mod plan;
