//! The player of a script, from a source to a sink; and the statuses of a call, with their lines.
#![tactic(auto)]

pub mod play;
pub mod run;
pub mod shows;
pub mod status;
pub mod telling;
