//! Worked runs, computed from the definitions.
#![tactic(auto)]

pub mod asked;
pub mod directed;
pub mod locks;
pub mod repaired;
pub mod scenarios_all;
pub mod scenarios_first;
pub mod scenarios_lives;
pub mod scenarios_moves;
pub mod scenarios_resets;
pub mod scenarios_window;
pub mod stop_table;
pub mod worked_ballots;
pub mod worked_members;
pub mod worked_resets;
pub mod worked_sends;
