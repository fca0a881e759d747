//! Laws of repair: what a lossless schedule brings about in each member, and which sends are answered then (docs/REPAIR.md).
#![tactic(auto)]

pub mod repair;
pub mod repaired_runs;
