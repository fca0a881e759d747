//! Tests of what crates of runs and of races offer, one module for each crate. They stand apart from those of am_tests, which load less.
#![tactic(auto)]

#[cfg(test)]
mod calls;
#[cfg(test)]
mod echoes;
#[cfg(test)]
mod examples;
#[cfg(test)]
mod one_caller;
#[cfg(test)]
mod worlds;
