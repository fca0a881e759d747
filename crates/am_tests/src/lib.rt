//! Tests of what crates offer each other, one module for each crate. They stand together, since a crate with tests of its own is proved a
//! second time with them.
#![tactic(auto)]

#[cfg(test)]
mod choosers;
#[cfg(test)]
mod directories;
#[cfg(test)]
mod groups;
#[cfg(test)]
mod packets;
#[cfg(test)]
mod schedules;
#[cfg(test)]
mod streams;
#[cfg(test)]
mod wrong_fields;
