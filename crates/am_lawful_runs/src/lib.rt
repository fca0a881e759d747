//! Laws of runs up to their lawful front: each is followed by a run of the abstract group, in which the views are complete that became so in it
//! (docs/SAFETY.md).
#![tactic(auto)]
