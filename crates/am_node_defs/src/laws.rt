//! What holds of the end of a list that a history keeps.

ghost use Rattle.am_node_defs.specs.Laws.{EndsTellTheSame, EndsStay};

/// The end of a list tells of its numbers what all of it tells.
#[tactic(auto, using(crate::proofs::Ends::log_end_rules))]
pub fn ends_tell_the_same()
    ensures { EndsTellTheSame }
{}

/// The end of a list stays one with an entry more, and where it is trimmed.
#[tactic(auto, using(crate::proofs::Ends::log_end_rules))]
pub fn ends_stay()
    ensures { EndsStay }
{}
