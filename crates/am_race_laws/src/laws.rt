//! What holds of the definitions.

ghost use Rattle.std.specs.Prelude.{List};
ghost use Rattle.am_group.specs.declared.event.Record.{Record};
ghost use Rattle.am_race_laws.specs.Cases.{ReceivesUseTheirTurns};
ghost use Rattle.am_race_laws.specs.Laws.{EachIsNext, OthersAreApart, OthersStay, TurnsStay, StoppedAreKnown, HaveKeys};

/// A journal is legal where each record is what its event gives after those before it.
#[tactic(auto, using(crate::proofs::Legality::legal_records_come_next))]
pub fn legal_journals_go_by_record()
    ensures { EachIsNext }
{}

/// A record of another place leaves a name's node, and the life of its place.
pub fn records_of_other_places_leave_a_node()
    ensures { OthersStay }
{}

/// A record of another place and another caller leaves what is known, what the place and the caller did, and a call.
pub fn records_of_others_leave_a_call()
    ensures { OthersAreApart }
{}

/// A turn of a call is one also where records of other places and callers came between.
#[tactic(auto, using(crate::proofs::Stays::turn_stays_through_others))]
pub fn turns_stay()
    ensures { TurnsStay }
{}

/// In a lawful journal the names that stopped are those of its records.
pub fn stopped_names_are_known()
    ensures { StoppedAreKnown }
{}

/// The records of a place and of a caller are those that a pass with their keys knows.
pub fn places_and_callers_have_keys()
    ensures { (records : List Record) → HaveKeys records }
{}

/// A receive that ends without an answer has used its turns, also where its node stopped; where it stopped the thread may end
/// before that end.
#[tactic(auto, using(crate::proofs::Cases::receives_use_their_turns))]
pub fn receives_use_their_turns()
    ensures { ReceivesUseTheirTurns }
{}
