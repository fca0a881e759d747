//! Laws of each event: what each row does, by named changes of a node and by its letters; and what every run keeps of names, numbers,
//! letters, views and ballots.
#![tactic(auto)]

pub mod bounded_nodes;
pub mod step_effects;
pub mod watched_runs;

ghost use Rattle.am_step_laws.specs.Begins.{RunsBegin, LawfulFrontBeginsRun};
ghost use Rattle.am_step_laws.specs.Blank.{NodesWithoutListAreBlank};
ghost use Rattle.am_step_laws.specs.Bytes.{LettersArePackets, LettersAreRead, RunsAreOfBytes};
ghost use Rattle.am_step_laws.specs.GivenUp.{OnlyStoppedGivenUp};
ghost use Rattle.am_step_laws.specs.Named.{RunsKeepNames};
ghost use Rattle.am_step_laws.specs.Numbers.{NumbersAreBounded};
ghost use Rattle.am_step_laws.specs.Taken.{TrimmedWasTaken};
ghost use Rattle.am_step_laws.specs.Views.{RunsNoteViewsOnce};

/// What a run has so far stays: the records, the letters and the group list of its first events begin the run's, and so do those of its
/// lawful front.
pub fn runs_begin()
    ensures runs { RunsBegin }
    ensures front { LawfulFrontBeginsRun }
{}

/// Each view is noted once, and its View stands at its number in its coordinator's list from then on.
pub fn views_are_noted_once()
    ensures { RunsNoteViewsOnce }
{}

/// A ballot gives up only names that have stopped.
pub fn only_stopped_names_are_given_up()
    ensures { OnlyStoppedGivenUp }
{}

/// Each node has its name, lives are 1 to 16, letters come from names, and a life that hasn't begun is a stranger that has done nothing.
pub fn names_stay()
    ensures { RunsKeepNames }
{}

/// After k events no list has more than k + 1 entries and no promise a round above k + 1; no node has queued more than k sends; what a
/// node has accepted, trimmed and begun at is within the group's list; and letters tell of nothing above that.
pub fn numbers_are_bounded()
    ensures { NumbersAreBounded }
{}

/// A name that is neither a member nor has departed has an empty list from nought on, has accepted nothing, and has begun no ballot.
pub fn lists_begin_blank()
    ensures { NodesWithoutListAreBlank }
{}

/// In a run of at most 100,000 events each letter holds a packet within a packet's limits, so its bytes are read as that packet; and
/// where nodes hear bytes the run is the same.
pub fn letters_are_packets()
    ensures packets { LettersArePackets }
    ensures read { LettersAreRead }
    ensures bytes { RunsAreOfBytes }
{}

/// Nothing is trimmed that the node's own application hasn't taken.
pub fn what_is_trimmed_was_taken()
    ensures { TrimmedWasTaken }
{}
