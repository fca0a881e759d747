//! Laws of the lossless schedule in which applications take, too (docs/REPAIR.md).
#![tactic(auto)]

ghost use Rattle.am_repair_takes.specs.Numbering.{MembersHandIn, NextSendsAreNumbered, OwnSendsAreNumbered};
ghost use Rattle.am_repair_takes.specs.Quiet.{QuietIsRaised, QuietStays, RoundsTellTaken, TicksTrim};
ghost use Rattle.am_repair_takes.specs.Rest.{SendsAreAnswered};
ghost use Rattle.am_repair_takes.specs.Resting.{SettledStands, TakenIsKnown};
ghost use Rattle.am_repair_takes.specs.Taking.{AnsweredByTaking, RepairedByTaking, TakingRepairs, TakingStaysCalm};

/// A calm world of a run stays calm through ticks, hearings of the schedule's own letters, and takes.
pub fn taking_stays_calm()
    ensures { TakingStaysCalm }
{}

/// Where no member of a calm world is more than eight times so many entries behind, two rounds more in which applications take bring each of
/// them to where its sequencer stood, and its application is given all of that. So it is in every lawful run that may be repaired, after as many
/// rounds as a schedule has in which nobody takes, and after each later round; and no own send that stood there is pending.
pub fn taking_repairs()
    ensures calm { TakingRepairs }
    ensures repaired { RepairedByTaking }
    ensures answered { AnsweredByTaking }
{}

/// A sequencer that hears a member's report knows that it has taken no less than the report tells.
pub fn what_is_taken_is_known()
    ensures { TakenIsKnown }
{}

/// In every run what is settled of a node's own sends stands in its list: the request that waits is at most one above the last of its own row.
pub fn what_is_settled_stands()
    ensures { SettledStands }
{}

/// In a group in one view in which nobody asks to join, a world of a run stays quiet through ticks, hearings of the schedule's own letters, and
/// takes: still nobody asks, and its sequencer's list has gone on by sends of its members alone, each of which had no number before. And a
/// quiet world is quiet for each higher number that the sequencer has reached, so that what is proved of one number holds for the next.
pub fn quiet_worlds_go_on()
    ensures stay { QuietStays }
    ensures raised { QuietIsRaised }
{}

/// In a quiet world of a run, what a member has taken its sequencer knows after one round, if the member has stored all up to where the
/// sequencer stood: the member's tick reports it, and the sequencer hears that.
pub fn rounds_tell_taken()
    ensures { RoundsTellTaken }
{}

/// In a quiet world of a run, where the sequencer has accepted all up to where it stood, its tick trims its list up to what it has taken and
/// knows each member to have taken.
pub fn ticks_trim()
    ensures { TicksTrim }
{}

/// A member's tick hands its waiting send in, until that stands in its list. A sequencer that hears the next send of a name that hasn't left
/// numbers it, if it has room; and so it does with its own at its tick.
pub fn waiting_sends_are_numbered()
    ensures hand_in { MembersHandIn }
    ensures next { NextSendsAreNumbered }
    ensures own { OwnSendsAreNumbered }
{}

/// In every lawful run that ends where a group may be repaired, and in which nobody who runs asks to join, each send of each member of the
/// sequencer's list is answered: after as many rounds in which applications take as repair the group, and six more for each of those sends that
/// had no number, no own send of a member is pending, and none is after any more of those rounds.
pub fn sends_are_answered_by_taking()
    ensures { SendsAreAnswered }
{}
