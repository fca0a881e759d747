//! Laws of repair where members don't have the sequencer's View yet: they fetch it, then the group may be repaired, and then what its members
//! sent is answered (docs/REPAIR.md).
#![tactic(auto)]

ghost use Rattle.am_repair_fetches.specs.Joined.{DecidedPastJoinAreAnswered, GroupsPastJoinAreRepaired};
ghost use Rattle.am_repair_fetches.specs.Later.{GroupsAreRepairedLater, GroupsMayBeRepairedLater};
ghost use Rattle.am_repair_fetches.specs.Rest.{DecidedViewsAreAnswered, SendsAreAnsweredLater};

/// Where a lawful run ends with a group that could be repaired if all members of its sequencer's list had the View, there are ticks and hearings
/// after which it may be repaired, at most (window + 22) / 8 ticks of a place. The lossless schedule then repairs it, up to where its sequencer
/// stood first.
pub fn groups_are_repaired_later()
    ensures may { GroupsMayBeRepairedLater }
    ensures repaired { GroupsAreRepairedLater }
{}

/// Where nobody who runs asks to join either, there are as few ticks and hearings after which so many rounds in which applications take, and any more,
/// have all answered: each member of the sequencer's list has all up to where it stood first, its application too, and no own send is pending.
/// So it is where a view was just decided, whose members run and don't leave, whoever stopped or leaves elsewhere.
pub fn sends_are_answered_later()
    ensures later { SendsAreAnsweredLater }
    ensures decided { DecidedViewsAreAnswered }
{}

/// Both hold whatever the sequencer trims, if each member of its list has come to its Join.
pub fn groups_past_join_are_repaired()
    ensures repaired { GroupsPastJoinAreRepaired }
    ensures decided { DecidedPastJoinAreAnswered }
{}
