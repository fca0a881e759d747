//! Laws of what is trimmed in lawful runs: a Member that runs and isn't leaving has taken it, or hasn't come to its Join yet (docs/REPAIR.md).
#![tactic(auto)]

ghost use Rattle.am_trim_laws.specs.Staying.{CoordinatorsPastJoinFetch, StayingMembersLag, StayingMembersMayGather};
ghost use Rattle.am_trim_laws.specs.Trims.{BasesAreTaken, MembersHaveTakenTrims, ToldBasesAreTaken, TrimsAreTaken};
ghost use Rattle.am_trim_laws.specs.Votes.{VotesTellTaken};

/// In every run, what a vote tells to be taken was taken by the voter, also if a ballot has kept the vote.
pub fn votes_tell_taken()
    ensures { VotesTellTaken }
{}

/// Where a lawful run ends, each Member that runs and isn't leaving has taken all that any node has trimmed that hasn't departed, or any letter tells
/// to be trimmed, except for what is below the member's Join. So it is of what a name that runs trims at the end of a step. So if the member has come
/// to its Join, it has taken all that such a name trims.
pub fn members_have_taken_what_is_trimmed()
    ensures bases { BasesAreTaken }
    ensures told { ToldBasesAreTaken }
    ensures trims { TrimsAreTaken }
    ensures members { MembersHaveTakenTrims }
{}

/// So in lawful runs the laws of am_fetch_runs hold without their conditions on what is trimmed, for members that aren't leaving and have come to
/// their Join: of members without a sequencer's View, of all members of a sequencer's list, and of a coordinator whose ballot fetches.
pub fn members_that_stay_may_fetch()
    ensures lag { StayingMembersLag }
    ensures gather { StayingMembersMayGather }
    ensures fetch { CoordinatorsPastJoinFetch }
{}
