//! Laws of lawful runs: a member that doesn't have the View of the sequencer that runs has promised no less, and may fetch it (docs/REPAIR.md).
#![tactic(auto)]

ghost use Rattle.am_fetch_runs.specs.Ballots.{BallotsEndInRuns, CoordinatorsMayFollow, FetchingBallotsEnd};
ghost use Rattle.am_fetch_runs.specs.Behind.{LaggersMayCatchUp, LaggersReachView, MembersHavePromised};
ghost use Rattle.am_fetch_runs.specs.Events.{LaggersReachViewInRuns};
ghost use Rattle.am_fetch_runs.specs.Gathering.{MembersGather};

/// Where a lawful run ends with a sequencer that runs, each Member of its list that runs has promised no less than the sequencer's view.
pub fn members_have_promised()
    ensures { MembersHavePromised }
{}

/// So if such a member has promised no more, and doesn't have the View, its list begins the sequencer's, and ends below that View. If it has also
/// taken what the sequencer trims, it acts in the sequencer's view after enough exchanges between the two without loss. The run with the events
/// of these exchanges ends there: the member's ticks, and what the two hear of each other.
pub fn laggers_catch_up()
    ensures may { LaggersMayCatchUp }
    ensures reach { LaggersReachView }
    ensures runs { LaggersReachViewInRuns }
{}

/// Where a lawful run ends with a sequencer whose members are all there, have promised no more than its view, and have taken what it trims,
/// there are ticks and hearings after which each of them acts in that view. In them each place ticks at most (window + 22) / 8 times.
pub fn members_gather()
    ensures { MembersGather }
{}

/// In every run in which a coordinator's ballot fetches, and its list begins the one that the best vote shows: the events of enough exchanges with
/// that voter bring the coordinator there, and so end its ballot. In every lawful run that list does, if both run, nobody is waited for, the voter
/// has promised no other stamp, and the coordinator has taken what the voter trims at the end of a step.
pub fn ballots_end()
    ensures runs { BallotsEndInRuns }
    ensures may { CoordinatorsMayFollow }
    ensures lawful { FetchingBallotsEnd }
{}
