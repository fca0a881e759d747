ghost use Rattle.am_step_laws.specs.Lists.{ListsGoOn};
ghost use Rattle.am_step_laws.specs.Members.{NotedViewsKeepMembers};
ghost use Rattle.am_step_laws.specs.New.{DecidedViewsAreNew};
ghost use Rattle.am_step_laws.specs.Watched.{BeginningIsKept, BreakIsKept, StepIsWatched, StopIsWatched, ReturnIsWatched, PassIsWatched};

/// A name's step only adds entries to its list, which begins within the group list.
pub fn lists_go_on()
    ensures { ListsGoOn }
{}

/// The View of a view that a step decides stood nowhere before, in no list and not in the group list.
pub fn decided_views_are_new()
    ensures { DecidedViewsAreNew }
{}

/// A view is noted with the members that its View names, which stands at its number in its coordinator's list from then on.
pub fn views_have_their_members()
    ensures { NotedViewsKeepMembers }
{}

/// What is kept of a run begins with it, and tells where it broke. It is kept of the run with one event more: after a name's step, a stop, a return, and any other event.
pub fn runs_are_watched()
    ensures beginning { BeginningIsKept }
    ensures broken { BreakIsKept }
    ensures step { StepIsWatched }
    ensures stop { StopIsWatched }
    ensures return_ { ReturnIsWatched }
    ensures pass { PassIsWatched }
{}
