//! Asks about ballots that were decided, once the list has gone on: they note no view again. Written by tools/rows.py.

ghost use Rattle.am_computed_cases.specs.Asked.{AskedAfterALeave, AskedBeforeTwoStops, AskedInAnotherView, DecidedByFetching, DecidedByGivingUp};

/// The definitions give these texts for these scripts.
pub fn texts()
    ensures asked_after_a_leave { AskedAfterALeave }
    ensures asked_before_two_stops { AskedBeforeTwoStops }
    ensures asked_in_another_view { AskedInAnotherView }
    ensures decided_by_fetching { DecidedByFetching }
    ensures decided_by_giving_up { DecidedByGivingUp }
{}
