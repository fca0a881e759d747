//! Worked runs of ballots: what a coordinator finds, decides and raises. Written by tools/rows.py.

ghost use Rattle.am_computed_cases.specs.WorkedBallots.{CompleteBeforeAccepted, CoordinatorStopSurvived, CoordinatorStopsToo, RaisedResilience, RaisedResilienceStays, Tentative, TooFew, TwoCoordinators};

/// The definitions give these texts for these scripts.
pub fn texts()
    ensures complete_before_accepted { CompleteBeforeAccepted }
    ensures coordinator_stop_survived { CoordinatorStopSurvived }
    ensures coordinator_stops_too { CoordinatorStopsToo }
    ensures raised_resilience { RaisedResilience }
    ensures raised_resilience_stays { RaisedResilienceStays }
    ensures tentative { Tentative }
    ensures too_few { TooFew }
    ensures two_coordinators { TwoCoordinators }
{}
