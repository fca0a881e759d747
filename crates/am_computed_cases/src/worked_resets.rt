//! Worked runs of resets: who is left out or stays, and where there is no room. Written by tools/rows.py.

ghost use Rattle.am_computed_cases.specs.WorkedResets.{Crowded, CrowdedGivenUp, CrowdedTaken, LeaverLetGoBehind, LeaverStaysBehind, RunningMember, SequencerLeaves, SequencerStops};

/// The definitions give these texts for these scripts.
pub fn texts()
    ensures crowded { Crowded }
    ensures crowded_given_up { CrowdedGivenUp }
    ensures crowded_taken { CrowdedTaken }
    ensures leaver_let_go_behind { LeaverLetGoBehind }
    ensures leaver_stays_behind { LeaverStaysBehind }
    ensures running_member { RunningMember }
    ensures sequencer_leaves { SequencerLeaves }
    ensures sequencer_stops { SequencerStops }
{}
