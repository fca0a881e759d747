//! Runs that the lossless schedule ends: who is behind after a crash, and a leaver whose Leave isn't accepted. Written by tools/rows.py.

ghost use Rattle.am_computed_cases.specs.Repaired.{LeaverStopsUnaccepted, MemberBehindACrash};

/// The definitions give these texts for these scripts.
pub fn texts()
    ensures leaver_stops_unaccepted { LeaverStopsUnaccepted }
    ensures member_behind_a_crash { MemberBehindACrash }
{}
