//! Worked runs of joins, leaves and returns, one for each part. Written by tools/rows.py.

ghost use Rattle.am_computed_cases.specs.WorkedMembers.{EveryLife, JoinAsked, JoinWithLostWelcome, LeaveAsked, OnlyFounderLeaves, ReturnAfterLeave, ReturnAfterStop, ReturnedLeaverStops};

/// The definitions give these texts for these scripts.
pub fn texts()
    ensures every_life { EveryLife }
    ensures join_asked { JoinAsked }
    ensures join_with_lost_welcome { JoinWithLostWelcome }
    ensures leave_asked { LeaveAsked }
    ensures only_founder_leaves { OnlyFounderLeaves }
    ensures return_after_leave { ReturnAfterLeave }
    ensures return_after_stop { ReturnAfterStop }
    ensures returned_leaver_stops { ReturnedLeaverStops }
{}
