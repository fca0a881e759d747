//! The sequencer stops at each point of one send. Written by tools/rows.py.

ghost use Rattle.am_computed_cases.specs.StopTable.{StopsAfterTheAcknowledgment, StopsAfterTheEmptyTake, StopsAfterTheFirstTake, StopsAfterTheSecondTake, StopsAfterTheSend, StopsAfterTheStoring, StopsBeforeAnything};

/// The definitions give these texts for these scripts.
pub fn texts()
    ensures stops_after_the_acknowledgment { StopsAfterTheAcknowledgment }
    ensures stops_after_the_empty_take { StopsAfterTheEmptyTake }
    ensures stops_after_the_first_take { StopsAfterTheFirstTake }
    ensures stops_after_the_second_take { StopsAfterTheSecondTake }
    ensures stops_after_the_send { StopsAfterTheSend }
    ensures stops_after_the_storing { StopsAfterTheStoring }
    ensures stops_before_anything { StopsBeforeAnything }
{}
