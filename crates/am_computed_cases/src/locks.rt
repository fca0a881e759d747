//! Runs in which a group waits for good, and ways out: the last two leave at once, a joiner is not welcomed, a Leave is lost. Written by tools/rows.py.

ghost use Rattle.am_computed_cases.specs.Locks.{JoinerGivenUp, JoinerNotWelcomed, LastTwoLeaveAtOnce, LeaveLost};

/// The definitions give these texts for these scripts.
pub fn texts()
    ensures joiner_given_up { JoinerGivenUp }
    ensures joiner_not_welcomed { JoinerNotWelcomed }
    ensures last_two_leave_at_once { LastTwoLeaveAtOnce }
    ensures leave_lost { LeaveLost }
{}
