//! Runs that random scripts don't come to: a full window at a reset, members that lag behind a view, all lives of a place, all places. Written by tools/rows.py.

ghost use Rattle.am_computed_cases.specs.Directed.{CrowdedAtTheWindow, MemberLagsFirst, MemberLagsSecond, MemberLagsThird, SixteenLives, SixteenMembers};

/// The definitions give these texts for these scripts.
pub fn texts()
    ensures crowded_at_the_window { CrowdedAtTheWindow }
    ensures member_lags_first { MemberLagsFirst }
    ensures member_lags_second { MemberLagsSecond }
    ensures member_lags_third { MemberLagsThird }
    ensures sixteen_lives { SixteenLives }
    ensures sixteen_members { SixteenMembers }
{}
