ghost use Rattle.am_group_defs.specs.Claims.{RunsWithoutBallotHold, UnballotedMoves};
ghost use Rattle.am_run_laws.specs.Lists.{UnballotedListsFit};

/// Each name is given a gapless segment of the group's list, which has each accepted send once, and only what was sent before, each
/// sender's requests in turn; and no node keeps more than the bound.
pub fn runs_without_a_ballot_hold()
    ensures { RunsWithoutBallotHold }
{}

/// Each event moves the group by its record alone: its name takes what the record gave out, and then the list grows and a name is
/// admitted.
pub fn runs_without_a_ballot_move()
    ensures { UnballotedMoves }
{}

/// Each entry of the group's list fits those before it, and who was given something has or had a list.
pub fn lists_without_a_ballot_fit()
    ensures { UnballotedListsFit }
{}
