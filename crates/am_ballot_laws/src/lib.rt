//! Laws of ballots: votes come to a coordinator, it fetches what the best vote shows, and then its ballot ends (docs/REPAIR.md).
#![tactic(auto)]

ghost use Rattle.am_ballot_laws.specs.Fetching.{BallotsFetch, PiecesAreLookedAt, VotersServe};
ghost use Rattle.am_ballot_laws.specs.Following.{ExchangesFollow, ExchangesReachWhole, LearnedBallotsDecide, LearnedBallotsEnd};
ghost use Rattle.am_ballot_laws.specs.Voting.{CoordinatorsInvite, GiveUpsLook, InvitesAreVoted, ResetsLook, VotersAreHeard, VotesLook};

/// What a coordinator does whose ballot fetches: at its tick it asks the name of the best vote for what comes next; and if it hears a Piece that
/// comes next and fits, it stores that, and looks at its ballot anew.
pub fn coordinators_fetch()
    ensures ticks { BallotsFetch }
    ensures pieces { PiecesAreLookedAt }
{}

/// A voter that hears a Fetch of the name that it has promised sends the entries above the number that was stored, eight at most, one after the
/// other.
pub fn voters_serve()
    ensures { VotersServe }
{}

/// Where such a coordinator's list begins the one of the best vote's name, an exchange of theirs without loss brings it eight entries, or the whole
/// list. So after enough exchanges it has the whole list, and looks at its ballot there. That look ends the ballot; and it decides the view, if
/// enough names are left and the View fits.
pub fn exchanges_end_ballots()
    ensures once { ExchangesFollow }
    ensures all { ExchangesReachWhole }
    ensures ends { LearnedBallotsEnd }
    ensures decides { LearnedBallotsDecide }
{}

/// How a ballot comes to look: a Reset begins one, and a coordinator looks at its ballot if a name is given up, and if it hears a vote.
pub fn coordinators_look()
    ensures resets { ResetsLook }
    ensures given_up { GiveUpsLook }
    ensures votes { VotesLook }
{}

/// What brings it a vote: at its tick a coordinator invites all names that it waits for; and a voter that hears the Invite promises its stamp, if
/// it has promised no greater one, and shows its list. So an exchange of the two without loss brings the coordinator this vote.
pub fn voters_vote()
    ensures ticks { CoordinatorsInvite }
    ensures invites { InvitesAreVoted }
    ensures heard { VotersAreHeard }
{}
