//! Laws of fetching: a member that has promised a view, and doesn't have its View yet, fetches it from the view's sequencer (docs/REPAIR.md).
#![tactic(auto)]

ghost use Rattle.am_fetch_laws.specs.Fetching.{FetchesAreServed, MembersFetch, PiecesAreStored, ResultsAreFetched, ResultsAreStored};
ghost use Rattle.am_fetch_laws.specs.Exchanges.{ExchangesBringEntries, ExchangesReachView};

/// What a member does that has promised a view and doesn't have its View yet. At its tick it fetches what comes next from the view's name. It
/// stores a Piece that comes next and fits. If it hears the view's Result, it stores the View if that comes next, and fetches if it doesn't.
pub fn members_behind_follow()
    ensures fetch { MembersFetch }
    ensures pieces { PiecesAreStored }
    ensures results { ResultsAreStored }
    ensures gaps { ResultsAreFetched }
{}

/// A view's sequencer that hears a Fetch sends the entries above the number that was stored, eight at most, one after the other.
pub fn fetches_are_served()
    ensures { FetchesAreServed }
{}

/// Where such a member's list begins the sequencer's, an exchange of theirs without loss brings it eight entries, or the View, so that it acts in
/// the sequencer's view. So after enough exchanges it acts there.
pub fn exchanges_reach_view()
    ensures once { ExchangesBringEntries }
    ensures all { ExchangesReachView }
{}
