//! Laws of a whole reset: one member that resets decides a view, and then all that the view's members sent is answered (docs/REPAIR.md).
#![tactic(auto)]

ghost use Rattle.am_reset_runs.specs.Resetting.{RepeatedResetsAreAnswered, ResetsAreAnswered};

/// In every lawful run in which a member may reset, and nobody who runs asks to join, there are events after which a view was just decided of all
/// Members that run and don't leave, and of nobody else, or the member gave up nobody of its list, and its View has no room. In these events it
/// resets with least size 1, gives up names that have stopped, ticks at most 16 + (window + 22) / 8 times, and it and others hear. Then there are
/// ticks and hearings after which so many rounds in which applications take, and any more, have all answered that the view's members sent. It is so
/// whatever other names have promised, if the member's list has another name, by as many resets as bring it above that.
pub fn resets_are_answered()
    ensures once { ResetsAreAnswered }
    ensures again { RepeatedResetsAreAnswered }
{}
