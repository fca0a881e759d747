ghost use Rattle.am_run_laws.specs.Ballots.{BallotsAreOwn};
ghost use Rattle.am_run_laws.specs.PromisedClaim.{PromisesAreBegun};

/// Each promise was begun by its name, which has promised no less since; and so was each letter's stamp, which is no more than its
/// sender's promise.
pub fn promises_are_begun()
    ensures { PromisesAreBegun }
{}

/// A name's ballot has a stamp of its own, which as long as it is unfinished is its promise; it gave up only names that had stopped; and it
/// is answered as a ballot is. Who has no list has none.
pub fn ballots_are_own()
    ensures { BallotsAreOwn }
{}
