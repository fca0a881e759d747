ghost use Rattle.am_lawful_defs.specs.Watches.{BeginningIsWatched, StepsAreWatched, StopsAreWatched, OthersAreWatched, EntriesGoOn, AcceptedGoesOn};

/// What is kept of a run begins and goes on with it: after each event the greatest complete view, the number of events and where
/// the run broke are those of the watched run.
#[tactic(auto, using(crate::proofs::Begins::beginning_is_watched, crate::proofs::Steps::steps_are_watched, crate::proofs::Steps::stops_are_watched, crate::proofs::Steps::others_are_watched, crate::proofs::Steps::entries_go_on, crate::proofs::Steps::accepted_goes_on))]
pub fn keeping_watches()
    ensures beginning { BeginningIsWatched }
    ensures steps { StepsAreWatched }
    ensures stops { StopsAreWatched }
    ensures others { OthersAreWatched }
    ensures entries { EntriesGoOn }
    ensures accepted { AcceptedGoesOn }
{}
