ghost use Rattle.am_model_laws.specs.Laws.{FoldGoesOn, RefreshOnce, FewLetters, HeldExactly, SendsAnswered, SpellingIsHeard, CutIsHeard, AcceptFrontIsGreatest, AcceptFrontByWalking, BestVoteIsGreatest, RowsGoOn, DataGoesOn, MembershipsGoOn};
ghost use Rattle.am_group_defs.specs.Running.{RunsGoOn, WatchedIsRun, OneRecordEach, FrontIsLawful};

/// A list that goes on tells what its beginning tells, and then the rest.
#[tactic(auto, using(am_base::proofs::Folds::fold_append))]
pub fn folds()
    ensures goes_on { FoldGoesOn }
{}

/// The accept front is the greatest number up to which all is satisfied, and going upwards finds it.
#[tactic(auto, using(crate::proofs::AcceptFronts::accept_front_is_greatest, crate::proofs::AcceptFronts::accept_front_by_walking))]
pub fn accept_fronts()
    ensures greatest { AcceptFrontIsGreatest }
    ensures by_walking { AcceptFrontByWalking }
{}

/// A second refresh in a row changes nothing; a step sends at most nine letters; a send is held exactly where it is a member's
/// next one, its report fits, and there is no room once that is taken; else it is numbered, or turned down for one of five causes.
#[tactic(auto, using(crate::proofs::Refreshes::refresh_of_refreshed, am_model::proofs::LettersHeard::step_sends_at_most_nine))]
pub fn steps()
    ensures refresh_once { RefreshOnce }
    ensures few_letters { FewLetters }
    ensures held { HeldExactly }
    ensures answered { SendsAnswered }
{}

/// The bytes of a packet are heard as the packet, and the first of them as a packet that was cut: whole where all are there,
/// and refused else.
#[tactic(auto, using(crate::proofs::Bytes::spelled_packet_is_heard, crate::proofs::Bytes::cut_packet_whole_or_refused))]
pub fn bytes()
    ensures whole { SpellingIsHeard }
    ensures cut { CutIsHeard }
{}

/// The best vote is the greatest; its holder is the coordinator where it is among those that showed it, else the lowest name.
#[tactic(auto, using(crate::proofs::BestVotes::best_vote_is_greatest))]
pub fn best_votes()
    ensures { BestVoteIsGreatest }
{}

/// What an entry does to the row of a place where somebody joined; that a Data has its sender's next request; and that along a
/// list the number of a joining never changes, until a greater life of the place joins.
#[tactic(auto, using(crate::proofs::Rows::rows_of_places_go_on, crate::proofs::Rows::data_row_goes_on, crate::proofs::Rows::memberships_of_places_go_on))]
pub fn rows()
    ensures go_on { RowsGoOn }
    ensures data { DataGoesOn }
    ensures memberships { MembershipsGoOn }
{}

/// Runs go on event by event, each leaves one record, watching changes nothing, and the lawful front of a run is lawful.
#[tactic(auto, using(am_group_defs::proofs::Runs::runs_go_on, am_group_defs::proofs::Runs::watched_is_run, am_group_defs::proofs::Runs::one_record_each, am_group_defs::proofs::Runs::front_is_lawful))]
pub fn runs()
    ensures go_on { RunsGoOn }
    ensures watched { WatchedIsRun }
    ensures records { OneRecordEach }
    ensures front { FrontIsLawful }
{}
