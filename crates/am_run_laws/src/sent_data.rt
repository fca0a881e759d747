ghost use Rattle.am_run_laws.specs.SentClaim.{EachDataWasSent};

/// Each Data of a run's group list was sent by its sender, with this request and this body.
#[tactic(auto, using(crate::proofs::SentRuns::bodies_were_sent_in_runs))]
pub fn each_data_was_sent()
    ensures { EachDataWasSent }
{}
