ghost use Rattle.am_step_laws.specs.Claim.{NodesAreBounded};

/// At every moment of every run of every founding, each node keeps at most the window and fifteen entries more above its base.
#[tactic(auto, using(crate::proofs::BoundedRuns::node_bounds_hold_in_runs))]
pub fn each_node_is_bounded()
    ensures { NodesAreBounded }
{}
