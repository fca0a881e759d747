ghost use Rattle.am_model.specs.Ends.{EndsStepAlike};
ghost use Rattle.am_model.specs.Order.{StepsKeepFrontsOrdered};

/// Whatever a node does, the kept end of it does too: with the same answer and letters, and it comes to the end of the same node.
#[tactic(auto, using(crate::proofs::Hearing::ends_step_alike))]
pub fn a_step_reads_the_end()
    ensures { EndsStepAlike }
{}

/// Whatever a node does, no more is taken than accepted and no more accepted than stored, from the start of its list on.
#[tactic(auto, using(crate::proofs::Hearing::steps_keep_order))]
pub fn a_step_keeps_the_order()
    ensures { StepsKeepFrontsOrdered }
{}
