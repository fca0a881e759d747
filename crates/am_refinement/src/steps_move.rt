ghost use Rattle.am_refinement.specs.Running.{StepsMove};

/// Each step of a name of a run is some moves of the group that stands for it, to one that stands for the world after it: each node keeps what
/// it keeps, and each letter is so.
pub fn steps_move()
    ensures { StepsMove }
{}
