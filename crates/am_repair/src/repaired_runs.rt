ghost use Rattle.am_repair.specs.Answers.{AcceptedAreAnswered, AcceptedAreGiven, RepairedAreAnswered, RepairedAreGiven};
ghost use Rattle.am_repair.specs.Claim.{Repairs};
ghost use Rattle.am_repair.specs.Standing.{RepairableIsOneList};
ghost use Rattle.am_repair.specs.Trimmed.{RepairableCounts, RepairableTrims};

/// Where a lawful run may be repaired, the sequencer's whole list fits, and the one of each Member that runs begins it. Each of them is a
/// member by it, or was one and leaves.
pub fn repairable_runs_have_one_list()
    ensures { RepairableIsOneList }
{}

/// And from its last View on, whose storage counts for what it hasn't accepted yet is a member by its list: who left since has its Leave
/// accepted.
pub fn repairable_runs_count_members()
    ensures { RepairableCounts }
{}

/// And it trimmed no more than each member of its list has taken.
pub fn repairable_runs_trim_taken()
    ensures { RepairableTrims }
{}

/// The claim: where a lawful run may be repaired, a lossless schedule brings each member of the sequencer's list to where the sequencer stood.
pub fn lossless_schedules_repair()
    ensures { Repairs }
{}

/// And what stands is answered: in every run no own send is pending that stands in a node's list, from where the node joined up to what it has
/// accepted. So after that schedule none is of each member of the sequencer's list, up to where the sequencer stood.
pub fn sends_that_stand_are_answered()
    ensures accepted { AcceptedAreAnswered }
    ensures repaired { RepairedAreAnswered }
{}

/// And it is given: in every run a member's application can take, one after another, all that its node has accepted; so after that schedule
/// each member's can, up to where the sequencer stood.
pub fn entries_that_stand_are_given()
    ensures accepted { AcceptedAreGiven }
    ensures repaired { RepairedAreGiven }
{}
