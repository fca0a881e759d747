ghost use Rattle.am_safety.specs.Parts.{LettersStayPackets, LettersStayRead, RunsAreMadeOfNodes, RunsStayOfBytes, ShortRunsStayInRange};
ghost use Rattle.am_safety.specs.Processes.{ProcessesMakeRuns};

/// However long a run is, where each node that does an event has numbers left before it (`HasNumbersLeft`), each letter holds a packet within
/// a packet's limits, so its bytes are read as that packet; and where nodes hear bytes the run is the same. Each run of at most 100,000 events
/// is such a run.
pub fn letters_stay_packets()
    ensures packets { LettersStayPackets }
    ensures read { LettersStayRead }
    ensures bytes { RunsStayOfBytes }
    ensures short { ShortRunsStayInRange }
{}

/// In every such run each name's node is the fold of its own events and of the letters that it heard, as bytes, from where founders and
/// strangers begin; and the outcomes and letters of its records are those of that fold.
pub fn runs_are_made_of_nodes()
    ensures { RunsAreMadeOfNodes }
{}

/// And whatever a group of processes does, each of which runs one such node, is such a run, in which each name does and answers what its
/// process did: as long as each hears only the bytes of letters that were sent to it, or the first of them, only a stopped name is given up,
/// and the next of a place's sixteen lives begins once the one before has stopped or departed.
pub fn processes_make_runs()
    ensures { ProcessesMakeRuns }
{}
