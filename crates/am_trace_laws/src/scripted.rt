ghost use Rattle.am_trace_laws.specs.{Bodies.PlaysAreOfBytes, Bodies.RacesAreOfBytes, RacedBodies.RacesHavePlannedBodies, Scripts.RacesHaveScripts};

/// The bodies of a play's sends, and of a race's, are lists of bytes.
pub fn scripts_are_of_bytes()
    ensures plays { PlaysAreOfBytes }
    ensures races { RacesAreOfBytes }
{}

/// Where the bodies of a race's planned calls are of bytes, at most 1,024, so are those of the sends in each journal that it may leave.
/// Where the race is within the limits of scripts, so are the events of each such journal of at most 100,000 records.
pub fn races_have_scripts()
    ensures bodies { RacesHavePlannedBodies }
    ensures events { RacesHaveScripts }
{}
