ghost use Rattle.am_safety.specs.Records.{LivesAreTold, RecordsAreSound, RecordedRequestsInTurn};
ghost use Rattle.am_safety.specs.Resiliences.{ResiliencesHold};

/// A record's life is what the last return of its place before it tells, or 1 where there is none.
pub fn lives_are_told()
    ensures { LivesAreTold }
{}

/// In a run in which nodes have numbers left (`letters_stay_packets`), and whose bodies are bytes, each send, answer and take is of its act
/// alone, with numbers within their limits; each entry that is taken or stands in the group list is of names that there are, within their
/// limits; and a place returns with a life that there is.
pub fn records_are_sound()
    ensures { RecordsAreSound }
{}

/// The requests that a name was given are 1, 2, 3 and so on.
pub fn requests_are_in_turn()
    ensures { RecordedRequestsInTurn }
{}

/// No View has less resilience than the founding, be it in a node's list or the group's, fetched, told of a ballot, or given out. Entry 1 of
/// each list is a View, and who has or had a list has promised a round that isn't 0.
pub fn resiliences_hold()
    ensures { ResiliencesHold }
{}
