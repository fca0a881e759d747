//! What holds of events and answers as bytes.

ghost use Rattle.am_bytes.specs.Laws.{EventsAreRead, AnswersAreRead, EventsAreLines};

/// The bytes of an event are read as that event.
pub fn events_are_read()
    ensures { EventsAreRead }
{}

/// The bytes of an answer are read as how the node stands and what came of the event, whatever stands after them.
pub fn answers_are_read()
    ensures { AnswersAreRead }
{}

/// Where an event asks what a line says, the same comes of both: the line's answer is the text of it, and the event's answer its bytes.
pub fn events_are_lines()
    ensures { EventsAreLines }
{}
