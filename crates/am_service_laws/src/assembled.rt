ghost use Rattle.am_service_laws.specs.AssembledClaims.{DeliveredMessagesEnd, WholeMessagesAreDelivered, SentMessagesEnd};

/// Up to a run's lawful front: a message that ends in what a name was given ends at the same number of the group's list.
pub fn delivered_messages_end()
    ensures { DeliveredMessagesEnd }
{}

/// The reverse, where all parts of the message stand within what the name was given: it ends there, too.
pub fn whole_messages_are_delivered()
    ensures { WholeMessagesAreDelivered }
{}

/// The sender's theorem, up to a run's lawful front: where a name sent the parts of a message in order, with no other send between
/// them, and the last was answered as sent, the message ends at that number of the group's list.
pub fn sent_messages_end()
    ensures { SentMessagesEnd }
{}
