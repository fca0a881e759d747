ghost use Rattle.am_abstract_group.specs.OrdersClaims.{NoSendTwice, RequestsInTurn, SendStandsOnce, SendersInOrder};

/// In a whole list whose entries fit, the requests of each name are 1, 2, 3 and so on, and no send stands twice.
pub fn fitting_lists()
    ensures turn { RequestsInTurn }
    ensures once { NoSendTwice }
{}

/// The same of a group's list: where its entries fit, each sender's requests stand in turn, and a send that stands there stands
/// nowhere else.
pub fn fitting_groups()
    ensures turn { SendersInOrder }
    ensures once { SendStandsOnce }
{}
