//! What holds of the spellings of all packets.

ghost use Rattle.am_packet.specs.Laws.{one_list, read_again, spelled_so, no_prefix, parts_refused};

/// Two lists of bytes of one length that are one number are equal.
pub fn numbers_have_one_list()
    ensures { one_list }
{}

/// The spelling of a packet is read as that packet.
pub fn spellings_are_read()
    ensures { read_again }
{}

/// What is read as a packet is its spelling.
pub fn what_is_read_is_spelled()
    ensures { spelled_so }
{}

/// No spelling is a proper prefix of another.
pub fn no_spelling_begins_another()
    ensures { no_prefix }
{}

/// A proper prefix of a spelling is refused: Short, or with the total that its header says.
pub fn parts_are_refused()
    ensures { parts_refused }
{}
