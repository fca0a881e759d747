use crate::line::BadLine;
use am_base::items::Items;
use am_base::outcome::Outcome;
use am_packet::letter::Letter;

/// What came of a line.
#[derive(Drop)]
pub enum LineReply {
    /// The node did a step, or a letter wasn't for it: the outcome, and the letters in their order.
    Did {
        outcome: Outcome,
        letters: Items<Letter>,
    },
    /// How the node stands was asked, and nothing else.
    Info,
    /// The line is none.
    Bad(BadLine),
    /// A number of the node is at its end.
    Spent,
}
