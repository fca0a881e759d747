ghost use Rattle.std.specs.Prelude.{◌≡◌};
ghost use Rattle.am_node_lines.specs.Lines.{bad_line_number, bad_for};

use am_base::event::NodeEvent;
use am_base::items::Items;
use am_base::names::Names;
use am_text_defs::fault::FieldFault;

/// Why a line is none.
#[derive(Clone, Copy, PartialEq, Eq, Debug)]
pub enum BadLine {
    /// It begins with no word that there is.
    NoSuchWord,
    /// It is of another form: something is missing or too much, or is spelled otherwise than it is printed.
    Form,
    /// A number, a name or a length is outside its limits.
    Limit,
    /// It has more than 4,096 bytes.
    TooLong,
}

impl BadLine {
    /// Its number, 1 to 4.
    pub fn cause(self) -> u8
        ensures { result ≡ bad_line_number self }
    {
        match self {
            BadLine::NoSuchWord => 1,
            BadLine::Form => 2,
            BadLine::Limit => 3,
            BadLine::TooLong => 4,
        }
    }

    /// That of a word that isn't read.
    pub fn of(fault: FieldFault) -> BadLine
        ensures { result ≡ bad_for fault }
    {
        match fault {
            FieldFault::Form => BadLine::Form,
            FieldFault::Limit => BadLine::Limit,
        }
    }
}

/// What a line says.
#[derive(Drop)]
pub enum Line {
    /// The node is to do this, and hears nothing.
    Does(NodeEvent),
    /// These bytes came as a letter for the names of a set, or for any life of their places.
    Hears {
        any: bool,
        to: Names,
        bytes: Items<u8>,
    },
    /// It asks what the node knows of itself and of its group.
    Info,
    /// It is no line.
    Bad(BadLine),
}

/// The words with which lines begin: first those that stand alone.
#[derive(Clone, Copy, PartialEq, Eq, Debug)]
pub enum Word {
    Info,
    Take,
    Join,
    State,
    Leave,
    Tick,
    Send,
    Hear,
    Done,
    Ask,
    GiveUp,
    Reset,
}
