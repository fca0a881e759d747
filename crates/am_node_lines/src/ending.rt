ghost use Rattle.std.specs.Prelude.{◌≡◌};
ghost use Rattle.am_node_lines.specs.Speaking.{end_by};

/// How a node's speaking ended.
#[derive(Clone, Copy, PartialEq, Eq, Debug)]
pub enum SpokenEnd {
    /// The input ended, and every line has its answer.
    Done,
    /// A read failed; every line that a newline ended before it has its answer.
    ReadFault,
    /// A write failed.
    WriteFault,
    /// There was no memory.
    NoMemory,
}

/// Why a node that speaks goes on no more.
#[derive(Clone, Copy, PartialEq, Eq, Debug)]
pub enum TalkFault {
    /// A write failed.
    Write,
    /// There was no memory.
    NoMemory,
}

impl TalkFault {
    /// How its speaking ended.
    pub fn end(self) -> SpokenEnd
        ensures { result ≡ end_by self }
    {
        match self {
            TalkFault::Write => SpokenEnd::WriteFault,
            TalkFault::NoMemory => SpokenEnd::NoMemory,
        }
    }
}
