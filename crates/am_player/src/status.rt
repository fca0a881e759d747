use am_script_defs::refusal::ScriptRefusal;

/// What came of a call of the program.
#[derive(Clone, Copy)]
pub enum ExitStatus {
    /// All was read, done and written.
    Done,
    /// The words have no form of the program.
    Usage,
    /// The input isn't a script, by this cause.
    BadScript(ScriptRefusal),
    /// The input has more than 16,777,216 bytes, or as a message more than 65,535.
    TooLong,
    /// A read failed.
    ReadFault,
    /// A write failed.
    WriteFault,
    /// There was no memory.
    NoMemory,
    /// A run would have more than 100,000 events.
    Spent,
    /// The input isn't a text: this is its first bad line.
    BadText { line: u32 },
    /// The text's verdict is none that agrees, and was written.
    Disagrees,
}

impl ExitStatus {
    ghost use Rattle.std.specs.Prelude.{◌≡◌};
    ghost use Rattle.am_player.specs.Statuses.{status_number};

    /// Its number, which a process ends with: 0 to 9.
    pub fn number(self) -> u8
        ensures { result ≡ status_number self }
    {
        match self {
            ExitStatus::Done => 0,
            ExitStatus::Usage => 1,
            ExitStatus::BadScript(_) => 2,
            ExitStatus::TooLong => 3,
            ExitStatus::ReadFault => 4,
            ExitStatus::WriteFault => 5,
            ExitStatus::NoMemory => 6,
            ExitStatus::Spent => 7,
            ExitStatus::BadText { .. } => 8,
            ExitStatus::Disagrees => 9,
        }
    }
}
