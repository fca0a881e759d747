use am_base::name::Name;

/// What an entry comes to that is fed to an assembler.
#[derive(Clone, Copy, PartialEq, Eq, Debug)]
pub enum Fed {
    /// A part of a message that isn't all there yet, with its index, from 0.
    Part { from: Name, index: u32 },
    /// The last part of a message: it is all there now.
    Whole { from: Name },
    /// A body that is no part of any message. What had begun at its sender's place is given up.
    Plain { from: Name },
    /// A part that goes on with nothing. What had begun at its sender's place is given up.
    Passed { from: Name },
    /// No Data.
    Other,
}
