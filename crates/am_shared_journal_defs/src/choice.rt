ghost use Rattle.std.specs.Prelude.{◌≡◌};
ghost use Rattle.am_shared_journal_defs.specs.Choices.{act_of};

use am_group::event::Act;

/// What a node does of which it is the turn.
#[derive(Clone, Copy, PartialEq, Eq, Debug)]
pub enum Choice {
    /// Time passes: no letter is ahead.
    Tick,
    /// The letter of this number is lost, and time passes.
    Lose(u32),
    /// The letter of this number is heard.
    Hear(u32),
    /// The letter of this number, the last that was heard, is heard again.
    Repeat(u32),
}

impl Choice {
    /// What the node does.
    pub fn act(self) -> Act
        ensures { result ≡ act_of self }
    {
        match self {
            Choice::Tick | Choice::Lose(_) => Act::Tick,
            Choice::Hear(number) | Choice::Repeat(number) => Act::Hear(number),
        }
    }
}
