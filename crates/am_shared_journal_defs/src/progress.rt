ghost use Rattle.std.specs.Prelude.{◌≡◌, None};
ghost use Rattle.am_shared_journal_defs.specs.Choices.{progress_after};

use crate::choice::Choice;

/// How far a node has come with the letters for it: the number up to which each was heard or lost, 0 at first, and the
/// last that it heard.
#[derive(Clone, Copy, PartialEq, Eq, Debug)]
pub struct Progress {
    pub cursor: u32,
    pub last: Option<u32>,
}

impl Progress {
    /// Nothing was heard or lost.
    pub fn new() -> Progress
        ensures cursor { result.cursor ≡ 0 }
        ensures last { result.last ≡ None }
    {
        Progress {
            cursor: 0,
            last: None,
        }
    }

    /// How far it is after a choice: a letter that is heard or lost moves the cursor, and one that is repeated nothing.
    pub fn after(self, choice: Choice) -> Progress
        ensures { result ≡ progress_after self choice }
    {
        match choice {
            Choice::Lose(number) => Progress {
                cursor: number,
                last: self.last,
            },
            Choice::Hear(number) => Progress {
                cursor: number,
                last: Some(number),
            },
            Choice::Tick | Choice::Repeat(_) => self,
        }
    }
}
