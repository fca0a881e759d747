ghost use Rattle.std.specs.Prelude.{◌≡◌};
ghost use Rattle.am_race_laws.specs.Going.{by_of};

use am_base::outcome::Outcome;
use am_group::event::{By, Part};

/// Which call it is: whose, and the number of the call.
#[derive(Clone, Copy, PartialEq, Eq, Debug)]
pub struct Tag {
    pub caller: u32,
    pub call: u32,
}

impl Tag {
    /// The tag of a record of the call, of this part.
    pub fn with(self, part: Part) -> By
        ensures { result ≡ by_of self part }
    {
        By {
            caller: self.caller,
            call: self.call,
            part,
        }
    }
}

/// What came of a call's own act: its outcome, and the round of the ballot that it began, 0 where it began none.
#[derive(Drop)]
pub struct Came {
    pub outcome: Outcome,
    pub round: u32,
}

/// What a look at a node did.
#[derive(Drop)]
pub enum Looked {
    /// A turn, of which this came.
    Turn(Outcome),
    /// The end of the call: its check, or the act of a receive.
    End(Outcome),
}
