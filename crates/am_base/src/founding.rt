ghost use Rattle.std.specs.Prelude.{◌≡◌, ◌↔◌, IsSome, IfSome};
ghost use Rattle.am_base.specs.Founding.{MayFound, rules_of};

use crate::limits::{MOST_BODY, MOST_RESILIENCE, MOST_WINDOW};
use crate::names::Names;
use std::marker::Model;

/// How a group begins: its founders, each of life 1; how many stops an accepted entry is to survive, 0 to 15; how many
/// entries may stand above the base where one is numbered, 1 to 1,008; and the greatest body, 0 to 1,024 bytes, that is
/// sent by the sequencer (docs/PROTOCOL.md, "Founding"). Contracts see it as these four.
#[derive(Clone, Copy, PartialEq, Eq, Debug)]
pub struct Founding {
    founders: Names,
    resilience: u8,
    window: u16,
    pb_up_to: u16,
}

impl Model for Founding {
    ghost use Rattle.am_base.specs.Founding.{Rules, MayFound};

    ghost Value = { Rules };

    ghost view = { λ f. record { founders = f.founders; resilience = f.resilience; window = f.window; pb_up_to = f.pb_up_to } };

    ghost invariant = { λ f. MayFound (record { founders = f.founders; resilience = f.resilience; window = f.window; pb_up_to = f.pb_up_to }) };

    ghost inverse = { λ r. record { founders = r.founders; resilience = r.resilience; window = r.window; pb_up_to = r.pb_up_to } };
}

impl Founding {
    /// A founding; None exactly where there is no founder, a founder's life isn't 1, or a number is outside its limit.
    pub fn new(founders: Names, resilience: u8, window: u16, pb_up_to: u16) -> Option<Founding>
        ensures variant { IsSome result ↔ MayFound (rules_of founders resilience window pb_up_to) }
        ensures value { IfSome result (λ f. f ≡ rules_of founders resilience window pb_up_to) }
    {
        if 0 < founders.len()
            && founders.are_first_lives()
            && resilience <= MOST_RESILIENCE
            && 0 < window
            && window <= MOST_WINDOW
            && usize::from(pb_up_to) <= MOST_BODY
        {
            return Some(Founding {
                founders,
                resilience,
                window,
                pb_up_to,
            });
        }
        None
    }

    /// The founders. There is at least one, and each has life 1.
    pub fn founders(&self) -> Names
        ensures value { result ≡ self.now.founders }
        ensures within { MayFound self.now }
    {
        self.founders
    }

    /// The resilience of the founders' view, 0 to 15.
    pub fn resilience(&self) -> u8
        ensures { result ≡ self.now.resilience }
    {
        self.resilience
    }

    /// The window, 1 to 1,008.
    pub fn window(&self) -> u16
        ensures value { result ≡ self.now.window }
        ensures within { MayFound self.now }
    {
        self.window
    }

    /// The greatest body that goes by the sequencer, 0 to 1,024 bytes.
    pub fn pb_up_to(&self) -> u16
        ensures { result ≡ self.now.pb_up_to }
    {
        self.pb_up_to
    }
}
