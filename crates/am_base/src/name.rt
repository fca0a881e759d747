ghost use Rattle.std.specs.Prelude.{◌≡◌, ℕ, ◌+◌, ◌*◌, ◌/◌, ◌%◌, ◌<◌, ◌≤◌, ◌↔◌, IsSome, IfSome};
ghost use Rattle.am_base.specs.Names.{place_of_name, life_of_name, name_of_place_and_life, name_is_less};

use std::cmp::Ordering;
use std::marker::Model;

/// A name: one life, 1 to 16, of a place, 0 to 15. Contracts see it as the number of its byte,
/// `place + 16 * (life - 1)` (docs/PROTOCOL.md, "Names").
#[derive(Clone, Copy, PartialEq, Eq, Debug)]
pub struct Name(u8);

impl Model for Name {
    ghost use Rattle.std.specs.Prelude.{ℕ, ◌<◌};

    ghost Value = { ℕ };

    ghost view = { λ n. n.0 };

    ghost invariant = { λ n. n.0 < 256 };

    ghost inverse = { λ n. record { 0 = n } };
}

impl Default for Name {
    ghost use Rattle.std.specs.Prelude.{◌≡◌};

    ghost is_default = { λ name. name ≡ 0 };

    fn default() -> Name {
        Name(0)
    }
}

impl Name {
    /// Life 1 of a place; None exactly where there is no such place.
    pub fn new(n: u8) -> Option<Name>
        ensures variant { IsSome result ↔ (n < 16) }
        ensures value { IfSome result (λ name. name ≡ n) }
    {
        if n < 16 { Some(Name(n)) } else { None }
    }

    /// A life of a place; None exactly where the place is above 15 or the life isn't 1 to 16.
    pub fn of(place: u8, life: u8) -> Option<Name>
        ensures variant { IsSome result ↔ ((place < 16) × (0 < life) × (life ≤ 16)) }
        ensures value { IfSome result (λ name. name ≡ name_of_place_and_life place life) }
    {
        if place < 16 && 0 < life && life <= 16 {
            return Some(Name(place + 16 * (life - 1)));
        }
        None
    }

    /// The name of a byte.
    pub fn of_byte(byte: u8) -> Name
        ensures { result ≡ byte }
    {
        Name(byte)
    }

    /// Its byte.
    pub fn get(self) -> u8
        ensures value { result ≡ self }
    {
        self.0
    }

    /// Whether this name is below another: by place, then by life.
    pub fn is_below(self, other: Name) -> bool
        ensures { result ≡ name_is_less self other }
    {
        if self.place() < other.place() {
            return true;
        }
        self.place() == other.place() && self.life() < other.life()
    }

    /// Its place, 0 to 15.
    pub fn place(self) -> u8
        ensures value { result ≡ place_of_name self }
        ensures fits { result < 16 }
    {
        self.0 % 16
    }

    /// Its life, 1 to 16.
    pub fn life(self) -> u8
        ensures value { result ≡ life_of_name self }
        ensures fits { (0 < result) × (result ≤ 16) }
    {
        self.0 / 16 + 1
    }
}

impl Ord for Name {
    ghost use Rattle.std.proofs.Common.{rules};
    ghost use Rattle.std.specs.Cmp.Rules.{comparing};
    ghost use Rattle.am_base.specs.Names.{compare_names};

    ghost cmp = { compare_names };

    ghost total = { Prim.search (comparing, rules) };

    ghost matches_partial_cmp = { Prim.search (comparing, rules) };

    ghost matches_eq = { Prim.search (comparing, rules) };

    fn cmp(&self, other: &Name) -> Ordering {
        self.place()
            .cmp(&other.place())
            .then(self.life().cmp(&other.life()))
    }
}

impl PartialOrd for Name {
    ghost use Rattle.std.proofs.Common.{rules};
    ghost use Rattle.std.specs.Cmp.{partial_order_from_own_ties};
    ghost use Rattle.std.specs.Cmp.Rules.{comparing};
    ghost use Rattle.std.specs.Ordering.{as_partial_cmp};
    ghost use Rattle.am_base.specs.Names.{compare_names};

    ghost partial_cmp = { as_partial_cmp compare_names };

    ghost laws = { partial_order_from_own_ties (Prim.search (comparing, rules)) (Prim.search (comparing, rules)) };

    fn partial_cmp(&self, other: &Name) -> Option<Ordering> {
        Some(self.cmp(other))
    }
}

/// The stamp of a view or of a ballot: a round, at most `MOST_NUMBER`, and the name whose it is.
#[derive(Clone, Copy, PartialEq, Eq, PartialOrd, Ord, Debug)]
pub struct Stamp {
    pub round: u32,
    pub by: Name,
}

impl Stamp {
    ghost use Rattle.am_base.specs.Stamps.{stamp_is_less};

    /// Whether this stamp is below another: by round, then by name.
    pub fn is_below(self, other: Stamp) -> bool
        ensures { result ≡ stamp_is_less self other }
    {
        if self.round < other.round {
            return true;
        }
        self.round == other.round && self.by.is_below(other.by)
    }
}

impl Default for Stamp {
    ghost use Rattle.std.specs.Prelude.{◌≡◌};

    ghost is_default = { λ stamp. stamp ≡ record { round = 0; by = 0 } };

    fn default() -> Stamp {
        Stamp {
            round: 0,
            by: Name::of_byte(0),
        }
    }
}
