ghost use Rattle.std.specs.Prelude.{◌≡◌, ◌==◌, if◌then◌else◌, ℕ, ◌+◌, ◌-◌, ◌*◌, ◌%◌, ◌<◌, ◌≤◌, ◌↔◌, List, IsTrue, IsSome, IfSome, Some, EachIndex, max, slice_index};
ghost use Rattle.am_base.specs.Names.{IsSetOfNames, empty_set_of_names, has, with_name, without_name, union_of_names, names_without, size, lowest_name_of, first_lives_of_mask, names_of_mask_and_lives, are_mask_and_lives, mask_of_names, lives_of_names};

use crate::name::Name;
use std::marker::Model;

/// The life that a mask's lowest bit and four bits of lives give: 0 where the bit isn't set.
fn life_in(mask: u16, lives: u64) -> u8
    ensures { result ≡ (if mask % 2 == 0 then 0 else lives % 16 + 1) }
{
    if mask % 2 == 0 {
        0
    } else {
        (lives % 16) as u8 + 1
    }
}

/// The bit of a place with this life.
fn bit_of(life: u8) -> u16
    ensures { result ≡ (if life == 0 then 0 else 1) }
{
    if life == 0 { 0 } else { 1 }
}

#[tactic(auto, using(crate::proofs::Masks::places_are_filled_at_sixteen, crate::proofs::Masks::fill_next_place_of_mask))]
/// The lives that a mask of places and their lives less one give.
fn lives_in(mask: u16, lives: u64) -> [u8; 16]
    ensures { result ≡ names_of_mask_and_lives mask lives }
{
    let mut set = [0; 16];
    let mut bits = mask;
    let mut rest = lives;
    for place in 0..16usize {
        set[place] = life_in(bits, rest);
        bits /= 2;
        rest /= 16;
    }
    set
}

#[tactic(auto, using(crate::proofs::Masks::life_outside_mask_is_refused, crate::proofs::Masks::is_masked_goes_on, crate::proofs::Masks::is_masked_at_sixteen))]
/// Whether each place outside the mask has no life.
fn are_parts(mask: u16, lives: u64) -> bool
    ensures { result ≡ are_mask_and_lives mask lives }
{
    let mut bits = mask;
    let mut rest = lives;
    for step in 0..16usize {
        if life_in(bits, rest) == 0 && rest % 16 != 0 {
            return false;
        }
        bits /= 2;
        rest /= 16;
    }
    true
}

/// A set of names with at most one life of each place. Contracts see it as the list of the sixteen places' lives, 0
/// where a place isn't there (docs/PROTOCOL.md, "Names").
#[derive(Clone, Copy, PartialEq, Eq, Debug)]
pub struct Names {
    lives: [u8; 16],
}

impl Model for Names {
    ghost use Rattle.std.specs.Prelude.{ℕ, List};
    ghost use Rattle.am_base.specs.Names.{IsSetOfNames};

    ghost Value = { List ℕ };

    ghost view = { λ s. s.lives };

    ghost invariant = { λ s. IsSetOfNames s.lives };

    ghost inverse = { λ xs. record { lives = xs } };
}

impl Default for Names {
    ghost use Rattle.std.specs.Prelude.{◌≡◌};
    ghost use Rattle.am_base.specs.Names.{empty_set_of_names};

    ghost is_default = { λ names. names ≡ empty_set_of_names };

    fn default() -> Names {
        Names::empty()
    }
}

impl Names {
    /// Nobody.
    pub fn empty() -> Names
        ensures { result ≡ empty_set_of_names }
    {
        Names { lives: [0; 16] }
    }

    #[tactic(auto, using(crate::proofs::Masks::places_of_is_set))]
    /// Life 1 of each place of a mask, whose bit 0 is place 0's.
    pub fn of_mask(mask: u16) -> Names
        ensures value { result ≡ first_lives_of_mask mask }
    {
        Names {
            lives: lives_in(mask, 0),
        }
    }

    #[tactic(auto, using(crate::proofs::Masks::places_of_is_set))]
    /// The set with this mask of places and these lives less one, four bits for each place; None exactly where there is
    /// none, since a place outside the mask has such bits that aren't 0.
    pub fn of_parts(mask: u16, lives: u64) -> Option<Names>
        ensures variant { IsSome result ↔ IsTrue (are_mask_and_lives mask lives) }
        ensures value { IfSome result (λ set. set ≡ names_of_mask_and_lives mask lives) }
        ensures only { (set : List ℕ) → IsSetOfNames set → mask ≡ mask_of_names set → lives ≡ lives_of_names set
            → result ≡ Some set }
        ensures parts { IfSome result (λ set. (mask_of_names set ≡ mask) × (lives_of_names set ≡ lives)) }
    {
        if !are_parts(mask, lives) {
            return None;
        }
        Some(Names {
            lives: lives_in(mask, lives),
        })
    }

    /// Its places, place 0 in bit 0.
    pub fn mask(self) -> u16
        ensures value { result ≡ mask_of_names self }
    {
        let mut mask = 0;
        for place in (0..16usize).rev() {
            mask = bit_of(self.lives[place]) + 2 * mask;
        }
        mask
    }

    /// The lives less one of its places, four bits for each place, place 0 in the lowest; 0 where a place isn't there.
    pub fn lives(self) -> u64
        ensures value { result ≡ lives_of_names self }
    {
        let mut lives = 0;
        for place in (0..16usize).rev() {
            lives = u64::from(self.lives[place].saturating_sub(1)) + 16 * lives;
        }
        lives
    }

    /// Whether exactly this name is in the set.
    pub fn has(self, name: Name) -> bool
        ensures { result ≡ has self name }
    {
        self.lives[usize::from(name.place())] == name.life()
    }

    /// The life of a place, 0 where it isn't there.
    pub fn life_at(self, place: u8) -> u8
        requires { place < 16 }
        ensures value { result ≡ slice_index self place }
        ensures fits { result ≤ 16 }
    {
        self.lives[usize::from(place)]
    }

    /// The lives of the sixteen places, 0 where a place isn't there.
    pub fn each_life(self) -> [u8; 16]
        ensures value { result ≡ self }
        ensures set { IsSetOfNames self }
    {
        self.lives
    }

    /// The set with these lives of the sixteen places, each at most 16.
    pub fn of_lives(lives: [u8; 16]) -> Names
        requires { EachIndex lives (λ place. slice_index lives place ≤ 16) }
        ensures { result ≡ lives }
    {
        Names { lives }
    }

    /// The set with this name, in place of another life of its place.
    pub fn with(self, name: Name) -> Names
        ensures { result ≡ with_name self name }
    {
        let mut lives = self.lives;
        lives[usize::from(name.place())] = name.life();
        Names { lives }
    }

    /// The set without exactly this name.
    pub fn without(self, name: Name) -> Names
        ensures { result ≡ without_name self name }
    {
        if !self.has(name) {
            return self;
        }
        let mut lives = self.lives;
        lives[usize::from(name.place())] = 0;
        Names { lives }
    }

    /// The names of both, with the greater life of each place.
    pub fn union(self, other: Names) -> Names
        ensures { result ≡ union_of_names self other }
    {
        let mut lives = [0; 16];
        for place in 0..16usize {
            lives[place] = self.lives[place].max(other.lives[place]);
        }
        Names { lives }
    }

    /// The names that the other set doesn't have.
    pub fn minus(self, other: Names) -> Names
        ensures { result ≡ names_without self other }
    {
        let mut lives = [0; 16];
        for place in 0..16usize {
            lives[place] = if self.lives[place] == other.lives[place] {
                0
            } else {
                self.lives[place]
            };
        }
        Names { lives }
    }

    /// How many names there are.
    pub fn len(self) -> u32
        ensures value { result ≡ size self }
        ensures fits { result ≤ 16 }
    {
        self.lives.iter().filter(|life| 0 < **life).count() as u32
    }

    /// The lowest name; None exactly where there is nobody.
    pub fn lowest(self) -> Option<Name>
        ensures value { result ≡ lowest_name_of self }
    {
        for place in 0..16u8 {
            if 0 < self.lives[usize::from(place)] {
                return Name::of(place, self.lives[usize::from(place)]);
            }
        }
        None
    }

    /// Whether everybody has life 1.
    pub fn are_first_lives(self) -> bool
        ensures { IsTrue result ↔ EachIndex self (λ place. slice_index self place ≤ 1) }
    {
        self.lives.iter().all(|life| *life <= 1)
    }
}
