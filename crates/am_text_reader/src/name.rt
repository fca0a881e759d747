ghost use Rattle.std.specs.Prelude.{◌≡◌, IfOk, ◌≤◌, ◌<◌};
ghost use Rattle.am_base.specs.Names.{name_of_place_and_life};
ghost use Rattle.am_text_defs.specs.Fields.{split_text, number_up_to, life_of_word, name_in_text, stamp_in_text, names_onto, names_in_text};

use crate::cut::cut;
use crate::number::{number, number_up_to};
use am_base::name::{Name, Stamp};
use am_base::names::Names;
use am_text_defs::fault::FieldFault;

/// A place, 0 to 15.
pub fn place(word: &[u8]) -> Result<u8, FieldFault>
    ensures value { result ≡ number_up_to 15 word.now }
    ensures within { IfOk result (λ place. place ≤ 15) }
{
    let number = number_up_to(word, 15)?;
    Ok(number as u8)
}

/// A life that is spelled after a place: 2 to 16.
fn life(word: &[u8]) -> Result<u8, FieldFault>
    ensures value { result ≡ life_of_word word.now }
    ensures within { IfOk result (λ life. (0 < life) × (life ≤ 16)) }
{
    let number = number_up_to(word, 16)?;
    if number < 2 {
        return Err(FieldFault::Limit);
    }
    Ok(number as u8)
}

/// The name of a place's life.
fn name_at(place: u8, life: u8) -> Name
    requires place { place ≤ 15 }
    requires life { (0 < life) × (life ≤ 16) }
    ensures { result ≡ name_of_place_and_life place life }
{
    match Name::of(place, life) {
        Some(name) => name,
        None => unreachable!(),
    }
}

/// A name: its place, and a life other than the first after a slash.
#[tactic(auto, unfolding(am_text_defs::specs::Fields::name_in_text))]
pub fn name(word: &[u8]) -> Result<Name, FieldFault>
    ensures { result ≡ name_in_text word.now }
{
    let (first, rest) = cut(word, b'/');
    let place = place(first)?;
    match rest {
        Some(rest) => Ok(name_at(place, life(rest)?)),
        None => Ok(name_at(place, 1)),
    }
}

#[tactic(auto, unfolding(am_text_defs::specs::Fields::stamp_in_text))]
/// A stamp: its round and its name, with a dot between them.
pub fn stamp(word: &[u8]) -> Result<Stamp, FieldFault>
    ensures { result ≡ stamp_in_text word.now }
{
    let (first, rest) = cut(word, b'.');
    let round = number(first)?;
    let by = name(rest.ok_or(FieldFault::Form)?)?;
    Ok(Stamp { round, by })
}

/// The set with the names of a text, of which each has this place or one above it, and above those before it.
fn names_onto(least: u8, set: Names, text: &[u8]) -> Result<Names, FieldFault>
    ensures { result ≡ names_onto least set (split_text 44 text.now) }
{
    let (first, rest) = cut(text, b',');
    let name = name(first)?;
    if name.place() < least {
        return Err(FieldFault::Form);
    }
    match rest {
        Some(rest) => names_onto(name.place() + 1, set.with(name), rest),
        None => Ok(set.with(name)),
    }
}

#[tactic(auto, unfolding(am_text_defs::specs::Fields::names_in_text))]
/// A set of names: ascending by place, one life of each, with commas between them; or a dash for nobody.
pub fn names(word: &[u8]) -> Result<Names, FieldFault>
    ensures { result ≡ names_in_text word.now }
{
    if word == b"-".as_slice() {
        return Ok(Names::empty());
    }
    names_onto(0, Names::empty(), word)
}
