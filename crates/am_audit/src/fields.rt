ghost use Rattle.std.specs.Prelude.{◌≡◌, ◌≤◌, ◌<◌, IfOk, codes};
ghost use Rattle.am_base.specs.Most.{greatest_number};
ghost use Rattle.am_text_defs.specs.Fields.{same};
ghost use Rattle.am_audit_defs.specs.Fields.{two_of, expect, is_body, data_parts, data_of, resilience_in_text, view_in_text, outline_of, data_in};
ghost use Rattle.am_audit_defs.specs.Fields.{told_number, send_of, answer_fields_of, take_of, return_of};
ghost use Rattle.am_audit.specs.Views.{GivesWhatIsRead};

use am_audit_defs::outline::Outline;
use am_base::entry::GroupView;
use am_base::limits::MOST_BODY;
use am_base::name::Name;
use am_text_defs::fault::FieldFault;
use am_text_reader::body::is_body;
use am_text_reader::cut::cut;
use am_text_reader::name::{name, names, place, stamp};
use am_text_reader::number::{number, number_up_to, resilience};

/// What stands before the first blank, and what after it.
pub fn two(text: &[u8]) -> Result<(&[u8], &[u8]), FieldFault>
    ensures { GivesWhatIsRead (λ x. (x.0.now, x.1.now)) result (two_of text.entry.now) }
{
    let (first, rest) = cut(text, b' ');
    match rest {
        Some(rest) => Ok((first, rest)),
        None => Err(FieldFault::Form),
    }
}

/// A word that must be this one.
pub fn expect(text: &[u8], word: &[u8]) -> Result<(), FieldFault>
    ensures { result ≡ expect word.now text.now }
{
    if text == word {
        return Ok(());
    }
    Err(FieldFault::Form)
}

/// The sender, the request and the body of what stands after the word data.
#[tactic(auto, unfolding(am_audit_defs::specs::Fields::data_parts))]
fn data_parts(text: &[u8]) -> Result<(Name, u32, &[u8]), FieldFault>
    ensures { GivesWhatIsRead (λ x. (x.0, x.1, x.2.now)) result (data_parts text.entry.now) }
{
    let (from, rest) = two(text)?;
    let from = name(from)?;
    let (req, body) = two(rest)?;
    let req = number(req)?;
    Ok((from, req, body))
}

/// Data, after that word.
#[tactic(auto, unfolding(am_audit_defs::specs::Fields::data_of))]
fn data(text: &[u8]) -> Result<Outline, FieldFault>
    ensures { result ≡ data_of text.now }
{
    match data_parts(text) {
        Ok((from, req, body)) => {
            is_body(body, MOST_BODY)?;
            Ok(Outline::Data { from, req })
        }
        Err(fault) => Err(fault),
    }
}

/// A resilience after its letter, which isn't 0.
#[tactic(auto, unfolding(am_audit_defs::specs::Fields::resilience_in_text))]
fn lettered_resilience(word: &[u8]) -> Result<u8, FieldFault>
    ensures { result ≡ resilience_in_text word.now }
{
    if word.is_empty() || word[0] != b'r' {
        return Err(FieldFault::Form);
    }
    let resilience = resilience(&word[1..])?;
    if resilience == 0 {
        return Err(FieldFault::Form);
    }
    Ok(resilience)
}

/// A view, after that word.
#[tactic(auto, unfolding(am_audit_defs::specs::Fields::view_in_text))]
fn view(text: &[u8]) -> Result<Outline, FieldFault>
    ensures { result ≡ view_in_text text.now }
{
    let (first, rest) = two(text)?;
    let stamp = stamp(first)?;
    let (set, last) = cut(rest, b' ');
    let members = names(set)?;
    let resilience = match last {
        Some(word) => lettered_resilience(word)?,
        None => 0,
    };
    Ok(Outline::View(GroupView {
        stamp,
        members,
        resilience,
    }))
}

/// An entry, but for its body, which is looked at alone.
#[tactic(auto, unfolding(am_audit_defs::specs::Fields::outline_of))]
pub fn outline(text: &[u8]) -> Result<Outline, FieldFault>
    ensures { result ≡ outline_of text.now }
{
    let (word, rest) = two(text)?;
    if word == b"data".as_slice() {
        return data(rest);
    }
    if word == b"join".as_slice() {
        return Ok(Outline::Join(name(rest)?));
    }
    if word == b"leave".as_slice() {
        return Ok(Outline::Leave(name(rest)?));
    }
    if word == b"view".as_slice() {
        return view(rest);
    }
    Err(FieldFault::Form)
}

/// The sender, the request and the body of an entry that is data.
#[tactic(auto, unfolding(am_audit_defs::specs::Fields::data_in))]
pub fn data_in(text: &[u8]) -> Result<(Name, u32, &[u8]), FieldFault>
    ensures { GivesWhatIsRead (λ x. (x.0, x.1, x.2.now)) result (data_in text.entry.now) }
{
    let (word, rest) = two(text)?;
    expect(word, b"data".as_slice())?;
    data_parts(rest)
}

/// A number of an outcome with this word.
#[tactic(auto, unfolding(am_audit_defs::specs::Fields::told_number))]
fn told_number(outcome: &[u8], word: &[u8]) -> Result<u32, FieldFault>
    ensures { result ≡ told_number word.now outcome.now }
{
    let (first, rest) = two(outcome)?;
    expect(first, word)?;
    number(rest)
}

/// A send: its place, its request and its body.
#[tactic(auto, unfolding(am_audit_defs::specs::Fields::send_of))]
pub fn send<'a>(rest: &'a [u8], outcome: &[u8]) -> Result<(u8, u32, &'a [u8]), FieldFault>
    ensures value { GivesWhatIsRead (λ x. (x.0, x.1, x.2.now)) result (send_of rest.entry.now outcome.now) }
    ensures within { IfOk result (λ x. x.0 ≤ 15) }
{
    let (at, body) = two(rest)?;
    let place = place(at)?;
    is_body(body, MOST_BODY)?;
    let req = told_number(outcome, b"queued".as_slice())?;
    Ok((place, req, body))
}

/// An answer: its place, its request, and the number of the send.
#[tactic(auto, unfolding(am_audit_defs::specs::Fields::answer_fields_of))]
pub fn answer(rest: &[u8], outcome: &[u8]) -> Result<(u8, u32, u32), FieldFault>
    ensures value { result ≡ answer_fields_of rest.now outcome.now }
    ensures within { IfOk result (λ x. x.0 ≤ 15) }
{
    let (at, req) = two(rest)?;
    let place = place(at)?;
    let asked = number(req)?;
    let (word, told) = two(outcome)?;
    expect(word, b"sent".as_slice())?;
    let (again, last) = two(told)?;
    expect(again, req)?;
    let number = number(last)?;
    Ok((place, asked, number))
}

/// A take: its place, its number and its entry.
#[tactic(auto, unfolding(am_audit_defs::specs::Fields::take_of))]
pub fn take<'a>(rest: &[u8], outcome: &'a [u8]) -> Result<(u8, u32, &'a [u8]), FieldFault>
    ensures value { GivesWhatIsRead (λ x. (x.0, x.1, x.2.now)) result (take_of rest.now outcome.entry.now) }
    ensures within { IfOk result (λ x. x.0 ≤ 15) }
{
    let place = place(rest)?;
    let (word, told) = two(outcome)?;
    expect(word, b"took".as_slice())?;
    let (first, entry) = two(told)?;
    let number = number(first)?;
    let _ = outline(entry)?;
    Ok((place, number, entry))
}

/// A return: its place, and the name that goes on there.
#[tactic(auto, unfolding(am_audit_defs::specs::Fields::return_of))]
pub fn return_of(rest: &[u8], outcome: &[u8]) -> Result<(u8, Name), FieldFault>
    ensures value { result ≡ return_of rest.now outcome.now }
    ensures within { IfOk result (λ x. x.0 ≤ 15) }
{
    let place = place(rest)?;
    let (word, told) = two(outcome)?;
    expect(word, b"returned".as_slice())?;
    let life = number_up_to(told, 16)?;
    match Name::of(place, life as u8) {
        Some(name) => Ok((place, name)),
        None => Err(FieldFault::Form),
    }
}
