ghost use Rattle.std.specs.Prelude.{◌≡◌, ℕ, [], ◌<◌, length, IfOk, OnOk, Option, None, Some, if◌then◌else◌};
ghost use Rattle.std.specs.Ordering.{nat_cmp};
ghost use Rattle.std.specs.BTreeMap.{get};
ghost use Rattle.am_group.specs.Journals.{item_at};
ghost use Rattle.am_audit_defs.specs.Fields.{data_in, outline_of};
ghost use Rattle.am_audit_defs.specs.Verdicts.{is_text, first_astray, once_more, stands, is_at, first_lost, may_begin, early_at, first_early};
ghost use Rattle.am_audit.specs.Keeping.{has_send_key, stands_by_key};
ghost use Rattle.am_audit.specs.Views.{line_seen, lines_in, texts_in};

use crate::fields::{data_in, outline};
use crate::line::{Piece, TextLine};
use crate::maps::send_key;
use crate::walk::{Check, first_found};
use am_audit_defs::line::AnsweredSend;
use am_audit_defs::outline::Outline;
use am_audit_defs::verdict::Verdict;
use am_base::NoMemory;
use am_base::name::Name;
use std::alloc::Global;
use std::collections::BTreeMap;

/// Whether the list has this entry at a number.
pub fn is_entry(group: &[Piece], number: u32, text: &[u8]) -> bool
    ensures { result ≡ is_text (item_at (texts_in group.now) number) text.now }
{
    if number == 0 {
        return false;
    }
    let at = number as usize - 1;
    if group.len() <= at {
        return false;
    }
    group[at].text == text
}

/// The first log line that the list hasn't at its number.
pub fn first_astray(group: &[Piece], logs: &[TextLine]) -> Option<Verdict>
    ensures { result ≡ first_astray (texts_in group.now) (lines_in logs.now) }
{
    for at in 0..logs.len() {
        let line = &logs[at];
        if !is_entry(group, line.number, line.text) {
            return Some(Verdict::Astray {
                node: Name::of_byte(line.name),
                number: line.number,
            });
        }
    }
    None
}

/// Keeps where an entry's send stands, before all that was kept: at one number, or at several.
fn stand_at(map: &mut BTreeMap<u64, Option<u64>>, text: &[u8], number: u64) -> Result<(), NoMemory>
    ensures { OnOk result ((key : ℕ) → get nat_cmp map.new key ≡ (if has_send_key key (data_in text.now)
        then Some (once_more number (get nat_cmp map.old key)) else get nat_cmp map.old key)) }
{
    if let Ok((from, req, _)) = data_in(text) {
        let key = send_key(from, req);
        let stands = match map.get(&key) {
            None => Some(number),
            Some(_) => None,
        };
        map.insert(key, stands)?;
    }
    Ok(())
}

/// Where each send stands.
fn standing(alloc: Global, group: &[Piece]) -> Result<BTreeMap<u64, Option<u64>>, NoMemory>
    ensures { IfOk result (λ map. (key : ℕ) → get nat_cmp map key
        ≡ stands_by_key 1 key (texts_in group.now)) }
{
    let mut map = BTreeMap::new(alloc);
    let mut at = group.len();
    while 0 < at {
        at -= 1;
        stand_at(&mut map, group[at].text, at as u64 + 1)?;
    }
    Ok(map)
}

/// Whether a send stands at this one number.
fn is_at(map: &BTreeMap<u64, Option<u64>>, key: u64, number: u32) -> bool
    ensures { result ≡ is_at number (get nat_cmp map.now key) }
{
    match map.get(&key).copied() {
        Some(Some(found)) => found == u64::from(number),
        _ => false,
    }
}

/// Whether an answer's send stands at its number alone.
fn stands_there(map: &BTreeMap<u64, Option<u64>>, group: &[Piece], answer: &AnsweredSend) -> bool
    requires { (key : ℕ) → get nat_cmp map.now key ≡ stands_by_key 1 key (texts_in group.now) }
    ensures { result ≡ is_at answer.now.number
        (stands 1 answer.now.name answer.now.req (texts_in group.now)) }
{
    is_at(map, send_key(answer.name, answer.req), answer.number)
}

/// The first answer whose send doesn't stand at its number alone.
pub fn first_lost(
    alloc: Global,
    group: &[Piece],
    answers: &[AnsweredSend],
) -> Result<Option<Verdict>, NoMemory>
    ensures { IfOk result (λ found. found ≡ first_lost (texts_in group.now) answers.now) }
{
    let map = standing(alloc, group)?;
    for at in 0..answers.len() {
        let answer = &answers[at];
        if !stands_there(&map, group, answer) {
            return Ok(Some(Verdict::Lost {
                node: answer.name,
                req: answer.req,
            }));
        }
    }
    Ok(None)
}

/// Whether a log may begin with a line.
fn may_begin(line: &TextLine) -> bool
    ensures { result ≡ may_begin (line_seen line.now) (outline_of line.now.text.now) }
{
    let Ok(outline) = outline(line.text) else {
        return false;
    };
    match &outline {
        Outline::Join(name) => name.get() == line.name,
        Outline::View(view) => { line.number == 1 && view.members.has(Name::of_byte(line.name)) }
        _ => false,
    }
}

/// Whether a line begins a log that may not begin so.
struct Beginnings;

impl Check for Beginnings {
    ghost found = { early_at };

    fn found(last: Option<u32>, line: &TextLine) -> Option<Verdict> {
        if last.is_some() || may_begin(line) {
            return None;
        }
        Some(Verdict::Early {
            node: Name::of_byte(line.name),
            number: line.number,
        })
    }
}

/// The first log line with which its log may not begin, though it does.
pub fn first_early(logs: &[TextLine]) -> Option<Verdict>
    ensures { result ≡ first_early [] (lines_in logs.now) }
{
    first_found::<Beginnings>(logs)
}
