ghost use Rattle.std.specs.Prelude.{◌≡◌, ℕ, [], ◌<◌, length, IfOk, OnOk, Option, None, Some, ◌==◌, ◌&&◌, if◌then◌else◌};
ghost use Rattle.std.specs.Ordering.{nat_cmp};
ghost use Rattle.std.specs.BTreeMap.{get};
ghost use Rattle.am_audit_defs.specs.Fields.{data_in};
ghost use Rattle.am_audit_defs.specs.Verdicts.{skipped_at, first_skipped, first_asked, unsent_at, first_unsent};
ghost use Rattle.am_audit.specs.Keeping.{send_key};
ghost use Rattle.am_audit.specs.Views.{line_seen, lines_in, texts_in};

use crate::fields::data_in;
use crate::line::{Piece, TextLine};
use crate::maps::{put, send_key};
use crate::walk::{Check, first_found};
use am_audit_defs::verdict::Verdict;
use am_base::NoMemory;
use am_base::name::Name;
use std::alloc::Global;
use std::collections::BTreeMap;

/// The first send whose request isn't the one after its name's last.
pub fn first_skipped(sends: &[TextLine]) -> Option<Verdict>
    ensures { result ≡ first_skipped [] (lines_in sends.now) }
{
    first_found::<Requests>(sends)
}

/// Whether a send's request isn't the one after its name's last.
struct Requests;

impl Check for Requests {
    ghost found = { skipped_at };

    fn found(last: Option<u32>, send: &TextLine) -> Option<Verdict> {
        let before = last.unwrap_or(0);
        if u64::from(send.number) == u64::from(before) + 1 {
            return None;
        }
        let node = Name::of_byte(send.name);
        let req = send.number;
        Some(Verdict::Skipped { node, req })
    }
}

/// Keeps the index of a send, before all that were kept.
fn ask_at(map: &mut BTreeMap<u64, u64>, send: &TextLine, at: u64) -> Result<(), NoMemory>
    ensures { OnOk result ((from req : ℕ) → req < 4294967296
        → get nat_cmp map.new (send_key from req)
        ≡ (if (send.now.name == from) && (send.now.number == req) then Some at
        else get nat_cmp map.old (send_key from req))) }
{
    put(map, send_key(Name::of_byte(send.name), send.number), at)
}

/// The index of the first send with each name and request.
fn asking(alloc: Global, sends: &[TextLine]) -> Result<BTreeMap<u64, u64>, NoMemory>
    ensures { IfOk result (λ map. (from req : ℕ) → req < 4294967296
        → get nat_cmp map (send_key from req) ≡ first_asked 0 from req (lines_in sends.now)) }
{
    let mut map = BTreeMap::new(alloc);
    let mut at = sends.len();
    while 0 < at {
        at -= 1;
        ask_at(&mut map, &sends[at], at as u64)?;
    }
    Ok(map)
}

/// Whether nobody sent an entry, where it is data.
fn unsent_at(map: &BTreeMap<u64, u64>, sends: &[TextLine], text: &[u8]) -> Option<Verdict>
    requires { (from req : ℕ) → req < 4294967296
        → get nat_cmp map.now (send_key from req) ≡ first_asked 0 from req (lines_in sends.now) }
    ensures { result ≡ unsent_at (lines_in sends.now) (data_in text.now) }
{
    let Ok((from, req, body)) = data_in(text) else {
        return None;
    };
    if let Some(at) = map.get(&send_key(from, req)).copied() {
        if at < sends.len() as u64 && sends[at as usize].text == body {
            return None;
        }
    }
    Some(Verdict::Unsent { from, req })
}

/// The first data of the list that nobody sent.
pub fn first_unsent(
    alloc: Global,
    sends: &[TextLine],
    group: &[Piece],
) -> Result<Option<Verdict>, NoMemory>
    ensures { IfOk result (λ found. found
        ≡ first_unsent (lines_in sends.now) (texts_in group.now)) }
{
    let map = asking(alloc, sends)?;
    for at in 0..group.len() {
        match unsent_at(&map, sends, group[at].text) {
            Some(unsent) => return Ok(Some(unsent)),
            None => {}
        }
    }
    Ok(None)
}
