ghost use Rattle.std.specs.Prelude.{◌≡◌, ℕ, List, [], ◌∷◌, ◌<◌, length, slice_get, IfOk, Option, None, Some};
ghost use Rattle.am_audit_defs.specs.Lines.{Line};
ghost use Rattle.am_audit_defs.specs.Verdicts.{or_else, gap_at, differs_at, twice_by, fault_at, first_fault};
ghost use Rattle.am_audit_defs.specs.Fields.{data_in};
ghost use Rattle.am_audit.specs.Views.{line_seen, lines_in};
ghost use Rattle.am_audit.specs.Keeping.{IsIndexOfFound, AreFirstNumbers, IsKept, twice_by_key};

use crate::fields::data_in;
use crate::line::TextLine;
use crate::maps::{first_at, send_key};
use am_audit_defs::verdict::Verdict;
use am_base::NoMemory;
use am_base::name::Name;
use std::alloc::Global;
use std::collections::BTreeMap;

/// Whether a line's number isn't the one after its name's last.
fn gap_at(last: Option<u32>, line: &TextLine) -> Option<Verdict>
    ensures { result ≡ gap_at last (line_seen line.now) }
{
    match last {
        Some(last) if u64::from(last) + 1 != u64::from(line.number) => Some(Verdict::Gap {
            node: Name::of_byte(line.name),
            number: line.number,
        }),
        _ => None,
    }
}

/// Whether a line's entry isn't that of the first line with its number.
fn differs_at(logs: &[TextLine], first: Option<u64>, line: &TextLine) -> Option<Verdict>
    ensures { (found : Option Line) → IsIndexOfFound (lines_in logs.now) first found
        → result ≡ differs_at found (line_seen line.now) }
{
    let Some(first) = first else {
        return None;
    };
    if logs.len() as u64 <= first {
        return None;
    }
    let known = &logs[first as usize];
    if known.text == line.text {
        return None;
    }
    Some(Verdict::Differs {
        node_a: Name::of_byte(known.name),
        node_b: Name::of_byte(line.name),
        number: line.number,
    })
}

/// Whether a send stands at another number too.
fn twice_by(first: Option<u64>, from: Name, req: u32, number: u32) -> Option<Verdict>
    ensures { result ≡ twice_by first from req number }
{
    match first {
        Some(first) if first != u64::from(number) => Some(Verdict::Twice { from, req }),
        _ => None,
    }
}

/// Whether a line has a send that stands at another number too. The send is kept.
fn twice_at(sent: &mut BTreeMap<u64, u64>, line: &TextLine) -> Result<Option<Verdict>, NoMemory>
    ensures { IfOk result (λ found. (before : List Line) → AreFirstNumbers sent.old before
        → (found ≡ twice_by_key before (data_in line.now.text.now) line.now.number)
        × AreFirstNumbers sent.new (line_seen line.now ∷ before)) }
{
    match data_in(line.text) {
        Ok((from, req, _)) => {
            let first = first_at(sent, send_key(from, req), u64::from(line.number))?;
            Ok(twice_by(first, from, req, line.number))
        }
        Err(_) => Ok(None),
    }
}

/// Whether a line faults by those before it: what is kept of them is the number of each name's last one, the index of the first
/// with each number, and the number of the first with each send. The line is kept too.
fn fault_at(
    last: &mut [Option<u32>; 256],
    first: &mut BTreeMap<u64, u64>,
    sent: &mut BTreeMap<u64, u64>,
    logs: &[TextLine],
    at: usize,
) -> Result<Option<Verdict>, NoMemory>
    requires { at < length logs.now }
    ensures { IfOk result (λ found. (line : Line) (before : List Line)
        → slice_get (lines_in logs.now) at ≡ Some line
        → IsKept (lines_in logs.now) last.old first.old sent.old before
        → (found ≡ fault_at before line)
        × (found ≡ None → IsKept (lines_in logs.now) last.new first.new sent.new (line ∷ before))) }
{
    let line = &logs[at];
    if let Some(gap) = gap_at(last[usize::from(line.name)], line) {
        return Ok(Some(gap));
    }
    let known = first_at(first, u64::from(line.number), at as u64)?;
    if let Some(differs) = differs_at(logs, known, line) {
        return Ok(Some(differs));
    }
    last[usize::from(line.name)] = Some(line.number);
    twice_at(sent, line)
}

/// The first log line that faults by those before it.
pub fn first_fault(alloc: Global, logs: &[TextLine]) -> Result<Option<Verdict>, NoMemory>
    ensures { IfOk result (λ found. found ≡ first_fault [] (lines_in logs.now)) }
{
    let mut last = [None; 256];
    let mut first = BTreeMap::new(alloc);
    let mut sent = BTreeMap::new(alloc);
    for at in 0..logs.len() {
        let found = fault_at(&mut last, &mut first, &mut sent, logs, at)?;
        match found {
            Some(fault) => return Ok(Some(fault)),
            None => {}
        }
    }
    Ok(None)
}
