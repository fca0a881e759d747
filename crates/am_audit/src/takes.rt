ghost use Rattle.std.specs.Prelude.{◌≡◌, ℕ, [], ◌<◌, ◌≤◌, length, None, Some, slice_index, if◌then◌else◌};
ghost use Rattle.am_audit_defs.specs.Verdicts.{count_of, first_fault, first_astray, first_unlogged, first_untaken};
ghost use Rattle.am_audit_defs.specs.declared.verdict.Verdict.TheVariants as verdicts;
ghost use Rattle.am_audit.specs.Views.{line_seen, lines_in, texts_in};
ghost use Rattle.am_audit.specs.Keeping.{CountsEachName, first_number, is_next};

use crate::line::{Piece, TextLine};
use crate::lists::is_entry;
use am_audit_defs::verdict::Verdict;
use am_base::name::Name;

/// How many lines each name has.
fn counts(lines: &[TextLine]) -> [usize; 256]
    ensures { CountsEachName result (lines_in lines.now) }
{
    let mut counts = [0; 256];
    let mut at = lines.len();
    while 0 < at {
        at -= 1;
        counts[usize::from(lines[at].name)] += 1;
    }
    counts
}

/// The number of each name's first line, 0 where it has none.
fn firsts(lines: &[TextLine]) -> [u32; 256]
    ensures { (name : ℕ) → name < 256
        → slice_index result name ≡ first_number name (lines_in lines.now) }
{
    let mut firsts = [0; 256];
    let mut at = lines.len();
    while 0 < at {
        at -= 1;
        firsts[usize::from(lines[at].name)] = lines[at].number;
    }
    firsts
}

/// Whether a take is the entry after so many of a log, which has this first number and length.
fn is_next(group: &[Piece], first: u32, count: usize, before: usize, taken: &TextLine) -> bool
    ensures { result ≡ is_next (texts_in group.now) first count before (line_seen taken.now) }
{
    if count <= before || taken.number < first || (taken.number - first) as usize != before {
        return false;
    }
    is_entry(group, taken.number, taken.text)
}

/// The first take that isn't what its log has.
pub fn first_unlogged(group: &[Piece], logs: &[TextLine], takes: &[TextLine]) -> Option<Verdict>
    requires faultless { first_fault [] (lines_in logs.now) ≡ None }
    requires listed { first_astray (texts_in group.now) (lines_in logs.now) ≡ None }
    ensures { result ≡ first_unlogged (lines_in logs.now) [] (lines_in takes.now) }
{
    let firsts = firsts(logs);
    let lengths = counts(logs);
    let mut done = [0; 256];
    for at in 0..takes.len() {
        let taken = &takes[at];
        let name = usize::from(taken.name);
        if !is_next(group, firsts[name], lengths[name], done[name], taken) {
            return Some(Verdict::Unlogged {
                node: Name::of_byte(taken.name),
                number: taken.number,
            });
        }
        done[name] += 1;
    }
    None
}

/// The first log line that wasn't taken.
pub fn first_untaken(takes: &[TextLine], logs: &[TextLine]) -> Option<Verdict>
    ensures { result ≡ first_untaken (lines_in takes.now) [] (lines_in logs.now) }
{
    let taken = counts(takes);
    let mut done = [0; 256];
    for at in 0..logs.len() {
        let line = &logs[at];
        let name = usize::from(line.name);
        if taken[name] <= done[name] {
            return Some(Verdict::Untaken {
                node: Name::of_byte(line.name),
                number: line.number,
            });
        }
        done[name] += 1;
    }
    None
}
