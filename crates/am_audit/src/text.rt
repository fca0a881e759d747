ghost use Rattle.std.specs.Prelude.{◌≡◌, ◌+◌, ◌≤◌, ◌<◌, length, MatchOption, Some, None};
ghost use Rattle.am_text_defs.specs.Fields.{cut_of, split_text};
ghost use Rattle.am_audit_defs.specs.Lines.{nothing_read, add_line, finish_text, read_lines, read_text};
ghost use Rattle.am_audit.specs.Views.{reading_told, IsReadingOf, TakesAt};

use crate::fault::{LineFault, TextRefusal};
use crate::reading::{Lines, is_end};
use am_text_reader::cut::cut;
use std::alloc::Global;

/// Takes a line of this number.
fn add<'a>(lines: &mut Lines<'a>, number: u32, line: &'a [u8]) -> Result<(), TextRefusal>
    ensures { TakesAt number result (reading_told lines.new) (add_line (reading_told lines.old) line.entry.now) }
{
    match lines.add_line(line) {
        Ok(()) => Ok(()),
        Err(LineFault::Memory) => Err(TextRefusal::NoMemory),
        Err(LineFault::Field(_)) => Err(TextRefusal::BadLine { line: number }),
    }
}

/// The first line, and what stands after it; None where there is no newline.
fn whole_line(text: &[u8]) -> Option<(&[u8], &[u8])>
    ensures { MatchOption result ((cut_of 10 text.entry.now).1 ≡ None)
        (λ x. (cut_of 10 text.entry.now ≡ (x.0.now, Some x.1.now))
        × (length x.1.now < length text.entry.now)) }
{
    let (line, behind) = cut(text, b'\n');
    match behind {
        Some(behind) => Some((line, behind)),
        None => None,
    }
}

/// What was read, where it ends after the last newline.
fn finish<'a>(number: u32, lines: Lines<'a>, rest: &[u8]) -> Result<Lines<'a>, TextRefusal>
    ensures { IsReadingOf result (finish_text number (reading_told lines.entry) rest.now) }
{
    if rest.is_empty() && is_end(lines.stage) {
        return Ok(lines);
    }
    Err(TextRefusal::BadLine { line: number })
}

/// Reads lines, of which the first has this number.
fn read_lines<'a>(alloc: Global, first: u32, text: &'a [u8]) -> Result<Lines<'a>, TextRefusal>
    requires few { first + length text.now < 4294967296 }
    ensures { IsReadingOf result (read_lines first nothing_read (split_text 10 text.entry.now)) }
{
    let mut lines = Lines::new(alloc);
    let mut number = first;
    let mut rest = text;
    while let Some((line, behind)) = whole_line(rest) {
        if let Err(refusal) = add(&mut lines, number, line) {
            return Err(refusal);
        }
        number += 1;
        rest = behind;
    }
    finish(number, lines, rest)
}

/// Reads a text; a first line that begins with a brace is passed over.
pub fn read_text<'a>(alloc: Global, text: &'a [u8]) -> Result<Lines<'a>, TextRefusal>
    requires few { length text.now < 4294967290 }
    ensures { IsReadingOf result (read_text text.entry.now) }
{
    if text.is_empty() || text[0] != b'{' {
        return read_lines(alloc, 1, text);
    }
    match whole_line(text) {
        Some((_, behind)) => read_lines(alloc, 2, behind),
        None => Err(TextRefusal::BadLine { line: 1 }),
    }
}
