ghost use Rattle.std.specs.Prelude.{◌≡◌, ◌≤◌, ◌++◌, codes, decimal, length};
ghost use Rattle.am_script_defs.specs.Refusals as refusals;
ghost use Rattle.am_player.specs.Telling.{status_line, bad_script_line, bad_text_line};

use crate::status::ExitStatus;
use am_script_defs::refusal::ScriptRefusal;
use arrayvec::ArrayString;
use itoa::Buffer;
use std::io;

/// A line that tells of a status.
pub type StatusLine = ArrayString<256>;

/// Some words as a line.
fn line(words: &str) -> StatusLine
    requires { length words.now ≤ 256 }
    ensures { result.bytes ≡ words.now }
{
    let mut line = ArrayString::new();
    line.push_str(words);
    line
}

/// The line for an input that is no script, by its cause.
fn bad_script_line(cause: ScriptRefusal) -> StatusLine
    ensures { result.bytes ≡ bad_script_line cause }
{
    let mut digits = Buffer::new();
    let mut line = line("bad script ");
    line.push_str(digits.format(cause.number()));
    line.push_str(" at ");
    line.push_str(digits.format(cause.place()));
    line
}

/// The line for an input that is no text.
fn bad_text_line(number: u32) -> StatusLine
    ensures { result.bytes ≡ bad_text_line number }
{
    let mut digits = Buffer::new();
    let mut line = line("bad text at ");
    line.push_str(digits.format(number));
    line
}

/// The line that tells of a status on standard error, without its end; empty for Done and Disagrees, of which nothing is told. It takes no
/// memory (docs/PROTOCOL.md, "Statuses").
pub fn line_of(status: ExitStatus) -> StatusLine
    ensures { result.bytes ≡ status_line status }
{
    match status {
        ExitStatus::Done => ArrayString::new(),
        ExitStatus::Usage => line(
            "usage: play | race | gen --seed N --count 1..100000 [--script] | audit | parts | messages | directory | snapshots | node --name PLACE[/LIFE] --founders PLACE,.. [--resilience 0..15] [--window 1..1008] [--pb-up-to 0..1024]",
        ),
        ExitStatus::BadScript(cause) => bad_script_line(cause),
        ExitStatus::TooLong => line("too long"),
        ExitStatus::ReadFault => line("read fault"),
        ExitStatus::WriteFault => line("write fault"),
        ExitStatus::NoMemory => line("no memory"),
        ExitStatus::Spent => line("spent"),
        ExitStatus::BadText { line } => bad_text_line(line),
        ExitStatus::Disagrees => ArrayString::new(),
    }
}

/// Tells of a status on standard error, but of Done and Disagrees, whose lines are empty.
pub fn tell(rt: &impl Eprint, status: ExitStatus) -> io::Result<()> {
    let line = line_of(status);
    if line.is_empty() {
        return Ok(());
    }
    eprintln!(rt; "{line}")
}
