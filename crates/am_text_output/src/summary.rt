ghost use Rattle.std.specs.Prelude.{◌≡◌, ◌++◌, OnOk, IfOk, string_bytes};
ghost use Rattle.am_group_defs.specs.Play.{count_line};
ghost use Rattle.am_text_output.specs.Summaries.{summary_for};

use crate::text::push_mark;
use am_base::NoMemory;
use std::alloc::Global;

/// What a summary tells of a run (docs/PROTOCOL.md, "Play text").
#[derive(Clone, Copy, PartialEq, Eq, Debug)]
pub struct Summary {
    /// How many events were done.
    pub events: usize,
    /// How many packets were sent.
    pub packets: usize,
    /// How many entries the group list has.
    pub entries: usize,
    /// How many events took an entry.
    pub took: usize,
    /// How many events told that a send stands in the list.
    pub sent: usize,
    /// How many events found no room.
    pub held: usize,
    /// Which event broke the run, if one did.
    pub broken: Option<u32>,
}

// Adds a word and a number as a line.
fn push_count(out: &mut String, word: &str, count: usize) -> Result<(), NoMemory>
    ensures { OnOk result (string_bytes out.new
        ≡ string_bytes out.old ++ count_line word.now count) }
{
    writeln!(out, "{word} {count}")
}

/// A summary as text, a line for each number, and for whether the run is lawful.
#[tactic(auto, unfolding(crate::specs::Summaries::summary_for))]
pub fn summary_text(alloc: Global, summary: &Summary) -> Result<String, NoMemory>
    ensures { IfOk result (λ text. string_bytes text ≡ summary_for summary.now) }
{
    let mut out = String::new(alloc);
    push_count(&mut out, "events", summary.events)?;
    push_count(&mut out, "packets", summary.packets)?;
    push_count(&mut out, "entries", summary.entries)?;
    push_count(&mut out, "took", summary.took)?;
    push_count(&mut out, "sent", summary.sent)?;
    push_count(&mut out, "held", summary.held)?;
    push_mark(&mut out, summary.broken)?;
    Ok(out)
}
