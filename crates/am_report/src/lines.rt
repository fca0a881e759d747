ghost use Rattle.std.specs.Prelude.{◌≡◌, ◌++◌, codes};
ghost use Rattle.std.specs.Fmt.{WritesInCalls};
ghost use Rattle.am_group_defs.specs.Text.{entry_text, newline, record_line, group_line, log_line, empty_log_line, mark_line};

use crate::entry::push_entry;
use crate::event::push_event;
use crate::letter::push_letters;
use crate::name::push_name;
use crate::number::{push_behind, push_number};
use crate::outcome::push_outcome;
use am_base::entry::{Entry, EntryRef};
use am_base::founding::Founding;
use am_base::name::Name;
use am_group::event::Record;
use am_io::writer::Writer;

/// Adds the line of an event of this number, before which so many letters were sent.
pub fn push_record<O: Writer>(
    out: &mut O,
    founding: &Founding,
    number: u32,
    before: u32,
    happened: &Record,
)
    ensures { WritesInCalls O.writes out.old (record_line founding.now number before happened.now) out.new }
{
    push_number(out, u64::from(number));
    out.put(" ");
    push_event(out, founding, &happened.event);
    out.put(" : ");
    push_outcome(out, founding, &happened.outcome);
    let place = happened.event.node.place();
    push_letters(out, place, before, happened.packets.as_slice());
    out.put("\n");
}

// Adds an entry after a blank, and the end of its line.
fn push_entry_end<O: Writer>(out: &mut O, founding: &Founding, entry: &EntryRef<'_>)
    ensures { WritesInCalls O.writes out.old (codes " " ++ (entry_text founding.now entry.now ++ newline)) out.new }
{
    out.put(" ");
    push_entry(out, founding, entry);
    out.put("\n");
}

/// Adds the line of an entry of the group's list.
pub fn push_group_line<O: Writer>(out: &mut O, founding: &Founding, number: u64, entry: &Entry)
    ensures { WritesInCalls O.writes out.old (group_line founding.now number entry.now) out.new }
{
    push_behind(out, "group ", number);
    push_entry_end(out, founding, &entry.as_ref());
}

/// Adds the line of an entry, with its number, that was given to a name's application.
pub fn push_log_line<O: Writer>(
    out: &mut O,
    founding: &Founding,
    name: Name,
    given: (u32, EntryRef<'_>),
)
    ensures { WritesInCalls O.writes out.old (log_line founding.now name given.entry.0 given.entry.1) out.new }
{
    let (number, entry) = given;
    out.put("log ");
    push_name(out, name);
    push_behind(out, " ", u64::from(number));
    push_entry_end(out, founding, &entry);
}

/// Adds the line of a name whose application was given nothing.
#[tactic(auto, using(am_io::proofs::Writers::three_words_written_in_calls), unfolding(am_group_defs::specs::Text::empty_log_line))]
pub fn push_empty_log<O: Writer>(out: &mut O, name: Name)
    ensures { WritesInCalls O.writes out.old (empty_log_line name) out.new }
{
    out.put("log ");
    push_name(out, name);
    out.put(" empty\n");
}

/// Adds the last line: `lawful`, or which event broke the run.
#[tactic(auto, using(am_io::proofs::Writers::two_words_written_in_calls), unfolding(am_group_defs::specs::Text::mark_line))]
pub fn push_mark<O: Writer>(out: &mut O, broken: Option<u32>)
    ensures { WritesInCalls O.writes out.old (mark_line broken) out.new }
{
    match broken {
        None => out.put("lawful\n"),
        Some(number) => {
            push_behind(out, "void from ", u64::from(number));
            out.put("\n");
        }
    }
}
