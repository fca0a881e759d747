ghost use Rattle.std.specs.Prelude.{◌≡◌, ◌≤◌, ◌<◌, ◌++◌, length, nat_lt, IfOk};
ghost use Rattle.std.specs.Fmt.{WritesInCalls};
ghost use Rattle.am_base.specs.Most.{most_events_of_run};
ghost use Rattle.am_group.specs.Deliveries.{entries_given_to, deliveries};
ghost use Rattle.am_group.specs.Journals.{letters_of_records};
ghost use Rattle.am_group_defs.specs.Text.{records_text, group_text, log_text, logs_text, play_text};
ghost use Rattle.am_report.specs.Logs.{logs_for, given_lines};

use crate::lines::{push_empty_log, push_group_line, push_log_line, push_mark, push_record};
use am_base::entry::Entry;
use am_base::founding::Founding;
use am_base::name::Name;
use am_group::event::Record;
use am_io::writer::Writer;
use am_journal::delivered::given_to;
use am_journal::journal::Journal;

// Adds the lines of a run's events.
#[tactic(auto, unfolding(am_group_defs::specs::Text::records_text))]
fn push_records<O: Writer>(out: &mut O, founding: &Founding, records: &[Record])
    requires events { length records.now ≤ most_events_of_run }
    requires letters { length (letters_of_records records.now) ≤ 2400000 }
    ensures { WritesInCalls O.writes out.old (records_text founding.now records.now) out.new }
{
    let mut before = 0;
    for at in 0..records.len() {
        let happened = &records[at];
        push_record(out, founding, at as u32 + 1, before, happened);
        before += happened.packets.as_slice().len() as u32;
    }
}

// Adds the lines of a group's list.
#[tactic(auto, unfolding(am_group_defs::specs::Text::group_text))]
fn push_group<O: Writer>(out: &mut O, founding: &Founding, group: &[Entry])
    ensures { WritesInCalls O.writes out.old (group_text founding.now group.now) out.new }
{
    for at in 0..group.len() {
        push_group_line(out, founding, at as u64 + 1, &group[at]);
    }
}

// Adds the line of what a record gave to a name, where it gave something; whether it did.
fn push_given<O: Writer>(out: &mut O, founding: &Founding, name: Name, item: &Record) -> bool
    ensures text { WritesInCalls O.writes out.old (given_lines founding.now name (entries_given_to name item.now)) out.new }
    ensures some { result ≡ nat_lt 0 (length (entries_given_to name item.now)) }
{
    let Some(given) = given_to(item, name) else {
        return false;
    };
    push_log_line(out, founding, name, given);
    true
}

// Adds the lines of what records gave to a name, or the line that it was given nothing.
fn push_log<O: Writer>(out: &mut O, founding: &Founding, records: &[Record], name: Name)
    ensures { WritesInCalls O.writes out.old (log_text founding.now name (deliveries records.now name)) out.new }
{
    let mut some = false;
    for item in records {
        some |= push_given(out, founding, name, item);
    }
    if some {
        return;
    }
    push_empty_log(out, name);
}

// Adds the lines of each of these names in turn.
fn push_logs<O: Writer>(out: &mut O, founding: &Founding, records: &[Record], names: &[Name])
    ensures { WritesInCalls O.writes out.old (logs_text founding.now (logs_for records.now names.now)) out.new }
{
    for at in 0..names.len() {
        push_log(out, founding, records, names[at]);
    }
}

/// Adds all that is printed of a run: its events, the group's list, what each of these names was given, and which event broke
/// it, if one did (docs/PROTOCOL.md, "Play text"). The names are those that have or had a list, ascending.
pub fn push_play<O: Writer>(
    out: &mut O,
    journal: &Journal,
    group: &[Entry],
    names: &[Name],
    broken: Option<u32>,
)
    ensures { WritesInCalls O.writes out.old
        (play_text journal.now.founding journal.now.records group.now
        (logs_for journal.now.records names.now) broken) out.new }
{
    let founding = journal.founding();
    let records = journal.records();
    push_records(out, founding, records);
    push_group(out, founding, group);
    push_logs(out, founding, records, names);
    push_mark(out, broken);
}
