ghost use Rattle.std.specs.Prelude.{◌≡◌, ◌≤◌, ◌++◌, length, OnOk, IfOk, string_bytes};
ghost use Rattle.std.specs.List.{flat_map};
ghost use Rattle.am_group.specs.Deliveries.{deliveries};
ghost use Rattle.am_report.specs.Logs.{logs_for};
ghost use Rattle.am_service_defs.specs.Replicas.{shown};
ghost use Rattle.am_service_defs.specs.Parts.{most_bytes_of_message, parts_of};
ghost use Rattle.am_services.specs.Texts.{snapshot_line, snapshot_at, snapshots_of, snapshots_text};
ghost use Rattle.am_services.specs.Telling.{replayed_then, snapshot_told};

use crate::directories::start_of;
use crate::telling::{TellsEntries, push_told};
use am_base::NoMemory;
use am_base::entry::Entry;
use am_base::name::Name;
use am_directory::replica::Replica;
use am_journal::journal::Journal;
use am_long_messages::parts::{part_count, part_of};
use am_text_output::text::{push_body, push_mark, push_name};
use std::alloc::Global;

/// Adds the line of a part of a node's snapshot for the Join of this number.
#[tactic(auto, unfolding(crate::specs::Texts::snapshot_line))]
fn push_part(out: &mut String, name: Name, join: u32, part: &[u8]) -> Result<(), NoMemory>
    ensures { OnOk result (string_bytes out.new
        ≡ string_bytes out.old ++ snapshot_line name join part.now) }
{
    out.push_str("snapshot ")?;
    push_name(out, name)?;
    write!(out, " {join} ")?;
    push_body(out, part)?;
    out.push_str("\n")
}

/// Adds the lines of all parts of a message.
fn push_parts(out: &mut String, name: Name, join: u32, message: &[u8]) -> Result<(), NoMemory>
    requires { length message.now ≤ most_bytes_of_message }
    ensures { OnOk result (string_bytes out.new
        ≡ string_bytes out.old ++ flat_map (snapshot_line name join) (parts_of message.now)) }
{
    for index in 0..part_count(message.len() as u32) {
        let part = part_of(message, index);
        push_part(out, name, join, part.bytes())?;
    }
    Ok(())
}

/// Adds what an entry asks of a replica that was fed it: the parts of its snapshot, at another name's Join.
#[tactic(auto, unfolding(crate::specs::Texts::snapshot_at))]
fn push_asked(
    out: &mut String,
    name: Name,
    number: u32,
    entry: &Entry,
    replica: &Replica,
) -> Result<(), NoMemory>
    ensures { OnOk result (string_bytes out.new
        ≡ string_bytes out.old ++ snapshot_at name number entry.now (shown replica.now)) }
{
    let Entry::Join(joiner) = entry else {
        return Ok(());
    };
    if *joiner == name || !replica.is_ready() {
        return Ok(());
    }
    let snapshot = replica.directory().snapshot(*out.allocator(), number)?;
    push_parts(out, name, number, snapshot.as_slice())
}

impl TellsEntries for Replica {
    ghost next = { replayed_then };

    ghost lines = { snapshot_told };

    fn tell(&mut self, out: &mut String, name: Name, given: (u32, Entry)) -> Result<(), NoMemory> {
        self.feed(given.0, &given.1)?;
        push_asked(out, name, given.0, &given.1, self)
    }
}

/// Adds the snapshots that a name could send.
#[tactic(auto, using(crate::proofs::Told::snapshots_told_are_snapshots_of))]
fn push_snapshots(out: &mut String, journal: &Journal, name: Name) -> Result<(), NoMemory>
    ensures { OnOk result (string_bytes out.new ≡ string_bytes out.old
        ++ snapshots_of journal.now.founding (name, deliveries journal.now.records name)) }
{
    let start = start_of(journal.founding(), journal.records(), name);
    let mut replica = Replica::new(*out.allocator(), start)?;
    push_told(out, &mut replica, journal.records(), name)
}

/// The snapshots that each of these names could send, and the closing mark (docs/DIRECTORY.md, "Printed").
#[tactic(auto, using(crate::proofs::Given::logs_of_names_rules), unfolding(crate::specs::Texts::snapshots_text))]
pub fn snapshots_text(
    alloc: Global,
    journal: &Journal,
    names: &[Name],
    broken: Option<u32>,
) -> Result<String, NoMemory>
    ensures { IfOk result (λ text. string_bytes text ≡ snapshots_text journal.now.founding
        (logs_for journal.now.records names.now) broken) }
{
    let mut out = String::new(alloc);
    for name in names {
        push_snapshots(&mut out, journal, *name)?;
    }
    push_mark(&mut out, broken)?;
    Ok(out)
}
