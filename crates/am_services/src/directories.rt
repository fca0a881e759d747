ghost use Rattle.std.specs.Prelude.{◌≡◌, ◌++◌, length, decimal, OnOk, IfOk, string_bytes};
ghost use Rattle.std.specs.List.{fold};
ghost use Rattle.am_group.specs.Deliveries.{entries_given_to, deliveries};
ghost use Rattle.am_report.specs.Logs.{logs_for};
ghost use Rattle.am_service_defs.specs.Replicas.{shown};
ghost use Rattle.am_services.specs.Texts.{start_of, last_given_number, directory_line, setting_line, directory_lines, directory_of, directories_text};
ghost use Rattle.am_services.specs.Telling.{replayed_with};

use am_base::NoMemory;
use am_base::founding::Founding;
use am_base::name::Name;
use am_directory::replica::Replica;
use am_group::event::Record;
use am_journal::delivered::given_to;
use am_journal::journal::Journal;
use am_service_defs::setting::Setting;
use am_text_output::text::{push_body, push_mark, push_name};
use std::alloc::Global;

/// The number from which a name's list begins, by what it was given.
#[tactic(auto, using(crate::proofs::Starts::start_of_log_rules))]
pub(crate) fn start_of(founding: &Founding, records: &[Record], name: Name) -> u32
    ensures { result ≡ start_of founding.now (name, deliveries records.now name) }
{
    for item in records {
        if let Some((number, _)) = given_to(item, name) {
            return number;
        }
    }
    if founding.founders().has(name) { 1 } else { 2 }
}

/// Adds the line of a node's directory.
#[tactic(auto, unfolding(crate::specs::Texts::directory_line))]
fn push_head(out: &mut String, name: Name, front: u32, what: &str) -> Result<(), NoMemory>
    ensures { OnOk result (string_bytes out.new
        ≡ string_bytes out.old ++ directory_line name front what.now) }
{
    out.push_str("directory ")?;
    push_name(out, name)?;
    write!(out, " {front} {what}")?;
    out.push_str("\n")
}

/// Adds the line of a directory that has so many keys.
#[tactic(auto, unfolding(crate::specs::Texts::directory_line))]
fn push_count(out: &mut String, name: Name, front: u32, count: usize) -> Result<(), NoMemory>
    ensures { OnOk result (string_bytes out.new
        ≡ string_bytes out.old ++ directory_line name front (decimal count)) }
{
    out.push_str("directory ")?;
    push_name(out, name)?;
    writeln!(out, " {front} {count}")
}

/// Adds the line of a key.
#[tactic(auto, unfolding(crate::specs::Texts::setting_line))]
fn push_setting(out: &mut String, name: Name, key: &[u8], setting: &Setting) -> Result<(), NoMemory>
    ensures { OnOk result (string_bytes out.new
        ≡ string_bytes out.old ++ setting_line name (key.now, setting.now)) }
{
    out.push_str("name ")?;
    push_name(out, name)?;
    out.push_str(" ")?;
    push_body(out, key)?;
    out.push_str(" ")?;
    push_body(out, setting.value.bytes())?;
    let number = setting.number;
    writeln!(out, " {number}")
}

/// Adds what a replica is.
#[tactic(auto, unfolding(crate::specs::Texts::directory_lines))]
fn push_replica(out: &mut String, name: Name, front: u32, replica: &Replica) -> Result<(), NoMemory>
    ensures { OnOk result (string_bytes out.new
        ≡ string_bytes out.old ++ directory_lines name front (shown replica.now)) }
{
    if !replica.is_ready() {
        return push_head(out, name, front, "waiting");
    }
    let directory = replica.directory();
    push_count(out, name, front, directory.len())?;
    for (key, setting) in directory.iter() {
        push_setting(out, name, key.as_slice(), setting)?;
    }
    Ok(())
}

/// Feeds what a record gave to a name, where it gave something; the number of the last entry that it was given.
fn feed_given(replica: &mut Replica, front: u32, name: Name, item: &Record) -> Result<u32, NoMemory>
    ensures fed { OnOk result (replica.new ≡ replayed_with replica.old (entries_given_to name item.now)) }
    ensures front { IfOk result (λ last. last ≡ fold (λ f pair. pair.0) front (entries_given_to name item.now)) }
{
    let Some((number, entry)) = given_to(item, name) else {
        return Ok(front);
    };
    replica.feed(number, &entry.to_entry())?;
    Ok(number)
}

/// Adds the directory of a name.
#[tactic(auto, using(crate::proofs::Given::folded_entries_rules, crate::proofs::Told::directory_told_is_directory_of))]
fn push_directory(
    out: &mut String,
    founding: &Founding,
    records: &[Record],
    name: Name,
) -> Result<(), NoMemory>
    ensures { OnOk result (string_bytes out.new
        ≡ string_bytes out.old ++ directory_of founding.now (name, deliveries records.now name)) }
{
    let mut replica = Replica::new(*out.allocator(), start_of(founding, records, name))?;
    let mut front = 0;
    for item in records {
        front = feed_given(&mut replica, front, name, item)?;
    }
    push_replica(out, name, front, &replica)
}

/// The directory of each of these names, and the closing mark (docs/DIRECTORY.md, "Printed").
#[tactic(auto, using(crate::proofs::Given::logs_of_names_rules), unfolding(crate::specs::Texts::directories_text))]
pub fn directories_text(
    alloc: Global,
    journal: &Journal,
    names: &[Name],
    broken: Option<u32>,
) -> Result<String, NoMemory>
    ensures { IfOk result (λ text. string_bytes text ≡ directories_text journal.now.founding
        (logs_for journal.now.records names.now) broken) }
{
    let mut out = String::new(alloc);
    for name in names {
        push_directory(&mut out, journal.founding(), journal.records(), *name)?;
    }
    push_mark(&mut out, broken)?;
    Ok(out)
}
