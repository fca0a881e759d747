ghost use Rattle.std.specs.Prelude.{◌≡◌, ◌≤◌, ◌<◌, ◌++◌, ℕ, length, OnOk, IfOk, string_bytes};
ghost use Rattle.am_group.specs.Deliveries.{deliveries};
ghost use Rattle.am_report.specs.Logs.{logs_for};
ghost use Rattle.am_service_defs.specs.Parts.{most_bytes_of_message, part_count, part_of};
ghost use Rattle.am_services.specs.Texts.{parts_text, message_line, messages_of, messages_text};
ghost use Rattle.am_services.specs.Telling.{assembled_then, message_told};

use crate::telling::{TellsEntries, push_told};
use am_base::NoMemory;
use am_base::entry::Entry;
use am_base::name::Name;
use am_group::event::Record;
use am_long_messages::assembler::Assembler;
use am_long_messages::parts::{part_count, part_of};
use am_service_defs::fed::Fed;
use am_text_output::text::{push_body, push_mark, push_name};
use std::alloc::Global;

/// The parts of a message, a line of hexadecimal digits each.
pub fn parts_text(alloc: Global, message: &[u8]) -> Result<String, NoMemory>
    requires { length message.now ≤ most_bytes_of_message }
    ensures { IfOk result (λ text. string_bytes text ≡ parts_text message.now) }
{
    let mut out = String::new(alloc);
    for index in 0..part_count(message.len() as u32) {
        let part = part_of(message, index);
        push_body(&mut out, part.bytes())?;
        out.push_str("\n")?;
    }
    Ok(out)
}

/// Adds the line of a message of a name that ended at a node, with an entry of this number.
#[tactic(auto, unfolding(crate::specs::Texts::message_line))]
fn push_message(
    out: &mut String,
    name: Name,
    number: u32,
    from: Name,
    message: &[u8],
) -> Result<(), NoMemory>
    ensures { OnOk result (string_bytes out.new
        ≡ string_bytes out.old ++ message_line name number from message.now) }
{
    out.push_str("message ")?;
    push_name(out, name)?;
    write!(out, " {number} ")?;
    push_name(out, from)?;
    out.push_str(" ")?;
    push_body(out, message)?;
    out.push_str("\n")
}

impl TellsEntries for Assembler {
    ghost next = { assembled_then };

    ghost lines = { message_told };

    fn tell(&mut self, out: &mut String, name: Name, given: (u32, Entry)) -> Result<(), NoMemory> {
        let (number, entry) = given;
        let Fed::Whole { from } = self.feed(&entry) else {
            return Ok(());
        };
        match self.message(from) {
            Some(message) => push_message(out, name, number, from, message),
            None => unreachable!(),
        }
    }
}

/// Adds the messages that ended in what a name was given.
#[tactic(auto, using(crate::proofs::Told::messages_told_are_messages_of))]
fn push_messages(out: &mut String, records: &[Record], name: Name) -> Result<(), NoMemory>
    ensures { OnOk result (string_bytes out.new
        ≡ string_bytes out.old ++ messages_of (name, deliveries records.now name)) }
{
    let mut assembler = Assembler::new(*out.allocator())?;
    push_told(out, &mut assembler, records, name)
}

/// The messages that ended in what each of these names was given, and the closing mark (docs/MESSAGES.md, "Printed").
#[tactic(auto, using(crate::proofs::Given::logs_of_names_rules), unfolding(crate::specs::Texts::messages_text))]
pub fn messages_text(
    alloc: Global,
    records: &[Record],
    names: &[Name],
    broken: Option<u32>,
) -> Result<String, NoMemory>
    ensures { IfOk result (λ text. string_bytes text
        ≡ messages_text (logs_for records.now names.now) broken) }
{
    let mut out = String::new(alloc);
    for name in names {
        push_messages(&mut out, records, *name)?;
    }
    push_mark(&mut out, broken)?;
    Ok(out)
}
