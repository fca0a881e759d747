//! Parts of what is printed, at the end of a text in memory.

ghost use Rattle.std.specs.Prelude.{◌≡◌, ◌++◌, OnOk, string_bytes};
ghost use Rattle.std.specs.List.{flat_map};
ghost use Rattle.am_group_defs.specs.Text.{name_text, stamp_text, names_text, hex_byte, body_text, outcome_text, mark_line};

use crate::held::Held;
use am_base::NoMemory;
use am_base::founding::Founding;
use am_base::name::{Name, Stamp};
use am_base::names::Names;
use am_base::outcome::Outcome;
use am_report::{entry, lines, name, outcome};

/// Adds a name: its place, and a life other than the first after a slash. After an error a part of it may have been added.
pub fn push_name(out: &mut String, name: Name) -> Result<(), NoMemory>
    ensures { OnOk result (string_bytes out.new ≡ string_bytes out.old ++ name_text name) }
{
    let mut held = Held::new(out);
    name::push_name(&mut held, name);
    held.finish()
}

/// Adds a stamp. After an error a part of it may have been added.
pub fn push_stamp(out: &mut String, stamp: Stamp) -> Result<(), NoMemory>
    ensures { OnOk result (string_bytes out.new ≡ string_bytes out.old ++ stamp_text stamp) }
{
    let mut held = Held::new(out);
    name::push_stamp(&mut held, stamp);
    held.finish()
}

/// Adds the names of a set, ascending, with commas between them, or a dash. After an error a part of it may have been added.
pub fn push_names(out: &mut String, names: Names) -> Result<(), NoMemory>
    ensures { OnOk result (string_bytes out.new ≡ string_bytes out.old ++ names_text names) }
{
    let mut held = Held::new(out);
    name::push_names(&mut held, names);
    held.finish()
}

/// Adds two lower-case hexadecimal digits for each byte. After an error a part of it may have been added.
pub fn push_bytes(out: &mut String, bytes: &[u8]) -> Result<(), NoMemory>
    ensures { OnOk result (string_bytes out.new ≡ string_bytes out.old ++ flat_map hex_byte bytes.now) }
{
    let mut held = Held::new(out);
    entry::push_bytes(&mut held, bytes);
    held.finish()
}

/// Adds a body: its bytes, or a dash where there are none. After an error a part of it may have been added.
pub fn push_body(out: &mut String, bytes: &[u8]) -> Result<(), NoMemory>
    ensures { OnOk result (string_bytes out.new ≡ string_bytes out.old ++ body_text bytes.now) }
{
    let mut held = Held::new(out);
    entry::push_body(&mut held, bytes);
    held.finish()
}

/// Adds an outcome: its word and its parts. After an error a part of it may have been added.
pub fn push_outcome(
    out: &mut String,
    founding: &Founding,
    outcome: &Outcome,
) -> Result<(), NoMemory>
    ensures { OnOk result (string_bytes out.new ≡ string_bytes out.old ++ outcome_text founding.now outcome.now) }
{
    let mut held = Held::new(out);
    outcome::push_outcome(&mut held, founding, outcome);
    held.finish()
}

/// Adds the last line: `lawful`, or which event broke the run. After an error a part of it may have been added.
pub fn push_mark(out: &mut String, broken: Option<u32>) -> Result<(), NoMemory>
    ensures { OnOk result (string_bytes out.new ≡ string_bytes out.old ++ mark_line broken) }
{
    let mut held = Held::new(out);
    lines::push_mark(&mut held, broken);
    held.finish()
}
