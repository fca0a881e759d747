ghost use Rattle.std.specs.Prelude.{◌≤◌, length};
ghost use Rattle.std.specs.Fmt.{WritesInCalls};
ghost use Rattle.std.specs.List.{flat_map};
ghost use Rattle.am_group_defs.specs.Text.{hex_byte, body_text, resilience_text, entry_text};

use crate::name::{push_name, push_names, push_stamp};
use crate::number::push_behind;
use am_base::entry::{EntryParts, EntryRef};
use am_base::founding::Founding;
use am_io::writer::Writer;
use std::str;

/// How many bytes are made digits at once.
const CHUNK: usize = 64;

// Adds two lower-case hexadecimal digits for each of a few bytes.
fn push_chunk<O: Writer>(out: &mut O, bytes: &[u8])
    requires { length bytes.now ≤ 64 }
    ensures { WritesInCalls O.writes out.old (flat_map hex_byte bytes.now) out.new }
{
    let mut room = [0u8; 2 * CHUNK];
    let digits = &mut room[..2 * bytes.len()];
    hex::encode_to_slice(bytes, digits).unwrap();
    let Ok(words) = str::from_utf8(digits) else {
        unreachable!()
    };
    out.put(words);
}

/// Adds two lower-case hexadecimal digits for each byte.
pub fn push_bytes<O: Writer>(out: &mut O, bytes: &[u8])
    ensures { WritesInCalls O.writes out.old (flat_map hex_byte bytes.now) out.new }
{
    let mut rest = bytes;
    'chunks: while CHUNK < rest.len() {
        let (chunk, more) = rest.split_at(CHUNK);
        push_chunk(out, chunk);
        rest = more;
    }
    push_chunk(out, rest);
}

/// Adds a body: its bytes, or a dash where there are none.
#[tactic(auto, unfolding(am_group_defs::specs::Text::body_text))]
pub fn push_body<O: Writer>(out: &mut O, bytes: &[u8])
    ensures { WritesInCalls O.writes out.old (body_text bytes.now) out.new }
{
    if bytes.is_empty() {
        out.put("-");
        return;
    }
    push_bytes(out, bytes);
}

/// Adds a resilience, where it isn't the founding's.
#[tactic(auto, unfolding(am_group_defs::specs::Text::resilience_text))]
pub fn push_resilience<O: Writer>(out: &mut O, founding: &Founding, resilience: u8)
    ensures { WritesInCalls O.writes out.old (resilience_text founding.now resilience) out.new }
{
    if resilience == founding.resilience() {
        return;
    }
    push_behind(out, " r", u64::from(resilience));
}

/// Adds an entry.
#[tactic(auto, using(am_io::proofs::Writers::two_words_written_in_calls, am_io::proofs::Writers::five_words_written_in_calls), unfolding(am_group_defs::specs::Text::entry_text))]
pub fn push_entry<O: Writer>(out: &mut O, founding: &Founding, entry: &EntryRef<'_>)
    ensures { WritesInCalls O.writes out.old (entry_text founding.now entry.now) out.new }
{
    match entry.parts() {
        EntryParts::Data { from, req, body } => {
            out.put("data ");
            push_name(out, *from);
            push_behind(out, " ", u64::from(*req));
            out.put(" ");
            push_body(out, body.bytes());
        }
        EntryParts::Join(name) => {
            out.put("join ");
            push_name(out, *name);
        }
        EntryParts::Leave(name) => {
            out.put("leave ");
            push_name(out, *name);
        }
        EntryParts::View(view) => {
            out.put("view ");
            push_stamp(out, view.stamp);
            out.put(" ");
            push_names(out, view.members);
            push_resilience(out, founding, view.resilience);
        }
    }
}
