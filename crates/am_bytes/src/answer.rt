ghost use Rattle.std.specs.Prelude.{◌≡◌, ◌≤◌, ◌++◌, length, OnOk};
ghost use Rattle.am_node_lines.specs.Speakers.{speaking, AnswersBy, HasFewLetters};
ghost use Rattle.am_base.specs.Most.{most_bytes_of_packet};
ghost use Rattle.am_bytes.specs.Answers.{to_bytes, counted_bytes, letter_bytes, letters_bytes, reply_bytes, event_answer};

use crate::event::read_event;
use crate::field::{put, put_byte, put_flag, put_set, put_short};
use crate::outcome::{kind_of, put_fields};
use crate::standing::NodeStanding;
use am_base::NoMemory;
use am_base::names::Names;
use am_node_lines::reply::LineReply;
use am_node_lines::speaker::Speaker;
use am_packet::letter::Letter;
use std::alloc::Global;

/// The kind of what comes where how the node stands was asked.
const INFO: u8 = 0;
/// Where a number of the node is at its end.
const SPENT: u8 = 254;
/// Where bytes are no event.
const BAD: u8 = 255;

/// Adds for whom a letter is.
#[tactic(auto, unfolding(crate::specs::Answers::to_bytes))]
fn put_to(out: &mut Vec<u8>, any: bool, to: Names) -> Result<(), NoMemory>
    ensures { OnOk result (out.new.items ≡ out.old.items ++ to_bytes any to) }
{
    put_flag(out, any)?;
    put_set(out, to)
}

/// Adds a packet's bytes, with their number before them.
#[tactic(auto, unfolding(crate::specs::Answers::counted_bytes))]
fn put_counted(out: &mut Vec<u8>, bytes: &[u8]) -> Result<(), NoMemory>
    requires { length bytes.now ≤ most_bytes_of_packet }
    ensures { OnOk result (out.new.items ≡ out.old.items ++ counted_bytes bytes.now) }
{
    put_short(out, bytes.len() as u16)?;
    put(out, bytes)
}

/// Adds a letter: for whom it is, and its bytes with their number before them.
#[tactic(auto, unfolding(crate::specs::Answers::letter_bytes))]
fn put_letter(out: &mut Vec<u8>, letter: &Letter) -> Result<(), NoMemory>
    ensures { OnOk result (out.new.items ≡ out.old.items ++ letter_bytes letter.now) }
{
    put_to(out, letter.is_for_any(), letter.to())?;
    put_counted(out, letter.bytes())
}

/// Adds letters in order, with their number before them.
#[tactic(auto, unfolding(crate::specs::Answers::letters_bytes))]
fn put_letters(out: &mut Vec<u8>, letters: &[Letter]) -> Result<(), NoMemory>
    requires { length letters.now ≤ 9 }
    ensures { OnOk result (out.new.items ≡ out.old.items ++ letters_bytes letters.now) }
{
    put_byte(out, letters.len() as u8)?;
    for letter in letters {
        put_letter(out, letter)?;
    }
    Ok(())
}

/// Adds what came of an event. After an error a part of it may have been added.
#[tactic(auto, unfolding(crate::specs::Answers::reply_bytes))]
fn put_reply(out: &mut Vec<u8>, reply: &LineReply) -> Result<(), NoMemory>
    requires { HasFewLetters reply.now }
    ensures { OnOk result (out.new.items ≡ out.old.items ++ reply_bytes reply.now) }
{
    match reply {
        LineReply::Did { outcome, letters } => {
            put_byte(out, kind_of(outcome))?;
            put_fields(out, outcome)?;
            put_letters(out, letters.as_slice())
        }
        LineReply::Info => put(out, &[INFO, 0]),
        LineReply::Spent => put(out, &[SPENT, 0]),
        LineReply::Bad(cause) => put(out, &[BAD, cause.cause(), 0]),
    }
}

/// Does what an event's bytes ask of a node, and adds the bytes of the answer: those that the protocol gives for the whole node. It
/// is an error where there is no memory; the node may have changed then.
pub fn answer(
    speaker: &mut Speaker,
    alloc: Global,
    event: &[u8],
    out: &mut Vec<u8>,
) -> Result<(), NoMemory>
    ensures ok { OnOk result (AnswersBy (λ m. event_answer m event.now)
        (speaking speaker.old).node out.old.items (speaking speaker.new).node out.new.items) }
    ensures rules { (speaking speaker.new).rules ≡ (speaking speaker.old).rules }
{
    let event = read_event(alloc, event)?;
    let reply = speaker.reply(alloc, event)?;
    NodeStanding::of(speaker.node()).put(out)?;
    put_reply(out, &reply)
}
