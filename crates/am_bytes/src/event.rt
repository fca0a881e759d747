ghost use Rattle.std.specs.Prelude.{◌≡◌, ◌≤◌, length, IfOk};
ghost use Rattle.am_packet.specs.Reading.{flag_at, read_set_at};
ghost use Rattle.am_node_lines.specs.Lines.{only_word};
ghost use Rattle.am_bytes.specs.Events.{word_at, field_of, count_in, name_in, sized, reset_in_bytes, hear_in, alone, event_by, event_of};
ghost use Rattle.am_base.specs.declared.event.NodeEvent.TheVariants as does;
ghost use Rattle.am_node_lines.specs.declared.line.Line.TheVariants as said;
ghost use Rattle.am_node_lines.specs.Lines.{line_from};
ghost use Rattle.am_bytes.specs.Events.{body_in};

use am_base::NoMemory;
use am_base::body::SentBody;
use am_base::event::NodeEvent;
use am_base::items::Items;
use am_base::limits::{MOST_BODY, MOST_NUMBER, MOST_PACKET, MOST_RESILIENCE};
use am_base::name::Name;
use am_base::names::Names;
use am_node_lines::line::{BadLine, Line, Word};
use am_node_lines::reading::MOST_LINE;
use am_text_defs::fault::FieldFault;
use byteorder::{BigEndian, ByteOrder};
use std::alloc::Global;

/// The word that an event of this kind stands for.
#[tactic(auto, unfolding(crate::specs::Events::word_at))]
fn word_at(kind: u8) -> Option<Word>
    ensures { result ≡ word_at kind }
{
    match kind {
        1 => Some(Word::Tick),
        2 => Some(Word::Take),
        3 => Some(Word::Join),
        4 => Some(Word::Leave),
        5 => Some(Word::State),
        6 => Some(Word::Info),
        16 => Some(Word::Send),
        17 => Some(Word::Done),
        18 => Some(Word::Ask),
        19 => Some(Word::GiveUp),
        20 => Some(Word::Reset),
        21 => Some(Word::Hear),
        _ => None,
    }
}

/// The number of a request or a round, 1 to 2,000,000,000.
#[tactic(auto, unfolding(crate::specs::Events::count_in))]
fn count(fields: &[u8]) -> Result<u32, FieldFault>
    ensures { result ≡ count_in fields.now }
{
    if fields.len() != 4 {
        return Err(FieldFault::Form);
    }
    let number = BigEndian::read_u32(fields);
    if 0 < number && number <= MOST_NUMBER {
        return Ok(number);
    }
    Err(FieldFault::Limit)
}

/// A name alone.
#[tactic(auto, unfolding(crate::specs::Events::name_in))]
fn name(fields: &[u8]) -> Result<Name, FieldFault>
    ensures { result ≡ name_in fields.now }
{
    if fields.len() != 1 {
        return Err(FieldFault::Form);
    }
    Ok(Name::of_byte(fields[0]))
}

/// Whether a letter is for any life of its places.
#[tactic(auto, unfolding(am_packet::specs::Reading::flag_at))]
fn any(fields: &[u8]) -> Result<bool, FieldFault>
    requires { 11 ≤ length fields.now }
    ensures { result ≡ field_of (flag_at fields.now 0) }
{
    match fields[0] {
        0 => Ok(false),
        1 => Ok(true),
        _ => Err(FieldFault::Form),
    }
}

/// The names that a letter is for.
#[tactic(auto, unfolding(am_packet::specs::Reading::read_set_at))]
fn addressees(fields: &[u8]) -> Result<Names, FieldFault>
    requires { 11 ≤ length fields.now }
    ensures { result ≡ field_of (read_set_at fields.now 1) }
{
    let mask = BigEndian::read_u16(&fields[1..]);
    let lives = BigEndian::read_u64(&fields[3..]);
    match Names::of_parts(mask, lives) {
        Some(set) => Ok(set),
        None => Err(FieldFault::Form),
    }
}

/// Asks what came of a send.
fn done(fields: &[u8]) -> Line
    ensures { result ≡ line_from (count_in fields.now) (λ req. said.Does (does.Done req)) }
{
    match count(fields) {
        Ok(req) => Line::Does(NodeEvent::Done(req)),
        Err(fault) => Line::Bad(BadLine::of(fault)),
    }
}

/// Asks what came of a ballot.
fn ask(fields: &[u8]) -> Line
    ensures { result ≡ line_from (count_in fields.now) (λ round. said.Does (does.Ask round)) }
{
    match count(fields) {
        Ok(round) => Line::Does(NodeEvent::Ask(round)),
        Err(fault) => Line::Bad(BadLine::of(fault)),
    }
}

/// Gives up a name.
fn give_up(fields: &[u8]) -> Line
    ensures { result ≡ line_from (name_in fields.now) (λ name. said.Does (does.GiveUp name)) }
{
    match name(fields) {
        Ok(name) => Line::Does(NodeEvent::GiveUp(name)),
        Err(fault) => Line::Bad(BadLine::of(fault)),
    }
}

/// A reset of these sizes.
fn sized(least: u8, resilience: u8) -> Line
    ensures { result ≡ sized least resilience }
{
    if 0 < least && least <= 16 && resilience <= MOST_RESILIENCE {
        return Line::Does(NodeEvent::Reset { least, resilience });
    }
    Line::Bad(BadLine::Limit)
}

/// What a reset asks for.
#[tactic(auto, unfolding(crate::specs::Events::reset_in_bytes))]
fn reset(fields: &[u8]) -> Line
    ensures { result ≡ reset_in_bytes fields.now }
{
    if fields.len() != 2 {
        return Line::Bad(BadLine::Form);
    }
    sized(fields[0], fields[1])
}

/// A send of a body. It is an error where there is no memory for it.
#[tactic(auto, unfolding(crate::specs::Events::body_in))]
fn send(alloc: Global, fields: &[u8]) -> Result<Line, NoMemory>
    ensures { IfOk result (λ line. line ≡ line_from (body_in fields.now) (λ body. said.Does (does.Send body))) }
{
    if MOST_BODY < fields.len() {
        return Ok(Line::Bad(BadLine::Limit));
    }
    Ok(Line::Does(NodeEvent::Send(SentBody::of_bytes(alloc, fields)?)))
}

/// A letter that came. It is an error where there is no memory for its bytes.
#[tactic(auto, unfolding(crate::specs::Events::hear_in, crate::specs::Events::packet_bytes_in))]
fn hear(alloc: Global, fields: &[u8]) -> Result<Line, NoMemory>
    ensures { IfOk result (λ line. line ≡ hear_in fields.now) }
{
    if fields.len() < 11 {
        return Ok(Line::Bad(BadLine::Form));
    }
    let any = match any(fields) {
        Ok(any) => any,
        Err(fault) => return Ok(Line::Bad(BadLine::of(fault))),
    };
    let to = match addressees(fields) {
        Ok(to) => to,
        Err(fault) => return Ok(Line::Bad(BadLine::of(fault))),
    };
    let packet = &fields[11..];
    if MOST_PACKET < packet.len() {
        return Ok(Line::Bad(BadLine::Limit));
    }
    Ok(Line::Hears {
        any,
        to,
        bytes: Items::of(Vec::from_slice(alloc, packet)?),
    })
}

/// The event of a word that stands alone.
fn alone(word: Word, fields: &[u8]) -> Line
    ensures { result ≡ alone word fields.now }
{
    if !fields.is_empty() {
        return Line::Bad(BadLine::Form);
    }
    match word {
        Word::Tick => Line::Does(NodeEvent::Tick),
        Word::Take => Line::Does(NodeEvent::Take),
        Word::Join => Line::Does(NodeEvent::Join),
        Word::State => Line::Does(NodeEvent::State),
        Word::Leave => Line::Does(NodeEvent::Leave),
        Word::Info => Line::Info,
        _ => Line::Bad(BadLine::Form),
    }
}

/// The event of a word with these fields.
#[tactic(auto, unfolding(crate::specs::Events::event_by))]
fn event_by(alloc: Global, word: Option<Word>, fields: &[u8]) -> Result<Line, NoMemory>
    ensures { IfOk result (λ line. line ≡ event_by word fields.now) }
{
    let Some(word) = word else {
        return Ok(Line::Bad(BadLine::NoSuchWord));
    };
    match word {
        Word::Send => send(alloc, fields),
        Word::Hear => hear(alloc, fields),
        Word::Done => Ok(done(fields)),
        Word::Ask => Ok(ask(fields)),
        Word::GiveUp => Ok(give_up(fields)),
        Word::Reset => Ok(reset(fields)),
        Word::Take | Word::Join | Word::State | Word::Leave | Word::Tick | Word::Info => {
            Ok(alone(word, fields))
        }
    }
}

/// What bytes ask: a byte of kind, and the kind's fields. It is an error where there is no memory for a packet's bytes or a body.
#[tactic(auto, unfolding(crate::specs::Events::event_of))]
pub(crate) fn read_event(alloc: Global, bytes: &[u8]) -> Result<Line, NoMemory>
    ensures { IfOk result (λ line. line ≡ event_of bytes.now) }
{
    if MOST_LINE < bytes.len() {
        return Ok(Line::Bad(BadLine::TooLong));
    }
    if bytes.is_empty() {
        return Ok(Line::Bad(BadLine::NoSuchWord));
    }
    event_by(alloc, word_at(bytes[0]), &bytes[1..])
}
