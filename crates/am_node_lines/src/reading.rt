ghost use Rattle.std.specs.Prelude.{◌≡◌, ◌≢◌, ◌≤◌, ◌<◌, length, Some, true, false, IfOk, option_map};
ghost use Rattle.am_base.specs.declared.event.NodeEvent.TheVariants as does;
ghost use Rattle.am_text_defs.specs.Fields.{bytes_of, name_in_text};
ghost use Rattle.am_node_lines.specs.declared.line.Line.TheVariants as said;
ghost use Rattle.am_base.specs.Most.{most_bytes_of_body, most_bytes_of_packet};
ghost use Rattle.am_node_lines.specs.Lines.{word_of, request_number_of, reset_least_of, line_from, line_resilience, reset_line, is_for_any, addressees_of, letter_line, hear_line, line_by, node_line_of, more_line, only_word};

use crate::line::{BadLine, Line, Word};
use am_base::NoMemory;
use am_base::body::SentBody;
use am_base::event::NodeEvent;
use am_base::founding::Founding;
use am_base::items::Items;
use am_base::limits::{MOST_BODY, MOST_PACKET};
use am_base::names::Names;
use am_text_defs::fault::FieldFault;
use am_text_reader::body::body;
use am_text_reader::cut::cut;
use am_text_reader::name::{name, names};
use am_text_reader::number::{number, number_up_to, resilience};
use std::alloc::Global;

/// The most bytes of a line.
pub const MOST_LINE: usize = 4096;

/// The word with which a line begins.
fn word_of(text: &[u8]) -> Option<Word>
    ensures { result ≡ word_of text.now }
{
    if text == b"hear".as_slice() {
        return Some(Word::Hear);
    }
    if text == b"tick".as_slice() {
        return Some(Word::Tick);
    }
    if text == b"take".as_slice() {
        return Some(Word::Take);
    }
    if text == b"send".as_slice() {
        return Some(Word::Send);
    }
    if text == b"done".as_slice() {
        return Some(Word::Done);
    }
    if text == b"join".as_slice() {
        return Some(Word::Join);
    }
    if text == b"state".as_slice() {
        return Some(Word::State);
    }
    if text == b"leave".as_slice() {
        return Some(Word::Leave);
    }
    if text == b"reset".as_slice() {
        return Some(Word::Reset);
    }
    if text == b"ask".as_slice() {
        return Some(Word::Ask);
    }
    if text == b"giveup".as_slice() {
        return Some(Word::GiveUp);
    }
    if text == b"info".as_slice() {
        return Some(Word::Info);
    }
    None
}

/// The number of a request or a round, 1 to 2,000,000,000.
fn count(text: &[u8]) -> Result<u32, FieldFault>
    ensures { result ≡ request_number_of text.now }
{
    let number = number(text)?;
    if number == 0 {
        return Err(FieldFault::Limit);
    }
    Ok(number)
}

/// How many members a view is to have at least, 1 to 16.
fn least(text: &[u8]) -> Result<u8, FieldFault>
    ensures { result ≡ reset_least_of text.now }
{
    let number = number_up_to(text, 16)?;
    if number == 0 {
        return Err(FieldFault::Limit);
    }
    Ok(number as u8)
}

/// A resilience after its letter, or the founding's where none is said.
fn resilience_or(founding: &Founding, text: Option<&[u8]>) -> Result<u8, FieldFault>
    ensures { result ≡ line_resilience founding.now (option_map (λ t. t.now) text.entry) }
{
    let Some(text) = text else {
        return Ok(founding.resilience());
    };
    if text.is_empty() || text[0] != b'r' {
        return Err(FieldFault::Form);
    }
    resilience(&text[1..])
}

/// What a reset asks for.
fn reset_line(founding: &Founding, rest: &[u8]) -> Line
    ensures { result ≡ reset_line founding.now rest.now }
{
    let (first, second) = cut(rest, b' ');
    let least = match least(first) {
        Ok(least) => least,
        Err(fault) => return Line::Bad(BadLine::of(fault)),
    };
    match resilience_or(founding, second) {
        Ok(resilience) => Line::Does(NodeEvent::Reset { least, resilience }),
        Err(fault) => Line::Bad(BadLine::of(fault)),
    }
}

/// Whether a letter is for any life of its places.
fn is_for_any(text: &[u8]) -> bool
    ensures { result ≡ is_for_any text.now }
{
    !text.is_empty() && text[0] == b'*'
}

/// The names that a letter is for.
fn addressees(text: &[u8]) -> Result<Names, FieldFault>
    ensures { result ≡ addressees_of text.now }
{
    if is_for_any(text) {
        return names(&text[1..]);
    }
    names(text)
}

/// A letter with its bytes.
fn letter_line(alloc: Global, any: bool, to: Names, text: Option<&[u8]>) -> Result<Line, NoMemory>
    ensures { IfOk result (λ line. line ≡ letter_line any to (option_map (λ t. t.now) text.entry)) }
{
    let Some(text) = text else {
        return Ok(Line::Bad(BadLine::Form));
    };
    let mut bytes = Vec::with_capacity(alloc, MOST_PACKET)?;
    match body(text, MOST_PACKET, &mut bytes) {
        Ok(()) => Ok(Line::Hears {
            any,
            to,
            bytes: Items::of(bytes),
        }),
        Err(fault) => Ok(Line::Bad(BadLine::of(fault))),
    }
}

/// A letter that came.
fn hear_line(alloc: Global, rest: &[u8]) -> Result<Line, NoMemory>
    ensures { IfOk result (λ line. line ≡ hear_line rest.now) }
{
    let (first, second) = cut(rest, b' ');
    match addressees(first) {
        Ok(to) => letter_line(alloc, is_for_any(first), to, second),
        Err(fault) => Ok(Line::Bad(BadLine::of(fault))),
    }
}

/// A send of a body.
fn send_line(alloc: Global, rest: &[u8]) -> Result<Line, NoMemory>
    ensures { IfOk result (λ line. line ≡ line_from (bytes_of most_bytes_of_body rest.now) (λ body. said.Does (does.Send body))) }
{
    let mut bytes = Vec::with_capacity(alloc, MOST_BODY)?;
    match body(rest, MOST_BODY, &mut bytes) {
        Ok(()) => Ok(Line::Does(NodeEvent::Send(SentBody::of_bytes(alloc, bytes.as_slice())?))),
        Err(fault) => Ok(Line::Bad(BadLine::of(fault))),
    }
}

/// A line that asks for what came of a send.
fn done_line(rest: &[u8]) -> Line
    ensures { result ≡ line_from (request_number_of rest.now) (λ req. said.Does (does.Done req)) }
{
    match count(rest) {
        Ok(req) => Line::Does(NodeEvent::Done(req)),
        Err(fault) => Line::Bad(BadLine::of(fault)),
    }
}

/// A line that asks for what came of a ballot.
fn ask_line(rest: &[u8]) -> Line
    ensures { result ≡ line_from (request_number_of rest.now) (λ round. said.Does (does.Ask round)) }
{
    match count(rest) {
        Ok(round) => Line::Does(NodeEvent::Ask(round)),
        Err(fault) => Line::Bad(BadLine::of(fault)),
    }
}

/// A line that gives up a name.
fn give_up_line(rest: &[u8]) -> Line
    ensures { result ≡ line_from (name_in_text rest.now) (λ name. said.Does (does.GiveUp name)) }
{
    match name(rest) {
        Ok(name) => Line::Does(NodeEvent::GiveUp(name)),
        Err(fault) => Line::Bad(BadLine::of(fault)),
    }
}

/// The line of a word with something after it.
fn more_line(alloc: Global, founding: &Founding, word: Word, rest: &[u8]) -> Result<Line, NoMemory>
    ensures { IfOk result (λ line. line ≡ more_line founding.now word rest.now) }
{
    match word {
        Word::Hear => hear_line(alloc, rest),
        Word::Send => send_line(alloc, rest),
        Word::Done => Ok(done_line(rest)),
        Word::Ask => Ok(ask_line(rest)),
        Word::GiveUp => Ok(give_up_line(rest)),
        Word::Reset => Ok(reset_line(founding, rest)),
        Word::Take | Word::Join | Word::State | Word::Leave | Word::Tick | Word::Info => {
            Ok(Line::Bad(BadLine::Form))
        }
    }
}

/// The line of a word alone.
fn only_word(word: Word) -> Line
    ensures { result ≡ only_word word }
{
    match word {
        Word::Tick => Line::Does(NodeEvent::Tick),
        Word::Take => Line::Does(NodeEvent::Take),
        Word::Join => Line::Does(NodeEvent::Join),
        Word::State => Line::Does(NodeEvent::State),
        Word::Leave => Line::Does(NodeEvent::Leave),
        Word::Info => Line::Info,
        Word::Hear | Word::Send | Word::Done | Word::Ask | Word::GiveUp | Word::Reset => {
            Line::Bad(BadLine::Form)
        }
    }
}

/// The line of a word and of what stands after it.
fn line_by(
    alloc: Global,
    founding: &Founding,
    word: Option<Word>,
    rest: Option<&[u8]>,
) -> Result<Line, NoMemory>
    ensures { IfOk result (λ line. line ≡ line_by founding.now word (option_map (λ t. t.now) rest.entry)) }
{
    let Some(word) = word else {
        return Ok(Line::Bad(BadLine::NoSuchWord));
    };
    match rest {
        Some(rest) => more_line(alloc, founding, word, rest),
        None => Ok(only_word(word)),
    }
}

#[tactic(auto, unfolding(crate::specs::Lines::node_line_of))]
/// What a line says. It is an error where there is no memory for a letter's bytes or a body.
pub fn read_line(alloc: Global, founding: &Founding, text: &[u8]) -> Result<Line, NoMemory>
    ensures { IfOk result (λ line. line ≡ node_line_of founding.now text.now) }
{
    if MOST_LINE < text.len() {
        return Ok(Line::Bad(BadLine::TooLong));
    }
    let (first, rest) = cut(text, b' ');
    line_by(alloc, founding, word_of(first), rest)
}
