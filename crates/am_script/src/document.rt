//! JSON as a tree over the text that it is read from. Contracts see of it what serde_json reads: an object has a key once, with its
//! last value, and a number is one of 64 bits or a float, or the text is no JSON.
ghost use Rattle.std.specs.Prelude.{◌≡◌, ◌≢◌, ◌<◌, [], length, Some, None, IfOk, IfErr, OnOk, is_some};
ghost use Rattle.std.specs.List.{list_all};
ghost use Rattle.serde_json.specs.Read.{number_of, number_from, read};
ghost use Rattle.json.specs.{Json.value, Lex.tokens, Reads.token_of, Value.value_view};
ghost use Rattle.am_script_defs.specs.Scripts.{document_in};
ghost use Rattle.am_script.specs.Seen.{is_whole, whole_of, is_in_range, most_depth, seen};

use am_script_defs::refusal::{Read, ScriptRefusal};
use fast_float::Numeral;
use json::{Error, Reader, Scratch, Token, Value};
use std::alloc::{AllocError, Global};

/// How deep arrays and objects may nest.
const MOST_DEPTH: usize = 127;

/// A number's sign and what stands after it.
#[tactic(auto, unfolding(serde_json::specs::Read::number_of))]
fn parts(text: &str) -> (bool, Numeral<'_>)
    ensures { number_of text.now ≡ number_from result.0 result.1 }
{
    match text.as_bytes() {
        [b'-', digits @ ..] => (true, Numeral::scan(digits)),
        digits => (false, Numeral::scan(digits)),
    }
}

/// Whether it is a whole number of 64 bits.
fn is_whole(negative: bool, numeral: &Numeral<'_>) -> bool
    ensures { result ≡ is_whole negative numeral.now }
{
    if negative {
        return numeral.to_i64(true).is_some_and(|number| number < 0);
    }
    numeral.to_u64().is_some()
}

/// Whether a number's text is in range.
fn is_in_range(text: &str) -> bool
    ensures { result ≡ is_some (number_of text.now) }
{
    let (negative, numeral) = parts(text);
    is_whole(negative, &numeral) || numeral.to_float::<f64>(negative).is_finite()
}

/// The whole number that a text writes, where it is one from 0 on and fits.
pub fn whole(text: &str) -> Option<u64>
    ensures { result ≡ whole_of text.now }
{
    let (negative, numeral) = parts(text);
    if negative { None } else { numeral.to_u64() }
}

/// Whether no number among a text's tokens is out of range.
fn are_in_range(reader: &mut Reader<'_>) -> bool
    ensures { result ≡ list_all is_in_range reader.old }
{
    while let Some(token) = reader.next() {
        if !token_is_in_range(&token) {
            return false;
        }
    }
    true
}

/// Whether a token is no number out of range.
fn token_is_in_range(token: &Token<'_>) -> bool
    ensures { result ≡ is_in_range (token_of token.now) }
{
    match token {
        Token::Number(text) => is_in_range(text),
        _ => true,
    }
}

/// The value that a text is.
fn tree<'a>(alloc: Global, text: &'a str, scratch: &'a mut Scratch) -> Result<Value<'a>, Error>
    ensures ok { IfOk result (λ v. value most_depth (tokens text.now) ≡ Some (value_view v, [])) }
    ensures refused { IfErr result (λ e. e ≢ Error.OutOfMemory → read text.now ≡ None) }
{
    let mut reader = Reader::new(text, scratch)?;
    let value = Value::read(alloc, &mut reader, MOST_DEPTH)?;
    if reader.next().is_some() {
        return Err(Error::Invalid);
    }
    Ok(value)
}

/// Whether no number of a text is out of range.
fn text_is_in_range(text: &str, scratch: &mut Scratch) -> Result<bool, AllocError>
    ensures { IfOk result (λ fits. fits ≡ list_all is_in_range (tokens text.now)) }
{
    let mut reader = Reader::new(text, scratch)?;
    Ok(are_in_range(&mut reader))
}

/// The document that a text is JSON of.
#[tactic(auto, using(crate::proofs::Ranges::read_of_text_in_range, crate::proofs::Ranges::read_out_of_range))]
fn document_of<'a>(alloc: Global, text: &'a str, scratch: &'a mut Scratch) -> Read<Value<'a>>
    ensures ok { IfOk result (λ v. read text.now ≡ Some (seen v)) }
    ensures refused { IfErr result (λ e. e ≢ ScriptRefusal.NoMemory → (e ≡ ScriptRefusal.NotJson)
        × (read text.now ≡ None)) }
{
    if !text_is_in_range(text, scratch)? {
        return Err(ScriptRefusal::NotJson);
    }
    match tree(alloc, text, scratch) {
        Ok(value) => Ok(value),
        Err(Error::OutOfMemory) => Err(ScriptRefusal::NoMemory),
        Err(_) => Err(ScriptRefusal::NotJson),
    }
}

/// The document that bytes are JSON of. It stands in them, and in the scratch where escapes are written in it.
pub fn document<'a>(alloc: Global, bytes: &'a [u8], scratch: &'a mut Scratch) -> Read<Value<'a>>
    ensures ok { IfOk result (λ v. document_in bytes.now ≡ Some (seen v)) }
    ensures some { OnOk result (0 < length bytes.now) }
    ensures refused { IfErr result (λ e. e ≢ ScriptRefusal.NoMemory → (e ≡ ScriptRefusal.NotJson)
        × (document_in bytes.now ≡ None)) }
    ensures memory { IfErr result (λ e. e ≡ ScriptRefusal.NoMemory → 0 < length bytes.now) }
{
    if bytes.is_empty() {
        return Err(ScriptRefusal::NotJson);
    }
    match str::from_utf8(bytes) {
        Ok(text) => document_of(alloc, text, scratch),
        Err(_) => Err(ScriptRefusal::NotJson),
    }
}
