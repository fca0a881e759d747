ghost use Rattle.std.specs.Prelude.{◌≡◌, ◌+◌, ◌≤◌, ◌<◌, ◌↔◌, ◌∷◌, ◌++◌, length, IsSome, IfSome, IsTrue};
ghost use Rattle.std.specs.Option.{option_map, option_copied};
ghost use Rattle.arrayvec.specs.ArrayVec.{array_vec_len};
ghost use Rattle.am_service_defs.specs.Lengths.{field_bytes};
ghost use Rattle.am_directory.specs.Reading.{command_from, cut_read};
ghost use Rattle.am_service_defs.specs.Values.{most_command, IsKey, IsValue};
ghost use Rattle.am_service_defs.specs.Commands.{command_bytes, command_of, value_in_body, of_kind, IsCommand};

use crate::field::{Cut, field_in};
use am_base::body::Body;
use am_service_defs::setting::{MOST_KEY, MOST_VALUE};
use arrayvec::ArrayVec;

/// The most bytes of a command.
const MOST_COMMAND: usize = 99;

/// What a body asks of a directory (docs/DIRECTORY.md, "Commands"). A key has 1 to 32 bytes, a value 0 to 64.
#[derive(Drop, Debug)]
pub enum Command<'a> {
    /// The key gets the value.
    Put { key: &'a [u8], value: &'a [u8] },
    /// The key goes.
    Delete { key: &'a [u8] },
    /// The key gets the value where it isn't there.
    Claim { key: &'a [u8], value: &'a [u8] },
}

/// A value with nothing after it; None where there is none.
#[tactic(auto, unfolding(am_service_defs::specs::Commands::value_in_body))]
fn value_in(bytes: &[u8]) -> Option<&[u8]>
    ensures { option_copied result ≡ value_in_body bytes.entry.now }
{
    let value = field_in(bytes, 0, 64)?;
    if value.rest.is_empty() {
        Some(value.field)
    } else {
        None
    }
}

/// The command of a kind, a key and the bytes after that; None where there is none.
#[tactic(auto, unfolding(am_service_defs::specs::Commands::of_kind))]
fn of_kind(kind: u8, key: Cut<'_>) -> Option<Command<'_>>
    ensures { option_map command_from result ≡ of_kind kind (cut_read key.entry) }
{
    match kind {
        1 => Some(Command::Put {
            key: key.field,
            value: value_in(key.rest)?,
        }),
        2 if key.rest.is_empty() => Some(Command::Delete { key: key.field }),
        3 => Some(Command::Claim {
            key: key.field,
            value: value_in(key.rest)?,
        }),
        _ => None,
    }
}

/// Whether a key is within its limits.
pub fn is_key(key: &[u8]) -> bool
    ensures { IsTrue result ↔ IsKey key.now }
{
    1 <= key.len() && key.len() <= MOST_KEY
}

/// Adds a field.
fn push_field(bytes: &mut ArrayVec<u8, MOST_COMMAND>, field: &[u8])
    requires short { length field.now ≤ 64 }
    requires room { array_vec_len bytes.old + length field.now + 1 ≤ most_command }
    ensures { bytes.new.items ≡ bytes.old.items ++ field_bytes field.now }
{
    bytes.push(field.len() as u8);
    let _ = bytes.try_extend_from_slice(field);
}

/// A kind and a key as a body; None where the key is outside its limits.
fn keyed(kind: u8, key: &[u8]) -> Option<Body>
    ensures variant { IsSome result ↔ IsKey key.now }
    ensures value { IfSome result (λ body. body ≡ kind ∷ field_bytes key.now) }
{
    if !is_key(key) {
        return None;
    }
    let mut bytes = ArrayVec::new();
    bytes.push(kind);
    push_field(&mut bytes, key);
    Body::of(bytes.as_slice())
}

/// A kind, a key and a value as a body; None where the key or the value is outside its limits.
fn valued(kind: u8, key: &[u8], value: &[u8]) -> Option<Body>
    ensures variant { IsSome result ↔ (IsKey key.now × IsValue value.now) }
    ensures value { IfSome result (λ body. body
        ≡ kind ∷ field_bytes key.now ++ field_bytes value.now) }
{
    if !is_key(key) || MOST_VALUE < value.len() {
        return None;
    }
    let mut bytes = ArrayVec::new();
    bytes.push(kind);
    push_field(&mut bytes, key);
    push_field(&mut bytes, value);
    Body::of(bytes.as_slice())
}

impl<'a> Command<'a> {
    /// The command that a body is; None exactly where it is none.
    #[tactic(auto, unfolding(am_service_defs::specs::Commands::command_of))]
    pub fn read(body: &'a [u8]) -> Option<Command<'a>>
        ensures { option_map command_from result ≡ command_of body.entry.now }
    {
        match body {
            [] => None,
            [kind, rest @ ..] => of_kind(*kind, field_in(rest, 1, 32)?),
        }
    }

    /// The command as a body; None exactly where its key or its value is outside the limits.
    pub fn to_body(&self) -> Option<Body>
        ensures variant { IsSome result ↔ IsCommand (command_from self.now) }
        ensures value { IfSome result (λ body. body ≡ command_bytes (command_from self.now)) }
    {
        match self {
            Command::Put { key, value } => valued(1, key, value),
            Command::Delete { key } => keyed(2, key),
            Command::Claim { key, value } => valued(3, key, value),
        }
    }
}
