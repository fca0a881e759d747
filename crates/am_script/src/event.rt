ghost use Rattle.std.specs.Prelude.{◌≡◌, ◌≤◌, ◌%◌, length};
ghost use Rattle.std.specs.List.{list_all};
ghost use Rattle.am_base.specs.Most.{greatest_number};
ghost use Rattle.am_script_defs.specs.Refusals.{Answers};
ghost use Rattle.am_script.specs.Seen.{seen};
ghost use Rattle.am_script_defs.specs.Values.{of_object, is_digit, are_hex_pairs, body_from, number_at_key};
ghost use Rattle.am_script_defs.specs.Events.{event_kind_in, send_in, reset_in, give_up_in, cut_in, act_in, event_as, event_from};

use crate::fields::{known, number_in, number_or, object, text_in};
use am_base::body::Body;
use am_base::limits::{MOST_BODY, MOST_NUMBER, MOST_PACKET};
use am_base::name::Name;
use am_group::event::{Act, Event};
use am_script_defs::key::ScriptKey;
use am_script_defs::kind::EventKind;
use am_script_defs::refusal::{Read, ScriptRefusal};
use json::Value;
use std::alloc::Global;

/// The kind of an event or a call, which is an object; BadValue at the key that it stands at where it is none.
#[tactic(auto, unfolding(am_script_defs::specs::Events::event_kind_in))]
pub fn kind(value: &Value, at: ScriptKey, place: u64) -> Read<EventKind>
    ensures { result ≡ of_object at place (seen value.now) (event_kind_in place (seen value.now)) }
{
    object(value, at, place)?;
    let word = text_in(value, ScriptKey::Do, place)?;
    match EventKind::of(word) {
        Some(kind) => Ok(kind),
        None => Err(ScriptRefusal::bad_value(ScriptKey::Do, place)),
    }
}

/// Whether a text has no letters but the digits 0 to 9 and a to f.
fn are_digits(text: &str) -> bool
    ensures { result ≡ list_all is_digit text.now }
{
    text.bytes()
        .all(|c| 48 <= c && c <= 57 || 97 <= c && c <= 102)
}

/// Whether a text is pairs of such digits.
fn are_pairs(text: &str) -> bool
    ensures { result ≡ are_hex_pairs text.now }
{
    text.len() % 2 == 0 && are_digits(text)
}

/// The body that a text of digits gives.
#[tactic(auto, unfolding(am_script_defs::specs::Values::body_from))]
fn body(text: &str, place: u64) -> Read<Body>
    ensures { result ≡ body_from place text.now }
{
    let refusal = ScriptRefusal::bad_value(ScriptKey::Body, place);
    if !are_pairs(text) {
        return Err(refusal);
    }
    let pairs = text.len() / 2;
    if MOST_BODY < pairs {
        return Err(ScriptRefusal::out_of_range(
            ScriptKey::Body,
            place,
            pairs as u64,
            0,
            MOST_BODY as u64,
        ));
    }
    let mut bytes = [0u8; MOST_BODY];
    match hex::decode_to_slice(text, &mut bytes[..pairs]) {
        Ok(()) => Ok(Body::of(&bytes[..pairs]).unwrap()),
        Err(_) => Err(refusal),
    }
}

/// The number of a request, a round or a packet at a key of an event.
fn count(event: &Value, key: ScriptKey, place: u64) -> Read<u32>
    ensures { result ≡ number_at_key key place 1 greatest_number (seen event.now) }
{
    Ok(number_in(event, key, place, 1, u64::from(MOST_NUMBER))? as u32)
}

/// A send.
#[tactic(auto, unfolding(am_script_defs::specs::Events::send_in))]
fn send(alloc: Global, event: &Value, place: u64) -> Read<Act>
    ensures { Answers (send_in place (seen event.now)) result }
{
    let text = text_in(event, ScriptKey::Body, place)?;
    Ok(Act::send(alloc, body(text, place)?)?)
}

/// A reset, which keeps the founding's resilience where none is said.
#[tactic(auto, unfolding(am_script_defs::specs::Events::reset_in))]
fn reset(event: &Value, place: u64, founding: u8) -> Read<Act>
    requires { founding ≤ 15 }
    ensures { result ≡ reset_in founding place (seen event.now) }
{
    let least = number_in(event, ScriptKey::Least, place, 1, 16)?;
    let resilience = number_or(
        u64::from(founding),
        event,
        ScriptKey::Resilience,
        place,
        0,
        15,
    )?;
    Ok(Act::Reset {
        least: least as u8,
        resilience: resilience as u8,
    })
}

/// The giving up of a name, of life 1 where none is said.
#[tactic(auto, unfolding(am_script_defs::specs::Events::give_up_in))]
fn give_up(event: &Value, place: u64) -> Read<Act>
    ensures { result ≡ give_up_in place (seen event.now) }
{
    let seat = number_in(event, ScriptKey::Name, place, 0, 15)?;
    let life = number_or(1, event, ScriptKey::Life, place, 1, 16)?;
    Ok(Act::GiveUp(Name::of(seat as u8, life as u8).unwrap()))
}

/// The hearing of the first bytes of a packet.
#[tactic(auto, unfolding(am_script_defs::specs::Events::cut_in))]
fn cut(event: &Value, place: u64) -> Read<Act>
    ensures { result ≡ cut_in place (seen event.now) }
{
    let packet = count(event, ScriptKey::Packet, place)?;
    let keep = number_in(event, ScriptKey::Keep, place, 0, MOST_PACKET as u64)?;
    Ok(Act::Cut {
        packet,
        keep: keep as u32,
    })
}

/// The act of an event or a call of a kind.
#[tactic(auto, unfolding(am_script_defs::specs::Events::act_in))]
pub fn act(alloc: Global, kind: EventKind, event: &Value, place: u64, founding: u8) -> Read<Act>
    requires { founding ≤ 15 }
    ensures { Answers (act_in kind founding place (seen event.now)) result }
{
    match kind {
        EventKind::Send => send(alloc, event, place),
        EventKind::Done => Ok(Act::Done(count(event, ScriptKey::Req, place)?)),
        EventKind::Take => Ok(Act::Take),
        EventKind::Join => Ok(Act::Join),
        EventKind::State => Ok(Act::State),
        EventKind::Leave => Ok(Act::Leave),
        EventKind::Reset => reset(event, place, founding),
        EventKind::Ask => Ok(Act::Ask(count(event, ScriptKey::Round, place)?)),
        EventKind::GiveUp => give_up(event, place),
        EventKind::Stop => Ok(Act::Stop),
        EventKind::Tick => Ok(Act::Tick),
        EventKind::Hear => Ok(Act::Hear(count(event, ScriptKey::Packet, place)?)),
        EventKind::Cut => cut(event, place),
        EventKind::Return => Ok(Act::Return),
    }
}

/// An event of a kind.
#[tactic(auto, unfolding(am_script_defs::specs::Events::event_as))]
fn event_of_kind(
    alloc: Global,
    kind: EventKind,
    event: &Value,
    place: u64,
    founding: u8,
) -> Read<Event>
    requires { founding ≤ 15 }
    ensures { Answers (event_as kind founding place (seen event.now)) result }
{
    known(kind.keys(), event, place)?;
    let node = number_in(event, ScriptKey::Node, place, 0, 15)?;
    Ok(Event::at(node as u8, act(alloc, kind, event, place, founding)?))
}

/// The event that a value tells. A refusal but NoMemory is the first cause that it tells none. `place` is its number,
/// `founding` the founding's resilience.
#[tactic(auto, using(am_script_defs::proofs::Steps::of_object_of_bound_read), unfolding(am_script_defs::specs::Events::event_from))]
pub fn event(alloc: Global, value: &Value, place: u64, founding: u8) -> Read<Event>
    requires { founding ≤ 15 }
    ensures { Answers (event_from founding place (seen value.now)) result }
{
    let kind = kind(value, ScriptKey::Events, place)?;
    event_of_kind(alloc, kind, value, place, founding)
}
