ghost use Rattle.std.specs.Prelude.{◌≡◌, ◌++◌, OnOk, IfOk, Ok, false, string_bytes};
ghost use Rattle.am_script_defs.specs.Limits.{ScriptIsWithin};
ghost use Rattle.am_script_defs.specs.Scripts.{script_of, script_reading};
ghost use Rattle.am_script_defs.specs.Schedules.{life_json, resilience_json, body_json, keys_before, keys_behind, word_json, event_json, others_json, list_json, events_json, founders_json, numbers_json, script_text, AreOfBytes};

use crate::text::{push_bytes, push_names};
use am_base::NoMemory;
use am_base::founding::Founding;
use am_base::name::Name;
use am_group::event::{Act, Event};
use am_report::event::act_word;
use std::alloc::Global;

// Adds a name's life, where it isn't the first.
#[tactic(auto, unfolding(am_script_defs::specs::Schedules::life_json))]
fn push_life(out: &mut String, name: Name) -> Result<(), NoMemory>
    ensures { OnOk result (string_bytes out.new ≡ string_bytes out.old ++ life_json name) }
{
    let life = name.life();
    if life == 1 {
        return Ok(());
    }
    write!(out, ",\"life\":{life}")
}

// Adds a resilience, where it isn't the founding's.
#[tactic(auto, unfolding(am_script_defs::specs::Schedules::resilience_json))]
fn push_resilience(out: &mut String, founding: &Founding, resilience: u8) -> Result<(), NoMemory>
    ensures { OnOk result (string_bytes out.new
        ≡ string_bytes out.old ++ resilience_json founding.now resilience) }
{
    if resilience == founding.resilience() {
        return Ok(());
    }
    write!(out, ",\"resilience\":{resilience}")
}

// Adds the body of a send.
#[tactic(auto, unfolding(am_script_defs::specs::Schedules::body_json))]
fn push_body(out: &mut String, act: &Act) -> Result<(), NoMemory>
    ensures { OnOk result (string_bytes out.new ≡ string_bytes out.old ++ body_json act.now) }
{
    match act {
        Act::Send(body) => {
            out.push_str("\"body\":\"")?;
            push_bytes(out, body.bytes())?;
            out.push_str("\",")
        }
        _ => Ok(()),
    }
}

// Adds an act's keys between its word and the node.
#[tactic(auto, unfolding(am_script_defs::specs::Schedules::keys_before))]
fn push_before(out: &mut String, act: &Act) -> Result<(), NoMemory>
    ensures { OnOk result (string_bytes out.new ≡ string_bytes out.old ++ keys_before act.now) }
{
    match act {
        Act::Reset { least, .. } => write!(out, ",\"least\":{least}"),
        Act::GiveUp(name) => {
            push_life(out, *name)?;
            let place = name.place();
            write!(out, ",\"name\":{place}")
        }
        Act::Cut { keep, .. } => write!(out, ",\"keep\":{keep}"),
        _ => Ok(()),
    }
}

// Adds an act's word, and what stands between it and the node.
#[tactic(auto, unfolding(am_script_defs::specs::Schedules::word_json))]
fn push_word(out: &mut String, act: &Act) -> Result<(), NoMemory>
    ensures { OnOk result (string_bytes out.new ≡ string_bytes out.old ++ word_json act.now) }
{
    let word = act_word(act);
    write!(out, "\"do\":\"{word}\"")?;
    push_before(out, act)
}

// Adds an act's keys after the node.
#[tactic(auto, unfolding(am_script_defs::specs::Schedules::keys_behind))]
fn push_behind(out: &mut String, founding: &Founding, act: &Act) -> Result<(), NoMemory>
    ensures { OnOk result (string_bytes out.new
        ≡ string_bytes out.old ++ keys_behind founding.now act.now) }
{
    match act {
        Act::Done(req) => write!(out, ",\"req\":{req}"),
        Act::Reset { resilience, .. } => push_resilience(out, founding, *resilience),
        Act::Ask(round) => write!(out, ",\"round\":{round}"),
        Act::Hear(packet) | Act::Cut { packet, .. } => write!(out, ",\"packet\":{packet}"),
        _ => Ok(()),
    }
}

// Adds an event.
#[tactic(auto, unfolding(am_script_defs::specs::Schedules::event_json))]
fn push_event(out: &mut String, founding: &Founding, event: &Event) -> Result<(), NoMemory>
    ensures { OnOk result (string_bytes out.new
        ≡ string_bytes out.old ++ event_json founding.now event.now) }
{
    out.push_str("{")?;
    push_body(out, &event.act)?;
    push_word(out, &event.act)?;
    let place = event.node.place();
    write!(out, ",\"node\":{place}")?;
    push_behind(out, founding, &event.act)?;
    out.push_str("}")
}

// Adds events with a comma before each.
fn push_others(out: &mut String, founding: &Founding, events: &[Event]) -> Result<(), NoMemory>
    ensures { OnOk result (string_bytes out.new
        ≡ string_bytes out.old ++ others_json founding.now events.now) }
{
    for event in events {
        out.push_str(",")?;
        push_event(out, founding, event)?;
    }
    Ok(())
}

// Adds events with commas between them.
#[tactic(auto, unfolding(am_script_defs::specs::Schedules::list_json))]
fn push_listed(out: &mut String, founding: &Founding, events: &[Event]) -> Result<(), NoMemory>
    ensures { OnOk result (string_bytes out.new
        ≡ string_bytes out.old ++ list_json founding.now events.now) }
{
    match events {
        [] => Ok(()),
        [first, others @ ..] => {
            push_event(out, founding, first)?;
            push_others(out, founding, others)
        }
    }
}

// Adds the key of events.
#[tactic(auto, unfolding(am_script_defs::specs::Schedules::events_json))]
fn push_events(out: &mut String, founding: &Founding, events: &[Event]) -> Result<(), NoMemory>
    ensures { OnOk result (string_bytes out.new
        ≡ string_bytes out.old ++ events_json founding.now events.now) }
{
    out.push_str("\"events\":[")?;
    push_listed(out, founding, events)?;
    out.push_str("]")
}

// Adds the key of founders.
#[tactic(auto, unfolding(am_script_defs::specs::Schedules::founders_json))]
fn push_founders(out: &mut String, founding: &Founding) -> Result<(), NoMemory>
    ensures { OnOk result (string_bytes out.new
        ≡ string_bytes out.old ++ founders_json founding.now) }
{
    out.push_str("\"founders\":[")?;
    push_names(out, founding.founders())?;
    write!(out, "]")
}

// Adds the keys of a founding's numbers.
#[tactic(auto, unfolding(am_script_defs::specs::Schedules::numbers_json))]
fn push_numbers(out: &mut String, founding: &Founding) -> Result<(), NoMemory>
    ensures { OnOk result (string_bytes out.new
        ≡ string_bytes out.old ++ numbers_json founding.now) }
{
    let pb_up_to = founding.pb_up_to();
    let resilience = founding.resilience();
    let window = founding.window();
    write!(out, "\"pb_up_to\":{pb_up_to}")?;
    write!(out, ",\"resilience\":{resilience}")?;
    write!(out, ",\"window\":{window}")
}

// The text of a script.
#[tactic(auto, unfolding(am_script_defs::specs::Schedules::script_text))]
fn written(alloc: Global, founding: &Founding, events: &[Event]) -> Result<String, NoMemory>
    ensures { IfOk result (λ text. string_bytes text ≡ script_text founding.now events.now) }
{
    let mut out = String::new(alloc);
    out.push_str("{\"play\":{")?;
    push_events(&mut out, founding, events)?;
    out.push_str(",")?;
    push_founders(&mut out, founding)?;
    out.push_str(",")?;
    push_numbers(&mut out, founding)?;
    out.push_str("}}")?;
    Ok(out)
}

/// What was done as a script: how the group began, and the events, in one line of JSON without its end, whose run is theirs
/// (docs/PROTOCOL.md, "Scripts"). Where the founding and the events are within the limits of scripts, it is read as that script
/// again.
#[tactic(auto, using(am_script_defs::proofs::Again::script_read_from_its_text))]
pub fn script_text(alloc: Global, founding: &Founding, events: &[Event]) -> Result<String, NoMemory>
    ensures text { IfOk result (λ text. string_bytes text ≡ script_text founding.now events.now) }
    ensures again { IfOk result (λ text. ScriptIsWithin founding.now events.now
        → AreOfBytes events.now
        → script_reading (string_bytes text) ≡ Ok (script_of founding.now events.now false)) }
{
    let text = written(alloc, founding, events)?;
    Ok(text)
}
