ghost use Rattle.std.specs.Prelude.{◌≡◌, ◌≤◌};
ghost use Rattle.am_script.specs.Seen.{seen, items_seen};
ghost use Rattle.am_script_defs.specs.Refusals.{Answers};
ghost use Rattle.am_script_defs.specs.Events.{event_from, events_from};
ghost use Rattle.am_script_defs.specs.Values.{items_read_from};
ghost use Rattle.am_script_defs.specs.Scripts.{play_from};

use crate::event::event;
use crate::fields::{flag_or, known, object, value_in};
use crate::founding::founding;
use crate::tree;
use am_base::items::Items;
use am_group::event::Event;
use am_script_defs::key::ScriptKey;
use am_script_defs::refusal::{Read, ScriptRefusal};
use am_script_defs::script::Script;
use json::Value;
use std::alloc::Global;

/// The keys of a play.
const PLAY_KEYS: [ScriptKey; 6] = [
    ScriptKey::Founders,
    ScriptKey::Resilience,
    ScriptKey::Window,
    ScriptKey::PbUpTo,
    ScriptKey::Settle,
    ScriptKey::Events,
];

/// The events that values tell, in order, counted from 1.
fn each_event(alloc: Global, list: &[Value], founding: u8) -> Read<Items<Event>>
    requires { founding ≤ 15 }
    ensures { Answers (items_read_from (event_from founding) 1 (items_seen list.now)) result }
{
    let mut events = Items::with_room(alloc, list.len())?;
    for (before, value) in list.iter().enumerate() {
        events.push(event(alloc, value, before as u64 + 1, founding)?)?;
    }
    Ok(events)
}

/// The events of a play.
#[tactic(auto, unfolding(am_script_defs::specs::Events::events_from))]
fn events(alloc: Global, value: &Value, founding: u8) -> Read<Items<Event>>
    requires { founding ≤ 15 }
    ensures { Answers (events_from founding (seen value.now)) result }
{
    let Some(list) = tree::items(value) else {
        return Err(ScriptRefusal::bad_value(ScriptKey::Events, 0));
    };
    each_event(alloc, list, founding)
}

/// A play: how its group begins, its events, and whether it is settled at the end.
#[tactic(auto, unfolding(am_script_defs::specs::Scripts::play_from, am_script_defs::specs::Scripts::parts_of_play))]
pub fn play(alloc: Global, value: &Value) -> Read<Script>
    ensures { Answers (play_from (seen value.now)) result }
{
    object(value, ScriptKey::Play, 0)?;
    known(&PLAY_KEYS, value, 0)?;
    let founding = founding(value)?;
    let settle = flag_or(false, value, ScriptKey::Settle, 0)?;
    let list = value_in(value, ScriptKey::Events, 0)?;
    let events = events(alloc, list, founding.resilience())?;
    Ok(Script {
        founding,
        events,
        settle,
    })
}
