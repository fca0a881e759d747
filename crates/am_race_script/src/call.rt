ghost use Rattle.std.specs.Prelude.{◌≡◌, ◌≤◌};
ghost use Rattle.am_script.specs.Seen.{seen};
ghost use Rattle.am_script_defs.specs.Refusals.{Answers};
ghost use Rattle.am_script_defs.specs.Races.{is_call_kind, call_keys_of, call_as, call_from};

use am_group::event::Act;
use am_script::event::{act, kind};
use am_script::fields::known;
use am_script_defs::key::ScriptKey;
use am_script_defs::kind::EventKind;
use am_script_defs::refusal::{Read, ScriptRefusal};
use json::Value;
use std::alloc::Global;

/// Whether a thread of a race can call for a kind of events.
fn is_call(kind: EventKind) -> bool
    ensures { result ≡ is_call_kind kind }
{
    match kind {
        EventKind::Send
        | EventKind::Take
        | EventKind::Join
        | EventKind::Leave
        | EventKind::Reset
        | EventKind::Stop => true,
        _ => false,
    }
}

/// The keys that calls of a kind may have.
fn call_keys(kind: EventKind) -> &'static [ScriptKey]
    ensures { result.now ≡ call_keys_of kind }
{
    match kind {
        EventKind::Send => &[ScriptKey::Do, ScriptKey::Body],
        EventKind::Reset => &[ScriptKey::Do, ScriptKey::Least, ScriptKey::Resilience],
        _ => &[ScriptKey::Do],
    }
}

/// The act of a call of a kind.
#[tactic(auto, unfolding(am_script_defs::specs::Races::call_as))]
fn call_of_kind(alloc: Global, kind: EventKind, call: &Value, place: u64, founding: u8) -> Read<Act>
    requires { founding ≤ 15 }
    ensures { Answers (call_as kind founding place (seen call.now)) result }
{
    known(call_keys(kind), call, place)?;
    act(alloc, kind, call, place, founding)
}

/// The act that a call tells, by its number over all threads and the founding's resilience.
#[tactic(auto, using(am_script_defs::proofs::Steps::of_object_of_bound_read), unfolding(am_script_defs::specs::Races::call_from, am_script_defs::specs::Races::call_kind_in))]
pub fn call(alloc: Global, value: &Value, place: u64, founding: u8) -> Read<Act>
    requires { founding ≤ 15 }
    ensures { Answers (call_from founding place (seen value.now)) result }
{
    let kind = kind(value, ScriptKey::Calls, place)?;
    if !is_call(kind) {
        return Err(ScriptRefusal::bad_value(ScriptKey::Do, place));
    }
    call_of_kind(alloc, kind, value, place, founding)
}
