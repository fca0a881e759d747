ghost use Rattle.std.specs.Prelude.{◌≡◌};
ghost use Rattle.am_script.specs.Seen.{seen, items_seen};
ghost use Rattle.am_base.specs.Names.{empty_set_of_names};
ghost use Rattle.am_script_defs.specs.Founders.{each_founder, founders_from, founding_in};

use crate::fields::{number, number_or, value_in};
use crate::tree::items;
use am_base::founding::Founding;
use am_base::limits::{MOST_BODY, MOST_WINDOW};
use am_base::name::Name;
use am_base::names::Names;
use am_script_defs::key::ScriptKey;
use am_script_defs::refusal::{Read, ScriptRefusal};
use json::Value;

/// The names of places, each of which is new.
fn each_founder(list: &[Value]) -> Read<Names>
    ensures { result ≡ each_founder empty_set_of_names (items_seen list.now) }
{
    let mut names = Names::empty();
    for value in list {
        let place = number(value, ScriptKey::Founders, 0, 0, 15)?;
        let name = Name::of_byte(place as u8);
        if names.has(name) {
            return Err(ScriptRefusal::bad_value(ScriptKey::Founders, 0));
        }
        names = names.with(name);
    }
    Ok(names)
}

/// The founders: 1 to 16 places, each once.
#[tactic(auto, using(crate::proofs::Json::items_len_of_items_seen), unfolding(am_script_defs::specs::Founders::founders_from))]
fn founders(value: &Value) -> Read<Names>
    ensures { result ≡ founders_from (seen value.now) }
{
    let Some(list) = items(value) else {
        return Err(ScriptRefusal::bad_value(ScriptKey::Founders, 0));
    };
    if list.is_empty() || 16 < list.len() {
        return Err(ScriptRefusal::out_of_range(ScriptKey::Founders, 0, list.len() as u64, 1, 16));
    }
    each_founder(list)
}

/// How a group begins, by the keys that a play and a race both have. A refusal is the first cause that it says none.
#[tactic(auto, using(am_script_defs::proofs::Limits::founders_read_are_founders), unfolding(am_script_defs::specs::Founders::founding_in))]
pub fn founding(value: &Value) -> Read<Founding>
    ensures { result ≡ founding_in (seen value.now) }
{
    let founders = founders(value_in(value, ScriptKey::Founders, 0)?)?;
    let resilience = number_or(0, value, ScriptKey::Resilience, 0, 0, 15)?;
    let window = number_or(64, value, ScriptKey::Window, 0, 1, u64::from(MOST_WINDOW))?;
    let pb_up_to = number_or(256, value, ScriptKey::PbUpTo, 0, 0, MOST_BODY as u64)?;
    Ok(Founding::new(founders, resilience as u8, window as u16, pb_up_to as u16).unwrap())
}
