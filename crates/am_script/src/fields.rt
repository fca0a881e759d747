ghost use Rattle.std.specs.Prelude.{◌≡◌, ◌≤◌, true, false, is_some, IfOk, OnOk, IfErr};
ghost use Rattle.std.specs.Result.{result_map_both};
ghost use Rattle.serde_json.specs.Find.{as_object};
ghost use Rattle.am_script_defs.specs.Keys.{has_only};
ghost use Rattle.am_script.specs.Seen.{seen};
ghost use Rattle.am_script_defs.specs.Scripts.{behind};
ghost use Rattle.am_script_defs.specs.Values.{value_in, text_in, number_within, number_at_key, number_or, flag_or};

use crate::tree;
use am_script_defs::key::ScriptKey;
use am_script_defs::refusal::{Read, ScriptRefusal};
use json::Value;

/// Refuses a value that is no object, with BadValue at the key that it stands at.
pub fn object(value: &Value, key: ScriptKey, place: u64) -> Read<()>
    ensures ok { OnOk result (is_some (as_object (seen value.now)) ≡ true) }
    ensures err { IfErr result (λ e. (is_some (as_object (seen value.now)) ≡ false)
        × (e ≡ ScriptRefusal.BadValue key place)) }
{
    if tree::is_object(value) {
        return Ok(());
    }
    Err(ScriptRefusal::bad_value(key, place))
}

/// Refuses, with Unknown, an object that has other keys than these.
pub fn known(keys: &[ScriptKey], value: &Value, place: u64) -> Read<()>
    ensures ok { OnOk result (has_only keys.now (seen value.now) ≡ true) }
    ensures err { IfErr result (λ e. (has_only keys.now (seen value.now) ≡ false)
        × (e ≡ ScriptRefusal.Unknown place)) }
{
    if tree::has_only(value, keys) {
        return Ok(());
    }
    Err(ScriptRefusal::Unknown { place })
}

/// The value at a key of an object; Missing where the key isn't there.
pub fn value_in<'v, 'a>(object: &'v Value<'a>, key: ScriptKey, place: u64) -> Read<&'v Value<'a>>
    ensures { result_map_both (λ v. seen v.now) (λ e. e) result
        ≡ value_in key place (seen object.now) }
{
    match tree::at(object, key) {
        Some(value) => Ok(value),
        None => Err(ScriptRefusal::Missing { key, place }),
    }
}

/// The value of the key that is asked for, where that is the one key of a document.
#[tactic(auto, unfolding(am_script_defs::specs::Scripts::behind))]
pub fn behind<'v, 'a>(asked: ScriptKey, document: &'v Value<'a>) -> Read<&'v Value<'a>>
    ensures { result_map_both (λ v. seen v.now) (λ e. e) result ≡ behind asked (seen document.now) }
{
    object(document, ScriptKey::Top, 0)?;
    let value = value_in(document, asked, 0)?;
    known(&[asked], document, 0)?;
    Ok(value)
}

/// The text at a key of an object; BadValue where it is another value.
pub fn text_in<'a>(object: &Value<'a>, key: ScriptKey, place: u64) -> Read<&'a str>
    ensures { result_map_both (λ s. s.now) (λ e. e) result ≡ text_in key place (seen object.now) }
{
    let value = value_in(object, key, place)?;
    match tree::text(value) {
        Some(text) => Ok(text),
        None => Err(ScriptRefusal::BadValue { key, place }),
    }
}

/// A whole number within its limits; BadValue where it is another value, OutOfRange where it is outside them.
#[tactic(auto, unfolding(am_script_defs::specs::Values::number_within))]
pub fn number(value: &Value, key: ScriptKey, place: u64, least: u64, most: u64) -> Read<u64>
    ensures value { result ≡ number_within key place least most (seen value.now) }
    ensures at_least { IfOk result (λ n. least ≤ n) }
    ensures at_most { IfOk result (λ n. n ≤ most) }
{
    let Some(found) = tree::number(value) else {
        return Err(ScriptRefusal::BadValue { key, place });
    };
    if found < least || most < found {
        return Err(ScriptRefusal::OutOfRange {
            key,
            place,
            found,
            least,
            most,
        });
    }
    Ok(found)
}

/// The number at a key of an object, within its limits.
pub fn number_in(object: &Value, key: ScriptKey, place: u64, least: u64, most: u64) -> Read<u64>
    ensures value { result ≡ number_at_key key place least most (seen object.now) }
    ensures at_least { IfOk result (λ n. least ≤ n) }
    ensures at_most { IfOk result (λ n. n ≤ most) }
{
    let value = value_in(object, key, place)?;
    number(value, key, place, least, most)
}

/// The number at a key of an object, within its limits, or another where the key isn't there.
pub fn number_or(
    otherwise: u64,
    object: &Value,
    key: ScriptKey,
    place: u64,
    least: u64,
    most: u64,
) -> Read<u64>
    requires at_least { least ≤ otherwise }
    requires at_most { otherwise ≤ most }
    ensures value { result ≡ number_or otherwise key place least most (seen object.now) }
    ensures at_least { IfOk result (λ n. least ≤ n) }
    ensures at_most { IfOk result (λ n. n ≤ most) }
{
    match tree::at(object, key) {
        Some(value) => number(value, key, place, least, most),
        None => Ok(otherwise),
    }
}

/// Whether there is true at a key of an object, or what is said where the key isn't there; BadValue where it is another value.
pub fn flag_or(otherwise: bool, object: &Value, key: ScriptKey, place: u64) -> Read<bool>
    ensures { result ≡ flag_or otherwise key place (seen object.now) }
{
    let Some(value) = tree::at(object, key) else {
        return Ok(otherwise);
    };
    match tree::flag(value) {
        Some(flag) => Ok(flag),
        None => Err(ScriptRefusal::BadValue { key, place }),
    }
}
