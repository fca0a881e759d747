//! Looking into a tree of JSON.
ghost use Rattle.std.specs.Prelude.{◌≡◌, is_some, option_map, option_and_then};
ghost use Rattle.std.specs.List.{list_all};
ghost use Rattle.serde_json.specs.Find.{as_object, as_array, as_str, as_bool, as_number, as_u64};
ghost use Rattle.am_script_defs.specs.Keys.{is_among, has_only, value_at};
ghost use Rattle.am_script.specs.Seen.{seen, items_seen};

use crate::document::whole;
use am_script_defs::key::ScriptKey;
use json::Value;

/// Whether a word is that of one of the keys.
fn is_known(keys: &[ScriptKey], word: &str) -> bool
    ensures { result ≡ is_among keys.now word.now }
{
    keys.iter().any(|key| key.word() == word)
}

/// Whether each of an object's members has one of these keys.
fn are_known(keys: &[ScriptKey], members: &[(&str, Value)]) -> bool
    ensures { result ≡ list_all (λ m. is_among keys.now m.0.now) members.now }
{
    members.iter().all(|member| is_known(keys, member.0))
}

/// Whether it is an object that has no other keys than these.
pub fn has_only(value: &Value, keys: &[ScriptKey]) -> bool
    ensures { result ≡ has_only keys.now (seen value.now) }
{
    match value {
        Value::Object(members) => are_known(keys, members.as_slice()),
        _ => false,
    }
}

/// Whether it is an object.
#[tactic(auto, using(crate::proofs::Seeing::as_object_of_json_data))]
pub fn is_object(value: &Value) -> bool
    ensures { result ≡ is_some (as_object (seen value.now)) }
{
    matches!(value, Value::Object(_))
}

/// The value at a key of an object: the last one, where the key comes twice.
pub fn at<'v, 'a>(value: &'v Value<'a>, key: ScriptKey) -> Option<&'v Value<'a>>
    ensures { option_map (λ v. seen v.now) result ≡ value_at key (seen value.now) }
{
    value.get(key.word())
}

/// The text that it is.
#[tactic(auto, using(crate::proofs::Seeing::as_str_of_json_data))]
pub fn text<'a>(value: &Value<'a>) -> Option<&'a str>
    ensures { option_map (λ s. s.now) result ≡ as_str (seen value.now) }
{
    value.as_str()
}

/// Whether it is true or false.
#[tactic(auto, using(crate::proofs::Seeing::as_bool_of_json_data))]
pub fn flag(value: &Value) -> Option<bool>
    ensures { result ≡ as_bool (seen value.now) }
{
    value.as_bool()
}

/// The whole number that it is, from 0 on and of 64 bits.
#[tactic(auto, using(crate::proofs::Seeing::as_whole_of_json_data))]
pub fn number(value: &Value) -> Option<u64>
    ensures { result ≡ option_and_then as_u64 (as_number (seen value.now)) }
{
    match value.as_number() {
        Some(text) => whole(text),
        None => None,
    }
}

/// The items of the array that it is.
pub fn items<'v, 'a>(value: &'v Value<'a>) -> Option<&'v [Value<'a>]>
    ensures { option_map (λ v. items_seen v.now) result ≡ as_array (seen value.now) }
{
    match value {
        Value::Array(items) => Some(items.as_slice()),
        _ => None,
    }
}
