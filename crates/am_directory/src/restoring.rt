ghost use Rattle.std.specs.Prelude.{◌≡◌};
ghost use Rattle.std.specs.Option.{option_map, option_copied};
ghost use Rattle.am_directory.specs.Reading.{cut_read, number_read, setting_read, head_read};
ghost use Rattle.am_service_defs.specs.Snapshots.{limited_in, may_follow, setting_behind, setting_in, head_behind, head_in};

use crate::field::{Cut, Numbered, field_in, number_in, short_number_in};
use am_base::limits::MOST_NUMBER;
use am_service_defs::setting::{Setting, ValueBytes};

/// A number within its limit; None where there is none.
#[tactic(auto, unfolding(am_service_defs::specs::Snapshots::limited_in))]
fn limited_in(bytes: &[u8]) -> Option<Numbered<'_>>
    ensures { option_map number_read result ≡ limited_in bytes.entry.now }
{
    let number = number_in(bytes)?;
    if number.number <= MOST_NUMBER {
        Some(number)
    } else {
        None
    }
}

/// Whether a key may stand after another, or first.
fn may_follow<'a>(last: Option<&'a [u8]>, key: &'a [u8]) -> bool
    ensures { result ≡ may_follow (option_copied last.entry) key.now }
{
    match last {
        Some(last) => last < key,
        None => true,
    }
}

/// A key with what it has, and the bytes after it in a snapshot.
#[derive(Drop)]
pub struct SettingRef<'a> {
    pub key: &'a [u8],
    pub setting: Setting,
    pub rest: &'a [u8],
}

/// What a key has, after it; None where there is nothing such.
#[tactic(auto, using(am_service_defs::proofs::Limits::field_read_is_value), unfolding(am_service_defs::specs::Snapshots::setting_behind))]
fn setting_behind(key: Cut<'_>) -> Option<SettingRef<'_>>
    ensures { option_map setting_read result ≡ setting_behind (cut_read key.entry) }
{
    let number = limited_in(key.rest)?;
    let value = field_in(number.rest, 0, 64)?;
    Some(SettingRef {
        key: key.field,
        setting: Setting {
            number: number.number,
            value: ValueBytes::of(value.field).unwrap(),
        },
        rest: value.rest,
    })
}

/// The first key with what it has, after the last key; None where there is none.
#[tactic(auto, unfolding(am_service_defs::specs::Snapshots::setting_in))]
pub fn setting_in<'a>(last: Option<&'a [u8]>, bytes: &'a [u8]) -> Option<SettingRef<'a>>
    ensures { option_map setting_read result
        ≡ setting_in (option_copied last.entry) bytes.entry.now }
{
    let key = field_in(bytes, 1, 32)?;
    if may_follow(last, key.field) {
        setting_behind(key)
    } else {
        None
    }
}

/// What stands in a snapshot before its keys: the number of the Join, how many keys there are, and the bytes after that.
#[derive(Clone, Copy)]
pub struct HeadRef<'a> {
    pub join: u32,
    pub count: u32,
    pub rest: &'a [u8],
}

/// The head of a snapshot, after its first byte; None where there is none.
#[tactic(auto, unfolding(am_service_defs::specs::Snapshots::head_behind))]
fn head_behind(bytes: &[u8]) -> Option<HeadRef<'_>>
    ensures { option_map head_read result ≡ head_behind bytes.entry.now }
{
    let join = limited_in(bytes)?;
    let count = short_number_in(join.rest)?;
    if count.number <= 256 {
        Some(HeadRef {
            join: join.number,
            count: count.number,
            rest: count.rest,
        })
    } else {
        None
    }
}

/// The head of a snapshot; None where there is none.
#[tactic(auto, unfolding(am_service_defs::specs::Snapshots::head_in))]
pub fn head_in(bytes: &[u8]) -> Option<HeadRef<'_>>
    ensures { option_map head_read result ≡ head_in bytes.entry.now }
{
    match bytes {
        [4, rest @ ..] => head_behind(rest),
        _ => None,
    }
}
