ghost use Rattle.std.specs.Prelude.{◌≡◌, ◌≤◌, ◌++◌, length, OnOk};
ghost use Rattle.am_service_defs.specs.Lengths.{field_bytes};
ghost use Rattle.am_service_defs.specs.Snapshots.{head_bytes, setting_bytes};
ghost use Rattle.am_service_defs.specs.Values.{IsKey};

use am_base::NoMemory;
use am_service_defs::setting::Setting;

/// Adds a field.
fn push_field(bytes: &mut Vec<u8>, field: &[u8]) -> Result<(), NoMemory>
    requires { length field.now ≤ 64 }
    ensures { OnOk result (bytes.new.items ≡ bytes.old.items ++ field_bytes field.now) }
{
    bytes.push(field.len() as u8)?;
    bytes.extend_from_slice(field)
}

/// Adds what stands in a snapshot before its keys.
pub fn push_head(bytes: &mut Vec<u8>, join: u32, count: usize) -> Result<(), NoMemory>
    requires { count ≤ 256 }
    ensures { OnOk result (bytes.new.items ≡ bytes.old.items ++ head_bytes join count) }
{
    bytes.push(4)?;
    bytes.extend_from_slice(&join.to_be_bytes())?;
    bytes.extend_from_slice(&(count as u16).to_be_bytes())
}

/// Adds a key with what it has.
pub fn push_setting(bytes: &mut Vec<u8>, key: &[u8], setting: &Setting) -> Result<(), NoMemory>
    requires { IsKey key.now }
    ensures { OnOk result (bytes.new.items
        ≡ bytes.old.items ++ setting_bytes (key.now, setting.now)) }
{
    push_field(bytes, key)?;
    bytes.extend_from_slice(&setting.number.to_be_bytes())?;
    push_field(bytes, setting.value.bytes())
}
