ghost use Rattle.std.specs.Prelude.{◌≡◌, ℕ, ◌==◌, ◌+◌, ◌*◌, OnOk, IfOk, Some, None, if◌then◌else◌};
ghost use Rattle.std.specs.Ordering.{nat_cmp};
ghost use Rattle.std.specs.BTreeMap.{get};
ghost use Rattle.am_audit_defs.specs.Verdicts.{or_else};
ghost use Rattle.am_audit.specs.Keeping.{send_key};

use am_base::NoMemory;
use am_base::name::Name;
use std::collections::BTreeMap;

/// A send's name and request as one number.
pub fn send_key(from: Name, req: u32) -> u64
    ensures { result ≡ send_key from req }
{
    u64::from(from.get()) * 4_294_967_296 + u64::from(req)
}

/// What a key has; one that has nothing gets this.
pub fn first_at(map: &mut BTreeMap<u64, u64>, key: u64, value: u64) -> Result<Option<u64>, NoMemory>
    ensures was { IfOk result (λ was. was ≡ get nat_cmp map.old key) }
    ensures set { OnOk result ((q : ℕ) → get nat_cmp map.new q
        ≡ or_else (get nat_cmp map.old q) (if key == q then Some value else None)) }
{
    match map.get(&key).copied() {
        Some(was) => Ok(Some(was)),
        None => {
            map.insert(key, value)?;
            Ok(None)
        }
    }
}

/// A key gets a value.
pub fn put(map: &mut BTreeMap<u64, u64>, key: u64, value: u64) -> Result<(), NoMemory>
    ensures { OnOk result ((q : ℕ) → get nat_cmp map.new q
        ≡ (if key == q then Some value else get nat_cmp map.old q)) }
{
    map.insert(key, value)?;
    Ok(())
}
