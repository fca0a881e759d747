ghost use Rattle.std.specs.Prelude.{◌≡◌, ◌≤◌, ◌↔◌, length, IsSome, IfSome};
ghost use Rattle.am_service_defs.specs.Values.{most_value};

use arrayvec::ArrayVec;
use std::marker::Model;

/// The most bytes of a key, which has one at least.
pub const MOST_KEY: usize = 32;

/// The most bytes of a value.
pub const MOST_VALUE: usize = 64;

/// The value of a key: 0 to 64 bytes. Contracts see it as its bytes.
#[derive(Drop, Clone, Debug)]
pub struct ValueBytes(ArrayVec<u8, MOST_VALUE>);

impl Model for ValueBytes {
    ghost use Rattle.std.specs.Prelude.{ℕ, List, ◌≤◌, length};
    ghost use Rattle.am_service_defs.specs.Values.{most_value};

    ghost Value = { List ℕ };

    ghost view = { λ v. v.0.items };

    ghost invariant = { λ v. length v.0.items ≤ most_value };
}

impl ValueBytes {
    /// The value of these bytes; None exactly where there are more than 64.
    pub fn of(bytes: &[u8]) -> Option<ValueBytes>
        ensures variant { IsSome result ↔ (length bytes.now ≤ most_value) }
        ensures value { IfSome result (λ v. v ≡ bytes.now) }
    {
        let mut value = ArrayVec::new();
        match value.try_extend_from_slice(bytes) {
            Ok(()) => Some(ValueBytes(value)),
            Err(_) => None,
        }
    }

    /// Its bytes.
    pub fn bytes(&self) -> &[u8]
        ensures value { result.now ≡ self.now }
        ensures fits { length result.now ≤ most_value }
    {
        self.0.as_slice()
    }
}

/// What a key of a directory has: the number of the entry that set it last, and its value.
#[derive(Drop, Clone, Debug)]
pub struct Setting {
    pub number: u32,
    pub value: ValueBytes,
}
