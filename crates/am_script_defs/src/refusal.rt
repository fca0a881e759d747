ghost use Rattle.std.specs.Prelude.{◌≡◌};
ghost use Rattle.am_script_defs.specs.Refusals.{refusal_number_of, refused_place};
ghost use Rattle.am_script_defs.specs.declared.refusal.ScriptRefusal.TheVariants.{NoMemory};

use crate::key::ScriptKey;
use std::alloc::AllocError;

/// Why bytes aren't a script, the first cause. A place is the number of an event, or of a call over all threads of a race,
/// from 1, or 0 elsewhere.
#[derive(Clone, Copy)]
pub enum ScriptRefusal {
    /// The bytes aren't JSON.
    NotJson,
    /// A key that is needed isn't there.
    Missing {
        key: ScriptKey,
        place: u64,
    },
    /// A key is there that doesn't belong.
    Unknown {
        place: u64,
    },
    /// The value at a key isn't of its kind.
    BadValue {
        key: ScriptKey,
        place: u64,
    },
    /// A number, or a count of items or bytes, isn't within its limits.
    OutOfRange {
        key: ScriptKey,
        place: u64,
        found: u64,
        least: u64,
        most: u64,
    },
    /// There was no memory.
    NoMemory,
}

/// What is read, or the first cause that it can't be.
pub type Read<T> = Result<T, ScriptRefusal>;

impl ScriptRefusal {
    /// BadValue at a key.
    pub fn bad_value(key: ScriptKey, place: u64) -> ScriptRefusal
        ensures { result ≡ ScriptRefusal.BadValue key place }
    {
        ScriptRefusal::BadValue { key, place }
    }

    /// OutOfRange at a key, where there are limits.
    pub fn out_of_range(
        key: ScriptKey,
        place: u64,
        found: u64,
        least: u64,
        most: u64,
    ) -> ScriptRefusal
        ensures { result ≡ ScriptRefusal.OutOfRange key place found least most }
    {
        ScriptRefusal::OutOfRange {
            key,
            place,
            found,
            least,
            most,
        }
    }

    /// Its number, 1 to 6.
    pub fn number(self) -> u8
        ensures { result ≡ refusal_number_of self }
    {
        match self {
            ScriptRefusal::NotJson => 1,
            ScriptRefusal::Missing { .. } => 2,
            ScriptRefusal::Unknown { .. } => 3,
            ScriptRefusal::BadValue { .. } => 4,
            ScriptRefusal::OutOfRange { .. } => 5,
            ScriptRefusal::NoMemory => 6,
        }
    }

    /// The number of the event or the call that is refused, or 0.
    pub fn place(self) -> u64
        ensures { result ≡ refused_place self }
    {
        match self {
            ScriptRefusal::NotJson | ScriptRefusal::NoMemory => 0,
            ScriptRefusal::Missing { place, .. } => place,
            ScriptRefusal::Unknown { place } => place,
            ScriptRefusal::BadValue { place, .. } => place,
            ScriptRefusal::OutOfRange { place, .. } => place,
        }
    }
}

impl From<AllocError> for ScriptRefusal {
    ghost from_gives = { λ _ e. e ≡ NoMemory };

    fn from(_e: AllocError) -> ScriptRefusal {
        ScriptRefusal::NoMemory
    }
}
