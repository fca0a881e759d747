//! Fields, each at the end of bytes. After an error a part of one may have been added.

ghost use Rattle.std.specs.Prelude.{◌≡◌, ◌++◌, ◌∷◌, [], OnOk};
ghost use Rattle.byteorder.specs.Endian.{big_bytes};
ghost use Rattle.am_packet.specs.Spelling.{stamp_bytes, set_bytes, flag_byte};

use am_base::NoMemory;
use am_base::name::{Name, Stamp};
use am_base::names::Names;

/// Adds bytes.
pub(crate) fn put(out: &mut Vec<u8>, bytes: &[u8]) -> Result<(), NoMemory>
    ensures { OnOk result (out.new.items ≡ out.old.items ++ bytes.now) }
{
    out.extend_from_slice(bytes)?;
    Ok(())
}

/// Adds one byte.
pub(crate) fn put_byte(out: &mut Vec<u8>, byte: u8) -> Result<(), NoMemory>
    ensures { OnOk result (out.new.items ≡ out.old.items ++ byte ∷ []) }
{
    out.push(byte)?;
    Ok(())
}

/// Adds 1 where it holds, else 0.
pub(crate) fn put_flag(out: &mut Vec<u8>, flag: bool) -> Result<(), NoMemory>
    ensures { OnOk result (out.new.items ≡ out.old.items ++ flag_byte flag ∷ []) }
{
    if flag {
        return put_byte(out, 1);
    }
    put_byte(out, 0)
}

/// Adds a name.
pub(crate) fn put_name(out: &mut Vec<u8>, name: Name) -> Result<(), NoMemory>
    ensures { OnOk result (out.new.items ≡ out.old.items ++ name ∷ []) }
{
    put_byte(out, name.get())
}

/// Adds two bytes, the most significant first.
pub(crate) fn put_short(out: &mut Vec<u8>, number: u16) -> Result<(), NoMemory>
    ensures { OnOk result (out.new.items ≡ out.old.items ++ big_bytes 2 number) }
{
    put(out, &number.to_be_bytes())
}

/// Adds four bytes, the most significant first.
pub(crate) fn put_number(out: &mut Vec<u8>, number: u32) -> Result<(), NoMemory>
    ensures { OnOk result (out.new.items ≡ out.old.items ++ big_bytes 4 number) }
{
    put(out, &number.to_be_bytes())
}

/// Adds eight bytes, the most significant first.
fn put_long(out: &mut Vec<u8>, number: u64) -> Result<(), NoMemory>
    ensures { OnOk result (out.new.items ≡ out.old.items ++ big_bytes 8 number) }
{
    put(out, &number.to_be_bytes())
}

/// Adds a round and the name that began it.
pub(crate) fn put_stamp(out: &mut Vec<u8>, stamp: Stamp) -> Result<(), NoMemory>
    ensures { OnOk result (out.new.items ≡ out.old.items ++ stamp_bytes stamp) }
{
    put_number(out, stamp.round)?;
    put_name(out, stamp.by)
}

/// Adds the places of a set as a mask, and their lives.
pub(crate) fn put_set(out: &mut Vec<u8>, set: Names) -> Result<(), NoMemory>
    ensures { OnOk result (out.new.items ≡ out.old.items ++ set_bytes set) }
{
    put_short(out, set.mask())?;
    put_long(out, set.lives())
}
