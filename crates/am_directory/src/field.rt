ghost use Rattle.std.specs.Prelude.{◌≡◌, ◌≤◌};
ghost use Rattle.std.specs.Option.{option_map};
ghost use Rattle.am_service_defs.specs.Lengths.{cut_at, field_in, number_in};
ghost use Rattle.am_directory.specs.Reading.{cut_read, number_read};

use byteorder::{BigEndian, ByteOrder};

/// Bytes, and those after them.
#[derive(Clone, Copy)]
pub struct Cut<'a> {
    pub field: &'a [u8],
    pub rest: &'a [u8],
}

/// So many bytes; None where there are fewer.
#[tactic(auto, unfolding(am_service_defs::specs::Lengths::cut_at))]
fn cut_at(bytes: &[u8], count: usize) -> Option<Cut<'_>>
    ensures { option_map cut_read result ≡ cut_at count bytes.entry.now }
{
    if bytes.len() < count {
        return None;
    }
    Some(Cut {
        field: &bytes[..count],
        rest: &bytes[count..],
    })
}

/// A field of a length within these two; None where there is none.
#[tactic(auto, unfolding(am_service_defs::specs::Lengths::field_in))]
pub fn field_in(bytes: &[u8], least: u8, most: u8) -> Option<Cut<'_>>
    ensures { option_map cut_read result ≡ field_in least most bytes.entry.now }
{
    match bytes {
        [] => None,
        [count, rest @ ..] => {
            if *count < least || most < *count {
                return None;
            }
            cut_at(rest, usize::from(*count))
        }
    }
}

/// A number, and the bytes after it.
#[derive(Clone, Copy)]
pub struct Numbered<'a> {
    pub number: u32,
    pub rest: &'a [u8],
}

/// A number of so many bytes; None where there are fewer.
#[tactic(auto, unfolding(am_service_defs::specs::Lengths::number_in))]
fn uint_in(bytes: &[u8], count: usize) -> Option<Numbered<'_>>
    requires { (1 ≤ count) × (count ≤ 4) }
    ensures { option_map number_read result ≡ number_in count bytes.entry.now }
{
    if bytes.len() < count {
        return None;
    }
    let number = BigEndian::read_uint(bytes, count) as u32;
    Some(Numbered {
        number,
        rest: &bytes[count..],
    })
}

/// A number of four bytes; None where there are fewer.
pub fn number_in(bytes: &[u8]) -> Option<Numbered<'_>>
    ensures { option_map number_read result ≡ number_in 4 bytes.entry.now }
{
    uint_in(bytes, 4)
}

/// A number of two bytes; None where there are fewer.
pub fn short_number_in(bytes: &[u8]) -> Option<Numbered<'_>>
    ensures { option_map number_read result ≡ number_in 2 bytes.entry.now }
{
    uint_in(bytes, 2)
}
