ghost use Rattle.std.specs.Prelude.{◌≡◌, ◌<◌, ◌≤◌, IfSome, length, option_map, slice_index, true};
ghost use Rattle.am_service_defs.specs.Parts.{most_bytes_of_message, part_count, part_of, part_in, ends_message, fits_message, payload_of};
ghost use Rattle.am_long_messages.specs.Reading.{part_read};

use am_base::body::Body;
use am_base::limits::MOST_BODY;
use arrayvec::ArrayVec;
use byteorder::{BigEndian, ByteOrder};

/// How many bytes a message has at most.
pub const MOST_MESSAGE: usize = 65_535;

/// How many bytes of a message stand in each part but the last.
const MOST_PAYLOAD: usize = 1_019;

/// In how many parts a message of so many bytes goes, 1 to 65 where it has at most 65,535 (docs/MESSAGES.md).
pub fn part_count(length: u32) -> u32
    ensures { result ≡ part_count length }
{
    if length == 0 {
        return 1;
    }
    (length - 1) / 1_019 + 1
}

#[tactic(auto, using(std::proofs::lemmas::List::take_min, std::proofs::lemmas::List::take_rest))]
/// What stands in a part of a message.
fn payload_of(message: &[u8], index: usize) -> &[u8]
    requires { index < part_count (length message.now) }
    ensures value { result.now ≡ payload_of message.entry.now index }
    ensures fits { length result.now ≤ 1019 }
{
    let rest = &message[MOST_PAYLOAD * index..];
    &rest[..MOST_PAYLOAD.min(rest.len())]
}

#[tactic(auto, unfolding(am_service_defs::specs::Parts::part_of))]
/// A part of a message as a body to send, by its index from 0.
pub fn part_of(message: &[u8], index: u32) -> Body
    requires few { length message.now ≤ most_bytes_of_message }
    requires within { index < part_count (length message.now) }
    ensures { result ≡ part_of message.now index }
{
    let count = part_count(message.len() as u32);
    let mut part: ArrayVec<u8, MOST_BODY> = ArrayVec::new();
    part.push(b'S');
    let _ = part.try_extend_from_slice(&(index as u16).to_be_bytes());
    let _ = part.try_extend_from_slice(&(count as u16).to_be_bytes());
    let _ = part.try_extend_from_slice(payload_of(message, index as usize));
    Body::of(part.as_slice()).unwrap()
}

/// A part, read from a body.
#[derive(Drop, Debug)]
pub struct PartRef<'a> {
    /// Which part it is, from 0.
    pub index: u32,
    /// How many parts the message has, 1 to 65.
    pub count: u32,
    /// Its share of the message, at most 1,019 bytes.
    pub payload: &'a [u8],
}

/// Whether a message of so many bytes ends with a part of so many.
fn ends_message(size: usize, count: u32) -> bool
    ensures { result ≡ ends_message size count }
{
    size <= MOST_MESSAGE && part_count(size as u32) == count
}

/// Whether some message has a part with these fields.
fn fits_message(part: &PartRef) -> bool
    ensures { result ≡ fits_message (part_read part.now) }
{
    if part.count <= part.index || 65 < part.count {
        return false;
    }
    if part.index + 1 < part.count {
        return part.payload.len() == MOST_PAYLOAD;
    }
    ends_message(
        MOST_PAYLOAD * part.index as usize + part.payload.len(),
        part.count,
    )
}

#[tactic(auto, unfolding(am_service_defs::specs::Parts::part_in))]
/// The part that a body is; None exactly where it is no part of any message.
pub fn part_in(body: &[u8]) -> Option<PartRef<'_>>
    ensures value { option_map part_read result ≡ part_in body.entry.now }
    ensures fits { IfSome result (λ part. fits_message (part_read part) ≡ true) }
{
    if body.len() < 5 || body[0] != b'S' {
        return None;
    }
    let part = PartRef {
        index: u32::from(BigEndian::read_u16(&body[1..])),
        count: u32::from(BigEndian::read_u16(&body[3..])),
        payload: &body[5..],
    };
    if fits_message(&part) {
        return Some(part);
    }
    None
}
