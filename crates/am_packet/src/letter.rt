ghost use Rattle.std.specs.Prelude.{◌≡◌, ◌≤◌, ◌<◌, length, vec_len, vec_capacity, option_map};
ghost use Rattle.am_base.specs.Most.{most_bytes_of_packet};
ghost use Rattle.am_packet.specs.Boxes.{letter_to};
ghost use Rattle.am_packet.specs.Kinds.{kind_of};
ghost use Rattle.am_packet.specs.Limits.{IsPacket};
ghost use Rattle.am_packet.specs.Spelling.{spelling};
ghost use Rattle.am_packet.specs.Letters.{packet_in, bytes_in_letter, IsSpelled};

use am_base::body::PacketBytes;
use am_base::limits::MOST_PACKET;
use am_base::names::Names;
use arrayvec::ArrayVec;
use std::alloc::Global;
use std::marker::Model;

/// The kind of a request to join, which goes to every life of its places.
const JOIN_ASK: u8 = 9;

/// Where a packet's bytes have its kind.
const KIND_AT: usize = 3;

/// Up to so many bytes a letter has in itself; more stand apart.
const MOST_WITHIN: usize = 32;

/// The bytes of a packet with its addressees: the names in a set, or every life of their places. Contracts see it as the
/// packet that its bytes spell, with these addressees (docs/PROTOCOL.md, "Letters").
#[derive(Drop, Debug)]
pub struct Letter {
    to: Names,
    any: bool,
    within: ArrayVec<u8, MOST_WITHIN>,
    apart: Option<Vec<u8>>,
}

impl Model for Letter {
    ghost use Rattle.am_packet.specs.Boxes as boxes;
    ghost use Rattle.std.specs.Prelude.{option_map};
    ghost use Rattle.am_packet.specs.Letters.{packet_in, bytes_in_letter, IsSpelled};

    ghost Value = { boxes.Letter };

    ghost view = { λ l. record { to = l.to; any = l.any; packet = packet_in (bytes_in_letter l.within.items (option_map (λ v. v.items) l.apart)) } };

    ghost invariant = { λ l. IsSpelled (bytes_in_letter l.within.items (option_map (λ v. v.items) l.apart)) };
}

/// The bytes that stand within a letter, or apart from it.
fn bytes_in<'a>(within: &'a [u8], apart: &'a Option<Vec<u8>>) -> &'a [u8]
    ensures { result.now ≡ bytes_in_letter within.now (option_map (λ v. v.items) apart.now) }
{
    match apart {
        Some(bytes) => bytes.as_slice(),
        None => within,
    }
}

impl Letter {
    /// The packet that these bytes spell, for the names of a set, or, where it is a request to join, for every life of their places.
    /// Where the bytes are many, as much memory is taken as they need, and where there is none the room in which they stand. In all
    /// other cases that room goes to the rooms.
    #[tactic(auto, using(crate::proofs::Read::header_read_rules))]
    pub fn with_bytes(
        alloc: Global,
        to: Names,
        written: PacketBytes,
        rooms: &mut Vec<PacketBytes>,
    ) -> Letter
        requires spelled { IsSpelled written }
        requires room { vec_len rooms.old < vec_capacity rooms.old }
        ensures value { result ≡ letter_to to (packet_in written) }
        ensures left { vec_len rooms.old ≤ vec_len rooms.new }
    {
        let any = written.bytes()[KIND_AT] == JOIN_ASK;
        let mut within = ArrayVec::new();
        let apart = match within.try_extend_from_slice(written.bytes()) {
            Ok(()) => None,
            Err(_) => match Vec::from_slice(alloc, written.bytes()) {
                Ok(bytes) => Some(bytes),
                Err(_) => {
                    return Letter {
                        to,
                        any,
                        within,
                        apart: Some(written.into_bytes()),
                    };
                }
            },
        };
        rooms.push_reserved(written);
        Letter {
            to,
            any,
            within,
            apart,
        }
    }

    /// The bytes, wherever they stand.
    fn spelling(&self) -> &[u8]
        ensures value { result.now ≡ spelling self.now.packet }
        ensures spelled { IsSpelled result.now }
        ensures packet { packet_in result.now ≡ self.now.packet }
    {
        bytes_in(self.within.as_slice(), &self.apart)
    }

    /// The names that it is for, or some life of each place that it is for.
    pub fn to(&self) -> Names
        ensures { result ≡ self.now.to }
    {
        self.to
    }

    /// Whether it is for every life of its places.
    pub fn is_for_any(&self) -> bool
        ensures { result ≡ self.now.any }
    {
        self.any
    }

    /// Its packet's bytes, 1,152 at most.
    #[tactic(auto, using(crate::proofs::Read::spelled_bytes_are_short))]
    pub fn bytes(&self) -> &[u8]
        ensures value { result.now ≡ spelling self.now.packet }
        ensures packet { IsPacket self.now.packet }
        ensures fits { length result.now ≤ most_bytes_of_packet }
    {
        self.spelling()
    }

    /// The number of its packet's kind, 1 to 18.
    #[tactic(auto, using(crate::proofs::Read::header_read_rules))]
    pub fn kind(&self) -> u8
        ensures { result ≡ kind_of self.now.packet }
    {
        self.spelling()[KIND_AT]
    }

    /// The same letter in a place of fixed size. It takes no memory.
    pub fn copy(&self) -> LetterCopy
        ensures { result ≡ self.now }
    {
        let mut bytes = ArrayVec::new();
        let _ = bytes.try_extend_from_slice(self.bytes());
        LetterCopy {
            to: self.to,
            any: self.any,
            bytes,
        }
    }
}

/// A letter in a place of fixed size, for which no memory is taken. Contracts see it as the letter.
#[derive(Drop)]
pub struct LetterCopy {
    to: Names,
    any: bool,
    bytes: ArrayVec<u8, MOST_PACKET>,
}

impl Model for LetterCopy {
    ghost use Rattle.am_packet.specs.Boxes as boxes;
    ghost use Rattle.am_packet.specs.Letters.{packet_in, IsSpelled};

    ghost Value = { boxes.Letter };

    ghost view = { λ l. record { to = l.to; any = l.any; packet = packet_in l.bytes.items } };

    ghost invariant = { λ l. IsSpelled l.bytes.items };
}

impl LetterCopy {
    /// Its packet's bytes, 1,152 at most.
    pub fn bytes(&self) -> &[u8]
        ensures value { result.now ≡ spelling self.now.packet }
        ensures packet { IsPacket self.now.packet }
    {
        self.bytes.as_slice()
    }
}
