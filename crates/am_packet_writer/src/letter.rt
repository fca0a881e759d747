ghost use Rattle.std.specs.Prelude.{◌≡◌, IfOk};
ghost use Rattle.am_packet.specs.Boxes.{letter_to};
ghost use Rattle.am_packet.specs.Limits.{PacketIsWithin};

use crate::writer::encode;
use am_base::NoMemory;
use am_base::body::PacketBytes;
use am_base::names::Names;
use am_packet::letter::Letter;
use am_packet::packet::Packet;
use std::alloc::Global;

/// A letter of a packet for the names of a set, or, where it is a request to join, for every life of their places. It is an error
/// where there is no memory for its bytes.
#[tactic(auto, using(am_packet::proofs::Read::spelled_packet_rules))]
pub fn letter_of(alloc: Global, to: Names, packet: &Packet) -> Result<Letter, NoMemory>
    requires { PacketIsWithin packet.now }
    ensures { IfOk result (λ l. l ≡ letter_to to packet.now) }
{
    let mut rooms = Vec::with_capacity(alloc, 1)?;
    let mut written = PacketBytes::new(alloc)?;
    encode(packet, &mut written);
    Ok(Letter::with_bytes(alloc, to, written, &mut rooms))
}
