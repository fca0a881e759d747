ghost use Rattle.std.specs.Prelude.{◌≡◌};
ghost use Rattle.am_node_parts.specs.Prelude.{node_of};
ghost use Rattle.am_model.specs.Hearing.{member_hears_other, member_or_asker_hears_other, hears_packet_of_its_view, sequencer_hears_packet, hears_packet_of_sequencer, packet_is_heard};

use am_base::name::{Name, Stamp};
use am_model::status::Status;
use am_node_parts::parts::Parts;
use am_packet::kind::PacketGate;
use am_packet::packet::Packet;

/// Whether a member hears another name's packet.
fn hears_member(parts: &Parts, from: Name) -> bool
    ensures { result ≡ member_hears_other (node_of parts.now) from }
{
    from != parts.name() && parts.is_member()
}

/// Whether a member, or a node that asks to join, hears another name's packet.
fn hears_asking(parts: &Parts, from: Name) -> bool
    ensures { result ≡ member_or_asker_hears_other (node_of parts.now) from }
{
    from != parts.name() && (parts.is_member() || parts.status() == Status::Asking)
}

/// Whether a packet is one of the view in which the node acts.
fn hears_in_view(parts: &Parts, from: Name, stamp: Stamp) -> bool
    ensures { result ≡ hears_packet_of_its_view (node_of parts.now) from stamp }
{
    hears_member(parts, from) && parts.acts() && stamp == parts.view()
}

/// Whether a packet is one for the sequencer.
fn hears_as_sequencer(parts: &Parts, from: Name, stamp: Stamp) -> bool
    ensures { result ≡ sequencer_hears_packet (node_of parts.now) from stamp }
{
    hears_in_view(parts, from, stamp) && parts.is_sequencer()
}

/// Whether a packet is one of the sequencer.
fn hears_sequencer(parts: &Parts, from: Name, stamp: Stamp) -> bool
    ensures { result ≡ hears_packet_of_sequencer (node_of parts.now) from stamp }
{
    hears_in_view(parts, from, stamp) && stamp.by == from
}

/// Whether a packet is heard, by the gate of its kind.
pub fn is_heard(parts: &Parts, packet: &Packet) -> bool
    ensures { result ≡ packet_is_heard (node_of parts.now) packet.now }
{
    let (sender, stamp) = packet.signature();
    match packet.kind().gate() {
        PacketGate::Member => hears_member(parts, sender),
        PacketGate::Leading => hears_member(parts, sender) && parts.is_sequencer(),
        PacketGate::OfBeginner => hears_member(parts, sender) && stamp.by == sender,
        PacketGate::Early => hears_asking(parts, sender) && stamp.by == sender,
        PacketGate::InView => hears_in_view(parts, sender, stamp),
        PacketGate::AsSequencer => hears_as_sequencer(parts, sender, stamp),
        PacketGate::OfSequencer => hears_sequencer(parts, sender, stamp),
    }
}
