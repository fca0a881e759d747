ghost use Rattle.std.specs.Prelude.{◌≡◌, ◌<◌, length};
ghost use Rattle.am_node_parts.specs.Prelude.{PacketIsWithin, TellsAlike, node_of};
ghost use Rattle.am_node_parts.specs.Parts.{letters_with_accept_front};
ghost use Rattle.am_model.specs.Emit.{accept_packet_of};

use am_node_parts::packet_from;
use am_node_parts::parts::Parts;
use am_packet::packet::Packet;
use am_packet_writer::out_box::OutBox;

/// An Accept.
#[tactic(auto, unfolding(am_packet::specs::Limits::PacketIsWithin))]
fn accept(parts: &Parts, polls: bool) -> Packet<'_>
    ensures value { TellsAlike (λ n. accept_packet_of n polls) (node_of parts.now) result }
    ensures within { PacketIsWithin result }
{
    packet_from!(parts => Accept {
        base: parts.base(),
        acc: parts.accept_front(),
        top: parts.top(),
        poll: polls,
    })
}

/// The sequencer tells the other members what is accepted: where it polls them, or where that rose above what was
/// accepted before the step and no entry that it numbered tells it. The out box must have room.
pub fn tell_accepted(parts: &Parts, before: u32, polls: bool, numbers: bool, out: &mut OutBox)
    requires room { length out.old < 24 }
    ensures { TellsAlike (letters_with_accept_front before polls numbers out.old) (node_of parts.now) out.new }
{
    if parts.is_sequencer() && (polls || (before < parts.core.acc && !numbers)) {
        out.put(parts.others(), &accept(parts, polls));
    }
}
