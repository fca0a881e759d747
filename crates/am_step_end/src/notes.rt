#![tactic(auto, unfolding(am_packet::specs::Limits::PacketIsWithin))]

ghost use Rattle.std.specs.Prelude.{◌≡◌, ◌≤◌};
ghost use Rattle.am_node_parts.specs.Prelude.{NumberIsInRange, EntryIsInRange, PacketIsWithin, node_of};
ghost use Rattle.am_base.specs.declared.entry.Entry.TheVariants.{Data};
ghost use Rattle.am_model.specs.Emit.{bcast_packet_of, order_packet_of, ack_packet_of, nack_packet_of, hold_packet_of, join_ask_packet_of, welcome_packet_of, gone_packet_of, leave_ask_packet_of, invite_packet_of, fetch_packet_of, hand_over_packet_of, request_packet_of, spread_packet_of, result_packet_of};
ghost use Rattle.am_model.specs.Ballots.{vote_packet_of};
ghost use Rattle.am_node_parts.specs.Replies.{packet_of, own_packet, IsNoteWithin, IsOwnWithin};

use am_base::body::Body;
use am_base::entry::{EntryParts, EntryRef, GroupView};
use am_base::name::Name;
use am_base::names::Names;
use am_node_parts::owning::WaitingSend;
use am_node_parts::packet_from;
use am_node_parts::parts::Parts;
use am_node_parts::reply::{Note, OwnLetter};
use am_node_storage::log::Log;
use am_packet::image_ref::ImageRef;
use am_packet::packet::Packet;

/// A numbered entry.
fn bcast<'a>(parts: &Parts, number: u32, entry: &EntryRef<'a>) -> Packet<'a>
    requires number { NumberIsInRange number }
    requires entry { EntryIsInRange entry.now }
    ensures value { result ≡ bcast_packet_of (node_of parts.now) number entry.now }
    ensures within { PacketIsWithin result }
{
    packet_from!(parts => Bcast {
        base: parts.base(),
        acc: parts.accept_front(),
        number,
        entry: entry.again(),
    })
}

/// The number of a send whose body was spread.
fn order<'a>(parts: &Parts, number: u32, from: Name, req: u32) -> Packet<'a>
    requires number { NumberIsInRange number }
    requires req { NumberIsInRange req }
    ensures value { result ≡ order_packet_of (node_of parts.now) number from req }
    ensures within { PacketIsWithin result }
{
    packet_from!(parts => Order {
        base: parts.base(),
        acc: parts.accept_front(),
        number,
        from,
        req,
    })
}

/// A report.
pub fn ack<'a>(parts: &Parts) -> Packet<'a>
    ensures value { result ≡ ack_packet_of (node_of parts.now) }
    ensures within { PacketIsWithin result }
{
    packet_from!(parts => Ack { report: parts.own_report() })
}

/// A report that asks for what comes next.
fn nack<'a>(parts: &Parts) -> Packet<'a>
    ensures value { result ≡ nack_packet_of (node_of parts.now) }
    ensures within { PacketIsWithin result }
{
    packet_from!(parts => Nack { report: parts.own_report() })
}

/// There is no room for a send.
fn hold<'a>(parts: &Parts, req: u32) -> Packet<'a>
    requires { NumberIsInRange req }
    ensures value { result ≡ hold_packet_of (node_of parts.now) req }
    ensures within { PacketIsWithin result }
{
    packet_from!(parts => Hold {
        base: parts.base(),
        top: parts.top(),
        req,
    })
}

/// The node would join.
fn join_ask<'a>(parts: &Parts) -> Packet<'a>
    ensures value { result ≡ join_ask_packet_of (node_of parts.now) }
    ensures within { PacketIsWithin result }
{
    packet_from!(parts => JoinAsk {})
}

/// A name is welcomed.
fn welcome(parts: &Parts, joiner: Name) -> Packet<'_>
    ensures value { result ≡ welcome_packet_of (node_of parts.now) joiner }
    ensures within { PacketIsWithin result }
{
    Packet::Welcome {
        sender: parts.name(),
        stamp: parts.promise(),
        base: parts.base(),
        join: parts.row(joiner).joined,
        image: ImageRef::of(parts.core.log.image_at_base()),
    }
}

/// A name may go, by the number of its Leave.
pub fn gone<'a>(parts: &Parts, number: u32) -> Packet<'a>
    requires { NumberIsInRange number }
    ensures value { result ≡ gone_packet_of (node_of parts.now) number }
    ensures within { PacketIsWithin result }
{
    packet_from!(parts => Gone { number })
}

/// The node would leave.
fn leave_ask<'a>(parts: &Parts) -> Packet<'a>
    ensures value { result ≡ leave_ask_packet_of (node_of parts.now) }
    ensures within { PacketIsWithin result }
{
    packet_from!(parts => LeaveAsk { report: parts.own_report() })
}

/// An Invite to the ballot that the node has promised.
fn invite<'a>(parts: &Parts) -> Packet<'a>
    ensures value { result ≡ invite_packet_of (node_of parts.now) }
    ensures within { PacketIsWithin result }
{
    packet_from!(parts => Invite {})
}

/// What the node shows in a ballot.
fn vote<'a>(parts: &Parts) -> Packet<'a>
    ensures value { result ≡ vote_packet_of (node_of parts.now) }
    ensures within { PacketIsWithin result }
{
    packet_from!(parts => Vote { vote: parts.own_vote() })
}

/// A Fetch of what comes next.
pub fn fetch<'a>(parts: &Parts) -> Packet<'a>
    ensures value { result ≡ fetch_packet_of (node_of parts.now) }
    ensures within { PacketIsWithin result }
{
    packet_from!(parts => Fetch { stored: parts.top() })
}

/// The sequencer leaves.
fn hand_over<'a>(parts: &Parts) -> Packet<'a>
    ensures value { result ≡ hand_over_packet_of (node_of parts.now) }
    ensures within { PacketIsWithin result }
{
    packet_from!(parts => HandOver {})
}

/// The result of a ballot: its View's number, members and resilience.
pub fn result<'a>(parts: &Parts, number: u32, members: Names, resilience: u8) -> Packet<'a>
    requires number { NumberIsInRange number }
    requires resilience { resilience ≤ 15 }
    ensures value { result ≡ result_packet_of (node_of parts.now) number members resilience }
    ensures within { PacketIsWithin result }
{
    Packet::Result {
        sender: parts.name(),
        base: parts.base(),
        number,
        view: GroupView {
            stamp: parts.promise(),
            members,
            resilience,
        },
    }
}

/// A send of the node's own for the sequencer to number.
fn request<'a>(parts: &Parts, req: u32, body: &'a Body) -> Packet<'a>
    requires { NumberIsInRange req }
    ensures value { result ≡ request_packet_of (node_of parts.now) req body.now }
    ensures within { PacketIsWithin result }
{
    packet_from!(parts => Request { report: parts.own_report(), req, body: body.as_ref() })
}

/// One for everybody.
fn spread<'a>(parts: &Parts, req: u32, body: &'a Body) -> Packet<'a>
    requires { NumberIsInRange req }
    ensures value { result ≡ spread_packet_of (node_of parts.now) req body.now }
    ensures within { PacketIsWithin result }
{
    packet_from!(parts => Spread { report: parts.own_report(), req, body: body.as_ref() })
}

/// One that is numbered.
fn own_bcast<'a>(parts: &Parts, number: u32, req: u32, body: &'a Body) -> Packet<'a>
    requires number { NumberIsInRange number }
    requires req { NumberIsInRange req }
    ensures value { result ≡ bcast_packet_of (node_of parts.now) number (Data parts.now.core.who req body.now) }
    ensures within { PacketIsWithin result }
{
    let entry = EntryRef::of(EntryParts::Data {
        from: parts.name(),
        req,
        body: body.as_ref(),
    });
    bcast(parts, number, &entry)
}

/// The packet of a send of the node's own.
pub fn own_packet<'a>(parts: &Parts, letter: OwnLetter, send: &'a WaitingSend) -> Packet<'a>
    requires letter { IsOwnWithin letter }
    requires req { NumberIsInRange send.now.req }
    ensures value { result ≡ own_packet letter (send.now.req, send.now.body) (node_of parts.now) }
    ensures within { PacketIsWithin result }
{
    match letter {
        OwnLetter::Request => request(parts, send.req, &send.body),
        OwnLetter::Spread => spread(parts, send.req, &send.body),
        OwnLetter::Bcast { number } => own_bcast(parts, number, send.req, &send.body),
    }
}

/// The packet that the node makes of a note now.
pub fn packet<'a>(parts: &'a Parts, note: &Note<'a>) -> Packet<'a>
    requires { IsNoteWithin note.now }
    ensures value { result ≡ packet_of note.now (node_of parts.now) }
    ensures within { PacketIsWithin result }
{
    match note {
        Note::Bcast { number, entry } => bcast(parts, *number, entry),
        Note::Order { number, from, req } => order(parts, *number, *from, *req),
        Note::Ack => ack(parts),
        Note::Nack => nack(parts),
        Note::Hold { req } => hold(parts, *req),
        Note::JoinAsk => join_ask(parts),
        Note::Welcome(name) => welcome(parts, *name),
        Note::LeaveAsk => leave_ask(parts),
        Note::Invite => invite(parts),
        Note::Vote => vote(parts),
        Note::Fetch => fetch(parts),
        Note::HandOver => hand_over(parts),
    }
}
