ghost use Rattle.std.specs.Prelude.{◌≡◌};
ghost use Rattle.am_packet.specs.Kinds.{head_of};

use crate::image_ref::ImageRef;
use crate::kind::PacketKind;
use am_base::body::BodyRef;
use am_base::entry::{EntryRef, GroupView};
use am_base::image::{Report, Vote};
use am_base::name::{Name, Stamp};

/// What nodes tell each other (docs/PROTOCOL.md, "Packets"). Each has its sender and a stamp. Numbers, rounds and
/// requests are at most `MOST_NUMBER`. Bodies, entries and images stand elsewhere: among a packet's bytes, or in what a node keeps.
#[derive(Drop)]
pub enum Packet<'a> {
    /// A send for the sequencer to number.
    Request {
        sender: Name,
        stamp: Stamp,
        report: Report,
        req: u32,
        body: BodyRef<'a>,
    },
    /// A send for everybody, which the sequencer is to number.
    Spread {
        sender: Name,
        stamp: Stamp,
        report: Report,
        req: u32,
        body: BodyRef<'a>,
    },
    /// A numbered entry.
    Bcast {
        sender: Name,
        stamp: Stamp,
        base: u32,
        acc: u32,
        number: u32,
        entry: EntryRef<'a>,
    },
    /// The number of a send that was spread.
    Order {
        sender: Name,
        stamp: Stamp,
        base: u32,
        acc: u32,
        number: u32,
        from: Name,
        req: u32,
    },
    /// How far the list is accepted; with a poll each member is to report.
    Accept {
        sender: Name,
        stamp: Stamp,
        base: u32,
        acc: u32,
        top: u32,
        poll: bool,
    },
    /// A report.
    Ack {
        sender: Name,
        stamp: Stamp,
        report: Report,
    },
    /// A report that asks for what comes next.
    Nack {
        sender: Name,
        stamp: Stamp,
        report: Report,
    },
    /// There is no room for this send.
    Hold {
        sender: Name,
        stamp: Stamp,
        base: u32,
        top: u32,
        req: u32,
    },
    /// The sender would join.
    JoinAsk {
        sender: Name,
        stamp: Stamp,
    },
    /// A joiner's start.
    Welcome {
        sender: Name,
        stamp: Stamp,
        base: u32,
        join: u32,
        image: ImageRef<'a>,
    },
    /// The sender would leave.
    LeaveAsk {
        sender: Name,
        stamp: Stamp,
        report: Report,
    },
    /// A leaver may go.
    Gone {
        sender: Name,
        stamp: Stamp,
        number: u32,
    },
    /// A ballot asks for a vote.
    Invite {
        sender: Name,
        stamp: Stamp,
    },
    /// What the voter has.
    Vote {
        sender: Name,
        stamp: Stamp,
        vote: Vote,
    },
    /// Asks for entries above a number.
    Fetch {
        sender: Name,
        stamp: Stamp,
        stored: u32,
    },
    /// An entry that was fetched.
    Piece {
        sender: Name,
        stamp: Stamp,
        base: u32,
        number: u32,
        entry: EntryRef<'a>,
    },
    /// A ballot's view, whose stamp is the packet's.
    Result {
        sender: Name,
        base: u32,
        number: u32,
        view: GroupView,
    },
    /// The sequencer leaves; the addressee is to begin a ballot.
    HandOver {
        sender: Name,
        stamp: Stamp,
    },
}

impl<'a> Packet<'a> {
    /// Its kind.
    pub fn kind(&self) -> PacketKind
        ensures value { result ≡ (head_of self.now).kind }
    {
        match self {
            Packet::Request { .. } => PacketKind::Request,
            Packet::Spread { .. } => PacketKind::Spread,
            Packet::Bcast { .. } => PacketKind::Bcast,
            Packet::Order { .. } => PacketKind::Order,
            Packet::Accept { .. } => PacketKind::Accept,
            Packet::Ack { .. } => PacketKind::Ack,
            Packet::Nack { .. } => PacketKind::Nack,
            Packet::Hold { .. } => PacketKind::Hold,
            Packet::JoinAsk { .. } => PacketKind::JoinAsk,
            Packet::Welcome { .. } => PacketKind::Welcome,
            Packet::LeaveAsk { .. } => PacketKind::LeaveAsk,
            Packet::Gone { .. } => PacketKind::Gone,
            Packet::Invite { .. } => PacketKind::Invite,
            Packet::Vote { .. } => PacketKind::Vote,
            Packet::Fetch { .. } => PacketKind::Fetch,
            Packet::Piece { .. } => PacketKind::Piece,
            Packet::Result { .. } => PacketKind::Result,
            Packet::HandOver { .. } => PacketKind::HandOver,
        }
    }

    /// Who sent it, and its stamp.
    pub fn signature(&self) -> (Name, Stamp)
        ensures sender { result.0 ≡ (head_of self.now).sender }
        ensures stamp { result.1 ≡ (head_of self.now).stamp }
    {
        match self {
            Packet::Request { sender, stamp, .. }
            | Packet::Spread { sender, stamp, .. }
            | Packet::Bcast { sender, stamp, .. }
            | Packet::Order { sender, stamp, .. }
            | Packet::Accept { sender, stamp, .. }
            | Packet::Ack { sender, stamp, .. }
            | Packet::Nack { sender, stamp, .. }
            | Packet::Hold { sender, stamp, .. }
            | Packet::JoinAsk { sender, stamp, .. }
            | Packet::Welcome { sender, stamp, .. }
            | Packet::LeaveAsk { sender, stamp, .. }
            | Packet::Gone { sender, stamp, .. }
            | Packet::Invite { sender, stamp, .. }
            | Packet::Vote { sender, stamp, .. }
            | Packet::Fetch { sender, stamp, .. }
            | Packet::Piece { sender, stamp, .. }
            | Packet::HandOver { sender, stamp, .. } => (*sender, *stamp),
            Packet::Result { sender, view, .. } => (*sender, view.stamp),
        }
    }
}
