ghost use Rattle.std.specs.Prelude.{◌≡◌, true};
ghost use Rattle.am_packet.specs.Reading.{reading};
ghost use Rattle.am_node_parts.specs.Prelude.{PacketIsWithin, node_of};
ghost use Rattle.am_node_parts.specs.Replies.{Replies};
ghost use Rattle.am_model.specs.Hearing.{packet_is_heard, heard_row, hear_row};
ghost use Rattle.am_model.specs.Nodes.{HasNumbersLeft};
ghost use Rattle.am_model.specs.Step.{row_of_read_bytes};

use crate::gate::is_heard;
use am_base::name::Name;
use am_base::outcome::Outcome;
use am_node_calls::hearing::{on_gone, on_hold, on_spread};
use am_node_parts::parts::Parts;
use am_node_parts::reply::{Reply, quiet};
use am_ordering::joining::on_join_ask;
use am_ordering::leaving::on_leave_ask;
use am_ordering::receiver::{Told, on_accept, on_bcast, on_order};
use am_ordering::sequencer::{Request, on_ack, on_nack, on_request};
use am_ordering::welcomed::{Welcome, on_welcome};
use am_packet::packet::Packet;
use am_packet_reader::reader::decode;
use am_resetting::catching::{Arrival, on_piece, on_result};
use am_resetting::serving::on_fetch;
use am_resetting::voting::{on_hand_over, on_invite, on_vote};

/// What a packet of the sequencer tells of its list.
fn told(sender: Name, base: u32, acc: u32, number: u32) -> Told
    ensures { result ≡ record { sender = sender; base = base; acc = acc; number = number } }
{
    Told {
        sender,
        base,
        acc,
        number,
    }
}

/// Does the row of a packet of the view in which the node acts, or that names join and leave by. A body that its sender spread
/// is numbered by the sequencer, and kept by another member.
fn heard_row<'a>(parts: &mut Parts, packet: &Packet<'a>) -> Reply<'a>
    requires heard { packet_is_heard (node_of parts.old) packet.now ≡ true }
    requires within { PacketIsWithin packet.now }
    requires numbers { HasNumbersLeft (node_of parts.old) }
    ensures { Replies (heard_row (node_of parts.old) packet.now) result (node_of parts.new) }
{
    match packet {
        Packet::Request {
            sender,
            report,
            req,
            body,
            ..
        } => {
            let request = Request {
                from: *sender,
                report: *report,
                req: *req,
                body: body.again(),
                by_order: false,
            };
            on_request(parts, &request)
        }
        Packet::Spread {
            sender,
            report,
            req,
            body,
            ..
        } => {
            if parts.is_sequencer() {
                let request = Request {
                    from: *sender,
                    report: *report,
                    req: *req,
                    body: body.again(),
                    by_order: true,
                };
                return on_request(parts, &request);
            }
            on_spread(parts, *sender, *req, body)
        }
        Packet::Bcast {
            sender,
            base,
            acc,
            number,
            entry,
            ..
        } => on_bcast(parts, told(*sender, *base, *acc, *number), entry),
        Packet::Order {
            sender,
            base,
            acc,
            number,
            from,
            req,
            ..
        } => on_order(parts, told(*sender, *base, *acc, *number), *from, *req),
        Packet::Accept {
            sender,
            base,
            acc,
            top,
            poll,
            ..
        } => on_accept(parts, told(*sender, *base, *acc, *top), *poll),
        Packet::Ack { sender, report, .. } => on_ack(parts, *sender, *report),
        Packet::Nack { sender, report, .. } => on_nack(parts, *sender, *report),
        Packet::Hold { base, top, req, .. } => on_hold(parts, *base, *top, *req),
        Packet::JoinAsk { sender, .. } => on_join_ask(parts, *sender),
        Packet::Welcome {
            sender,
            stamp,
            base,
            join,
            image,
        } => {
            on_welcome(
                parts,
                &Welcome {
                    sender: *sender,
                    stamp: *stamp,
                    base: *base,
                    join: *join,
                },
                image,
            )
        }
        Packet::LeaveAsk {
            sender,
            stamp,
            report,
        } => on_leave_ask(parts, *sender, *stamp, *report),
        Packet::Gone { .. } => on_gone(parts),
        Packet::Invite { sender, stamp } => on_invite(parts, *sender, *stamp),
        Packet::Vote {
            sender,
            stamp,
            vote,
        } => on_vote(parts, *sender, *stamp, vote),
        Packet::Fetch {
            sender,
            stamp,
            stored,
        } => on_fetch(parts, *sender, *stamp, *stored),
        Packet::Piece {
            sender,
            stamp,
            base,
            number,
            entry,
        } => {
            let piece = Arrival {
                from: *sender,
                stamp: *stamp,
                base: *base,
                number: *number,
            };
            on_piece(parts, &piece, entry)
        }
        Packet::Result {
            sender,
            base,
            number,
            view,
        } => {
            let last = Arrival {
                from: *sender,
                stamp: view.stamp,
                base: *base,
                number: *number,
            };
            on_result(parts, &last, view)
        }
        Packet::HandOver { .. } => on_hand_over(parts),
    }
}

/// Hears a packet: Elsewhere where it isn't heard by its kind.
fn hear<'a>(parts: &mut Parts, packet: &Packet<'a>) -> Reply<'a>
    requires within { PacketIsWithin packet.now }
    requires numbers { HasNumbersLeft (node_of parts.old) }
    ensures { Replies (hear_row (node_of parts.old) packet.now) result (node_of parts.new) }
{
    if is_heard(parts, packet) {
        return heard_row(parts, packet);
    }
    quiet(Outcome::Elsewhere)
}

/// Hears bytes. Those that spell no packet are refused by their cause.
pub fn hear_bytes<'a>(parts: &mut Parts, bytes: &'a [u8]) -> Reply<'a>
    requires { HasNumbersLeft (node_of parts.old) }
    ensures { Replies (row_of_read_bytes (node_of parts.old) (reading bytes.now)) result
        (node_of parts.new) }
{
    match &decode(bytes) {
        Ok(packet) => hear(parts, packet),
        Err(refusal) => quiet(Outcome::Refused {
            cause: refusal.cause(),
        }),
    }
}
