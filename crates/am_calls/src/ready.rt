ghost use Rattle.std.specs.Prelude.{◌≡◌};
ghost use Rattle.am_node.specs.Stands.{state_of};
ghost use Rattle.am_race_laws.specs.Ready.{invite_round, round_in, is_ended, send_is_settled, is_ready_after, may_take};

use crate::outcomes::ballot_answer;
use am_base::outcome::Outcome;
use am_group::event::Act;
use am_model::info::BallotEnd;
use am_model::status::Status;
use am_node::node::Node;
use am_packet::letter::Letter;
use am_packet::packet::Packet;
use am_packet_reader::reader::packet_of;
use am_race_laws::call::Came;

/// The round of a packet that is an Invite.
fn invite_round(packet: &Packet) -> Option<u32>
    ensures { result ≡ invite_round packet.now }
{
    match packet {
        Packet::Invite { stamp, .. } => Some(stamp.round),
        _ => None,
    }
}

/// The round of the ballot whose Invite is among these letters, and else 0.
pub fn round_in(letters: &[Letter]) -> u32
    ensures { result ≡ round_in letters.now }
{
    for letter in letters {
        if let Some(round) = invite_round(&packet_of(letter)) {
            return round;
        }
    }
    0
}

/// Whether a ballot is over, with an answer.
fn is_ended(end: &Option<BallotEnd>) -> bool
    ensures { result ≡ is_ended end.now }
{
    match end {
        Some(BallotEnd::Ended(outcome)) => ballot_answer(outcome).is_some(),
        Some(BallotEnd::Going(_)) | None => false,
    }
}

fn is_sent(node: &Node, outcome: &Outcome) -> bool
    ensures { result ≡ send_is_settled (state_of node.now) outcome.now }
{
    match outcome {
        Outcome::Queued { req } => node.is_settled(*req),
        _ => false,
    }
}

/// Whether a node has an accepted entry for its application to take.
pub fn may_take(node: &Node) -> bool
    ensures { result ≡ may_take (state_of node.now) }
{
    match node.status() {
        Status::Member => node.info().taken < node.accept_front(),
        Status::Stranger | Status::Asking | Status::Departed => false,
    }
}

/// Whether the check of a call would tell its answer, where this came of its own act.
pub fn is_ready_after(node: &Node, act: &Act, came: &Came) -> bool
    ensures { result ≡ is_ready_after (state_of node.now) act.now came.now.outcome came.now.round }
{
    match act {
        Act::Send(_) => is_sent(node, &came.outcome),
        Act::Join => node.status().has_log(),
        Act::Leave => node.status().has_departed(),
        Act::Reset { .. } => is_ended(&node.ballot(came.round)),
        _ => false,
    }
}
