#![tactic(auto, using(am_model::proofs::Letters::with_letter_adds_one), unfolding(am_packet::specs::Limits::PacketIsWithin))]

ghost use Rattle.std.specs.Prelude.{◌≡◌, ◌<◌, ◌≤◌, ◌+◌, length};
ghost use Rattle.am_node_parts.specs.Prelude.{node_of};
ghost use Rattle.am_model.specs.Ballots.{letters_with_result, letters_with_fetch};
ghost use Rattle.am_node_parts.specs.Verdicts.{IsTold};
ghost use Rattle.am_node_parts.specs.Replies.{letters_with_told, MayBeTold};

use crate::going::may_go;
use crate::notes::{ack, fetch, gone, packet, result};
use crate::viewing::tell_view;
use am_base::name::{Name, Stamp};
use am_base::outcome::Outcome;
use am_node_parts::packets::only;
use am_node_parts::parts::Parts;
use am_node_parts::reply::{Note, Telling};
use am_packet_writer::out_box::OutBox;

/// A decided view is told to its other members.
fn tell_result(parts: &Parts, outcome: &Outcome, out: &mut OutBox)
    requires room { length out.old < 24 }
    requires told { IsTold outcome.now }
    ensures letters { out.new ≡ letters_with_result outcome.now (node_of parts.now) out.old }
    ensures few { length out.new ≤ length out.old + 1 }
{
    match outcome {
        Outcome::Decided { number, members } => {
            out.put(
                members.without(parts.name()),
                &result(parts, *number, *members, parts.resilience()),
            );
        }
        _ => {}
    }
}

/// What the answer is to fetch is asked for.
fn tell_fetch(parts: &Parts, outcome: &Outcome, out: &mut OutBox)
    requires room { length out.old < 24 }
    ensures letters { out.new ≡ letters_with_fetch outcome.now (node_of parts.now) out.old }
    ensures few { length out.new ≤ length out.old + 1 }
{
    match outcome {
        Outcome::Fetching { from, .. } => out.put(only(*from), &fetch(parts)),
        _ => {}
    }
}

/// An Ack to a name, where this is the view.
fn tell_ack_in(parts: &Parts, view: Stamp, to: Name, out: &mut OutBox)
    requires { length out.old < 24 }
    ensures letters { out.new ≡ letters_with_told Outcome.Known (Telling.AckIn view to) (node_of parts.now)
        out.old }
    ensures few { length out.new ≤ length out.old + 1 }
{
    if parts.has_view(view) {
        out.put(only(to), &ack(parts));
    }
}

/// A Welcome to a name, where this number is accepted.
fn tell_welcome(parts: &Parts, number: u32, to: Name, out: &mut OutBox)
    requires { length out.old < 24 }
    ensures letters { out.new ≡ letters_with_told Outcome.Known (Telling.Welcome number to)
        (node_of parts.now) out.old }
    ensures few { length out.new ≤ length out.old + 1 }
{
    if number <= parts.core.acc {
        out.put(only(to), &packet(parts, &Note::Welcome(to)));
    }
}

/// A Gone to a leaver, where it may go.
fn tell_gone(parts: &Parts, to: Name, out: &mut OutBox)
    requires { length out.old < 24 }
    ensures letters { out.new ≡ letters_with_told Outcome.Known (Telling.Gone to) (node_of parts.now)
        out.old }
    ensures few { length out.new ≤ length out.old + 1 }
{
    let left = parts.row(to).left;
    if may_go(parts, to) {
        out.put(only(to), &gone(parts, left));
    }
}

/// Puts what goes out beside an answer, with the values that stand now.
pub fn tell(parts: &Parts, outcome: &Outcome, telling: &Telling, out: &mut OutBox)
    requires room { length out.old < 16 }
    requires told { MayBeTold outcome.now telling.now }
    ensures letters { out.new ≡ letters_with_told outcome.now telling.now (node_of parts.now) out.old }
    ensures few { length out.new ≤ length out.old + 8 }
{
    match telling {
        Telling::Nothing => {}
        Telling::Note { to, note } => out.put(*to, &packet(parts, note)),
        Telling::AckIn { view, to } => tell_ack_in(parts, *view, *to, out),
        Telling::Entries { .. } => {}
        Telling::Own { .. } => {}
        Telling::Departs => {}
        Telling::View => tell_view(parts, out),
        Telling::Welcome { number, to } => tell_welcome(parts, *number, *to, out),
        Telling::Gone { to } => tell_gone(parts, *to, out),
        Telling::Ballot { fetches } => {
            if *fetches {
                tell_fetch(parts, outcome, out);
            }
            tell_result(parts, outcome, out);
        }
    }
}
