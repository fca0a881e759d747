ghost use Rattle.std.specs.Prelude.{◌≡◌, ◌<◌, ◌≤◌, ◌||◌, nat_lt, false, None};
ghost use Rattle.am_node_parts.specs.Prelude.{greatest_number, top_of_log, is_member, waiting_send_of, node_of};
ghost use Rattle.am_model.specs.Node.{node_unsettled_count, lowest_name_or_zero};
ghost use Rattle.am_model.specs.Emit.{plan_without_letters};
ghost use Rattle.am_model.specs.Calls.{plan_of_leaving, is_unfinished_ballot, begin_leaving, leave_row};
ghost use Rattle.am_node_parts.specs.Replies.{Replies};
ghost use Rattle.am_node_calls.specs.Forms.{hands_over};

use crate::changing::begin_leaving;
use am_base::name::Name;
use am_base::names::Names;
use am_base::outcome::Outcome;
use am_model::status::Status;
use am_node_parts::parts::Parts;
use am_node_parts::reply::{Note, Reply, Telling, note_to, quiet, saying};

/// Whether there is a ballot that isn't over.
pub fn is_unfinished(parts: &Parts) -> bool
    ensures { result ≡ is_unfinished_ballot (node_of parts.now).ballot }
{
    match &parts.ballot {
        Some(ballot) => !ballot.is_over(),
        None => false,
    }
}

/// How many sends aren't settled.
fn unsettled_count(parts: &Parts) -> u32
    ensures value { result ≡ node_unsettled_count (node_of parts.now) }
    ensures few { result ≤ 4 }
{
    parts.sender.unsettled_count()
}

/// Whether a send isn't settled, or a ballot isn't over.
fn is_busy(parts: &Parts) -> bool
    ensures { result ≡ (nat_lt 0 (node_unsettled_count (node_of parts.now))
        || is_unfinished_ballot (node_of parts.now).ballot) }
{
    0 < unsettled_count(parts) || is_unfinished(parts)
}

/// The lowest of some names; the first of all where there is none.
fn lowest_or_first(names: Names) -> Name
    ensures { result ≡ lowest_name_or_zero names }
{
    match names.lowest() {
        Some(name) => name,
        None => Name::of_byte(0),
    }
}

/// The lowest of some names is to begin a ballot.
pub fn handing_over<'a>(names: Names) -> Telling<'a>
    ensures { result ≡ hands_over names }
{
    note_to(lowest_or_first(names), Note::HandOver)
}

/// A leaving node goes on: a member asks the others; the sequencer hands over to the lowest other member; the last member
/// departs where there is room, and else the answer is Held. It gives the answer back, where that isn't another.
pub fn go_on_leaving<'a>(parts: &Parts, answer: Outcome) -> Reply<'a>
    requires idle { waiting_send_of (node_of parts.now) ≡ None }
    requires number { top_of_log parts.now.core.log < greatest_number }
    ensures { Replies (plan_of_leaving (plan_without_letters (node_of parts.now) answer)) result (node_of parts.now) }
{
    let others = parts.others();
    if !parts.is_sequencer() {
        let ask = Telling::Note {
            to: others,
            note: Note::LeaveAsk,
        };
        return saying(answer, ask);
    }
    if 0 < others.len() {
        return saying(answer, handing_over(others));
    }
    if !parts.has_room() {
        return quiet(parts.held_answer());
    }
    saying(Outcome::Departed, Telling::Departs).numbering()
}

/// A member begins to leave, unless it is leaving already, or has unsettled sends or an unfinished ballot.
fn leave_now<'a>(parts: &mut Parts) -> Reply<'a>
    requires { top_of_log parts.old.core.log < greatest_number }
    ensures { Replies (begin_leaving (node_of parts.old)) result (node_of parts.new) }
{
    if parts.is_leaving() {
        return quiet(Outcome::Leaving);
    }
    if is_busy(parts) {
        let queued = unsettled_count(parts) as u8;
        return quiet(Outcome::Busy { queued });
    }
    begin_leaving(parts);
    go_on_leaving(parts, Outcome::Asked)
}

/// What a node is told that would leave and is no member.
fn outside(parts: &Parts) -> Outcome
    requires { is_member parts.now.status ≡ false }
    ensures { leave_row (node_of parts.now) ≡ plan_without_letters (node_of parts.now) result }
{
    match parts.status() {
        Status::Departed => Outcome::Departed,
        _ => Outcome::NotMember,
    }
}

/// The application would leave (docs/PROTOCOL.md, "Calls"). NotMember where the node never was one; Departed; Leaving
/// already; Busy with the number of unsettled sends where there is one, or an unfinished ballot. Else it goes on leaving:
/// Asked, Departed as the last member, or Held where that one has no room.
pub fn on_leave<'a>(parts: &mut Parts) -> Reply<'a>
    requires { top_of_log parts.old.core.log < greatest_number }
    ensures { Replies (leave_row (node_of parts.old)) result (node_of parts.new) }
{
    if parts.is_member() {
        return leave_now(parts);
    }
    quiet(outside(parts))
}
