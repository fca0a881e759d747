ghost use Rattle.std.specs.Prelude.{◌≡◌, ◌==◌, ◌<◌, true, false, None};
ghost use Rattle.am_node_parts.specs.Prelude.{greatest_number, top_of_log, is_sequencer, top, waiting_send_of, node_of};
ghost use Rattle.am_base.specs.declared.outcome.Outcome.TheVariants as said;
ghost use Rattle.am_model.specs.Emit.{plan_without_letters};
ghost use Rattle.am_model.specs.Calls.{would_emit_send, plan_of_leaving};
ghost use Rattle.am_model.specs.Ticks.{tick_of_non_acting_member, tick_of_follower, tick_of_sequencer, tick_of_acting_member, tick_by_ballot, tick_row};
ghost use Rattle.am_node_parts.specs.Replies.{Replies, reply_polling_with_view};
ghost use Rattle.am_node_calls.specs.Forms.{and_poll, again_of, again_of_ballot};

use crate::emitting::{emit, number_send, would_emit};
use crate::joining::ask_to_join;
use crate::leaving::{go_on_leaving, handing_over};
use am_base::names::Names;
use am_base::outcome::Outcome;
use am_model::status::Status;
use am_node_parts::parts::Parts;
use am_node_parts::reply::{Note, OwnLetter, Reply, Telling, note_to, quiet, saying};
use am_node_storage::log::Log;

/// What a ballot asks for again that came to this.
fn again_of<'a>(answer: &Outcome) -> Telling<'a>
    ensures { result ≡ again_of answer.now }
{
    match answer {
        Outcome::Waiting { names } => Telling::Note {
            to: *names,
            note: Note::Invite,
        },
        Outcome::Fetching { from, .. } => note_to(*from, Note::Fetch),
        _ => Telling::Nothing,
    }
}

/// What the node's unfinished ballot asks for again; None where there is no such ballot.
fn again_of_ballot<'a>(parts: &Parts) -> Option<Telling<'a>>
    ensures { result ≡ again_of_ballot (node_of parts.now).ballot }
{
    match &parts.ballot {
        None => None,
        Some(ballot) => {
            if ballot.is_over() {
                return None;
            }
            Some(again_of(ballot.answer()))
        }
    }
}

/// A member that doesn't act fetches from the name that it promised.
fn tick_promised<'a>(parts: &Parts) -> Reply<'a>
    ensures { Replies (tick_of_non_acting_member (node_of parts.now)) result (node_of parts.now) }
{
    let by = parts.promise().by;
    if by == parts.name() {
        return quiet(Outcome::Ticked);
    }
    saying(Outcome::Ticked, note_to(by, Note::Fetch))
}

/// Whether the waiting send would go out.
fn would_emit_waiting(parts: &Parts) -> bool
    ensures { result ≡ would_emit_send (node_of parts.now) (waiting_send_of (node_of parts.now)) }
{
    match parts.waiting_request() {
        None => false,
        Some(req) => would_emit(parts, req),
    }
}

/// An acting member goes on leaving, or hands in its send, or reports.
fn tick_member<'a>(parts: &mut Parts) -> Reply<'a>
    requires { top_of_log parts.old.core.log < greatest_number }
    ensures { Replies (tick_of_follower (node_of parts.old)) result (node_of parts.new) }
{
    if parts.is_leaving() {
        return go_on_leaving(parts, Outcome::Ticked);
    }
    if would_emit_waiting(parts) {
        return emit(parts, Outcome::Ticked);
    }
    saying(Outcome::Ticked, note_to(parts.view().by, Note::Ack))
}

/// An answer of the sequencer, which polls the members, and tells the last View again to those that haven't stored it.
fn polled<'a>(answer: Outcome) -> Reply<'a>
    ensures { result ≡ reply_polling_with_view answer }
{
    saying(answer, Telling::View).polling()
}

/// The sequencer polls, and goes on leaving.
fn poll_leaving<'a>(parts: &Parts) -> Reply<'a>
    requires leads { is_sequencer (node_of parts.now) ≡ true }
    requires idle { waiting_send_of (node_of parts.now) ≡ None }
    requires number { top_of_log parts.now.core.log < greatest_number }
    ensures { Replies (plan_of_leaving (and_poll (plan_without_letters (node_of parts.now) said.Ticked))) result
        (node_of parts.now) }
{
    let others = parts.others();
    if 0 < others.len() {
        return polled(Outcome::Ticked).and(handing_over(others));
    }
    if !parts.has_room() {
        return polled(parts.held_answer());
    }
    let departs = saying(Outcome::Departed, Telling::Departs);
    departs.and(Telling::View).polling().numbering()
}

/// The answer where there is no room for the node's own send.
fn put_off(parts: &Parts, req: u32) -> Outcome
    ensures { result ≡ said.PutOff req (node_of parts.now).core.base (top (node_of parts.now)) }
{
    Outcome::PutOff {
        req,
        base: parts.core.log.base(),
        top: parts.core.log.top(),
    }
}

/// The sequencer numbers its own send where that would go out, polls, and tells its View again.
#[inline(never)]
fn tick_sending<'a>(parts: &mut Parts) -> Reply<'a>
    requires stays { parts.old.leaving ≡ false }
    requires leads { is_sequencer (node_of parts.old) ≡ true }
    requires number { top_of_log parts.old.core.log < greatest_number }
    ensures { Replies (tick_of_sequencer (node_of parts.old)) result (node_of parts.new) }
{
    let Some(send) = parts.next_send() else {
        return polled(Outcome::Ticked);
    };
    if !would_emit(parts, send.req) {
        return polled(Outcome::Ticked);
    }
    if !parts.has_room() {
        return polled(put_off(parts, send.req));
    }
    let to = parts.others();
    let number = number_send(parts, &send);
    let letter = OwnLetter::Bcast { number };
    let sent = saying(Outcome::Ticked, Telling::Own { to, letter });
    sent.and(Telling::View).polling().numbering()
}

/// The sequencer numbers its own send, polls, tells its View again, and goes on leaving.
fn tick_sequencer<'a>(parts: &mut Parts) -> Reply<'a>
    requires leads { is_sequencer (node_of parts.old) ≡ true }
    requires number { top_of_log parts.old.core.log < greatest_number }
    ensures { Replies (tick_of_sequencer (node_of parts.old)) result (node_of parts.new) }
{
    if parts.is_leaving() {
        return poll_leaving(parts);
    }
    if !parts.has_waiting() {
        return polled(Outcome::Ticked);
    }
    tick_sending(parts)
}

/// The tick of a member without an unfinished ballot.
fn tick_acting<'a>(parts: &mut Parts) -> Reply<'a>
    requires { top_of_log parts.old.core.log < greatest_number }
    ensures { Replies (tick_of_acting_member (node_of parts.old)) result (node_of parts.new) }
{
    if !parts.acts() {
        return tick_promised(parts);
    }
    if parts.is_sequencer() {
        return tick_sequencer(parts);
    }
    tick_member(parts)
}

/// The tick of a member.
fn tick_with<'a>(parts: &mut Parts) -> Reply<'a>
    requires { top_of_log parts.old.core.log < greatest_number }
    ensures { Replies (tick_by_ballot (node_of parts.old) (node_of parts.old).ballot) result
        (node_of parts.new) }
{
    match again_of_ballot(parts) {
        Some(again) => saying(Outcome::Ticked, again),
        None => tick_acting(parts),
    }
}

/// The tick (docs/PROTOCOL.md, "Calls"). A Stranger and who has departed: Idle. Who asks to join asks again. A member asks
/// again for what its unfinished ballot waits for; or fetches, where it doesn't act; or goes on leaving, hands its send in,
/// or reports. The sequencer numbers its send, polls, tells its View again, and goes on leaving. Ticked, unless leaving or
/// the send says otherwise.
pub fn on_tick<'a>(parts: &mut Parts) -> Reply<'a>
    requires { top_of_log parts.old.core.log < greatest_number }
    ensures { Replies (tick_row (node_of parts.old)) result (node_of parts.new) }
{
    match parts.status() {
        Status::Asking => ask_to_join(parts, Outcome::Ticked),
        Status::Member => tick_with(parts),
        _ => quiet(Outcome::Idle),
    }
}
