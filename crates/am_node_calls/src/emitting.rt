ghost use Rattle.std.specs.Prelude.{◌≡◌, ◌<◌, ◌+◌, ◌&&◌, nat_lt, nat_le, length, true, Some};
ghost use Rattle.am_node_parts.specs.Prelude.{greatest_number, NumberIsInRange, top_of_log, acts_in_its_view, is_sequencer, push_entry, top, waiting_send_of, node_of};
ghost use Rattle.am_node_parts.specs.Replies.{Replies};
ghost use Rattle.am_base.specs.declared.entry.Entry.TheVariants.{Data};
ghost use Rattle.am_node_defs.specs.Sends.{request_and_body_of_waiting_send};
ghost use Rattle.am_model.specs.Node.{own_row};
ghost use Rattle.am_model.specs.Calls.{hand_in_send, emit_waiting_send};
ghost use Rattle.am_node_calls.specs.Forms.{own_send};

use am_base::body::Body;
use am_base::entry::{EntryParts, EntryRef};
use am_base::outcome::Outcome;
use am_node_parts::owning::WaitingSend;
use am_node_parts::packets::only;
use am_node_parts::parts::Parts;
use am_node_parts::reply::{OwnLetter, Reply, Telling, quiet, saying};
use am_node_storage::log::Log;

/// Whether a send would go out: the node acts, and the send isn't numbered yet.
pub fn would_emit(parts: &Parts, req: u32) -> bool
    ensures { result ≡ (acts_in_its_view (node_of parts.now) && nat_lt (own_row (node_of parts.now)).last req) }
{
    parts.acts() && parts.core.log.row(parts.core.who).last < req
}

/// Whether a body goes by the sequencer.
fn is_short(parts: &Parts, body: &Body) -> bool
    ensures { result ≡ nat_le (length body.now) parts.now.core.rules.pb_up_to }
{
    body.bytes().len() <= usize::from(parts.core.rules.pb_up_to())
}

/// A member hands its send in: to the sequencer where it is short, else to everybody.
fn hand_in<'a>(parts: &Parts, send: &WaitingSend, answer: Outcome) -> Reply<'a>
    requires { request_and_body_of_waiting_send parts.now.sender ≡ Some (send.now.req, send.now.body) }
    ensures { Replies (hand_in_send (node_of parts.now) (own_send send.now.req send.now.body) answer)
        result (node_of parts.now) }
{
    if is_short(parts, &send.body) {
        let request = Telling::Own {
            to: only(parts.view().by),
            letter: OwnLetter::Request,
        };
        return saying(answer, request);
    }
    let spread = Telling::Own {
        to: parts.others(),
        letter: OwnLetter::Spread,
    };
    saying(answer, spread)
}

/// Numbers the node's own send.
pub fn number_send(parts: &mut Parts, send: &WaitingSend) -> u32
    requires leads { is_sequencer (node_of parts.old) ≡ true }
    requires waits { request_and_body_of_waiting_send parts.old.sender ≡ Some (send.now.req, send.now.body) }
    requires new { (own_row (node_of parts.old)).last < send.now.req }
    requires room { length parts.old.core.log.entries < parts.old.core.rules.window + 15 }
    requires req { NumberIsInRange send.now.req }
    requires number { top_of_log parts.old.core.log < greatest_number }
    ensures node { node_of parts.new ≡ push_entry (node_of parts.old)
        (Data parts.old.core.who send.now.req send.now.body) }
    ensures number { result ≡ top (node_of parts.old) + 1 }
    ensures within { NumberIsInRange result }
{
    let number = parts.next_number();
    let entry = EntryRef::of(EntryParts::Data {
        from: parts.name(),
        req: send.req,
        body: send.body.as_ref(),
    });
    parts.push(&entry);
    number
}

/// Emits the waiting send: a member hands it in, and the sequencer numbers it where there is room. Nothing is emitted where
/// none waits, or where it wouldn't go out. It gives the answer back.
#[inline(never)]
pub fn emit<'a>(parts: &mut Parts, answer: Outcome) -> Reply<'a>
    requires { top_of_log parts.old.core.log < greatest_number }
    ensures { Replies (emit_waiting_send (node_of parts.old) (waiting_send_of (node_of parts.old)) answer) result
        (node_of parts.new) }
{
    let Some(send) = parts.next_send() else {
        return quiet(answer);
    };
    if !would_emit(parts, send.req) {
        return quiet(answer);
    }
    if !parts.is_sequencer() {
        return hand_in(parts, &send, answer);
    }
    if !parts.has_room() {
        return quiet(answer);
    }
    let to = parts.others();
    let number = number_send(parts, &send);
    let letter = OwnLetter::Bcast { number };
    saying(answer, Telling::Own { to, letter }).numbering()
}
