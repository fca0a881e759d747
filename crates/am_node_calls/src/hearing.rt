ghost use Rattle.std.specs.Prelude.{◌≡◌, ◌||◌, nat_le};
ghost use Rattle.std.specs.List.{list_any};
ghost use Rattle.am_node_parts.specs.Prelude.{waiting_send_of, node_of};
ghost use Rattle.am_node_parts.specs.Replies.{Replies};
ghost use Rattle.am_node_defs.specs.Bodies.{is_body_of_send};
ghost use Rattle.am_model.specs.Sequencing.{row_of_name_in_list};
ghost use Rattle.am_model.specs.Receiving.{spread_row, hold_row};
ghost use Rattle.am_model.specs.Joining.{gone_row};
ghost use Rattle.am_node_calls.specs.Forms.{waits_for};

use crate::changing::keep_body;
use am_base::body::BodyRef;
use am_base::name::Name;
use am_base::outcome::Outcome;
use am_model::status::Status;
use am_node_parts::parts::Parts;
use am_node_parts::reply::{Reply, quiet};
use am_node_storage::log::Log;

/// Whether a send is numbered, or its body is kept.
fn is_known(parts: &Parts, from: Name, req: u32) -> bool
    ensures { result ≡ (nat_le req (row_of_name_in_list (node_of parts.now) from).last
        || list_any (is_body_of_send from req) parts.now.pool) }
{
    req <= parts.core.log.row(from).last || parts.pool.holds(from, req)
}

/// A name spreads a body, at a member that isn't the sequencer (docs/PROTOCOL.md, "Spread"). Known where the send is numbered
/// or its body is kept already; else Kept.
pub fn on_spread<'a>(parts: &mut Parts, from: Name, req: u32, body: &BodyRef) -> Reply<'a>
    ensures { Replies (spread_row (node_of parts.old) from req body.now) result
        (node_of parts.new) }
{
    if is_known(parts, from, req) {
        return quiet(Outcome::Known);
    }
    keep_body(parts, from, req, body);
    quiet(Outcome::Kept)
}

/// Whether the waiting send has this request.
fn waits_for(parts: &Parts, req: u32) -> bool
    ensures { result ≡ waits_for (waiting_send_of (node_of parts.now)) req }
{
    match parts.sender.waiting() {
        Some(send) => send.0 == req,
        None => false,
    }
}

/// The sequencer has no room for a send: PutOff where that is the waiting send, else Known.
pub fn on_hold<'a>(parts: &Parts, base: u32, top: u32, req: u32) -> Reply<'a>
    ensures { Replies (hold_row (node_of parts.now) base top req) result (node_of parts.now) }
{
    if waits_for(parts, req) {
        return quiet(Outcome::PutOff { req, base, top });
    }
    quiet(Outcome::Known)
}

/// The node may go: Departed where it is leaving, else Known.
pub fn on_gone<'a>(parts: &mut Parts) -> Reply<'a>
    ensures { Replies (gone_row (node_of parts.old)) result (node_of parts.new) }
{
    if parts.is_leaving() {
        parts.set_status(Status::Departed);
        return quiet(Outcome::Departed);
    }
    quiet(Outcome::Known)
}
