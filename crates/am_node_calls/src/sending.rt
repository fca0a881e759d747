ghost use Rattle.std.specs.Prelude.{◌<◌};
ghost use Rattle.am_node_parts.specs.Prelude.{greatest_number, top_of_log, node_of};
ghost use Rattle.am_node_parts.specs.Replies.{Replies};
ghost use Rattle.am_model.specs.Calls.{send_row, done_row};

use crate::changing::{collect, submit};
use crate::emitting::emit;
use am_base::body::SentBody;
use am_base::outcome::Outcome;
use am_node_parts::parts::Parts;
use am_node_parts::reply::{Reply, quiet};

/// The application sends a body (docs/PROTOCOL.md, "Calls"). NotMember where the node is none; Leaving; Busy where four sends
/// aren't collected; else Queued with its request, and where no send waits before it, it is emitted.
pub fn on_send<'a>(parts: &mut Parts, body: &SentBody) -> Reply<'a>
    requires number { top_of_log parts.old.core.log < greatest_number }
    requires last { parts.old.sender.last < greatest_number }
    ensures { Replies (send_row (node_of parts.old) body.now) result (node_of parts.new) }
{
    if !parts.is_member() {
        return quiet(Outcome::NotMember);
    }
    if parts.is_leaving() {
        return quiet(Outcome::Leaving);
    }
    let waits = parts.has_waiting();
    match submit(parts, body) {
        Err(busy) => quiet(Outcome::Busy {
            queued: busy.queued,
        }),
        Ok(req) => {
            if waits {
                return quiet(Outcome::Queued { req });
            }
            emit(parts, Outcome::Queued { req })
        }
    }
}

/// The application asks what came of a send: Unknown, Pending, or Sent with its number, and then the send is collected.
pub fn on_done<'a>(parts: &mut Parts, req: u32) -> Reply<'a>
    ensures { Replies (done_row (node_of parts.old) req) result (node_of parts.new) }
{
    quiet(collect(parts, req))
}
