ghost use Rattle.std.specs.Prelude.{◌≡◌, ◌<◌, ◌≤◌, ◌+◌, length, true, false, None, IfOk, IfErr, IsOk, OnOk, OnErr, ◌↔◌};
ghost use Rattle.am_node_parts.specs.Prelude.{greatest_number, is_member, waiting_send_of, node_of};
ghost use Rattle.am_node_defs.specs.Sends.{queue_send, collect, collect_outcome};
ghost use Rattle.am_node_defs.specs.Bodies.{keep_body};

use am_base::body::{BodyRef, SentBody};
use am_base::name::Name;
use am_base::outcome::Outcome;
use am_node_parts::parts::Parts;
use am_node_storage::sender::Busy;

/// The node begins to leave; no send of its own waits.
pub fn begin_leaving(parts: &mut Parts)
    requires { waiting_send_of (node_of parts.old) ≡ None }
    ensures { node_of parts.new ≡ record (node_of parts.old) { leaving = true } }
{
    parts.leaving = true;
}

/// The application has taken one entry more of those that are accepted.
pub fn set_taken(parts: &mut Parts, number: u32)
    requires next { number ≡ parts.old.core.taken + 1 }
    requires accepted { number ≤ parts.old.core.acc }
    ensures { node_of parts.new ≡ record (node_of parts.old)
        { core = record parts.old.core { taken = number } } }
{
    parts.core.taken = number;
}

/// Keeps a body, unless one of the same send is there.
pub fn keep_body(parts: &mut Parts, from: Name, req: u32, body: &BodyRef)
    ensures { node_of parts.new ≡ record (node_of parts.old)
        { bodies = keep_body from req body.now parts.old.pool } }
{
    parts.pool.keep(from, req, body);
}

/// Queues a send and gives its request number. Busy exactly where four sends aren't collected.
pub fn submit(parts: &mut Parts, body: &SentBody) -> Result<u32, Busy>
    requires last { parts.old.sender.last < greatest_number }
    requires member { is_member parts.old.status ≡ true }
    requires stays { parts.old.leaving ≡ false }
    ensures variant { IsOk result ↔ (length parts.old.sender.queue < 4) }
    ensures number { IfOk result (λ req. req ≡ parts.old.sender.last + 1) }
    ensures ok { OnOk result (node_of parts.new
        ≡ record (node_of parts.old) { sends = queue_send body.now parts.old.sender }) }
    ensures busy { IfErr result (λ busy. busy.queued ≡ 4) }
    ensures err { OnErr result (node_of parts.new ≡ node_of parts.old) }
{
    parts.sender.submit(body)
}

/// Answers what came of a send, and removes it where it is settled.
pub fn collect(parts: &mut Parts, req: u32) -> Outcome
    ensures answer { result ≡ collect_outcome req parts.old.sender }
    ensures rest { node_of parts.new ≡ record (node_of parts.old)
        { sends = collect req parts.old.sender } }
{
    parts.sender.collect(req)
}
