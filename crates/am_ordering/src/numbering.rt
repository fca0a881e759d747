ghost use Rattle.std.specs.Prelude.{◌≡◌, ◌+◌, IfNone};
ghost use Rattle.am_node_parts.specs.Prelude.{NumberIsInRange, set_of_one_name, top, node_of};
ghost use Rattle.am_base.specs.declared.entry.Entry.TheVariants.{Data};
ghost use Rattle.am_model.specs.Emit.{plan_with_poll, with_one_more_letter, hold_packet_of};
ghost use Rattle.am_base.specs.declared.outcome.Outcome.TheVariants as said;
ghost use Rattle.am_node_parts.specs.Replies.{Replies};
ghost use Rattle.am_ordering.specs.Sequencing.{data_note, request_refusal};

use crate::sequencer::Request;
use am_base::entry::{EntryParts, EntryRef};
use am_base::image::Row;
use am_base::name::Name;
use am_base::outcome::Outcome;
use am_node_parts::parts::Parts;
use am_node_parts::reply::{Note, Reply, note_to, saying};

/// What is told of a send that isn't its sender's next one, or whose sender has left; None where it may be numbered.
pub fn request_refusal(row: Row, req: u32) -> Option<Outcome>
    ensures value { result ≡ request_refusal row req }
    ensures stays { IfNone result (row.left ≡ 0) }
    ensures next { IfNone result (req ≡ row.last + 1) }
{
    if 0 < row.left {
        return Some(Outcome::Stranger);
    }
    if req <= row.last {
        return Some(Outcome::Again);
    }
    if 1 < req - row.last {
        return Some(Outcome::Early { last: row.last });
    }
    None
}

/// Tells a name that there is no room for its send, and polls the members.
pub fn put_off<'a>(parts: &Parts, to: Name, req: u32) -> Reply<'a>
    requires { NumberIsInRange req }
    ensures { Replies (with_one_more_letter (plan_with_poll (node_of parts.now)
        (said.Held parts.now.core.base (top (node_of parts.now)))) (set_of_one_name to)
        (λ n. hold_packet_of n req)) result (node_of parts.now) }
{
    saying(parts.held_answer(), note_to(to, Note::Hold { req })).polling()
}

/// What is told of a send that has a number: that alone where its body was spread, else the entry.
pub fn data_note<'a>(number: u32, request: &Request<'a>) -> Note<'a>
    ensures { result ≡ data_note number request.now.from request.now.req request.now.body
        request.now.by_order }
{
    let (from, req) = (request.from, request.req);
    if request.by_order {
        return Note::Order { number, from, req };
    }
    Note::Bcast {
        number,
        entry: data_of(request),
    }
}

/// The Data of a send.
pub fn data_of<'a>(request: &Request<'a>) -> EntryRef<'a>
    ensures { result ≡ Data request.now.from request.now.req request.now.body }
{
    EntryRef::of(EntryParts::Data {
        from: request.from,
        req: request.req,
        body: request.body.again(),
    })
}
