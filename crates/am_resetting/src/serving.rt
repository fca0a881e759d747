ghost use Rattle.std.specs.Prelude.{◌≡◌, ◌||◌, ◌&&◌, ◌==◌, nat_lt};
ghost use Rattle.am_node_parts.specs.Prelude.{top_of_log, node_of};
ghost use Rattle.am_model.specs.Resets.{fetch_row, may_fetch};
ghost use Rattle.am_node_parts.specs.Replies.{Replies};

use am_base::name::{Name, Stamp};
use am_base::outcome::Outcome;
use am_node_parts::parts::Parts;
use am_node_parts::reply::{Reply, Telling, quiet, saying};
use am_node_storage::log::Log;

/// Whether a name may fetch: the promised one, or in a view of the node's own anybody.
fn may_fetch(parts: &Parts, from: Name, stamp: &Stamp) -> bool
    ensures { result ≡ may_fetch (node_of parts.now) from stamp.now }
{
    *stamp == parts.promise()
        && (stamp.by == from || (stamp.by == parts.name() && parts.has_view(*stamp)))
}

/// Whether a number is below the base or above the last entry.
fn is_out_of_reach(parts: &Parts, number: u32) -> bool
    ensures { result ≡ (nat_lt number parts.now.core.base
        || nat_lt (top_of_log parts.now.core.log) number) }
{
    number < parts.core.log.base() || parts.core.log.top() < number
}

/// A name asks for the entries above what it stored (docs/PROTOCOL.md, "Ballots and views"): Elsewhere where it may not fetch,
/// Behind where that is trimmed or isn't there, else Served, with a Piece for each entry, eight at most.
pub fn on_fetch<'a>(parts: &mut Parts, from: Name, stamp: Stamp, stored: u32) -> Reply<'a>
    ensures { Replies (fetch_row (node_of parts.old) from stamp stored) result
        (node_of parts.new) }
{
    if !may_fetch(parts, from, &stamp) {
        return quiet(Outcome::Elsewhere);
    }
    if is_out_of_reach(parts, stored) {
        return quiet(Outcome::Behind);
    }
    let count = parts.count_above(stored);
    let pieces = Telling::Entries {
        to: from,
        stored,
        pieces: true,
    };
    saying(Outcome::Served { count }, pieces)
}
