ghost use Rattle.std.specs.Prelude.{◌≡◌, ◌≤◌};
ghost use Rattle.am_node_parts.specs.Prelude.{top, node_of};
ghost use Rattle.am_model.specs.Sequencing.{serve_again};
ghost use Rattle.am_node_parts.specs.Replies.{Replies};

use am_base::name::Name;
use am_base::outcome::Outcome;
use am_node_parts::parts::Parts;
use am_node_parts::reply::{Reply, Telling, quiet, saying};
use am_node_storage::log::Log;

/// Answers who stored the list up to a number, and sends it what comes next. Behind where that is trimmed, else Served.
pub fn serve_again<'a>(parts: &Parts, to: Name, stored: u32) -> Reply<'a>
    requires { stored ≤ top (node_of parts.now) }
    ensures { Replies (serve_again (node_of parts.now) to stored) result (node_of parts.now) }
{
    if stored < parts.core.log.base() {
        return quiet(Outcome::Behind);
    }
    let count = parts.count_above(stored);
    let entries = Telling::Entries {
        to,
        stored,
        pieces: false,
    };
    saying(Outcome::Served { count }, entries)
}
