ghost use Rattle.std.specs.Prelude.{◌≡◌};
ghost use Rattle.am_node.specs.Stands.{state_of};
ghost use Rattle.am_lawful_defs.specs.Telling.{shown_node_of};

use am_base::entry::GroupView;
use am_lawful_defs::views::{DecidedView, ShownNode};
use am_node::node::Node;

/// What a watcher is told of a node.
pub fn shown_by(node: &Node) -> ShownNode
    ensures { result ≡ shown_node_of (state_of node.now) }
{
    ShownNode {
        status: node.status(),
        start: node.start(),
        base: node.base(),
        decided: DecidedView {
            number: node.view_number(),
            view: GroupView {
                stamp: node.view(),
                members: node.members(),
                resilience: node.resilience(),
            },
        },
    }
}
