ghost use Rattle.std.specs.Prelude.{◌≡◌, ◌≤◌, [], length};
ghost use Rattle.am_base.specs.Most.{most_bytes_of_body};
ghost use Rattle.am_model.specs.Nodes.{HasNumbersLeft};
ghost use Rattle.am_node.specs.Stands.{state_of};
ghost use Rattle.am_race_laws.specs.Boxes.{Steps};

use am_base::event::NodeEvent;
use am_base::outcome::Outcome;
use am_base::taken::EntryRoom;
use am_node::node::Node;
use am_packet_writer::out_box::OutBox;

/// A node does what was asked, and its letters are put together.
pub fn step(
    node: &mut Node,
    out: &mut OutBox,
    what: &Option<NodeEvent>,
    spare: EntryRoom,
) -> Outcome
    requires numbers { HasNumbersLeft (state_of node.old) }
    requires room { most_bytes_of_body ≤ spare }
    requires empty { out.old ≡ [] }
    ensures steps { Steps what.now (state_of node.old) result out.new (state_of node.new) }
    ensures few { length out.new ≤ 9 }
{
    match what {
        Some(what) => {
            let _fits = node.next_len();
            let outcome = node.step(what, Some(spare), out);
            let _accepted = node.accept_front();
            outcome
        }
        None => Outcome::Stopped,
    }
}
