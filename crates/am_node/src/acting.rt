ghost use Rattle.std.specs.Prelude.{◌≢◌};
ghost use Rattle.am_base.specs.declared.event.NodeEvent.TheVariants as does;
ghost use Rattle.am_node_parts.specs.Prelude.{node_of};
ghost use Rattle.am_node_parts.specs.Replies.{Replies};
ghost use Rattle.am_model.specs.Step.{row};
ghost use Rattle.am_model.specs.Nodes.{HasNumbersLeft, HasRoomForTakenBody};

use crate::hearing::hear_bytes;
use am_base::event::NodeEvent;
use am_base::taken::EntryRoom;
use am_node_calls::joining::{on_join, on_state};
use am_node_calls::leaving::on_leave;
use am_node_calls::sending::{on_done, on_send};
use am_node_calls::taking::on_take;
use am_node_calls::ticking::on_tick;
use am_node_parts::parts::Parts;
use am_node_parts::reply::Reply;
use am_resetting::voting::{on_ask, on_give_up, on_reset};

/// What a node replies where it takes nothing.
#[tactic(auto, unfolding(am_model::specs::Step::row))]
fn reply_without<'a>(parts: &mut Parts, event: &'a NodeEvent) -> Reply<'a>
    requires numbers { HasNumbersLeft (node_of parts.old) }
    requires other { event.now ≢ does.Take }
    ensures { Replies (row (node_of parts.old) event.now) result (node_of parts.new) }
{
    match event {
        NodeEvent::Send(body) => on_send(parts, body),
        NodeEvent::Done(req) => on_done(parts, *req),
        NodeEvent::Take => unreachable!(),
        NodeEvent::Join => on_join(parts),
        NodeEvent::State => on_state(parts),
        NodeEvent::Leave => on_leave(parts),
        NodeEvent::Reset { least, resilience } => on_reset(parts, *least, *resilience),
        NodeEvent::Ask(round) => on_ask(parts, *round),
        NodeEvent::GiveUp(name) => on_give_up(parts, *name),
        NodeEvent::Tick => on_tick(parts),
        NodeEvent::Hear(bytes) => hear_bytes(parts, bytes.as_slice()),
    }
}

/// What a node replies where its application calls, where time passes, and where it hears bytes (docs/PROTOCOL.md, "Steps of a
/// node").
#[tactic(auto, unfolding(am_model::specs::Step::row))]
pub fn reply_to<'a>(parts: &mut Parts, event: &'a NodeEvent, spare: Option<EntryRoom>) -> Reply<'a>
    requires numbers { HasNumbersLeft (node_of parts.old) }
    requires place { HasRoomForTakenBody (node_of parts.old) event.now spare }
    ensures { Replies (row (node_of parts.old) event.now) result (node_of parts.new) }
{
    let NodeEvent::Take = event else {
        return reply_without(parts, event);
    };
    on_take(parts, spare)
}
