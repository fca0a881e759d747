ghost use Rattle.std.specs.Prelude.{◌≡◌, ◌≤◌, [], length};
ghost use Rattle.am_node_parts.specs.Prelude.{ChangesAllAlike, node_of};
ghost use Rattle.am_node_defs.specs.Sends.{request_and_body_of_waiting_send};
ghost use Rattle.am_model.specs.Refresh.{refresh_at_end};
ghost use Rattle.am_node_parts.specs.Replies.{own_letters, IsOwnWithin};

use crate::notes::own_packet;
use am_base::names::Names;
use am_node_parts::parts::Parts;
use am_node_parts::reply::OwnLetter;
use am_packet_writer::out_box::OutBox;

/// The end of a step that tells names the send that waits before it.
#[inline(never)]
pub fn hand_out(parts: &mut Parts, to: Names, letter: OwnLetter, out: &mut OutBox)
    requires empty { out.old ≡ [] }
    requires within { IsOwnWithin letter }
    ensures changes { ChangesAllAlike refresh_at_end (node_of parts.old) (node_of parts.new) }
    ensures letters { out.new ≡ own_letters to letter (request_and_body_of_waiting_send parts.old.sender)
        (node_of parts.new) }
    ensures few { length out.new ≤ 8 }
{
    let waits = parts.next_send();
    parts.end();
    let Some(send) = waits else {
        return;
    };
    out.put(to, &own_packet(parts, letter, &send));
}
