ghost use Rattle.std.specs.Prelude.{◌≡◌, ◌≢◌, true, false};
ghost use Rattle.am_node_parts.specs.Prelude.{members_of_image, has, is_sequencer, image_of_node, node_of, HasRoomLeft, MayServe};
ghost use Rattle.am_model.specs.Sequencing.{has_no_join};
ghost use Rattle.am_model.specs.Joining.{report_counts, answer_leave_ask, leave_ask_row};
ghost use Rattle.am_node_parts.specs.Replies.{Replies};
ghost use Rattle.am_ordering.specs.Joining.{number_leave, leave_again};

use am_base::entry::EntryRef;
use am_base::image::Report;
use am_base::name::{Name, Stamp};
use am_base::outcome::Outcome;
use am_node_parts::parts::Parts;
use am_node_parts::reply::{Reply, StepAnswer, Telling, answering, numbered, polling, quiet};

/// Whether a report is one of this view, and its sender could have made it of the list.
fn counts_report(parts: &Parts, stamp: Stamp, report: Report) -> bool
    ensures { result ≡ report_counts (node_of parts.now) stamp report }
{
    stamp == parts.view() && parts.report_fits(report)
}

/// Numbers the Leave of a name, and lets it go where it may go at once.
fn number_leave<'a>(parts: &mut Parts, from: Name) -> Reply<'a>
    requires leads { is_sequencer (node_of parts.old) ≡ true }
    requires leaver { has (members_of_image (image_of_node (node_of parts.old))) from ≡ true }
    requires other { from ≢ parts.old.core.who }
    requires room { HasRoomLeft (node_of parts.old) }
    ensures { Replies (number_leave (node_of parts.old) from) result (node_of parts.new) }
{
    let number = parts.next_number();
    let others = parts.others();
    parts.push(&EntryRef::leave(from));
    numbered(number, others, EntryRef::leave(from)).and(Telling::Gone { to: from })
}

/// Lets a name go whose Leave stands in the list, where it may go.
fn leave_again<'a>(parts: &Parts, from: Name) -> Reply<'a>
    ensures { Replies (leave_again (node_of parts.now) from) result (node_of parts.now) }
{
    let number = parts.row(from).left;
    answering(
        StepAnswer::LetGo { to: from, number },
        Telling::Gone { to: from },
    )
}

/// Does what a member's request to leave asks for.
fn asks_to_leave<'a>(parts: &mut Parts, from: Name) -> Reply<'a>
    requires serves { MayServe (node_of parts.old) from }
    requires known { has_no_join (node_of parts.old) from ≡ false }
    ensures { Replies (answer_leave_ask (node_of parts.old) from) result (node_of parts.new) }
{
    let row = parts.row(from);
    if 0 < row.left {
        return leave_again(parts, from);
    }
    if !parts.has_room() {
        return polling(parts.held_answer());
    }
    number_leave(parts, from)
}

/// Takes a request to leave, with its sender's report where that is one of this view. Stranger: no Join of its sender
/// stands in the list. Held: there is no room, and the members are polled. Numbered: its Leave is. LetGo: that stands in
/// the list, and everybody else who is concerned has stored it; the leaver is told. Again: somebody hasn't. The node must be
/// the sequencer, and its last number not the greatest.
pub fn on_leave_ask<'a>(parts: &mut Parts, from: Name, stamp: Stamp, report: Report) -> Reply<'a>
    requires { MayServe (node_of parts.old) from }
    ensures { Replies (leave_ask_row (node_of parts.old) from stamp report) result
        (node_of parts.new) }
{
    if parts.is_unknown(from) {
        return quiet(Outcome::Stranger);
    }
    if !counts_report(parts, stamp, report) {
        return asks_to_leave(parts, from);
    }
    parts.take_report(from, report);
    asks_to_leave(parts, from)
}
