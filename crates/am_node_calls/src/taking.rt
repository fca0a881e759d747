ghost use Rattle.std.specs.Prelude.{◌≡◌, ◌≢◌, ◌≤◌, ◌+◌, Some, IsNone, IfSome, ◌↔◌};
ghost use Rattle.am_base.specs.Entries.{HasRoomForBody, optional_body_length};
ghost use Rattle.am_node_parts.specs.Prelude.{log_entry_at, node_of};
ghost use Rattle.am_node_parts.specs.Replies.{Replies};
ghost use Rattle.am_model.specs.Calls.{take_row};

use crate::changing::set_taken;
use am_base::outcome::Outcome;
use am_base::taken::{EntryRoom, TakenEntry};
use am_node_parts::parts::Parts;
use am_node_parts::reply::{Reply, quiet};
use am_node_storage::log::Log;

/// The entry after those that the application has taken, with its number; None exactly where all that is accepted is taken.
/// It is put into the spare room.
fn next(parts: &Parts, spare: Option<EntryRoom>) -> Option<(u32, TakenEntry)>
    requires place { parts.now.core.taken ≢ parts.now.core.acc
        → HasRoomForBody (optional_body_length (log_entry_at parts.now.core.log (parts.now.core.taken + 1))) spare }
    ensures none { IsNone result ↔ (parts.now.core.taken ≡ parts.now.core.acc) }
    ensures number { IfSome result (λ given. given.0 ≡ parts.now.core.taken + 1) }
    ensures accepted { IfSome result (λ given. given.0 ≤ parts.now.core.acc) }
    ensures entry { IfSome result (λ given. log_entry_at parts.now.core.log (parts.now.core.taken + 1)
        ≡ Some given.1) }
{
    if parts.core.taken == parts.core.acc {
        return None;
    }
    let number = parts.core.taken + 1;
    let room = spare?;
    let entry = parts.core.log.entry(number)?;
    Some((number, room.fill(&entry.as_ref())))
}

/// The application takes the next entry (docs/PROTOCOL.md, "Calls"). NotMember where the node is none; Empty where all that
/// is accepted is taken; else Took, with the entry in the spare room.
pub fn on_take<'a>(parts: &mut Parts, spare: Option<EntryRoom>) -> Reply<'a>
    requires { parts.old.core.taken ≢ parts.old.core.acc
        → HasRoomForBody (optional_body_length (log_entry_at parts.old.core.log (parts.old.core.taken + 1))) spare }
    ensures { Replies (take_row (node_of parts.old)) result (node_of parts.new) }
{
    if !parts.is_member() {
        return quiet(Outcome::NotMember);
    }
    let Some((number, entry)) = next(parts, spare) else {
        return quiet(Outcome::Empty);
    };
    set_taken(parts, number);
    quiet(Outcome::Took { number, entry })
}
