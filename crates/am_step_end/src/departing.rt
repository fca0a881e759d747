ghost use Rattle.std.specs.Prelude.{◌≡◌, false};
ghost use Rattle.am_node_parts.specs.Prelude.{size, is_member, other_members, push_entry, IsEndOf, node_of};
ghost use Rattle.am_base.specs.declared.entry.Entry.TheVariants.{Leave};
ghost use Rattle.am_node_defs.specs.Refresh.{IsMemberOrLastLeaver};
ghost use Rattle.am_model.specs.Refresh.{refresh_as_sequencer, refresh_at_end};
ghost use Rattle.am_node_parts.specs.Replies.{departed_node, LastMayDepart};

use am_base::entry::EntryRef;
use am_model::status::Status;
use am_node_parts::parts::Parts;

/// Leads as the last member does that has departed.
fn lead(parts: &mut Parts)
    requires leads { IsMemberOrLastLeaver parts.old.core }
    requires outside { is_member parts.old.status ≡ false }
    ensures { IsEndOf (refresh_as_sequencer (node_of parts.old)) (node_of parts.new) }
{
    let _before = parts.accept_front(); // for its order
    parts.fronts.refresh(&mut parts.core);
}

/// The last member numbers its Leave, which is accepted at once, and departs.
pub fn depart(parts: &mut Parts)
    requires { LastMayDepart (node_of parts.old) }
    ensures end { IsEndOf (departed_node (refresh_at_end
        (push_entry (node_of parts.old) (Leave parts.old.core.who)))) (node_of parts.new) }
    ensures nobody { size (other_members (refresh_at_end
        (push_entry (node_of parts.old) (Leave parts.old.core.who)))) ≡ 0 }
{
    parts.set_status(Status::Departed);
    let _before = parts.accept_front(); // for what it keeps
    let who = parts.name();
    parts.push(&EntryRef::leave(who));
    lead(parts);
}
