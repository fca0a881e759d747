ghost use Rattle.std.specs.Prelude.{◌≡◌, ◌==◌};
ghost use Rattle.std.specs.Option.{option_to_list};
ghost use Rattle.am_group.specs.Deliveries.{acting_name_of_record, entries_given_to};

use am_base::entry::EntryRef;
use am_base::name::Name;
use am_base::outcome::Outcome;
use am_group::event::Record;

/// Whether a record is of this name: of its place and its life.
fn is_of(item: &Record, node: Name) -> bool
    ensures { result ≡ (acting_name_of_record item.now == node) }
{
    let life = u32::from(item.life);
    u32::from(item.event.node.place()) + 16 * life.saturating_sub(1) == u32::from(node.get())
}

/// The entry that a record gave to a name's application, with its number; None exactly where it gave it none.
pub fn given_to(item: &Record, node: Name) -> Option<(u32, EntryRef<'_>)>
    ensures { option_to_list result ≡ entries_given_to node item.now }
{
    if !is_of(item, node) {
        return None;
    }
    match &item.outcome {
        Outcome::Took { number, entry } => Some((*number, entry.as_ref())),
        _ => None,
    }
}
