ghost use Rattle.std.specs.Prelude.{◌≡◌, ◌++◌, IfOk, OnOk};
ghost use Rattle.am_group.specs.Deliveries.{entries_given_to, deliveries};

use am_base::NoMemory;
use am_base::entry::Entry;
use am_base::name::Name;
use am_group::event::Record;
use am_journal::delivered::given_to;
use std::alloc::Global;

/// Adds the entry that a record gave to a name's application, if it gave one.
fn put_given(item: &Record, node: Name, given: &mut Vec<(u32, Entry)>) -> Result<(), NoMemory>
    ensures { OnOk result (given.new.items ≡ given.old.items ++ entries_given_to node item.now) }
{
    if let Some((number, entry)) = given_to(item, node) {
        given.push((number, entry.to_entry()))?;
    }
    Ok(())
}

/// The entries that a name's application was given, in order, each with its number.
pub fn deliveries(
    alloc: Global,
    records: &[Record],
    node: Name,
) -> Result<Vec<(u32, Entry)>, NoMemory>
    ensures { IfOk result (λ given. given.items ≡ deliveries records.now node) }
{
    let mut given = Vec::new(alloc);
    for item in records {
        put_given(item, node, &mut given)?;
    }
    Ok(given)
}
