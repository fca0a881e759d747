use am_base::entry::{Entry, EntryParts};
use am_base::founding::Founding;
use am_base::name::Name;
use am_base::names::Names;
use am_group_list::group::Group;
use std::alloc::Global;
use std::test::*;

fn founding_of(founders: u16) -> Result<Founding, Fail> {
    Ok(Founding::new(Names::of_mask(founders), 0, 64, 256).ok_or("a founding")?)
}

/// Names, and the number of the entry that each of them takes in turn, or 0.
const TAKES: [(u8, u32); 9] = [
    (0, 1),
    (0, 2),
    (0, 0),
    (2, 2),
    (2, 0),
    (2, 0),
    (3, 0),
    (3, 0),
    (3, 0),
];

/// A group of two founders, to whom a third has joined.
fn joined(alloc: Global) -> Result<Group, Fail> {
    let mut group = Group::new(alloc, &founding_of(3)?)?;
    group.reserve(1)?;
    if group.entries().len() < 2 {
        group.append(Entry::Join(Name::of_byte(2)))?;
    }
    if group.entries().len() == 2 {
        group.admit(Name::of_byte(2), 2);
    }
    Ok(group)
}

/// The number of the entry that a name takes, or 0.
fn number_taken(group: &mut Group, name: Name) -> u32 {
    match group.take(name) {
        Some((number, _)) => number,
        None => 0,
    }
}

/// Whether an entry is the View of two founders.
fn is_founders_view(entry: &Entry) -> bool {
    match entry.as_ref().parts() {
        EntryParts::View(view) => {
            let by = view.stamp.by.get();
            view.stamp.round == 1 && by == 0 && view.members.mask() == 3 && view.resilience == 0
        }
        _ => false,
    }
}

#[test]
fn a_group_gives_its_entries(rt: HostRuntime) -> Result<(), Fail> {
    let mut group = joined(rt.alloc())?;
    for (name, number) in &TAKES {
        let taken = number_taken(&mut group, Name::of_byte(*name));
        assert!(rt; taken == *number, "of {name}");
    }
    let first = group.entries().first().ok_or("an entry")?;
    assert!(rt; is_founders_view(first));
    Ok(())
}
