ghost use Rattle.std.specs.Prelude.{◌≡◌, ◌+◌, ◌-◌, ◌<◌, ◌≤◌, [], ◌∷◌, length, OnOk, OnErr, IsOk, IfOk, is_ok, if◌then◌else◌, Some, None, option_map};
ghost use Rattle.am_base.specs.Most.{greatest_number};
ghost use Rattle.am_base.specs.Names.{has};
ghost use Rattle.am_group.specs.Groups.{list_with, fronts_with_admitted, fronts_after_take, next_entry_of_standing, founders_view, founders_fronts, founding_view_stamp};

use am_base::NoMemory;
use am_base::entry::{Entry, GroupView};
use am_base::founding::Founding;
use am_base::name::{Name, Stamp};
use am_base::names::Names;
use std::alloc::Global;
use std::marker::Model;

/// A group as its users see it: one list, and how far each name that was admitted has taken it. Contracts see it so.
#[derive(Drop)]
pub struct Group {
    entries: Vec<Entry>,
    fronts: [Option<u32>; 256],
}

impl Model for Group {
    ghost use Rattle.std.specs.Prelude.{◌-◌, vec_len, vec_capacity};
    ghost use Rattle.am_group.specs.Groups.{Standing, AreFronts};

    ghost Value = { Standing };

    ghost view = { λ g. record { entries = g.entries.items; fronts = g.fronts; room = vec_capacity g.entries - vec_len g.entries } };

    ghost invariant = { λ g. AreFronts g.entries.items g.fronts };
}

/// The stamp of the founders' view, which the lowest of them begins.
fn stamp_for(lowest: Option<Name>) -> Stamp
    ensures { result ≡ founding_view_stamp lowest }
{
    match lowest {
        Some(by) => Stamp { round: 1, by },
        None => Stamp {
            round: 1,
            by: Name::of_byte(0),
        },
    }
}

/// The founders' view, the first entry of the list.
fn founders_view(founding: &Founding) -> Entry
    ensures { result ≡ founders_view founding.now }
{
    Entry::View(GroupView {
        stamp: stamp_for(founding.founders().lowest()),
        members: founding.founders(),
        resilience: founding.resilience(),
    })
}

/// The first front of a name: 0 of a founder.
fn first_front(founders: Names, name: Name) -> Option<u32>
    ensures { result ≡ (if has founders name then Some 0 else None) }
{
    if founders.has(name) { Some(0) } else { None }
}

/// The first front of each of the 256 names.
fn founders_fronts(founders: Names) -> [Option<u32>; 256]
    ensures { result ≡ founders_fronts founders }
{
    let mut fronts = [None; 256];
    for name in 0..256usize {
        fronts[name] = first_front(founders, Name::of_byte(name as u8));
    }
    fronts
}

impl Group {
    /// The group of a founding: its list is the founders' View, and each founder is admitted at 1.
    pub fn new(alloc: Global, founding: &Founding) -> Result<Group, NoMemory>
        ensures entries { IfOk result (λ group. group.entries ≡ founders_view founding.now ∷ []) }
        ensures fronts { IfOk result (λ group. group.fronts
            ≡ founders_fronts founding.now.founders) }
    {
        let mut entries = Vec::new(alloc);
        entries.push(founders_view(founding))?;
        let fronts = founders_fronts(founding.founders());
        Ok(Group { entries, fronts })
    }

    /// The list.
    pub fn entries(&self) -> &[Entry]
        ensures { result.now ≡ self.now.entries }
    {
        self.entries.as_slice()
    }

    /// Makes room for so many entries, and changes nothing else.
    pub fn reserve(&mut self, more: u32) -> Result<(), NoMemory>
        ensures room { OnOk result (more ≤ self.new.room) }
        ensures entries { self.new.entries ≡ self.old.entries }
        ensures fronts { self.new.fronts ≡ self.old.fronts }
    {
        self.entries.reserve(more as usize)?;
        Ok(())
    }

    /// Adds an entry at the end of the list. It is Ok where there is room. Without memory the group stays as it was.
    pub fn append(&mut self, entry: Entry) -> Result<(), NoMemory>
        requires { length self.old.entries < greatest_number }
        ensures entries { self.new.entries
            ≡ (if is_ok result then list_with self.old.entries entry else self.old.entries) }
        ensures fronts { self.new.fronts ≡ self.old.fronts }
        ensures succeeds { 0 < self.old.room → IsOk result }
        ensures room { self.old.room ≤ self.new.room + 1 }
        ensures err { OnErr result (self.old.room ≤ self.new.room) }
    {
        self.entries.push(entry)?;
        Ok(())
    }

    /// Admits a name at a number: it takes the entry of this number next.
    pub fn admit(&mut self, name: Name, number: u32)
        requires least { 0 < number }
        requires most { number ≤ length self.old.entries + 1 }
        ensures entries { self.new.entries ≡ self.old.entries }
        ensures fronts { self.new.fronts ≡ fronts_with_admitted self.old.fronts name number }
        ensures room { self.new.room ≡ self.old.room }
    {
        self.fronts[usize::from(name.get())] = Some(number - 1);
    }

    /// What a name takes next: the entry above its front, with its number; None exactly at the list's end, or where the
    /// name wasn't admitted.
    pub fn next(&self, name: Name) -> Option<(u32, &Entry)>
        ensures { option_map (λ next. (next.0, next.1.now)) result ≡ next_entry_of_standing self.now name }
    {
        let front = self.fronts[usize::from(name.get())]?;
        let entry = self.entries.get(front as usize)?;
        Some((front + 1, entry))
    }

    /// Takes the next entry of a name, with its number: the name's front moves on by one. None, and nothing changes,
    /// exactly at the list's end, or where the name wasn't admitted.
    pub fn take(&mut self, name: Name) -> Option<(u32, Entry)>
        ensures value { result ≡ next_entry_of_standing self.old name }
        ensures entries { self.new.entries ≡ self.old.entries }
        ensures fronts { self.new.fronts ≡ fronts_after_take self.old.fronts name (next_entry_of_standing self.old name) }
        ensures room { self.new.room ≡ self.old.room }
    {
        let (number, entry) = self.next(name)?;
        let taken = entry.copy();
        self.fronts[usize::from(name.get())] = Some(number);
        Some((number, taken))
    }
}
