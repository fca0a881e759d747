ghost use Rattle.std.specs.Prelude.{◌≡◌, ◌+◌, ◌≤◌, ◌<◌, [], IfOk};
ghost use Rattle.am_base.specs.Most.{greatest_window};
ghost use Rattle.am_base.specs.Limits.{NumberIsInRange, EntryIsInRange};
ghost use Rattle.am_base.specs.Lists.{blank};

use crate::log::Log;
use crate::table::Table;
use am_base::entry::{Entry, EntryRef};
use am_base::image::{Image, Row};
use am_base::limits::MOST_NUMBER;
use am_base::name::{Name, Stamp};
use am_base::names::Names;
use circular_buffer::HeapCircularBuffer;
use std::alloc::{AllocError, Global};
use std::marker::Model;

/// An entry with the members after it.
#[derive(Drop)]
pub struct Slot {
    /// The entry.
    pub entry: Entry,
    /// The members after it.
    pub members: Names,
}

/// The ring of a history.
pub type Ring = HeapCircularBuffer<Slot, Global>;

/// The end of a list, with what is told up to its base and to its top. Contracts see it as the list from the base on
/// and the capacity (docs/PROTOCOL.md, "The list").
#[derive(Drop)]
pub struct History {
    base: u32,
    below: Table,
    above: Table,
    ring: Ring,
}

impl Model for History {
    ghost use Rattle.am_node_storage.specs.Histories.{HistoryState, IsRing, log_of_slots};

    ghost Value = { HistoryState };

    ghost view = { λ h. record { list = log_of_slots h.base h.below h.ring.items; capacity = h.ring.capacity } };

    ghost invariant = { λ h. IsRing h.base h.below h.above h.ring.items h.ring.capacity };
}

impl History {
    ghost use Rattle.std.specs.Prelude.{length};
    ghost use Rattle.am_node_defs.specs.Kept.{log_above};
    ghost use Rattle.am_node_storage.specs.Histories.{SlotsHaveMembers, slot_entries};

    /// A blank history with room for what the window asks for.
    #[tactic(auto, using(crate::proofs::Rings::ring_of_history_rules))]
    pub fn new(alloc: Global, window: u16) -> Result<History, AllocError>
        requires { (1 ≤ window) × (window ≤ greatest_window) }
        ensures list { IfOk result (λ history. history.list
            ≡ record { start = 0; image = blank; entries = [] }) }
        ensures capacity { IfOk result (λ history. history.capacity ≡ window + 15) }
    {
        let ring = HeapCircularBuffer::with_capacity(alloc, usize::from(window) + 15)?;
        Ok(History {
            base: 0,
            below: Table::blank(),
            above: Table::blank(),
            ring,
        })
    }

    /// Its ring: the entries from `base + 1` to `top` in order, each with the members after it.
    pub fn ring(&self) -> &Ring
        ensures entries { slot_entries result.now.items ≡ self.now.list.entries }
        ensures members { SlotsHaveMembers self.now.list result.now.items }
        ensures capacity { result.now.capacity ≡ self.now.capacity }
    {
        &self.ring
    }

    /// Lets the lowest entry go, which the table below then has.
    fn let_go(&mut self)
        requires { 0 < length self.old.list.entries }
        ensures list { self.new.list ≡ log_above self.old.list (self.old.list.start + 1) }
        ensures capacity { self.new.capacity ≡ self.old.capacity }
    {
        match self.ring.front() {
            Some(slot) => {
                self.base += 1;
                self.below.apply(self.base, &slot.entry.as_ref());
                let _ = self.ring.pop_front();
            }
            None => {}
        }
    }
}

impl Log for History {
    ghost list = { λ h. h.list };

    ghost capacity = { λ h. h.capacity };

    fn base(&self) -> u32 {
        self.base
    }

    fn top(&self) -> u32 {
        self.base + self.ring.len() as u32
    }

    fn entry(&self, number: u32) -> Option<&Entry> {
        if number <= self.base {
            return None;
        }
        match self.ring.get((number - self.base - 1) as usize) {
            Some(slot) => Some(&slot.entry),
            None => None,
        }
    }

    fn members_after(&self, number: u32) -> Names {
        if number == self.base {
            return self.below.members();
        }
        match self.ring.get((number - self.base - 1) as usize) {
            Some(slot) => slot.members,
            None => self.above.members(),
        }
    }

    fn view(&self) -> Stamp {
        self.above.view()
    }

    fn view_number(&self) -> u32 {
        self.above.view_number()
    }

    fn resilience(&self) -> u8 {
        self.above.resilience()
    }

    fn at_place(&self, name: Name) -> Row {
        self.above.at_place(name)
    }

    fn row(&self, name: Name) -> Row {
        self.above.row(name)
    }

    fn image_at_base(&self) -> &Image {
        self.below.image()
    }

    fn fits(&self, entry: &EntryRef) -> bool {
        self.above.fits(entry)
    }

    fn push(&mut self, entry: &EntryRef) {
        self.above
            .apply(self.base + self.ring.len() as u32 + 1, entry);
        let members = self.above.members();
        let _ = self.ring.push_back(Slot {
            entry: entry.to_entry(),
            members,
        });
    }

    fn trim(&mut self, to: u32) {
        for _number in self.base..to {
            self.let_go();
        }
    }

    fn begin(&mut self, base: u32, image: &Image) {
        self.base = base;
        self.below = Table::of_image(image);
        self.above = Table::of_image(image);
    }
}
