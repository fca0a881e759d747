ghost use Rattle.std.specs.Prelude.{◌≡◌, ◌+◌, ◌*◌, ◌<◌, ◌≤◌, ◌++◌, ◌∷◌, [], length, OnOk, IfOk, true, vec_len, vec_capacity, slice_get};
ghost use Rattle.std.specs.Option.{option_copied};
ghost use Rattle.am_base.specs.Most.{most_events_of_run};
ghost use Rattle.am_group.specs.Journals.{letters_of_records, letter_at, item_at, record_without_caller};
ghost use Rattle.am_journal.specs.Places.{letter_of, letter_places};

use am_base::NoMemory;
use am_base::founding::Founding;
use am_base::items::Items;
use am_base::outcome::Outcome;
use am_group::event::{By, Event, Part, Record};
use am_packet::letter::Letter;
use std::alloc::Global;
use std::marker::Model;

/// Where a letter stands: the number of its record and its index among that record's letters, both from 0.
#[derive(Clone, Copy, PartialEq, Eq, Debug)]
pub struct Place {
    pub number: u32,
    pub index: u32,
}

/// What happened in a group, record by record, with each letter by its number in the whole, from 1. Contracts see it as
/// its founding and its records (docs/PROTOCOL.md, "The journal").
pub struct Journal {
    founding: Founding,
    records: Vec<Record>,
    places: Vec<Place>,
}

impl Model for Journal {
    ghost use Rattle.am_journal.specs.Places.{History, ArePlaces, has_spare};
    ghost use Rattle.std.specs.Prelude.{vec_len, vec_capacity};

    ghost Value = { History };

    ghost view = { λ j. record { founding = j.founding; records = j.records.items; has_room = has_spare (vec_len j.records) (vec_capacity j.records) (vec_len j.places) (vec_capacity j.places) } };

    ghost invariant = { λ j. ArePlaces j.records.items j.places.items };
}

// Written out, so that who lets a journal go calls this, and proves nothing of what it has.
impl Drop for Journal {
    fn drop(self) {
        let Journal {
            founding: _,
            records: _,
            places: _,
        } = self;
    }
}

impl Journal {
    /// The journal of a group to which nothing has happened.
    pub fn new(alloc: Global, founding: &Founding) -> Journal
        ensures founding { result.founding ≡ founding.now }
        ensures records { result.records ≡ [] }
    {
        Journal {
            founding: *founding,
            records: Vec::new(alloc),
            places: Vec::new(alloc),
        }
    }

    /// The same with room for so many records, beside that for their letters. It is an error where there is no memory for them.
    pub fn with_room(alloc: Global, founding: &Founding, most: usize) -> Result<Journal, NoMemory>
        ensures founding { IfOk result (λ journal. journal.founding ≡ founding.now) }
        ensures records { IfOk result (λ journal. journal.records ≡ []) }
    {
        let mut records = Vec::new(alloc);
        records.reserve_exact(most)?;
        Ok(Journal {
            founding: *founding,
            records,
            places: Vec::new(alloc),
        })
    }

    /// How the group began.
    pub fn founding(&self) -> &Founding
        ensures { result.now ≡ self.now.founding }
    {
        &self.founding
    }

    /// The records in order: at most 100,000, each with at most 24 letters.
    pub fn records(&self) -> &[Record]
        ensures value { result.now ≡ self.now.records }
        ensures few { length (letters_of_records result.now) ≤ 24 * length result.now }
        ensures short { length result.now ≤ most_events_of_run }
    {
        self.records.as_slice()
    }

    /// Makes room for one record, and changes nothing else.
    pub fn reserve(&mut self) -> Result<(), NoMemory>
        ensures room { OnOk result (self.new.has_room ≡ true) }
        ensures founding { self.new.founding ≡ self.old.founding }
        ensures records { self.new.records ≡ self.old.records }
    {
        self.records.reserve(1)?;
        self.places.reserve(24)
    }

    /// A copy of an event for its record, for which there then is room.
    pub fn copy_for(&mut self, event: &Event) -> Result<Event, NoMemory>
        ensures copy { IfOk result (λ done. done ≡ event.now) }
        ensures room { OnOk result (self.new.has_room ≡ true) }
        ensures founding { self.new.founding ≡ self.old.founding }
        ensures records { self.new.records ≡ self.old.records }
    {
        self.reserve()?;
        event.try_copy()
    }

    /// The record of an event of which this outcome came, and no letter. There then is room for it.
    pub fn record_for(
        &mut self,
        alloc: Global,
        event: &Event,
        life: u8,
        outcome: Outcome,
    ) -> Result<Record, NoMemory>
        ensures value { IfOk result (λ r. r ≡ record_without_caller event.now life outcome []) }
        ensures room { OnOk result (self.new.has_room ≡ true) }
        ensures founding { self.new.founding ≡ self.old.founding }
        ensures records { self.new.records ≡ self.old.records }
    {
        let done = self.copy_for(event)?;
        Ok(record_of(done, life, outcome, Items::new(alloc)))
    }

    /// Adds a record at the end. It takes no memory.
    #[inline(always)]
    pub fn push(&mut self, item: Record)
        requires room { self.old.has_room ≡ true }
        requires few { length self.old.records < most_events_of_run }
        requires letters { length item.packets ≤ 24 }
        ensures founding { self.new.founding ≡ self.old.founding }
        ensures records { self.new.records ≡ self.old.records ++ item ∷ [] }
    {
        let number = self.records.len() as u32;
        let many = item.packets.as_slice().len() as u32;
        push_places(&mut self.places, number, many);
        self.records.push_reserved(item);
    }

    /// How many letters the records sent.
    pub fn packets(&self) -> u32
        ensures { result ≡ length (letters_of_records self.now.records) }
    {
        self.places.len() as u32
    }

    /// A letter by its number, from 1; None exactly where there is none.
    pub fn packet(&self, number: u32) -> Option<&Letter>
        ensures { option_copied result ≡ letter_at (letters_of_records self.now.records) number }
    {
        match place_at(self.places.as_slice(), number) {
            Some(place) => letter_in(self.records.as_slice(), place),
            None => None,
        }
    }
}

/// The record of an event that no caller did, of which this outcome and these letters came.
pub fn record_of(event: Event, life: u8, outcome: Outcome, packets: Items<Letter>) -> Record
    ensures { result ≡ record_without_caller event life outcome packets }
{
    Record {
        event,
        life,
        by: By {
            caller: 0,
            call: 0,
            part: Part::Call,
        },
        outcome,
        packets,
    }
}

/// Where the letter of a number stands.
fn place_at(places: &[Place], number: u32) -> Option<Place>
    ensures { result ≡ item_at places.now number }
{
    if number == 0 {
        return None;
    }
    places.get(number as usize - 1).copied()
}

/// The letter at a place.
fn letter_in(records: &[Record], place: Place) -> Option<&Letter>
    ensures { option_copied result ≡ letter_of (slice_get records.now place.number) place.index }
{
    match records.get(place.number as usize) {
        Some(item) => item.packets.as_slice().get(place.index as usize),
        None => None,
    }
}

/// Adds the places of so many letters of one record.
#[tactic(auto, using(crate::proofs::Places::places_of_next_letter))]
fn push_places(places: &mut Vec<Place>, number: u32, many: u32)
    requires { vec_len places.old + many ≤ vec_capacity places.old }
    ensures { places.new.items ≡ places.old.items ++ letter_places number many }
{
    for index in 0..many {
        places.push_reserved(Place { number, index });
    }
}
