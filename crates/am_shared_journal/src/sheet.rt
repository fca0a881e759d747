ghost use Rattle.std.specs.Prelude.{◌≡◌, ◌<◌, ◌≤◌, ◌++◌, ◌∷◌, [], length, OnOk, OnErr, if◌then◌else◌};
ghost use Rattle.am_base.specs.Most.{most_events_of_run};
ghost use Rattle.am_group.specs.Addressed.{next_for};
ghost use Rattle.am_group.specs.Journals.{letters_of_records, letter_at};
ghost use Rattle.am_shared_journal_defs.specs.Stops.{is_stop, with_stop, stopped_names};

use am_base::NoMemory;
use am_base::founding::Founding;
use am_base::name::Name;
use am_base::names::Names;
use am_group::event::{Act, Record};
use am_journal::journal::Journal;
use am_packet::letter::LetterCopy;
use std::alloc::Global;
use std::marker::Model;

/// How far the letters above a number were looked through for a name: none of them up to there is for it.
#[derive(Clone, Copy, Debug)]
pub struct LetterLook {
    pub name: Name,
    pub after: u32,
    pub seen: u32,
}

/// What lies in the slot: the journal, who has stopped in it, and for each place the last look for letters that found none.
/// Contracts see it as a founding and records.
#[derive(Drop)]
pub struct Sheet {
    journal: Journal,
    stopped: Names,
    looks: [LetterLook; 16],
}

impl Model for Sheet {
    ghost use Rattle.std.specs.Prelude.{◌≡◌};
    ghost use Rattle.am_group.specs.Journals.{letters_of_records};
    ghost use Rattle.am_shared_journal_defs.specs.Stops.{stopped_names};
    ghost use Rattle.am_shared_journal.specs.Looks.{AreLooks};
    ghost use Rattle.am_shared_journal.specs.Seats.{Page};

    ghost Value = { Page };

    ghost view = { λ s. record { founding = s.journal.founding; records = s.journal.records } };

    ghost invariant = { λ s. (s.stopped ≡ stopped_names s.journal.records)
        × AreLooks (letters_of_records s.journal.records) s.looks };
}

/// Whether an act is a stop.
fn is_stop(act: &Act) -> bool
    ensures { result ≡ is_stop act.now }
{
    matches!(act, Act::Stop)
}

/// The stopped names after a record.
fn with_stop(stopped: Names, item: &Record) -> Names
    ensures { result ≡ with_stop stopped item.now }
{
    if !is_stop(&item.event.act) {
        return stopped;
    }
    match Name::of(item.event.node.place(), item.life) {
        Some(name) => stopped.with(name),
        None => stopped,
    }
}

impl Sheet {
    /// Nothing has happened.
    pub fn new(alloc: Global, founding: &Founding) -> Sheet
        ensures { result ≡ record { founding = founding.now; records = [] } }
    {
        let look = LetterLook {
            name: Name::of_byte(0),
            after: 0,
            seen: 0,
        };
        Sheet {
            journal: Journal::new(alloc, founding),
            stopped: Names::empty(),
            looks: [look; 16],
        }
    }

    /// How many records there are.
    pub fn len(&self) -> usize
        ensures value { result ≡ length self.now.records }
        ensures few { result ≤ most_events_of_run }
    {
        self.journal.records().len()
    }

    /// Adds a record, or leaves all as it was where there is no memory.
    #[tactic(auto, using(crate::proofs::Looks::looks_after_one_record_more))]
    pub fn add(&mut self, item: Record) -> Result<(), NoMemory>
        requires few { length self.old.records < most_events_of_run }
        requires letters { length item.packets ≤ 24 }
        ensures founding { self.new.founding ≡ self.old.founding }
        ensures ok { OnOk result (self.new.records ≡ self.old.records ++ item ∷ []) }
        ensures err { OnErr result (self.new.records ≡ self.old.records) }
    {
        self.journal.reserve()?;
        self.stopped = with_stop(self.stopped, &item);
        self.journal.push(item);
        Ok(())
    }

    /// A letter by its number, from 1.
    pub fn letter(&self, number: u32) -> Option<LetterCopy>
        ensures { result ≡ letter_at (letters_of_records self.now.records) number }
    {
        match self.journal.packet(number) {
            Some(letter) => Some(letter.copy()),
            None => None,
        }
    }

    /// From where on the letters above a number are to be looked through for a name.
    #[tactic(auto, using(crate::proofs::Looks::next_for_from_last_look))]
    fn from(&self, node: Name, after: u32) -> u32
        ensures { next_for (letters_of_records self.now.records) node result
            ≡ next_for (letters_of_records self.now.records) node after }
    {
        let look = self.looks[usize::from(node.place())];
        if look.name == node && look.after == after {
            look.seen
        } else {
            after
        }
    }

    /// The least number above another of a letter that is for this name. What was looked through in vain isn't looked through
    /// again.
    #[tactic(auto, using(crate::proofs::Looks::looks_after_one_look_more))]
    pub fn next_for(&mut self, node: Name, after: u32) -> Option<u32>
        ensures value { result ≡ next_for (letters_of_records self.old.records) node after }
        ensures same { self.new ≡ self.old }
    {
        let from = self.from(node, after);
        let found = self.journal.next_for(node, from);
        let seen = self.journal.packets();
        if found.is_none() && after <= seen {
            let name = node;
            self.looks[usize::from(node.place())] = LetterLook { name, after, seen };
        }
        found
    }

    /// Who has stopped.
    pub fn stopped_names(&self) -> Names
        ensures { result ≡ stopped_names self.now.records }
    {
        self.stopped
    }

    /// The journal.
    pub fn into_journal(self) -> Journal
        ensures founding { result.founding ≡ self.founding }
        ensures records { result.records ≡ self.records }
    {
        self.journal
    }
}
