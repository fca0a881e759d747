ghost use Rattle.std.specs.Prelude.{◌≡◌, ◌+◌, ◌≤◌};
ghost use Rattle.am_base.specs.Most.{greatest_window};
ghost use Rattle.am_base.specs.Limits.{EntryIsInRange};

use am_base::body::Body;
use am_base::entry::{Entry, GroupView};
use am_base::image::Report;
use am_base::limits::MOST_NUMBER;
use am_base::name::{Name, Stamp};
use am_base::names::Names;
use am_node_storage::fronts::Fronts;
use am_node_storage::history::History;
use am_node_storage::log::Log;
use std::alloc::{AllocError, Global};

/// A node's history, with room for so many entries; the last request in it, and what its members report.
#[derive(Drop)]
pub struct TimedHistory {
    history: History,
    room: u32,
    last: u32,
    fronts: Fronts,
    ghost roomy: { history.capacity ≡ room },
}

/// The first life of each place.
fn all_places() -> Names {
    let mut names = Names::empty();
    for place in 0..16u8 {
        names = names.with(Name::of_byte(place));
    }
    names
}

/// The View of sixteen founders, with a resilience of 15.
fn founders_view() -> Entry
    ensures { EntryIsInRange result }
{
    Entry::View(GroupView {
        stamp: Stamp {
            round: 1,
            by: Name::of_byte(0),
        },
        members: all_places(),
        resilience: 15,
    })
}

/// That each member has stored whatever there is.
fn all_stored() -> Fronts {
    let mut fronts = Fronts::new();
    for place in 0..16u8 {
        let report = Report {
            stored: MOST_NUMBER,
            taken: 0,
        };
        fronts.report(Name::of_byte(place), report);
    }
    fronts
}

impl TimedHistory {
    /// The history of sixteen founders, full.
    pub fn new(alloc: Global, window: u16) -> Result<TimedHistory, AllocError>
        requires { (1 ≤ window) × (window ≤ greatest_window) }
    {
        let mut ring = TimedHistory {
            history: History::new(alloc, window)?,
            room: u32::from(window) + 15,
            last: 0,
            fronts: all_stored(),
        };
        ring.push(&founders_view());
        ring.fill();
        Ok(ring)
    }

    /// How many entries it has room for.
    pub fn room(&self) -> u32 {
        self.room
    }

    /// Adds an entry where there is room for it and it fits; whether it did.
    fn push(&mut self, entry: &Entry) -> bool
        requires { EntryIsInRange entry.now }
    {
        let entry = entry.as_ref();
        let top = self.history.top();
        if top - self.history.base() >= self.room || top >= MOST_NUMBER {
            return false;
        }
        if !self.history.fits(&entry) {
            return false;
        }
        self.history.push(&entry);
        true
    }

    /// Adds sends until the room is full.
    fn fill(&mut self) {
        for _ in 0..self.room {
            if MOST_NUMBER <= self.last {
                return;
            }
            let req = self.last + 1;
            let entry = Entry::Data {
                from: Name::of_byte(0),
                req,
                body: Body::default(),
            };
            if self.push(&entry) {
                self.last = req;
            }
        }
    }

    /// Trims the history entry by entry.
    fn empty(&mut self) {
        for _ in 0..self.room {
            let base = self.history.base();
            if base < self.history.top() {
                self.history.trim(base + 1);
            }
        }
    }

    /// Empties and fills the history; the last request then.
    pub fn refill(&mut self) -> u64 {
        self.empty();
        self.fill();
        u64::from(self.last)
    }

    /// The sum of the requests in the history.
    pub fn requests(&self) -> u64 {
        let mut sum = 0u64;
        for number in self.history.base()..self.history.top() {
            if let Some(Entry::Data { req, .. }) = self.history.entry(number + 1) {
                sum = sum.wrapping_add(u64::from(*req));
            }
        }
        sum
    }

    /// After how many entries the fourth place is a member, weighed by its life.
    pub fn memberships(&self) -> u64 {
        let mut sum = 0u64;
        for number in self.history.base()..self.history.top() {
            let members = self.history.members_after(number + 1);
            sum = sum.wrapping_add(u64::from(members.life_at(3)));
        }
        sum
    }

    /// The accept front that its members' reports make, from its base on.
    pub fn front(&self) -> u64 {
        u64::from(self.fronts.accept_front(&self.history, self.history.base()))
    }
}
