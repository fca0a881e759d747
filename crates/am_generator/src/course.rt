ghost use Rattle.std.specs.Prelude.{◌≡◌, ◌↔◌, ◌*◌, ◌<◌, ◌≤◌, [], length, false, IfOk, OnErr, Err};
ghost use Rattle.std.specs.Option.{option_copied};
ghost use Rattle.am_base.specs.Most.{most_events_of_run};
ghost use Rattle.am_base.specs.Outcomes.{is_outcome_took, is_outcome_sent, is_outcome_without_room};
ghost use Rattle.am_group.specs.declared.event.Act.TheVariants as acts;
ghost use Rattle.am_group.specs.declared.event.Event.{Event};
ghost use Rattle.am_group.specs.Addressed.{next_for};
ghost use Rattle.am_group.specs.Journals.{letter_at};
ghost use Rattle.am_group_defs.specs.Lawful.{broken_at};
ghost use Rattle.am_journal.specs.Asked as asks;
ghost use Rattle.am_journal.specs.Asked.{OnStep, SpellsPacket};
ghost use Rattle.am_world.specs.Runs.{Play, play_after, replay, EventIsAnswered};
ghost use Rattle.am_generator.specs.Courses.{no_flags, counts_after, Acts, IsCalmAct, IsCourse, CountsAreBelow, course_entries, events_done, letters_sent};

use crate::places::Places;
use am_base::NoMemory;
use am_base::event::NodeEvent;
use am_base::founding::Founding;
use am_base::items::Items;
use am_base::limits::MOST_EVENTS;
use am_base::name::Name;
use am_base::outcome::Outcome;
use am_group::event::{Act, Event};
use am_journal::addressed::is_for;
use am_journal::asked::{Asked, keep_room};
use am_lawful_watch::watcher::Watcher;
use am_packet::letter::Letter;
use am_world::watching::shown_by;
use am_world::world::WorldRefusal;
use std::alloc::Global;
use std::mem;

/// How many events were done, and of how many a node took an entry, was told that its send stands in the list, or found no room.
#[derive(Clone, Copy, PartialEq, Eq, Debug)]
pub struct Counts {
    /// Events that were done, 100,000 at most.
    pub events: u32,
    /// Those that took an entry.
    pub took: u32,
    /// Those that tell that a send stands in the list.
    pub sent: u32,
    /// Those that found no room.
    pub held: u32,
}

fn is_took(outcome: &Outcome) -> bool
    ensures { result ≡ is_outcome_took outcome.now }
{
    matches!(outcome, Outcome::Took { .. })
}

/// Whether an outcome tells that a send stands in the list.
pub fn is_sent(outcome: &Outcome) -> bool
    ensures { result ≡ is_outcome_sent outcome.now }
{
    matches!(outcome, Outcome::Sent { .. })
}

fn is_held(outcome: &Outcome) -> bool
    ensures { result ≡ is_outcome_without_room outcome.now }
{
    matches!(outcome, Outcome::Held { .. })
}

impl Counts {
    /// Nothing was done.
    fn new() -> Counts
        ensures { result ≡ record { events = 0; took = 0; sent = 0; held = 0 } }
    {
        Counts {
            events: 0,
            took: 0,
            sent: 0,
            held: 0,
        }
    }

    /// An event of this outcome was done.
    fn add(&mut self, outcome: &Outcome)
        requires { CountsAreBelow most_events_of_run self.old }
        ensures { self.new ≡ counts_after self.old outcome.now }
    {
        self.events += 1;
        self.took += u32::from(is_took(outcome));
        self.sent += u32::from(is_sent(outcome));
        self.held += u32::from(is_held(outcome));
    }
}

/// The letter of a number, from 1; None exactly where there is none.
fn letter_at(letters: &[Letter], number: u32) -> Option<&Letter>
    ensures { option_copied result ≡ letter_at letters.now number }
{
    if number == 0 {
        return None;
    }
    letters.get(number as usize - 1)
}

/// What hearing a letter asks of the node of a name that hasn't stopped, or how it is answered without one. The bytes stand in the
/// room that there is for them.
fn hears(letters: &[Letter], room: &mut Vec<u8>, name: Name, number: u32) -> Result<Asked, NoMemory>
    ensures asks { IfOk result (λ r. r
        ≡ asks.event_or_answer letters.now no_flags false name (acts.Hear number)) }
    ensures spells { IfOk result (λ r. OnStep r (SpellsPacket letters.now (acts.Hear number))) }
{
    let Some(letter) = letter_at(letters, number) else {
        return Ok(Asked::Answer(Outcome::NoPacket));
    };
    if !is_for(letter, name) {
        return Ok(Asked::Answer(Outcome::NotAddressed));
    }
    let empty = Vec::new(*room.allocator());
    let mut bytes = mem::replace(room, empty);
    bytes.clear();
    bytes.extend_from_slice(letter.bytes())?;
    Ok(Asked::Step(NodeEvent::Hear(Items::of(bytes))))
}

/// What a calm act asks of the node of a name that hasn't stopped, or how it is answered without one.
fn event_or_answer(
    letters: &[Letter],
    room: &mut Vec<u8>,
    name: Name,
    act: Act,
) -> Result<Asked, NoMemory>
    requires { IsCalmAct act }
    ensures asks { IfOk result (λ r. r
        ≡ asks.event_or_answer letters.now no_flags false name act) }
    ensures spells { IfOk result (λ r. OnStep r (SpellsPacket letters.now act)) }
{
    let what = match act {
        Act::Send(body) => NodeEvent::Send(body),
        Act::Done(req) => NodeEvent::Done(req),
        Act::Take => NodeEvent::Take,
        Act::Tick => NodeEvent::Tick,
        Act::Hear(number) => return hears(letters, room, name, number),
        _ => unreachable!(),
    };
    Ok(Asked::Step(what))
}

/// A run of a group, on its way, in which nobody stops, joins or leaves, and of which no records are kept: only the nodes, their
/// letters, the group list, whether it is lawful, and how much was done. So it takes less memory and time than a `World`. Contracts
/// say which run it is of (docs/PROTOCOL.md, "Runs").
#[derive(Drop)]
pub struct Course {
    places: Places,
    watcher: Watcher,
    heard: Vec<u8>,
    counts: Counts,
}

impl Course {
    /// The course of a founding, to which nothing has happened.
    pub fn new(alloc: Global, founding: &Founding) -> Result<Course, NoMemory>
        ensures { IfOk result (IsCourse (record { rules = founding.now; events = [] })) }
    {
        let places = Places::new(alloc, founding)?;
        Ok(Course {
            places,
            watcher: Watcher::new(alloc, founding),
            heard: Vec::new(alloc),
            counts: Counts::new(),
        })
    }

    /// How much was done.
    pub fn counts(&self) -> Counts
        ensures { result ≡ self.now.counts }
    {
        self.counts
    }

    /// How many entries the group list has.
    pub fn entries(&self) -> usize
        ensures { result ≡ course_entries self.now }
    {
        self.places.group().len()
    }

    /// How many letters were sent.
    pub fn packets(&self) -> usize
        ensures { result ≡ length (letters_sent self.now) }
    {
        self.places.letters().len()
    }

    /// The number of the first event after which the run wasn't lawful; None exactly as long as it is.
    pub fn broken_at(&self) -> Option<u32>
        ensures { (p : Play) → IsCourse p self.now → result ≡ broken_at p.rules p.events }
    {
        self.watcher.broken_at()
    }

    /// The least number above another of a letter that is for this name; None exactly where there is none.
    pub fn next_for(&self, node: Name, after: u32) -> Option<u32>
        requires { length (letters_sent self.now) ≤ 24 * most_events_of_run }
        ensures { result ≡ next_for (letters_sent self.now) node after }
    {
        let letters = self.places.letters();
        for index in after as usize..letters.len() {
            if is_for(&letters[index], node) {
                return Some(index as u32 + 1);
            }
        }
        None
    }

    /// The node of a name does a step, the watcher is told of it, and it is counted.
    fn act(&mut self, name: Name, what: NodeEvent) -> Result<Outcome, NoMemory>
        requires run { (p : Play) × ((e : Event) × Acts p e self.old name what) }
        ensures ok { (p : Play) (e : Event) → Acts p e self.old name what
            → IfOk result (λ outcome. IsCourse (play_after p e) self.new × EventIsAnswered p e outcome) }
        ensures err { (p : Play) → IsCourse p self.old → OnErr result (IsCourse p self.new) }
    {
        self.watcher.reserve()?;
        let known = self.places.group().len();
        let outcome = self.places.act(name, &what, self.counts.events as usize)?;
        let shown = shown_by(self.places.node(name));
        self.watcher
            .note_step(name, &shown, &what, self.places.group(), known);
        keep_room(&mut self.heard, what);
        self.counts.add(&outcome);
        Ok(outcome)
    }

    /// Does an event: the answer of it. After a refusal all is as it was. It is Spent exactly where 100,000 events were done.
    pub fn step(&mut self, event: Event) -> Result<Outcome, WorldRefusal>
        requires run { (p : Play) × IsCourse p self.old }
        requires calm { IsCalmAct event.act }
        ensures ok { (p : Play) → IsCourse p self.old → IfOk result (λ outcome.
            IsCourse (play_after p event) self.new × EventIsAnswered p event outcome) }
        ensures spent { (result ≡ Err WorldRefusal.Spent) ↔ (events_done self.old ≡ most_events_of_run) }
        ensures err { (p : Play) → IsCourse p self.old → OnErr result (IsCourse p self.new) }
    {
        if self.counts.events as usize == MOST_EVENTS {
            return Err(WorldRefusal::Spent);
        }
        let name = Name::of_byte(event.node.place());
        let letters = self.places.letters();
        match event_or_answer(letters, &mut self.heard, name, event.act)? {
            Asked::Step(what) => Ok(self.act(name, what)?),
            Asked::Answer(outcome) => {
                self.watcher.pass();
                self.counts.add(&outcome);
                Ok(outcome)
            }
        }
    }
}
