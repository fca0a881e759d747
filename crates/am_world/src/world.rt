ghost use Rattle.std.specs.Prelude.{◌≡◌, ◌+◌, ◌≤◌, [], length, IfOk};
ghost use Rattle.am_base.specs.Most.{most_events_of_run};
ghost use Rattle.am_model.specs.Ends.{IsEndOf};
ghost use Rattle.am_group_defs.specs.Lawful.{broken_at};
ghost use Rattle.am_base.specs.Names.{place_of_name};

use crate::run::Run;
use crate::watching::shown_by;
use am_base::NoMemory;
use am_base::entry::Entry;
use am_base::founding::Founding;
use am_base::limits::MOST_EVENTS;
use am_base::name::Name;
use am_base::outcome::Outcome;
use am_group::event::Event;
use am_journal::asked::{Asked, keep_room};
use am_journal::journal::Journal;
use am_lawful_watch::telling::stops_by;
use am_lawful_watch::watcher::Watcher;
use am_model::info::Info;
use am_node::node::Node;
use std::alloc::Global;
use std::marker::Model;

/// Why a world doesn't do an event.
#[derive(Clone, Copy, PartialEq, Eq, Debug)]
pub enum WorldRefusal {
    /// There is no memory for it.
    NoMemory,
    /// 100,000 events were done.
    Spent,
}

impl From<NoMemory> for WorldRefusal {
    ghost use Rattle.am_world.specs.declared.world.WorldRefusal.{WorldRefusal};

    ghost from_gives = { λ _ r. r ≡ WorldRefusal.NoMemory };

    fn from(_error: NoMemory) -> WorldRefusal {
        WorldRefusal::NoMemory
    }
}

/// A whole group from its founding on: sixteen places with the node of each one's current life, all packets that were
/// sent, the one group list, and whether the run is lawful. Contracts see it as its founding and the events that were
/// done: all else is that of their run (docs/PROTOCOL.md, "Runs").
pub struct World {
    run: Run,
    watcher: Watcher,
    heard: Vec<u8>,
}

impl Model for World {
    ghost use Rattle.am_lawful_watch.specs.Watchers.{watching_of};
    ghost use Rattle.am_world.specs.Runs.{Play};
    ghost use Rattle.am_world.specs.Watched.{IsWatched};

    ghost Value = { Play };

    ghost view = { λ w. w.run };

    ghost invariant = { λ w. IsWatched w.run (watching_of w.watcher) };
}

// Written out, so that who lets a world go calls this, and proves nothing of what it has.
impl Drop for World {
    fn drop(self) {
        drop(self.into_journal());
    }
}

impl World {
    ghost use Rattle.std.specs.Prelude.{◌↔◌, OnOk, OnErr, Err};
    ghost use Rattle.am_group.specs.Journals.{letters_of_records};
    ghost use Rattle.am_group_defs.specs.World.{current, is_stopped};
    ghost use Rattle.am_model.specs.Node.{has_log_by_status};
    ghost use Rattle.am_model.specs.Info.{info_of_node};
    ghost use Rattle.am_node.specs.Stands.{state_of};
    ghost use Rattle.am_world.specs.Runs.{play_after, replay, IsOneMore};
    ghost use Rattle.am_world.specs.Asked.{MayAnswer};

    /// The group of a founding, to which nothing has happened.
    pub fn new(alloc: Global, founding: &Founding) -> Result<World, NoMemory>
        ensures { IfOk result (λ w. w ≡ record { rules = founding.now; events = [] }) }
    {
        World::with_room(alloc, founding, 0)
    }

    /// The same with room for the records of so many events, of no more than a run may have. It is an error where there is no
    /// memory for them.
    pub fn with_room(alloc: Global, founding: &Founding, events: usize) -> Result<World, NoMemory>
        ensures { IfOk result (λ w. w ≡ record { rules = founding.now; events = [] }) }
    {
        let run = Run::new(alloc, founding, events)?;
        let _founders = founding.founders();
        Ok(World {
            run,
            watcher: Watcher::new(alloc, founding),
            heard: Vec::new(alloc),
        })
    }

    /// The records so far.
    pub fn journal(&self) -> &Journal
        ensures founding { result.now.founding ≡ self.now.rules }
        ensures records { result.now.records ≡ (replay self.now).records }
        ensures letters { letters_of_records result.now.records ≡ (replay self.now).letters }
    {
        self.run.journal()
    }

    /// The records alone: all else is let go.
    pub fn into_journal(self) -> Journal
        ensures founding { result.founding ≡ self.rules }
        ensures records { result.records ≡ (replay self).records }
    {
        let World {
            run,
            watcher: _,
            heard: _,
        } = self;
        run.into_journal()
    }

    /// The group list.
    pub fn group(&self) -> &[Entry]
        ensures value { result.now ≡ (replay self.now).group }
        ensures few { length result.now ≤ 1 + length self.now.events }
    {
        self.run.group()
    }

    /// The current name of a place.
    pub fn name_at(&self, place: Name) -> Name
        ensures { result ≡ current (replay self.now) (place_of_name place) }
    {
        self.run.name_at(place)
    }

    /// Whether a name has stopped, by a Stop or because its place has a greater life.
    pub fn is_stopped(&self, name: Name) -> bool
        ensures { result ≡ is_stopped (replay self.now) name }
    {
        self.run.is_stopped(name)
    }

    /// The node of a place's current name. It keeps the end of its list.
    pub fn node(&self, place: Name) -> &Node
        ensures { IsEndOf ((replay self.now).nodes (current (replay self.now) (place_of_name place)))
            (state_of result.now) }
    {
        self.run.node(place)
    }

    /// What the node of a place's current name knows of itself and of its group.
    pub fn info(&self, place: Name) -> Info
        ensures { result ≡ info_of_node ((replay self.now).nodes
            (current (replay self.now) (place_of_name place))) }
    {
        self.run.node(place).info()
    }

    /// Whether a name has or had a list: it is a member, or has left.
    pub fn has_log(&self, name: Name) -> bool
        ensures { result ≡ has_log_by_status ((replay self.now).nodes name).status }
    {
        self.watcher.standing(name).status.has_log()
    }

    /// The number of the first event after which the run wasn't lawful; None exactly as long as it is.
    pub fn broken_at(&self) -> Option<u32>
        ensures { result ≡ broken_at self.now.rules self.now.events }
    {
        self.watcher.broken_at()
    }

    /// An event that is no step of a node: a name has stopped, or nothing changed that is watched.
    fn answer(&mut self, event: &Event, name: Name, outcome: Outcome) -> Result<(), NoMemory>
        requires { MayAnswer self.old event.now name outcome }
        ensures ok { OnOk result (self.new ≡ play_after self.old event.now) }
        ensures one { OnOk result (IsOneMore self.old event.now) }
        ensures err { OnErr result (self.new ≡ self.old) }
    {
        self.watcher.reserve()?;
        let stops = stops_by(self.run.is_stopped(name), &outcome);
        self.run.answer(event, name, outcome)?;
        self.watcher.note_answer(name, stops);
        Ok(())
    }

    /// Does an event. After a refusal all is as it was. It is Spent exactly where 100,000 events were done.
    pub fn step(&mut self, event: &Event) -> Result<(), WorldRefusal>
        ensures ok { OnOk result (self.new ≡ play_after self.old event.now) }
        ensures one { OnOk result (IsOneMore self.old event.now) }
        ensures spent { (result ≡ Err WorldRefusal.Spent) ↔ (length self.old.events ≡ most_events_of_run) }
        ensures err { OnErr result (self.new ≡ self.old) }
    {
        if self.run.events() == MOST_EVENTS {
            return Err(WorldRefusal::Spent);
        }
        let name = self.run.name_at(event.node);
        match self.run.event_or_answer(&mut self.heard, event)? {
            Asked::Step(what) => {
                self.watcher.reserve()?;
                let known = self.run.group().len();
                self.run.act(event, name, &what)?;
                let shown = shown_by(self.run.node(event.node));
                self.watcher
                    .note_step(name, &shown, &what, self.run.group(), known);
                keep_room(&mut self.heard, what);
            }
            Asked::Answer(outcome) => self.answer(event, name, outcome)?,
        }
        Ok(())
    }
}
