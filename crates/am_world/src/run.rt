ghost use Rattle.std.specs.Prelude.{◌≡◌, ◌+◌, ◌<◌, ◌≤◌, ◌++◌, ◌↔◌, [], true, length, IfOk, OnOk};
ghost use Rattle.am_base.specs.declared.outcome.Outcome.TheVariants as said;
ghost use Rattle.am_base.specs.Most.{most_events_of_run};
ghost use Rattle.am_base.specs.Founding.{MayFound};
ghost use Rattle.am_base.specs.Names.{has, name_of_place_and_life, life_of_name};
ghost use Rattle.am_group_defs.specs.World.{first_node, start};
ghost use Rattle.am_model.specs.Ends.{IsEndOf};
ghost use Rattle.am_node.specs.Stands.{state_of};
ghost use Rattle.am_group.specs.Journals.{record_without_caller};
ghost use Rattle.am_world.specs.Runs.{AreNodes, AreFirst};

use crate::nodes::{grow, make_room};
use am_base::NoMemory;
use am_base::entry::Entry;
use am_base::event::NodeEvent;
use am_base::founding::Founding;
use am_base::items::Items;
use am_base::limits::MOST_EVENTS;
use am_base::name::Name;
use am_base::outcome::Outcome;
use am_group::event::{Event, Record};
use am_journal::addressed::is_for;
use am_journal::asked::{Asked, call_or_answer, first_bytes, heard_by, is_stopped};
use am_journal::journal::{Journal, record_of};
use am_node::founding::{Room, founders_view};
use am_node::node::Node;
use am_packet::letter::Letter;
use am_packet_writer::out_box::Rooms;
use std::alloc::Global;
use std::marker::Model;
use std::mem;

/// The sixteen nodes of a group to which nothing has happened. Each goes where it stays: nodes are large.
#[tactic(auto, using(crate::proofs::Begins::world_begin_rules))]
pub fn sixteen(alloc: Global, founding: &Founding) -> Result<Vec<Node>, NoMemory>
    ensures { IfOk result (λ v. AreNodes v.items (start founding.now)) }
{
    let mut nodes = Vec::with_capacity(alloc, 16)?;
    for place in 0..16u8 {
        let room = Room::new(alloc, founding)?;
        let node = Node::begin_in(room, Name::of_byte(place));
        nodes.push_reserved(node);
    }
    Ok(nodes)
}

/// The record of a return to life, and room for the node of that life. The journal then has room for the record.
fn new_life(
    alloc: Global,
    journal: &mut Journal,
    event: &Event,
    name: Name,
    life: u8,
) -> Result<(Record, Room), NoMemory>
    ensures record_ { IfOk result (λ r. r.0
        ≡ record_without_caller event.now (life_of_name name) (said.Returned life) []) }
    ensures node { IfOk result (λ r. r.1 ≡ journal.old.founding) }
    ensures room { OnOk result (journal.new.has_room ≡ true) }
    ensures founding { journal.new.founding ≡ journal.old.founding }
    ensures records { journal.new.records ≡ journal.old.records }
{
    let room = Room::new(alloc, journal.founding())?;
    let record = journal.record_for(alloc, event, name.life(), Outcome::Returned { life })?;
    Ok((record, room))
}

/// A run of a group: sixteen places with the node of each one's current life, all packets that were sent, and the one
/// group list. Contracts see it as its founding and the events that were done: all else is that of their run
/// (docs/PROTOCOL.md, "Runs").
#[derive(Drop)]
pub struct Run {
    alloc: Global,
    nodes: Vec<Node>,
    lives: [u8; 16],
    stopped: [bool; 256],
    journal: Journal,
    group: Vec<Entry>,
    rooms: Rooms,
}

impl Model for Run {
    ghost use Rattle.am_world.specs.Runs.{Play, play_of, IsRun};

    ghost Value = { Play };

    ghost view = { λ w. play_of w.journal.founding w.journal.records };

    ghost invariant = { λ w. IsRun (play_of w.journal.founding w.journal.records) w.nodes.items w.lives w.stopped w.journal.records w.group.items };
}

impl Run {
    ghost use Rattle.std.specs.Prelude.{OnErr};
    ghost use Rattle.am_base.specs.Names.{place_of_name};
    ghost use Rattle.am_group.specs.Journals.{letters_of_records};
    ghost use Rattle.am_group_defs.specs.World.{current, is_stopped, world_with_record, happens};
    ghost use Rattle.am_world.specs.Runs.{play_after, replay, IsOneMore};
    ghost use Rattle.am_journal.specs.Asked.{IfAnswer};
    ghost use Rattle.am_journal.specs.declared.asked.Asked.TheVariants as asked;
    ghost use Rattle.am_world.specs.Asked.{comes, IsNextLife, MayAnswer};

    /// The group of a founding, to which nothing has happened, with room for the records of so many events, of no more than a
    /// run may have.
    #[tactic(auto, using(crate::proofs::Begins::world_begin_rules))]
    pub fn new(alloc: Global, founding: &Founding, events: usize) -> Result<Run, NoMemory>
        ensures { IfOk result (λ w. w ≡ record { rules = founding.now; events = [] }) }
    {
        let nodes = sixteen(alloc, founding)?;
        let _founders = founding.founders();
        let mut group = Vec::new(alloc);
        group.push(founders_view(founding))?;
        Ok(Run {
            alloc,
            nodes,
            lives: [1; 16],
            stopped: [false; 256],
            journal: Journal::with_room(alloc, founding, events.min(MOST_EVENTS))?,
            group,
            rooms: Rooms::new(),
        })
    }

    /// How many events were done, 100,000 at most.
    pub fn events(&self) -> usize
        ensures value { result ≡ length self.now.events }
        ensures few { result ≤ most_events_of_run }
    {
        self.journal.records().len()
    }

    /// The records so far.
    pub fn journal(&self) -> &Journal
        ensures founding { result.now.founding ≡ self.now.rules }
        ensures records { result.now.records ≡ (replay self.now).records }
        ensures letters { letters_of_records result.now.records ≡ (replay self.now).letters }
    {
        &self.journal
    }

    /// The records alone: all else is let go.
    pub fn into_journal(self) -> Journal
        ensures founding { result.founding ≡ self.rules }
        ensures records { result.records ≡ (replay self).records }
    {
        self.journal
    }

    /// The group list.
    pub fn group(&self) -> &[Entry]
        ensures value { result.now ≡ (replay self.now).group }
        ensures few { length result.now ≤ 1 + length self.now.events }
        ensures founded { MayFound self.now.rules }
    {
        self.group.as_slice()
    }

    /// The current name of a place.
    pub fn name_at(&self, place: Name) -> Name
        ensures { result ≡ current (replay self.now) (place_of_name place) }
    {
        let at = place.place();
        let life = self.lives[usize::from(at)];
        Name::of(at, life).unwrap()
    }

    /// The node of a place's current name. It keeps the end of its list.
    pub fn node(&self, place: Name) -> &Node
        ensures { IsEndOf ((replay self.now).nodes (current (replay self.now) (place_of_name place)))
            (state_of result.now) }
    {
        &self.nodes[usize::from(place.place())]
    }

    /// Records an event that changes no node.
    fn pass(&mut self, event: &Event, name: Name, outcome: Outcome) -> Result<(), NoMemory>
        requires few { length self.old.events < most_events_of_run }
        requires name { name ≡ current (replay self.old) (place_of_name event.now.node) }
        requires comes { happens (replay self.old) event.now
            ≡ world_with_record (replay self.old) event.now outcome }
        ensures ok { OnOk result (self.new ≡ play_after self.old event.now) }
        ensures one { OnOk result (IsOneMore self.old event.now) }
        ensures err { OnErr result (self.new ≡ self.old) }
    {
        let record = self
            .journal
            .record_for(self.alloc, event, name.life(), outcome)?;
        self.journal.push(record);
        Ok(())
    }

    /// Records that a name has stopped.
    fn stop(&mut self, event: &Event, name: Name) -> Result<(), NoMemory>
        requires { MayAnswer self.old event.now name said.Stopped }
        ensures ok { OnOk result (self.new ≡ play_after self.old event.now) }
        ensures one { OnOk result (IsOneMore self.old event.now) }
        ensures err { OnErr result (self.new ≡ self.old) }
    {
        let record = self
            .journal
            .record_for(self.alloc, event, name.life(), Outcome::Stopped)?;
        self.stopped[usize::from(name.get())] = true;
        self.journal.push(record);
        Ok(())
    }

    /// A place goes on with its next life: the node of the one before is let go, and a fresh one takes its place.
    fn come_back(&mut self, event: &Event, name: Name, life: u8) -> Result<(), NoMemory>
        requires { MayAnswer self.old event.now name (said.Returned life) }
        ensures ok { OnOk result (self.new ≡ play_after self.old event.now) }
        ensures one { OnOk result (IsOneMore self.old event.now) }
        ensures err { OnErr result (self.new ≡ self.old) }
    {
        let (record, room) = new_life(self.alloc, &mut self.journal, event, name, life)?;
        let place = name.place();
        let fresh = Node::stranger_in(room, Name::of(place, life).unwrap());
        self.nodes[usize::from(place)] = fresh;
        self.lives[usize::from(place)] = life;
        self.stopped[usize::from(name.get())] = true;
        self.journal.push(record);
        Ok(())
    }

    /// Records an event that is no step of a node.
    pub fn answer(&mut self, event: &Event, name: Name, outcome: Outcome) -> Result<(), NoMemory>
        requires { MayAnswer self.old event.now name outcome }
        ensures ok { OnOk result (self.new ≡ play_after self.old event.now) }
        ensures one { OnOk result (IsOneMore self.old event.now) }
        ensures err { OnErr result (self.new ≡ self.old) }
    {
        match outcome {
            Outcome::Stopped => self.stop(event, name),
            Outcome::Returned { life } => self.come_back(event, name, life),
            other => self.pass(event, name, other),
        }
    }

    /// A name's node does a step.
    pub fn act(&mut self, event: &Event, name: Name, what: &NodeEvent) -> Result<(), NoMemory>
        requires few { length self.old.events < most_events_of_run }
        requires name { name ≡ current (replay self.old) (place_of_name event.now.node) }
        requires comes { happens (replay self.old) event.now
            ≡ comes (replay self.old) event.now (asked.Step what.now) }
        ensures ok { OnOk result (self.new ≡ play_after self.old event.now) }
        ensures one { OnOk result (IsOneMore self.old event.now) }
        ensures err { OnErr result (self.new ≡ self.old) }
    {
        make_room(&mut self.group, self.journal.records().len() + 2)?;
        let done = self.journal.copy_for(event)?;
        let node = &mut self.nodes[usize::from(name.place())];
        let (outcome, packets) = node.act(self.alloc, what, &mut self.rooms)?;
        grow(&mut self.group, node);
        self.journal
            .push(record_of(done, name.life(), outcome, packets));
        Ok(())
    }

    /// What an event asks of its name's node, or how it is answered without one. Bytes that are heard stand in the room that
    /// there is for them.
    pub fn event_or_answer(&self, room: &mut Vec<u8>, event: &Event) -> Result<Asked, NoMemory>
        ensures comes { IfOk result (λ r. happens (replay self.now) event.now
            ≡ comes (replay self.now) event.now r) }
        ensures next { IfOk result (λ r. IfAnswer r
            (λ o. IsNextLife (current (replay self.now) (place_of_name event.now.node)) o)) }
    {
        let name = self.name_at(event.node);
        let Some(heard) = heard_by(&event.act) else {
            let has_departed = self.node(event.node).status().has_departed();
            return call_or_answer(self.alloc, &self.stopped, has_departed, name, &event.act);
        };
        let Some(letter) = self.journal.packet(heard.packet) else {
            return Ok(Asked::Answer(Outcome::NoPacket));
        };
        if !is_for(letter, name) {
            return Ok(Asked::Answer(Outcome::NotAddressed));
        }
        if is_stopped(&self.stopped, name) {
            return Ok(Asked::Answer(Outcome::IsStopped));
        }
        let mut bytes = mem::replace(room, Vec::new(self.alloc));
        bytes.clear();
        bytes.extend_from_slice(first_bytes(letter.bytes(), heard.keep))?;
        Ok(Asked::Step(NodeEvent::Hear(Items::of(bytes))))
    }

    /// Whether a name has stopped, by a Stop or because its place has a greater life.
    pub fn is_stopped(&self, name: Name) -> bool
        ensures { result ≡ is_stopped (replay self.now) name }
    {
        is_stopped(&self.stopped, name)
    }
}
