use am_base::NoMemory;
use am_base::entry::Entry;
use am_base::event::NodeEvent;
use am_base::founding::Founding;
use am_base::name::Name;
use am_base::outcome::Outcome;
use am_node::founding::founders_view;
use am_node::node::Node;
use am_packet::letter::Letter;
use am_packet_writer::out_box::Rooms;
use am_world::nodes::{grow, make_room};
use am_world::run::sixteen;
use std::alloc::Global;

/// The most letters of a node's step.
const MOST_SENT: usize = 9;

/// The nodes of sixteen places, the letters that they sent, and the one group list.
#[derive(Drop)]
pub struct Places {
    alloc: Global,
    nodes: Vec<Node>,
    letters: Vec<Letter>,
    group: Vec<Entry>,
    rooms: Rooms,
}

impl Places {
    ghost use Rattle.std.specs.Prelude.{◌≡◌, ◌+◌, ◌<◌, ◌≤◌, ◌++◌, Some, max, length, slice_get, vec_len, vec_capacity, IfOk, OnErr};
    ghost use Rattle.am_base.specs.Most.{most_events_of_run};
    ghost use Rattle.am_base.specs.Founding.{MayFound};
    ghost use Rattle.am_base.specs.Names.{place_of_name};
    ghost use Rattle.am_world.specs.Moves.{IsReadyAt};
    ghost use Rattle.am_generator.specs.Places.{PlaceMoves, StaysAs, ArePlacesAtStart};

    /// The places of a group to which nothing has happened.
    pub fn new(alloc: Global, founding: &Founding) -> Result<Places, NoMemory>
        ensures begins { IfOk result (ArePlacesAtStart founding.now) }
        ensures founded { IfOk result (λ places. MayFound founding.now) }
    {
        let nodes = sixteen(alloc, founding)?;
        let mut group = Vec::new(alloc);
        group.push(founders_view(founding))?;
        Ok(Places {
            alloc,
            nodes,
            letters: Vec::new(alloc),
            group,
            rooms: Rooms::new(),
        })
    }

    /// All letters that were sent, in order.
    pub fn letters(&self) -> &[Letter]
        ensures { result.now ≡ self.now.letters.items }
    {
        self.letters.as_slice()
    }

    /// The one group list.
    pub fn group(&self) -> &[Entry]
        ensures { result.now ≡ self.now.group.items }
    {
        self.group.as_slice()
    }

    /// The node of a name's place.
    pub fn node(&self, name: Name) -> &Node
        requires { length self.now.nodes.items ≡ 16 }
        ensures { slice_get self.now.nodes.items (place_of_name name) ≡ Some result.now }
    {
        &self.nodes[usize::from(name.place())]
    }

    /// The node of a name's place does a step, after so many events. Where there is no memory for it all stays as it was.
    pub fn act(&mut self, name: Name, what: &NodeEvent, events: usize) -> Result<Outcome, NoMemory>
        requires places { length self.old.nodes.items ≡ 16 }
        requires few { events < most_events_of_run }
        requires ready { IsReadyAt self.old.nodes.items (place_of_name name) what.now (length self.old.group.items) (max (events + 2) (length self.old.group.items)) }
        ensures moves { IfOk result (PlaceMoves self.old self.new (place_of_name name) what.now) }
        ensures err { OnErr result (StaysAs self.old self.new) }
    {
        make_room(&mut self.group, events + 2)?;
        self.letters.reserve(MOST_SENT)?;
        let node = &mut self.nodes[usize::from(name.place())];
        let (outcome, out) = node.act_in_box(self.alloc, what, &mut self.rooms)?;
        grow(&mut self.group, node);
        self.rooms = out.append_to(&mut self.letters);
        Ok(outcome)
    }
}
