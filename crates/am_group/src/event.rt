ghost use Rattle.std.specs.Prelude.{◌≡◌, IfOk};
ghost use Rattle.am_group.specs.declared.event.Act.TheVariants as act;

use am_base::NoMemory;
use am_base::body::{Body, SentBody};
use am_base::items::Items;
use am_base::name::Name;
use am_base::outcome::Outcome;
use am_packet::letter::Letter;
use std::alloc::Global;

/// What is done at a node (docs/PROTOCOL.md, "Events").
#[derive(Drop, Clone)]
pub enum Act {
    /// Sends a body to the group.
    Send(SentBody),
    /// Asks what came of a send.
    Done(u32),
    /// Takes the next accepted entry.
    Take,
    /// Asks to join.
    Join,
    /// Asks how the node stands.
    State,
    /// Asks to leave.
    Leave,
    /// Begins a ballot for a view of at least so many members.
    Reset { least: u8, resilience: u8 },
    /// Asks how the ballot of a round stands.
    Ask(u32),
    /// Gives up a stopped name in the ballot.
    GiveUp(Name),
    /// The node stops for good.
    Stop,
    /// Time passes.
    Tick,
    /// Hears a packet, by its number in the run, from 1.
    Hear(u32),
    /// Hears the first bytes of a packet.
    Cut { packet: u32, keep: u32 },
    /// The place returns with a greater life.
    Return,
}

impl Act {
    /// The sending of a body.
    pub fn send(alloc: Global, body: Body) -> Result<Act, NoMemory>
        ensures { IfOk result (λ a. a ≡ act.Send body) }
    {
        Ok(Act::Send(SentBody::of(alloc, &body)?))
    }

    /// The same act.
    pub fn try_copy(&self) -> Result<Act, NoMemory>
        ensures { IfOk result (λ a. a ≡ self.now) }
    {
        self.clone()
    }
}

/// An act of a place: the place of `node` counts.
#[derive(Drop, Clone)]
pub struct Event {
    pub node: Name,
    pub act: Act,
}

impl Event {
    /// An act of a place.
    pub fn at(place: u8, act: Act) -> Event
        ensures { result ≡ record { node = place; act = act } }
    {
        Event {
            node: Name::of_byte(place),
            act,
        }
    }

    /// The same event.
    pub fn try_copy(&self) -> Result<Event, NoMemory>
        ensures { IfOk result (λ e. e ≡ self.now) }
    {
        self.clone()
    }
}

/// Which part of a blocking call an event is.
#[derive(Clone, Copy, PartialEq, Eq)]
pub enum Part {
    /// The call's own act.
    Call,
    /// A turn between two looks, with the number of the packet that it lost, or 0.
    Turn(u32),
    /// The look at its end.
    Check,
}

/// Whose event it is: a caller, the number of its call, and the part.
#[derive(Clone, Copy, PartialEq, Eq)]
pub struct By {
    pub caller: u32,
    pub call: u32,
    pub part: Part,
}

impl By {
    /// A call's own act.
    pub fn call(caller: u32, call: u32) -> By
        ensures { result ≡ record { caller = caller; call = call; part = Part.Call } }
    {
        By {
            caller,
            call,
            part: Part::Call,
        }
    }
}

/// One event of a run with all that came of it.
#[derive(Drop)]
pub struct Record {
    pub event: Event,
    /// The life of the place that acted, 1 to 16.
    pub life: u8,
    pub by: By,
    pub outcome: Outcome,
    /// The letters that went out, in their order.
    pub packets: Items<Letter>,
}
