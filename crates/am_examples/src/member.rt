//! A node in a user's own loop: bytes come in, letters go out, time passes, and its numbers may come to an end.

ghost use Rattle.std.specs.Prelude.{◌≡◌, ◌≢◌, ◌++◌, List, IfOk, IfErr, OnErr, OnOk, IsTrue, ◌↔◌, Ok, true};
ghost use Rattle.am_base.specs.declared.event.NodeEvent.TheVariants as does;
ghost use Rattle.am_model.specs.Nodes.{HasNumbersLeft};
ghost use Rattle.am_group_defs.specs.World.{first_node};
ghost use Rattle.am_examples.specs.Members.{kept_by, StepIsOfWholeNode, is_read};

use am_base::NoMemory;
use am_base::event::NodeEvent;
use am_base::founding::Founding;
use am_base::items::Items;
use am_base::name::Name;
use am_base::outcome::Outcome;
use am_node::node::Node;
use am_packet::letter::Letter;
use am_packet_reader::reader::decode;
use am_packet_writer::out_box::Rooms;
use std::alloc::Global;

/// Why a member did nothing.
#[derive(Clone, Copy, PartialEq, Eq, Debug)]
pub enum Idle {
    /// Its numbers are used up: it does nothing any more.
    Spent,
    /// There was no memory; it may be asked again.
    NoMemory,
}

/// What came of a step: the answer, and the letters to send, in order.
#[derive(Drop)]
pub struct Did {
    pub outcome: Outcome,
    pub letters: Items<Letter>,
}

/// One member of a group, alone.
#[derive(Drop)]
pub struct Member {
    node: Node,
    rooms: Rooms,
}

/// Whether bytes spell a packet. A member may be given others, too: it answers Refused, with the cause.
pub fn is_packet(bytes: &[u8]) -> bool
    ensures { result ≡ is_read bytes.now }
{
    decode(bytes).is_ok()
}

impl Member {
    /// A founder where the name is one of the founders, and else a name that nobody has seen, which asks to join.
    pub fn new(alloc: Global, name: Name, founding: &Founding) -> Result<Member, NoMemory>
        ensures { IfOk result (λ m. kept_by m ≡ first_node founding.now name) }
    {
        Ok(Member {
            node: Node::begin(alloc, name, founding)?,
            rooms: Rooms::new(),
        })
    }

    /// Does one step: what the protocol's node does, whatever comes. Where it does none, nothing changes.
    pub fn step(&mut self, alloc: Global, event: &NodeEvent) -> Result<Did, Idle>
        ensures does { IfOk result (λ did. StepIsOfWholeNode event.now (kept_by self.old) did.outcome
            did.letters (kept_by self.new)) }
        ensures same { OnErr result (kept_by self.new ≡ kept_by self.old) }
        ensures spent { IfErr result (λ idle. idle ≡ Idle.Spent
            → HasNumbersLeft (kept_by self.old) → ⊥) }
    {
        if !self.node.has_numbers_left() {
            return Err(Idle::Spent);
        }
        match self.node.act(alloc, event, &mut self.rooms) {
            Ok((outcome, letters)) => Ok(Did { outcome, letters }),
            Err(_) => Err(Idle::NoMemory),
        }
    }

    /// Hears a datagram, whoever sent it and whatever is in it.
    pub fn hear(&mut self, alloc: Global, datagram: Items<u8>) -> Result<Did, Idle>
        ensures { IfOk result (λ did. StepIsOfWholeNode (does.Hear datagram) (kept_by self.old) did.outcome
            did.letters (kept_by self.new)) }
    {
        self.step(alloc, &NodeEvent::Hear(datagram))
    }

    /// Lets time pass.
    pub fn tick(&mut self, alloc: Global) -> Result<Did, Idle>
        ensures { IfOk result (λ did. StepIsOfWholeNode does.Tick (kept_by self.old) did.outcome did.letters
            (kept_by self.new)) }
    {
        self.step(alloc, &NodeEvent::Tick)
    }
}

/// How a user's network takes a letter: for whom it is, and its bytes.
pub trait Network {
    /// Sends a letter, once, twice or never.
    fn send(&mut self, letter: &Letter);
}

/// Sends letters in order.
fn send_all<N: Network>(network: &mut N, letters: &[Letter]) {
    for letter in letters {
        network.send(letter);
    }
}

/// A turn of a user's loop: the datagrams that came, and then a tick; how many of them spelled no packet.
pub fn turn<N: Network>(
    alloc: Global,
    member: &mut Member,
    inbox: Vec<Items<u8>>,
    network: &mut N,
) -> Result<u32, Idle> {
    let mut refused: u32 = 0;
    for datagram in inbox {
        if !is_packet(datagram.as_slice()) {
            refused = refused.saturating_add(1);
        }
        let did = member.hear(alloc, datagram)?;
        send_all(network, did.letters.as_slice());
    }
    let did = member.tick(alloc)?;
    send_all(network, did.letters.as_slice());
    Ok(refused)
}
