ghost use Rattle.std.specs.Prelude.{◌≡◌, ◌||◌, ℕ, List, [], Some, None, IfOk, length, take};
ghost use Rattle.am_base.specs.declared.event.NodeEvent.TheVariants as does;
ghost use Rattle.am_base.specs.Names.{life_of_name};
ghost use Rattle.am_journal.specs.Asked as asks;
ghost use Rattle.am_journal.specs.Asked.{flag_of, if_running, first_bytes, heard_of};

use am_base::NoMemory;
use am_base::body::SentBody;
use am_base::event::NodeEvent;
use am_base::name::Name;
use am_base::outcome::Outcome;
use am_group::event::Act;
use std::alloc::Global;

/// What an event asks of its name's node, or how it is answered without one.
#[derive(Drop)]
pub enum Asked {
    /// The node is to do this step.
    Step(NodeEvent),
    /// No node does anything, and this is the event's outcome.
    Answer(Outcome),
}

/// Whether a name has stopped.
pub fn is_stopped(stopped: &[bool; 256], name: Name) -> bool
    ensures { result ≡ flag_of stopped.now name }
{
    stopped[usize::from(name.get())]
}

fn if_running(stopped: bool, what: NodeEvent) -> Asked
    ensures { result ≡ if_running stopped what }
{
    if stopped {
        return Asked::Answer(Outcome::IsStopped);
    }
    Asked::Step(what)
}

/// The bytes, or only so many of the first of them.
pub fn first_bytes(bytes: &[u8], keep: Option<u32>) -> &[u8]
    ensures { result.now ≡ first_bytes keep bytes.now }
{
    match keep {
        None => bytes,
        Some(keep) => {
            let count = bytes.len().min(keep as usize);
            &bytes[..count]
        }
    }
}

/// What is heard of a packet.
#[derive(Clone, Copy)]
pub struct Heard {
    /// The packet's number, from 1.
    pub packet: u32,
    /// How many of its first bytes; all of them where there is none.
    pub keep: Option<u32>,
}

/// What an act hears; None where it is something else.
pub fn heard_by(act: &Act) -> Option<Heard>
    ensures { result ≡ heard_of act.now }
{
    match act {
        Act::Hear(packet) => Some(Heard {
            packet: *packet,
            keep: None,
        }),
        Act::Cut { packet, keep } => Some(Heard {
            packet: *packet,
            keep: Some(*keep),
        }),
        _ => None,
    }
}

/// The bytes that were heard are handed on, for the room that they take. How much room that is, no clause says, nor that a room
/// stays as it is where nothing was heard.
pub fn keep_room(room: &mut Vec<u8>, what: NodeEvent)
    ensures heard { (bytes : List ℕ) → what ≡ does.Hear bytes → room.new.items ≡ bytes }
{
    if let NodeEvent::Hear(bytes) = what {
        *room = bytes.into_vec();
    }
}

/// A name sends a body.
#[inline(never)]
fn sends(alloc: Global, body: &SentBody, stopped: bool) -> Result<Asked, NoMemory>
    ensures { IfOk result (λ r. r ≡ if_running stopped (does.Send body.now)) }
{
    let body = SentBody::of_bytes(alloc, body.bytes())?;
    Ok(if_running(stopped, NodeEvent::Send(body)))
}

fn gives_up(stopped: &[bool; 256], name: Name, other: Name) -> Asked
    ensures { result ≡ asks.give_up_or_answer (flag_of stopped.now name) (flag_of stopped.now other) other }
{
    if is_stopped(stopped, name) {
        return Asked::Answer(Outcome::IsStopped);
    }
    if is_stopped(stopped, other) {
        return Asked::Step(NodeEvent::GiveUp(other));
    }
    Asked::Answer(Outcome::NotStopped)
}

fn stops(stopped: bool) -> Outcome
    ensures { result ≡ asks.stops_node stopped }
{
    if stopped {
        return Outcome::IsStopped;
    }
    Outcome::Stopped
}

fn returns(is_gone: bool, name: Name) -> Outcome
    ensures { result ≡ asks.returns is_gone (life_of_name name) }
{
    let life = name.life();
    if !is_gone {
        return Outcome::Running { life };
    }
    if life == 16 {
        return Outcome::NoLife;
    }
    Outcome::Returned { life: life + 1 }
}

/// What an act that hears nothing asks of a name's node, or how it is answered without one.
pub fn call_or_answer(
    alloc: Global,
    stopped: &[bool; 256],
    has_departed: bool,
    name: Name,
    act: &Act,
) -> Result<Asked, NoMemory>
    requires { heard_of act.now ≡ None }
    ensures { IfOk result (λ r. r ≡ asks.event_or_answer [] stopped.now has_departed name act.now) }
{
    let is_stopped = is_stopped(stopped, name);
    Ok(match act {
        Act::Send(body) => sends(alloc, body, is_stopped)?,
        Act::Done(req) => if_running(is_stopped, NodeEvent::Done(*req)),
        Act::Take => if_running(is_stopped, NodeEvent::Take),
        Act::Join => if_running(is_stopped, NodeEvent::Join),
        Act::State => if_running(is_stopped, NodeEvent::State),
        Act::Leave => if_running(is_stopped, NodeEvent::Leave),
        Act::Reset { least, resilience } => if_running(
            is_stopped,
            NodeEvent::Reset {
                least: *least,
                resilience: *resilience,
            },
        ),
        Act::Ask(round) => if_running(is_stopped, NodeEvent::Ask(*round)),
        Act::GiveUp(other) => gives_up(stopped, name, *other),
        Act::Stop => Asked::Answer(stops(is_stopped)),
        Act::Tick => if_running(is_stopped, NodeEvent::Tick),
        Act::Return => Asked::Answer(returns(is_stopped || has_departed, name)),
        Act::Hear(_) | Act::Cut { .. } => unreachable!(),
    })
}
