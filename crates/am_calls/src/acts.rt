ghost use Rattle.std.specs.Prelude.{◌≡◌, ℕ, ◌||◌, ◌<◌, ◌≤◌, [], None, Some, length, max, IfOk, IfSome, IfNone, Option, true};
ghost use Rattle.std.specs.Option.{option_copied};
ghost use Rattle.am_base.specs.Most.{most_bytes_of_body};
ghost use Rattle.am_base.specs.declared.outcome.Outcome.TheVariants as said;
ghost use Rattle.am_group_defs.specs.Claims.{packet_heard_by_act};
ghost use Rattle.am_group.specs.declared.event.Record.{Record};
ghost use Rattle.am_shared_journal_defs.specs.Stops.{is_stop};
ghost use Rattle.am_race_laws.specs.Boxes.{what_of, IsLeastOf, InBoth};
ghost use Rattle.am_race_laws.specs.Turns.{letter_lost_by_part, unless_nought, or_nought};

use am_base::NoMemory;
use am_base::body::SentBody;
use am_base::event::NodeEvent;
use am_base::items::Items;
use am_base::limits::MOST_BODY;
use am_base::name::Name;
use am_base::names::Names;
use am_base::outcome::Outcome;
use am_base::taken::EntryRoom;
use am_group::event::{Act, By, Event, Part, Record};
use am_packet::letter::LetterCopy;
use am_packet_writer::out_box::{OutBox, Rooms};
use std::alloc::Global;

/// What an act asks of a node that runs, with the letter that it hears; None where it is no step of one.
fn what_of(
    alloc: Global,
    act: &Act,
    letter: Option<&LetterCopy>,
) -> Result<Option<NodeEvent>, NoMemory>
    ensures { IfOk result (λ what. what ≡ what_of act.now (option_copied letter.entry)) }
{
    Ok(match act {
        Act::Send(body) => Some(NodeEvent::Send(SentBody::of_bytes(alloc, body.bytes())?)),
        Act::Done(req) => Some(NodeEvent::Done(*req)),
        Act::Take => Some(NodeEvent::Take),
        Act::Join => Some(NodeEvent::Join),
        Act::State => Some(NodeEvent::State),
        Act::Leave => Some(NodeEvent::Leave),
        Act::Reset { least, resilience } => Some(NodeEvent::Reset {
            least: *least,
            resilience: *resilience,
        }),
        Act::Ask(round) => Some(NodeEvent::Ask(*round)),
        Act::GiveUp(name) => Some(NodeEvent::GiveUp(*name)),
        Act::Tick => Some(NodeEvent::Tick),
        Act::Hear(_) => match letter {
            Some(letter) => Some(NodeEvent::Hear(Items::of(Vec::from_slice(
                alloc,
                letter.bytes(),
            )?))),
            None => None,
        },
        Act::Stop | Act::Cut { .. } | Act::Return => None,
    })
}

/// The number of the letter that an act hears, or 0.
pub fn heard_by(act: &Act) -> u32
    ensures { result ≡ packet_heard_by_act act.now }
{
    match act {
        Act::Hear(number) => *number,
        Act::Cut { packet, .. } => *packet,
        _ => 0,
    }
}

/// The number of the letter that a turn lost, or 0.
pub fn letter_lost_by_part(part: Part) -> u32
    ensures { result ≡ letter_lost_by_part part }
{
    match part {
        Part::Turn(lost) => lost,
        Part::Call | Part::Check => 0,
    }
}

/// Whether a name has stopped, after an act of its own.
pub fn stops_by(stopped: bool, act: &Act) -> bool
    ensures { result ≡ (stopped || is_stop act.now) }
{
    if let Act::Stop = act {
        return true;
    }
    stopped
}

/// How far a place has come, after a letter that was heard and one that was lost.
pub fn cursor_after(cursor: u32, heard: u32, lost: u32) -> u32
    ensures { result ≡ max (max cursor heard) lost }
{
    cursor.max(heard).max(lost)
}

/// The last letter that was heard, after one more, or none where the number is 0.
pub fn last_after(last: Option<u32>, heard: u32) -> Option<u32>
    ensures { result ≡ unless_nought (max (or_nought last) heard) }
{
    let greatest = last.unwrap_or(0).max(heard);
    if greatest == 0 { None } else { Some(greatest) }
}

/// The record of an act of which nothing has come yet.
pub fn blank(alloc: Global, name: Name, act: &Act, by: By) -> Result<Record, NoMemory>
    ensures { IfOk result (λ r. r ≡ record {
      event = record { node = name; act = act.now };
      life = 1;
      by = by;
      outcome = said.Idle;
      packets = [];
    }) }
{
    Ok(Record {
        event: Event {
            node: name,
            act: act.try_copy()?,
        },
        life: 1,
        by,
        outcome: Outcome::Idle,
        packets: Items::new(alloc),
    })
}

/// What an act takes memory for before it is done, besides its record: what it asks of the node, and room for an entry in the
/// record and in the answer, and for letters.
#[derive(Drop)]
pub struct ActRoom {
    pub what: Option<NodeEvent>,
    pub spare: EntryRoom,
    pub given: EntryRoom,
    pub out: OutBox,
}

/// The memory for an act, over the rooms for letters that an earlier one left.
pub fn room_for(
    alloc: Global,
    rooms: Rooms,
    act: &Act,
    letter: Option<&LetterCopy>,
) -> Result<ActRoom, NoMemory>
    ensures what { IfOk result (λ r. r.what ≡ what_of act.now (option_copied letter.entry)) }
    ensures spare { IfOk result (λ r. most_bytes_of_body ≤ r.spare) }
    ensures given { IfOk result (λ r. most_bytes_of_body ≤ r.given) }
    ensures out { IfOk result (λ r. r.out ≡ []) }
{
    Ok(ActRoom {
        what: what_of(alloc, act, letter)?,
        spare: EntryRoom::new(alloc, MOST_BODY)?,
        given: EntryRoom::new(alloc, MOST_BODY)?,
        out: OutBox::over(alloc, rooms)?,
    })
}

/// The same outcome, with room for its entry.
pub fn copy_into(outcome: &Outcome, room: EntryRoom) -> Outcome
    requires { most_bytes_of_body ≤ room }
    ensures { result ≡ outcome.now }
{
    match outcome {
        Outcome::Took { number, entry } => {
            let entry = entry.as_ref();
            let _fits = entry.body_len();
            Outcome::Took {
                number: *number,
                entry: room.fill(&entry),
            }
        }
        other => other.copy(),
    }
}

/// The least name of both sets.
pub fn least_of_both(waited: Names, stopped: Names) -> Option<Name>
    ensures some { IfSome result (λ name. IsLeastOf waited stopped name) }
    ensures none { IfNone result ((place : ℕ) → place < 16 → InBoth waited stopped place → ⊥) }
    ensures places { length waited ≡ 16 }
{
    let _lives = waited.each_life();
    for place in 0..16u8 {
        let life = waited.life_at(place);
        if 0 < life && stopped.life_at(place) == life {
            return Some(Name::of(place, life).unwrap());
        }
    }
    None
}
