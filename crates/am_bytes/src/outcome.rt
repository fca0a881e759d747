ghost use Rattle.std.specs.Prelude.{◌≡◌, ◌++◌, OnOk};
ghost use Rattle.byteorder.specs.Endian.{big_bytes};
ghost use Rattle.am_packet.specs.Spelling.{set_bytes};
ghost use Rattle.am_bytes.specs.Answers.{outcome_kind, outcome_fields, entry_answer_bytes};

use crate::field::{put, put_byte, put_name, put_number, put_set, put_short, put_stamp};
use am_base::NoMemory;
use am_base::entry::{EntryParts, EntryRef};
use am_base::names::Names;
use am_base::outcome::Outcome;

/// An outcome's kind.
#[tactic(auto, unfolding(crate::specs::Answers::outcome_kind))]
pub(crate) fn kind_of(outcome: &Outcome) -> u8
    ensures { result ≡ outcome_kind outcome.now }
{
    match outcome {
        Outcome::Queued { .. } => 1,
        Outcome::Busy { .. } => 2,
        Outcome::Pending { .. } => 3,
        Outcome::Sent { .. } => 4,
        Outcome::Unknown => 5,
        Outcome::Took { .. } => 6,
        Outcome::Empty => 7,
        Outcome::Asked => 8,
        Outcome::Joined { .. } => 9,
        Outcome::Leaving => 10,
        Outcome::Departed => 11,
        Outcome::Stranger => 12,
        Outcome::NotMember => 13,
        Outcome::Ticked => 14,
        Outcome::Idle => 15,
        Outcome::PutOff { .. } => 16,
        Outcome::Numbered { .. } => 17,
        Outcome::Again => 18,
        Outcome::Early { .. } => 19,
        Outcome::Held { .. } => 20,
        Outcome::Kept => 21,
        Outcome::Known => 22,
        Outcome::Stored { .. } => 23,
        Outcome::Gap { .. } => 24,
        Outcome::NoBody { .. } => 25,
        Outcome::Behind => 26,
        Outcome::Unfit => 27,
        Outcome::Advanced { .. } => 28,
        Outcome::Noted => 29,
        Outcome::Accepted { .. } => 30,
        Outcome::Served { .. } => 31,
        Outcome::Welcomed { .. } => 32,
        Outcome::LetGo { .. } => 33,
        Outcome::Elsewhere => 34,
        Outcome::Refused { .. } => 35,
        Outcome::Voted => 36,
        Outcome::Newer { .. } => 37,
        Outcome::Catching { .. } => 38,
        Outcome::Waiting { .. } => 39,
        Outcome::Fetching { .. } => 40,
        Outcome::TooFew { .. } => 41,
        Outcome::Crowded { .. } => 42,
        Outcome::Overtaken { .. } => 43,
        Outcome::NotIn { .. } => 44,
        Outcome::Decided { .. } => 45,
        Outcome::NotCoordinator => 46,
        Outcome::Stopped => 47,
        Outcome::NoPacket => 48,
        Outcome::NotAddressed => 49,
        Outcome::IsStopped => 50,
        Outcome::NotStopped => 51,
        Outcome::Occupied { .. } => 52,
        Outcome::Running { .. } => 53,
        Outcome::NoLife => 54,
        Outcome::Returned { .. } => 55,
    }
}

/// Adds an entry: its kind, and the kind's fields.
#[tactic(auto, unfolding(crate::specs::Answers::entry_answer_bytes))]
fn put_entry(out: &mut Vec<u8>, entry: &EntryRef<'_>) -> Result<(), NoMemory>
    ensures { OnOk result (out.new.items ≡ out.old.items ++ entry_answer_bytes entry.now) }
{
    match entry.parts() {
        EntryParts::Data { from, req, body } => {
            put_byte(out, 1)?;
            put_name(out, *from)?;
            put_number(out, *req)?;
            let bytes = body.bytes();
            put_short(out, bytes.len() as u16)?;
            put(out, bytes)
        }
        EntryParts::Join(name) => {
            put_byte(out, 2)?;
            put_name(out, *name)
        }
        EntryParts::Leave(name) => {
            put_byte(out, 3)?;
            put_name(out, *name)
        }
        EntryParts::View(view) => {
            put_byte(out, 4)?;
            put_stamp(out, view.stamp)?;
            put_set(out, view.members)?;
            put_byte(out, view.resilience)
        }
    }
}

/// Adds three numbers.
fn put_three(out: &mut Vec<u8>, first: u32, second: u32, third: u32) -> Result<(), NoMemory>
    ensures { OnOk result (out.new.items
        ≡ out.old.items ++ (big_bytes 4 first ++ big_bytes 4 second ++ big_bytes 4 third)) }
{
    put_number(out, first)?;
    put_number(out, second)?;
    put_number(out, third)
}

/// Adds an entry with its number before it.
fn put_numbered(out: &mut Vec<u8>, number: u32, entry: &EntryRef<'_>) -> Result<(), NoMemory>
    ensures { OnOk result (out.new.items
        ≡ out.old.items ++ (big_bytes 4 number ++ entry_answer_bytes entry.now)) }
{
    put_number(out, number)?;
    put_entry(out, entry)
}

/// Adds a view's number and its members.
fn put_decided(out: &mut Vec<u8>, number: u32, members: Names) -> Result<(), NoMemory>
    ensures { OnOk result (out.new.items
        ≡ out.old.items ++ (big_bytes 4 number ++ set_bytes members)) }
{
    put_number(out, number)?;
    put_set(out, members)
}

/// Adds what stands after an outcome's kind.
#[tactic(auto, using(crate::proofs::Puts::bytes_with_nothing_put), unfolding(crate::specs::Answers::outcome_fields))]
pub(crate) fn put_fields(out: &mut Vec<u8>, outcome: &Outcome) -> Result<(), NoMemory>
    ensures { OnOk result (out.new.items ≡ out.old.items ++ outcome_fields outcome.now) }
{
    match outcome {
        Outcome::Queued { req: number }
        | Outcome::Pending { req: number }
        | Outcome::Joined { number }
        | Outcome::Numbered { number }
        | Outcome::Early { last: number }
        | Outcome::Stored { number }
        | Outcome::Gap { want: number }
        | Outcome::Advanced { acc: number }
        | Outcome::Accepted { acc: number }
        | Outcome::Served { count: number }
        | Outcome::Welcomed { number }
        | Outcome::LetGo { number }
        | Outcome::Catching { want: number } => put_number(out, *number),
        Outcome::Busy { queued: number }
        | Outcome::Refused { cause: number }
        | Outcome::Running { life: number }
        | Outcome::Returned { life: number } => put_number(out, u32::from(*number)),
        Outcome::Sent {
            req: first,
            number: second,
        }
        | Outcome::Held {
            base: first,
            top: second,
        }
        | Outcome::TooFew {
            got: first,
            least: second,
        }
        | Outcome::Crowded {
            base: first,
            top: second,
        } => {
            put_number(out, *first)?;
            put_number(out, *second)
        }
        Outcome::PutOff { req, base, top } => put_three(out, *req, *base, *top),
        Outcome::Took { number, entry } => put_numbered(out, *number, &entry.as_ref()),
        Outcome::NoBody { from, req: number } | Outcome::Fetching { from, want: number } => {
            put_name(out, *from)?;
            put_number(out, *number)
        }
        Outcome::Newer { promise: stamp }
        | Outcome::Overtaken { by: stamp }
        | Outcome::NotIn { best: stamp } => put_stamp(out, *stamp),
        Outcome::Waiting { names } => put_set(out, *names),
        Outcome::Decided { number, members } => put_decided(out, *number, *members),
        Outcome::Occupied { name } => put_name(out, *name),
        Outcome::Unknown
        | Outcome::Empty
        | Outcome::Asked
        | Outcome::Leaving
        | Outcome::Departed
        | Outcome::Stranger
        | Outcome::NotMember
        | Outcome::Ticked
        | Outcome::Idle
        | Outcome::Again
        | Outcome::Kept
        | Outcome::Known
        | Outcome::Behind
        | Outcome::Unfit
        | Outcome::Noted
        | Outcome::Elsewhere
        | Outcome::Voted
        | Outcome::NotCoordinator
        | Outcome::Stopped
        | Outcome::NoPacket
        | Outcome::NotAddressed
        | Outcome::IsStopped
        | Outcome::NotStopped
        | Outcome::NoLife => Ok(()),
    }
}
