ghost use Rattle.std.specs.Prelude.{◌≡◌, ◌<◌, ◌&&◌, OnOk, IfOk, IfErr, Some, length};
ghost use Rattle.am_packet.specs.Boxes as boxes;
ghost use Rattle.am_group.specs.Journals.{letter_at};
ghost use Rattle.am_group_defs.specs.Settle.{ticks_of_places, hearings_of, hearings, round_count};
ghost use Rattle.am_world.specs.Runs.{replay};
ghost use Rattle.am_world.specs.Settling.{schedule_of, is_running, is_meant, passing_act_at, round_events, Did, Stuck};

use crate::world::{World, WorldRefusal};
use am_base::name::Name;
use am_group::event::{Act, Event};
use am_journal::addressed::is_for;

/// How much of the lossless schedule was done.
#[derive(Clone, Copy, PartialEq, Eq, Debug)]
pub struct Settled {
    /// Its rounds.
    pub rounds: u16,
    /// Its events, at most 100,000.
    pub events: usize,
}

/// Whether the current name of a place hasn't stopped.
fn is_running(world: &World, place: u8) -> bool
    requires { place < 16 }
    ensures { result ≡ is_running (replay world.now) place }
{
    !world.is_stopped(world.name_at(Name::of_byte(place)))
}

/// How many letters were sent.
fn letter_count(world: &World) -> u32
    ensures { result ≡ length (replay world.now).letters }
{
    world.journal().packets()
}

/// An act of a place, where it is to be done.
fn act_where(world: &mut World, is_due: bool, act: Act, place: u8) -> Result<(), WorldRefusal>
    requires { place < 16 }
    ensures ok { OnOk result (Did (passing_act_at is_due act place) world.old world.new) }
    ensures err { IfErr result (λ refusal. Stuck
        (passing_act_at is_due act place) world.old world.new refusal) }
{
    if !is_due {
        return Ok(());
    }
    let event = Event {
        node: Name::of_byte(place),
        act,
    };
    match world.step(&event) {
        Ok(_) => Ok(()),
        Err(refusal) => Err(refusal),
    }
}

/// Each place that runs ticks.
fn tick_all(world: &mut World) -> Result<(), WorldRefusal>
    ensures ok { OnOk result (Did (ticks_of_places (replay world.old)) world.old world.new) }
    ensures err { IfErr result (λ refusal. Stuck
        (ticks_of_places (replay world.old)) world.old world.new refusal) }
{
    for place in 0..16u8 {
        let is_due = is_running(world, place);
        act_where(world, is_due, Act::Tick, place)?;
    }
    Ok(())
}

/// Whether a place is to hear a letter.
fn is_heard(world: &World, number: u32, place: u8) -> bool
    requires { place < 16 }
    ensures { (l : boxes.Letter) → letter_at (replay world.now).letters number ≡ Some l
        → result ≡ (is_running (replay world.now) place && is_meant (replay world.now) l place) }
{
    match world.journal().packet(number) {
        Some(letter) => {
            is_running(world, place) && is_for(letter, world.name_at(Name::of_byte(place)))
        }
        None => false,
    }
}

/// Each place that runs hears a letter, where it is for its name.
fn hear_letter(world: &mut World, number: u32) -> Result<(), WorldRefusal>
    ensures ok { (l : boxes.Letter) → letter_at (replay world.old).letters number ≡ Some l
        → OnOk result (Did (hearings_of (replay world.old) number l) world.old world.new) }
    ensures err { (l : boxes.Letter) → letter_at (replay world.old).letters number ≡ Some l
        → IfErr result (λ refusal. Stuck (hearings_of (replay world.old) number l) world.old
        world.new refusal) }
{
    for place in 0..16u8 {
        let is_due = is_heard(world, number, place);
        act_where(world, is_due, Act::Hear(number), place)?;
    }
    Ok(())
}

/// Each letter above this number, of those that were sent before the call, is heard by each node that it is for and that hasn't
/// stopped: letter by letter, and each place by place. It tells the number of the last one, above which a next call goes on.
/// After a refusal a beginning of these events was done, and there is a further one: Spent exactly where the world has done
/// 100,000, and else NoMemory.
pub fn hear_all(world: &mut World, after: u32) -> Result<u32, WorldRefusal>
    ensures ok { OnOk result (Did (hearings (replay world.old) after) world.old world.new) }
    ensures last { IfOk result (λ last. last ≡ length (replay world.old).letters) }
    ensures err { IfErr result (λ refusal. Stuck
        (hearings (replay world.old) after) world.old world.new refusal) }
{
    let last = letter_count(world);
    for number in after..last {
        hear_letter(world, number + 1)?;
    }
    Ok(last)
}

/// A round: all tick, and five waves are heard, each of the letters that were sent since the wave before it began.
fn round(world: &mut World) -> Result<(), WorldRefusal>
    ensures ok { OnOk result (Did (round_events (replay world.old)) world.old world.new) }
    ensures err { IfErr result (λ refusal. Stuck
        (round_events (replay world.old)) world.old world.new refusal) }
{
    let mut after = letter_count(world);
    tick_all(world)?;
    for _wave in 0..5u8 {
        after = hear_all(world, after)?;
    }
    Ok(())
}

/// How many rounds settle a world: enough to send a whole history again, eight entries at a time.
fn round_count(world: &World) -> u16
    ensures { result ≡ round_count world.now.rules }
{
    (world.journal().founding().window() + 22) / 8 + 2
}

/// How many events were done.
#[tactic(auto, using(am_group_defs::proofs::Runs::one_record_each))]
fn event_count(world: &World) -> usize
    ensures { result ≡ length world.now.events }
{
    world.journal().records().len()
}

/// Settles a world: does the whole lossless schedule from where it stands, and tells how much that was. After a refusal a
/// beginning of the schedule was done, and it has a further event: Spent exactly where the world has done 100,000, and else
/// NoMemory (docs/PROTOCOL.md, "Schedules").
pub fn settle(world: &mut World) -> Result<Settled, WorldRefusal>
    ensures ok { OnOk result (Did (schedule_of world.old) world.old world.new) }
    ensures rounds { IfOk result (λ settled. settled.rounds ≡ round_count world.old.rules) }
    ensures events { IfOk result (λ settled. settled.events ≡ length (schedule_of world.old)) }
    ensures err { IfErr result (λ refusal. Stuck (schedule_of world.old)
        world.old world.new refusal) }
{
    let before = event_count(world);
    let rounds = round_count(world);
    for _round in 0..rounds {
        round(world)?;
    }
    let events = event_count(world) - before;
    Ok(Settled { rounds, events })
}
