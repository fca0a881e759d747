ghost use Rattle.std.specs.Prelude.{◌≡◌, ◌≤◌, ◌++◌, ℕ, List, length, IfOk, OnOk, OnErr};
ghost use Rattle.std.specs.Fmt.{WritesInCalls};
ghost use Rattle.am_base.specs.Most.{most_events_of_run};
ghost use Rattle.am_group.specs.declared.event.Record.{Record};
ghost use Rattle.am_io.specs.Buffers.{Goes};
ghost use Rattle.am_group_defs.specs.Play.{play_text_of};
ghost use Rattle.am_group_defs.specs.Text.{newline};
ghost use Rattle.am_player.specs.Runs.{logged_in};
ghost use Rattle.am_script_defs.specs.RaceLimits.{RaceWithin};
ghost use Rattle.am_world.specs.Runs.{replay};
ghost use Rattle.am_sim.specs.Racing.{events_of, race_text, IsRaced, IsReadAgain, IsRaceText};

use am_base::NoMemory;
use am_base::founding::Founding;
use am_base::items::Items;
use am_base::name::Name;
use am_calls::gate::TestHook;
use am_calls::race::race;
use am_group::event::{Event, Record};
use am_group::plan::RacePlan;
use am_io::buffered::Buffered;
use am_io::outside::Sink;
use am_io::writer::Writer;
use am_player::run::{logged_names, play_out};
use am_player::shows::push_run;
use am_text_output::script::script_text;
use am_world::world::{World, WorldRefusal};
use std::alloc::Global;
use std::sync::Wait;
use std::thread::Threads;

/// What was done, record by record.
pub(crate) fn events_of(alloc: Global, records: &[Record]) -> Result<Items<Event>, NoMemory>
    ensures { IfOk result (λ events. events ≡ events_of records.now) }
{
    let mut events = Items::new(alloc);
    for record in records {
        events.push(record.event.try_copy()?)?;
    }
    Ok(events)
}

/// What was done in a race. The journal that it left is let go, since the run of these events keeps one of its own.
fn events_of_race<R: Threads + Wait + Sync, G: TestHook + Sync>(
    rt: &R,
    alloc: Global,
    gate: &G,
    plan: &RacePlan,
) -> Result<Items<Event>, NoMemory>
    requires { RaceWithin plan.now }
    ensures raced { IfOk result (λ events. (journal : List Record) × IsRaced plan.now journal
        × (events ≡ events_of journal)) }
    ensures few { IfOk result (λ events. length events ≤ most_events_of_run) }
{
    let journal = race(rt, alloc, plan, gate)?;
    let events = events_of(alloc, journal.records())?;
    Ok(events)
}

/// The world after at most 100,000 events.
#[tactic(auto, unfolding(am_player::specs::Runs::IsLong))]
fn world_of_events(alloc: Global, founding: &Founding, events: &[Event]) -> Result<World, NoMemory>
    requires { length events.now ≤ most_events_of_run }
    ensures { IfOk result (λ world. world ≡ record { rules = founding.now; events = events.now }) }
{
    match play_out(alloc, founding, events, false) {
        Ok(world) => Ok(world),
        Err(WorldRefusal::NoMemory) => Err(NoMemory),
        Err(WorldRefusal::Spent) => unreachable!(),
    }
}

/// Adds a script in one line, and the text of what a world did.
fn push_race<O: Writer>(out: &mut O, script: &str, world: &World, names: &[Name])
    requires { names.now ≡ logged_in (replay world.now) }
    ensures { WritesInCalls O.writes out.old
        (script.now ++ (newline ++ play_text_of world.now.rules world.now.events)) out.new }
{
    out.put(script);
    out.put("\n");
    push_run(out, world, names);
}

/// Writes what was done as a script, in one line, and the text of the run of that. After an error nothing was written.
fn write_events<K: Sink>(
    alloc: Global,
    founding: &Founding,
    events: &[Event],
    out: &mut Buffered<'_, K>,
) -> Result<(), NoMemory>
    requires { length events.now ≤ most_events_of_run }
    ensures text { OnOk result (Goes K.contents K.count out.old (race_text founding.now events.now)
        out.new) }
    ensures again { OnOk result (IsReadAgain founding.now events.now) }
    ensures unwritten { OnErr result (out.new ≡ out.old) }
{
    let script = script_text(alloc, founding, events)?;
    let world = world_of_events(alloc, founding, events)?;
    let names = logged_names(alloc, &world)?;
    push_race(out, script.as_str(), &world, names.as_slice());
    Ok(())
}

/// Writes the text of a race: what was done as a script, in one line, and the text of the run of that. After an error nothing was
/// written.
pub fn write_race<R: Threads + Wait + Sync, G: TestHook + Sync, K: Sink>(
    rt: &R,
    alloc: Global,
    gate: &G,
    plan: &RacePlan,
    out: &mut Buffered<'_, K>,
) -> Result<(), NoMemory>
    requires { RaceWithin plan.now }
    ensures raced { OnOk result ((text : List ℕ) × IsRaceText plan.now text
        × Goes K.contents K.count out.old text out.new) }
    ensures unwritten { OnErr result (out.new ≡ out.old) }
{
    let events = events_of_race(rt, alloc, gate, plan)?;
    write_events(alloc, &plan.founding, events.as_slice(), out)?;
    Ok(())
}
