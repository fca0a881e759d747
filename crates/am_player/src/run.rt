ghost use Rattle.std.specs.Prelude.{◌≡◌, ◌<◌, ◌≤◌, ◌+◌, ◌++◌, [], ◌∷◌, length, if◌then◌else◌, OnOk, OnErr, IfOk, IfErr};
ghost use Rattle.am_base.specs.Most.{most_events_of_run};
ghost use Rattle.am_io.specs.Buffers.{Goes};
ghost use Rattle.am_group_defs.specs.Lawful.{watch_run};
ghost use Rattle.am_world.specs.declared.world.WorldRefusal.TheVariants as refusals;
ghost use Rattle.am_world.specs.Runs.{replay};
ghost use Rattle.am_player.specs.Runs.{done_of, logged_in};

use crate::shows::{PlayedWorld, Shows};
use am_base::NoMemory;
use am_base::founding::Founding;
use am_base::name::Name;
use am_group::event::Event;
use am_io::buffered::Buffered;
use am_io::outside::Sink;
use am_world::settle::settle;
use am_world::world::{World, WorldRefusal};
use std::alloc::Global;

/// Adds a name to others, where it is due.
fn push_where(each: &mut Vec<Name>, name: Name, is_due: bool) -> Result<(), NoMemory>
    ensures { OnOk result (each.new.items ≡ each.old.items ++ (if is_due then name ∷ [] else [])) }
{
    if is_due {
        each.push(name)?;
    }
    Ok(())
}

/// The names that have or had a list, in their places' order.
pub fn logged_names(alloc: Global, world: &World) -> Result<Vec<Name>, NoMemory>
    ensures { IfOk result (λ each. each.items ≡ logged_in (replay world.now)) }
{
    let mut each = Vec::new(alloc);
    for rank in 0..256u16 {
        let name = Name::of_byte((rank / 16 + 16 * (rank % 16)) as u8);
        push_where(&mut each, name, world.has_log(name))?;
    }
    Ok(each)
}

/// A world does events in turn.
fn do_events(world: &mut World, events: &[Event]) -> Result<(), WorldRefusal>
    ensures ok { OnOk result (world.new ≡ record world.old
        { events = world.old.events ++ events.now }) }
    ensures err { IfErr result (λ e. e ≡ refusals.Spent
        → most_events_of_run < length world.old.events + length events.now) }
{
    for event in events {
        world.step(event)?;
    }
    Ok(())
}

/// The world after a script's events, and those that settle it where that is asked for. It is Spent where these are more than
/// 100,000.
#[tactic(auto, using(am_group_defs::proofs::Runs::one_record_each))]
pub fn play_out(
    alloc: Global,
    founding: &Founding,
    events: &[Event],
    settles: bool,
) -> Result<World, WorldRefusal>
    ensures ok { IfOk result (λ world. world
        ≡ record { rules = founding.now; events = done_of founding.now events.now settles }) }
    ensures few { IfOk result (λ world. length (done_of founding.now events.now settles)
        ≤ most_events_of_run) }
    ensures err { IfErr result (λ e. e ≡ refusals.Spent
        → most_events_of_run < length (done_of founding.now events.now settles)) }
{
    let mut world = World::with_room(alloc, founding, events.len())?;
    do_events(&mut world, events)?;
    if settles {
        settle(&mut world)?;
    }
    let _few = world.journal().records().len();
    Ok(world)
}

/// Writes what is shown of what a world did. After an error nothing of it was written.
pub fn show_run<T: Shows, K: Sink>(
    alloc: Global,
    shows: &T,
    world: &World,
    out: &mut Buffered<'_, K>,
) -> Result<(), NoMemory>
    ensures ok { OnOk result (Goes K.contents K.count out.old
        (T.text shows.now world.now.rules (watch_run world.now.rules world.now.events)) out.new) }
    ensures err { OnErr result (out.new ≡ out.old) }
{
    let names = logged_names(alloc, world)?;
    let ran = PlayedWorld {
        world,
        names: names.as_slice(),
    };
    shows.show(&ran, out)
}
