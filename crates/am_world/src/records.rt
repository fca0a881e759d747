ghost use Rattle.std.specs.Prelude.{◌≡◌, ◌<◌, IfOk, IfErr, map, length};
ghost use Rattle.am_base.specs.Most.{most_events_of_run};
ghost use Rattle.am_group_defs.specs.Lawful.{broken_at};
ghost use Rattle.am_world.specs.declared.world.WorldRefusal.TheVariants as refusals;

use crate::world::{World, WorldRefusal};
use am_base::founding::Founding;
use am_group::event::Record;
use std::alloc::Global;

/// The number of the first event after which a run wasn't lawful, by its founding and its records; None exactly where it is lawful as
/// a whole. Only the records' events are looked at: what came of them is what their run gives. It does them all again, and is an
/// error where there was no memory for that; Spent only where there are more than 100,000.
pub fn broken_at(
    alloc: Global,
    founding: &Founding,
    records: &[Record],
) -> Result<Option<u32>, WorldRefusal>
    ensures ok { IfOk result (λ broken. broken
        ≡ broken_at founding.now (map (λ r. r.event) records.now)) }
    ensures spent { IfErr result (λ refusal. refusal ≡ refusals.Spent
        → most_events_of_run < length records.now) }
{
    let mut world = World::with_room(alloc, founding, records.len())?;
    for item in records {
        world.step(&item.event)?;
    }
    Ok(world.broken_at())
}
