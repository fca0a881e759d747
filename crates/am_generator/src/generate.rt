ghost use Rattle.std.specs.Prelude.{◌≡◌, ◌<◌, IfOk, IfErr};
ghost use Rattle.am_base.specs.Most.{most_events_of_run};
ghost use Rattle.am_generator.specs.Generating.{generated_rules, events_of_seed};
ghost use Rattle.am_generator.specs.Courses.{IsCourse};
ghost use Rattle.am_world.specs.declared.world.WorldRefusal.TheVariants as refusals;

use crate::course::Course;
use crate::generator::Generator;
use am_base::founding::Founding;
use am_base::items::Items;
use am_base::names::Names;
use am_group::event::Event;
use am_world::world::WorldRefusal;
use std::alloc::Global;

/// Places 0 to 3 found the group of a generated run.
#[tactic(auto, using(crate::proofs::Rules::generated_rules_may_found))]
pub fn founding() -> Founding
    ensures { result ≡ generated_rules }
{
    match Founding::new(Names::of_mask(15), 1, 16, 256) {
        Some(founding) => founding,
        None => unreachable!(),
    }
}

/// The course of a seed after so many events: four members, of whose letters ten of a hundred are lost and five repeated
/// (docs/PROTOCOL.md, "Generated runs"). NoMemory where there was no memory for an event, Spent only where there are to be more
/// than 100,000.
pub fn generate(alloc: Global, seed: u64, count: u32) -> Result<Course, WorldRefusal>
    ensures course { IfOk result (IsCourse (record { rules = generated_rules; events = events_of_seed seed count })) }
    ensures spent { IfErr result (λ refusal. refusal ≡ refusals.Spent → most_events_of_run < count) }
{
    let mut generator = Generator::new(alloc, seed)?;
    for _done in 0..count {
        let event = generator.draw_event()?;
        generator.happen(event)?;
    }
    Ok(generator.into_course())
}

/// The first events of a seed, so many of them. Each of them happens, as what comes next hangs on it: refusals are those of
/// `generate`.
pub fn generate_events(alloc: Global, seed: u64, count: u32) -> Result<Items<Event>, WorldRefusal>
    ensures events { IfOk result (λ events. events ≡ events_of_seed seed count) }
    ensures spent { IfErr result (λ refusal. refusal ≡ refusals.Spent → most_events_of_run < count) }
{
    let mut generator = Generator::new(alloc, seed)?;
    let mut events = Items::new(alloc);
    for _done in 0..count {
        let event = generator.draw_event()?;
        events.push(event.try_copy()?)?;
        generator.happen(event)?;
    }
    Ok(events)
}
