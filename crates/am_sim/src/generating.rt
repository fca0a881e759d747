ghost use Rattle.std.specs.Prelude.{◌≡◌, ◌<◌, ◌≤◌, Ok, IfOk, IfErr, string_bytes};
ghost use Rattle.am_base.specs.Most.{most_events_of_run};
ghost use Rattle.am_group_defs.specs.Play.{summary_text_of};
ghost use Rattle.am_text_output.specs.Summaries.{summary_for};
ghost use Rattle.am_generator.specs.Courses.{IsCourse};
ghost use Rattle.am_world.specs.Runs.{Play};
ghost use Rattle.am_world.specs.declared.world.WorldRefusal.TheVariants as refusals;
ghost use Rattle.am_player.specs.Statuses.{Wrote};
ghost use Rattle.am_sim.specs.Simulation.{Generated, GeneratedScript, EndsGen};

use am_base::NoMemory;
use am_cli_words::form::SeedAndCount;
use am_generator::course::Course;
use am_generator::generate::{founding, generate, generate_events};
use am_io::outside::Sink;
use am_io::whole::write_all;
use am_player::status::ExitStatus;
use am_text_output::script::script_text;
use am_text_output::summary::{Summary, summary_text};
use am_world::world::WorldRefusal;
use std::alloc::Global;

/// What was made of two numbers, of which the second is at most 100,000, or that there was no memory for it.
fn made_of<T>(count: u32, made: Result<T, WorldRefusal>) -> Result<T, NoMemory>
    requires few { count ≤ most_events_of_run }
    requires spent { IfErr made (λ refusal. refusal ≡ refusals.Spent → most_events_of_run < count) }
    ensures { IfOk result (λ value. made ≡ Ok value) }
{
    match made {
        Ok(value) => Ok(value),
        Err(WorldRefusal::NoMemory) => Err(NoMemory),
        Err(WorldRefusal::Spent) => unreachable!(),
    }
}

/// What a summary tells of a course.
fn summary_of(course: &Course) -> Summary
    ensures { (p : Play) → IsCourse p course.now → summary_for result ≡ summary_text_of p.rules p.events }
{
    let counts = course.counts();
    Summary {
        events: counts.events as usize,
        packets: course.packets(),
        entries: course.entries(),
        took: counts.took as usize,
        sent: counts.sent as usize,
        held: counts.held as usize,
        broken: course.broken_at(),
    }
}

/// The summary of their run.
pub fn summary_of_run(alloc: Global, numbers: SeedAndCount) -> Result<String, NoMemory>
    requires { numbers.count ≤ most_events_of_run }
    ensures { IfOk result (λ text. Generated numbers (string_bytes text)) }
{
    let made = generate(alloc, numbers.seed, numbers.count);
    let course = made_of(numbers.count, made)?;
    let summary = summary_of(&course);
    let text = summary_text(alloc, &summary)?;
    Ok(text)
}

/// The script of their run, in one line.
pub fn script_of_run(alloc: Global, numbers: SeedAndCount) -> Result<String, NoMemory>
    requires { numbers.count ≤ most_events_of_run }
    ensures { IfOk result (λ text. GeneratedScript numbers (string_bytes text)) }
{
    let made = generate_events(alloc, numbers.seed, numbers.count);
    let events = made_of(numbers.count, made)?;
    let founding = founding();
    let mut text = script_text(alloc, &founding, events.as_slice())?;
    text.push_str("\n")?;
    Ok(text)
}

/// Makes the run of two numbers, and writes its script.
pub fn generate_script<K: Sink>(alloc: Global, numbers: SeedAndCount, sink: &mut K) -> ExitStatus
    requires { numbers.count ≤ most_events_of_run }
    ensures generates { EndsGen result }
    ensures wrote { Wrote K.contents K.count (GeneratedScript numbers) result sink.old sink.new }
{
    let Ok(text) = script_of_run(alloc, numbers) else {
        return ExitStatus::NoMemory;
    };
    if write_all(sink, text.as_bytes()).is_err() {
        return ExitStatus::WriteFault;
    }
    ExitStatus::Done
}
