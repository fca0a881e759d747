ghost use Rattle.std.specs.Prelude.{◌≡◌, ◌≢◌, IfOk, string_bytes};
ghost use Rattle.am_group_defs.specs.Lawful.{watch_run};
ghost use Rattle.am_world.specs.Runs.{replay};
ghost use Rattle.am_player.specs.Runs.{logged_in};
ghost use Rattle.am_sim.specs.Playing.{shown_text};

use am_base::NoMemory;
use am_base::name::Name;
use am_cli_words::form::RunText;
use am_io::buffered::Buffered;
use am_io::outside::Sink;
use am_player::shows::{PlayText, PlayedWorld, Shows};
use am_services::directories::directories_text;
use am_services::messages::messages_text;
use am_services::snapshots::snapshots_text;
use am_world::world::World;
use std::alloc::Global;

/// What is shown of what a world did, but for its text, made whole. The names are those that have or had a list.
fn text_of_world(
    alloc: Global,
    shown: RunText,
    world: &World,
    names: &[Name],
) -> Result<String, NoMemory>
    requires named { names.now ≡ logged_in (replay world.now) }
    requires other { shown ≢ RunText.Text }
    ensures { IfOk result (λ text. string_bytes text
        ≡ shown_text shown world.now.rules (watch_run world.now.rules world.now.events)) }
{
    let broken = world.broken_at();
    let journal = world.journal();
    match shown {
        RunText::Text => unreachable!(),
        RunText::Messages => messages_text(alloc, journal.records(), names, broken),
        RunText::Directories => directories_text(alloc, journal, names, broken),
        RunText::Snapshots => snapshots_text(alloc, journal, names, broken),
    }
}

/// What the words of a play ask to be shown of its run.
#[derive(Clone, Copy)]
pub struct ShownRun {
    /// Where texts are made.
    pub alloc: Global,
    /// What that is.
    pub shown: RunText,
}

impl Shows for ShownRun {
    ghost text = { λ it. shown_text it.shown };

    fn show<K: Sink>(
        &self,
        ran: &PlayedWorld<'_>,
        out: &mut Buffered<'_, K>,
    ) -> Result<(), NoMemory> {
        match self.shown {
            RunText::Text => PlayText.show(ran, out),
            shown => {
                let text = text_of_world(self.alloc, shown, ran.world, ran.names)?;
                out.write(text.as_bytes());
                Ok(())
            }
        }
    }
}
