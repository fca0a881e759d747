ghost use Rattle.std.specs.Prelude.{◌≡◌, ℕ, List, OnOk, OnErr};
ghost use Rattle.std.specs.Fmt.{WritesInCalls};
ghost use Rattle.am_base.specs.Founding.{Rules};
ghost use Rattle.am_io.specs.Buffers.{Goes};
ghost use Rattle.am_group_defs.specs.{Lawful.Watch, Lawful.watch_run, Play.text_of_watch};
ghost use Rattle.am_world.specs.Runs.{replay};
ghost use Rattle.am_player.specs.Runs.{logged_in};

use am_base::NoMemory;
use am_base::name::Name;
use am_io::buffered::Buffered;
use am_io::outside::Sink;
use am_io::writer::Writer;
use am_report::play::push_play;
use am_world::world::World;

/// What a world did, and the names that have or had a list, in their places' order.
#[derive(Clone, Copy)]
pub struct PlayedWorld<'a> {
    /// The world.
    pub world: &'a World,
    /// These names.
    pub names: &'a [Name],
}

/// What is shown of a script's run.
pub trait Shows {
    // What it is, of a run that was watched.
    ghost text: { Self → Rules → Watch → List ℕ };

    /// Writes what is shown of what a world did. After an error nothing of it was written.
    fn show<K: Sink>(
        &self,
        ran: &PlayedWorld<'_>,
        out: &mut Buffered<'_, K>,
    ) -> Result<(), NoMemory>
        requires { ran.now.names.now ≡ logged_in (replay ran.now.world.now) }
        ensures ok { OnOk result (Goes K.contents K.count out.old (text self.now
            ran.now.world.now.rules (watch_run ran.now.world.now.rules ran.now.world.now.events))
            out.new) }
        ensures err { OnErr result (out.new ≡ out.old) };
}

/// Adds all that is printed of what a world did (docs/PROTOCOL.md, "Play text"). The names are those that have or had a list, in their
/// places' order.
pub fn push_run<O: Writer>(out: &mut O, world: &World, names: &[Name])
    requires { names.now ≡ logged_in (replay world.now) }
    ensures { WritesInCalls O.writes out.old
        (text_of_watch world.now.rules (watch_run world.now.rules world.now.events)) out.new }
{
    push_play(
        out,
        world.journal(),
        world.group(),
        names,
        world.broken_at(),
    );
}

/// All that is printed of a run (docs/PROTOCOL.md, "Play text").
#[derive(Clone, Copy)]
pub struct PlayText;

impl Shows for PlayText {
    ghost text = { λ _. text_of_watch };

    fn show<K: Sink>(
        &self,
        ran: &PlayedWorld<'_>,
        out: &mut Buffered<'_, K>,
    ) -> Result<(), NoMemory> {
        push_run(out, ran.world, ran.names);
        Ok(())
    }
}
