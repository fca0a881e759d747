ghost use Rattle.std.specs.Prelude.{◌≡◌, ◌≢◌, ℕ, List, Err, if◌then◌else◌, OnOk, OnErr, IfOk, IfErr};
ghost use Rattle.am_io.specs.Buffers.{Goes};
ghost use Rattle.am_io.specs.Outside.{ReadToEnd, next};
ghost use Rattle.am_script_defs.specs.Scripts.{script_reading};
ghost use Rattle.am_player.specs.Plays.{PlayedBy, IsPlayedBy, IsSpent, IsText, IsUnrun, IsUnplayed, unplayed_for};
ghost use Rattle.am_player.specs.Statuses.{most_input, IfBadScript, IsOfAudit, IsOfRead, Took, Wrote, WroteUpTo};

use crate::read_input;
use crate::run::{play_out, show_run};
use crate::shows::Shows;
use crate::status::ExitStatus;
use am_io::buffered::Buffered;
use am_io::outside::{Sink, Source};
use am_io::whole::{ReadRefusal, read_all};
use am_script::read::read_script;
use am_script_defs::refusal::ScriptRefusal;
use am_script_defs::script::Script;
use am_world::world::WorldRefusal;
use std::alloc::Global;

/// All that a source gives up to its end, at most so many bytes; else the call ends, by the status of what prevented it.
#[macro_export]
macro_rules! read_input {
    ($alloc:expr, $source:expr, $most:expr) => {
        match read_all($alloc, $source, $most) {
            Ok(bytes) => bytes,
            Err(ReadRefusal::Fault) => return ExitStatus::ReadFault,
            Err(ReadRefusal::TooLong) => return ExitStatus::TooLong,
            Err(ReadRefusal::NoMemory) => return ExitStatus::NoMemory,
        }
    };
}

/// The most bytes of an input that is no message.
pub const INPUT_MOST: u32 = 16_777_216;

/// Reads a script of at most 16,777,216 bytes to its end, runs it, and writes what is shown of its run, piece by piece as it is made. On
/// every status but Done and WriteFault nothing is written.
#[tactic(auto, using(crate::proofs::Given::source_gave_whole_within_limit))]
pub fn play<T: Shows, S: Source, K: Sink>(
    alloc: Global,
    shows: &T,
    source: &mut S,
    sink: &mut K,
) -> ExitStatus
    ensures not_usage { result ≢ ExitStatus.Usage }
    ensures not_of_audit { IsOfAudit result → ⊥ }
    ensures took { Took S.left S.count most_input result source.old source.new }
    ensures bad_script { IfBadScript result (λ cause. (bytes : List ℕ)
        × ReadToEnd (S.left source.old) (S.left source.new) bytes
        × (script_reading bytes ≡ Err cause)) }
    ensures spent { result ≡ ExitStatus.Spent → (bytes : List ℕ)
        × ReadToEnd (S.left source.old) (S.left source.new) bytes × IsSpent bytes }
    ensures wrote { Wrote K.contents K.count (IsPlayedBy (T.text shows.now)
        (S.left source.old) (S.left source.new)) result sink.old sink.new }
{
    let bytes = read_input!(alloc, source, INPUT_MOST);
    play_bytes(alloc, shows, bytes.as_slice(), sink)
}

/// Runs a script's bytes, and writes what is shown of its run.
fn play_bytes<T: Shows, K: Sink>(alloc: Global, shows: &T, bytes: &[u8], sink: &mut K) -> ExitStatus
    ensures not_usage { result ≢ ExitStatus.Usage }
    ensures not_of_audit { IsOfAudit result → ⊥ }
    ensures not_of_read { IsOfRead result → ⊥ }
    ensures bad_script { IfBadScript result (λ cause. script_reading bytes.now ≡ Err cause) }
    ensures spent { result ≡ ExitStatus.Spent → IsSpent bytes.now }
    ensures wrote { Wrote K.contents K.count (PlayedBy (T.text shows.now) bytes.now)
        result sink.old sink.new }
{
    match write_run(alloc, shows, bytes, sink) {
        Ok(true) => ExitStatus::Done,
        Ok(false) => ExitStatus::WriteFault,
        Err(Unplayed::BadScript(cause)) => ExitStatus::BadScript(cause),
        Err(Unplayed::Spent) => ExitStatus::Spent,
        Err(Unplayed::NoMemory) => ExitStatus::NoMemory,
    }
}

/// Writes what is shown of the run of a script's bytes, and says whether no write failed. After an error nothing was written.
fn write_run<T: Shows, K: Sink>(
    alloc: Global,
    shows: &T,
    bytes: &[u8],
    sink: &mut K,
) -> Result<bool, Unplayed>
    ensures played { IfOk result (λ is_whole. (text : List ℕ) × PlayedBy (T.text shows.now) bytes.now text
        × WroteUpTo is_whole (K.contents sink.old) (K.contents sink.new) text) }
    ensures counts { IfOk result (λ is_whole. K.count sink.new
        ≡ (if is_whole then K.count sink.old else next (K.count sink.old))) }
    ensures unplayed { IfErr result (λ e. IsUnplayed bytes.now e) }
    ensures unwritten { OnErr result (sink.new ≡ sink.old) }
{
    let mut out = Buffered::new(sink);
    answer(alloc, shows, bytes, &mut out)?;
    match out.finish() {
        Ok(()) => Ok(true),
        Err(_) => Ok(false),
    }
}

/// Why there is no text of a script's run.
#[derive(Clone, Copy)]
enum Unplayed {
    BadScript(ScriptRefusal),
    Spent,
    NoMemory,
}

impl From<WorldRefusal> for Unplayed {
    ghost from_gives = { λ refusal e. e ≡ unplayed_for refusal };

    fn from(refusal: WorldRefusal) -> Unplayed {
        match refusal {
            WorldRefusal::NoMemory => Unplayed::NoMemory,
            WorldRefusal::Spent => Unplayed::Spent,
        }
    }
}

/// Writes what is shown of a play's run. After an error nothing was written.
#[tactic(auto, unfolding(crate::specs::Runs::IsRunText, crate::specs::Runs::IsLong))]
fn show_script<T: Shows, K: Sink>(
    alloc: Global,
    shows: &T,
    script: &Script,
    out: &mut Buffered<'_, K>,
) -> Result<(), Unplayed>
    ensures unwritten { OnErr result (out.new ≡ out.old) }
    ensures shown { OnOk result ((text : List ℕ) × IsText (T.text shows.now) script.now text
        × Goes K.contents K.count out.old text out.new) }
    ensures unrun { IfErr result (λ e. IsUnrun script.now e) }
{
    let events = script.events.as_slice();
    let world = play_out(alloc, &script.founding, events, script.settle)?;
    match show_run(alloc, shows, &world, out) {
        Ok(()) => Ok(()),
        Err(_) => Err(Unplayed::NoMemory),
    }
}

/// Writes what is shown of the run of a script's bytes. After an error nothing was written.
#[tactic(auto, using(crate::proofs::Played::text_of_script_is_played))]
fn answer<T: Shows, K: Sink>(
    alloc: Global,
    shows: &T,
    bytes: &[u8],
    out: &mut Buffered<'_, K>,
) -> Result<(), Unplayed>
    ensures played { OnOk result ((text : List ℕ) × PlayedBy (T.text shows.now) bytes.now text
        × Goes K.contents K.count out.old text out.new) }
    ensures unplayed { IfErr result (λ e. IsUnplayed bytes.now e) }
    ensures unwritten { OnErr result (out.new ≡ out.old) }
{
    let script = match read_script(alloc, bytes) {
        Ok(script) => script,
        Err(ScriptRefusal::NoMemory) => return Err(Unplayed::NoMemory),
        Err(cause) => return Err(Unplayed::BadScript(cause)),
    };
    show_script(alloc, shows, &script, out)
}
