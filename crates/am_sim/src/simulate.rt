ghost use Rattle.std.specs.Prelude.{◌≡◌, ◌≢◌, ◌↔◌, ℕ, List, None, Some, Err, IfOk, IfErr, OnOk, OnErr, Ok};
ghost use Rattle.std.specs.Io.KnownBytes.{Appends};
ghost use Rattle.am_io.specs.Buffers.{Goes};
ghost use Rattle.am_io.specs.Outside.{ReadToEnd, GaveMore, GaveAtMost};
ghost use Rattle.am_script_defs.specs.Races.{race_reading};
ghost use Rattle.am_cli_words.specs.declared.form.Form.TheVariants as form;
ghost use Rattle.am_cli_words.specs.Forms.{Generates};
ghost use Rattle.am_sim.specs.Speaking.{Spoken, IfNode, WordsAskForNode};
ghost use Rattle.am_audit_defs.specs.Lines.{read_text};
ghost use Rattle.am_player.specs.Plays.{IsSpent};
ghost use Rattle.am_player.specs.Statuses.{most_input, OnDone, OnWriteFault, IfBadScript, Writes, IsOfAudit, Took, Wrote, WroteTextPart, source_reads_after, sink_writes_after};
ghost use Rattle.am_sim.specs.Simulation.{form_of_words, most_bytes_of, Plays, FormReads, ReadsScript, InputIsRefused, EndsGen, IsTextOfForm, IsRacedText, IfBadText, IfAudit, Judges, Raced};

use crate::alone::simulate_alone;
use crate::racing::write_race;
use crate::speaking::speak_node;
use am_calls::gate::TestHook;
use am_cli_words::form::{Form, form_of};
use am_io::buffered::Buffered;
use am_io::outside::{Sink, Source};
use am_io::whole::{ReadRefusal, read_all};
use am_player::play::INPUT_MOST;
use am_player::read_input;
use am_player::status::ExitStatus;
use am_race_script::read::read_race;
use am_script_defs::refusal::ScriptRefusal;
use std::alloc::Global;
use std::sync::Wait;
use std::thread::Threads;

/// Does what the words ask for (`form_of` of am_cli_words). `play` reads a script of at most 16,777,216 bytes to its end, runs it,
/// and writes the text of its run (docs/PROTOCOL.md, "Play text"). `race` reads a race, lets its threads make their calls, with
/// the gate between each look and its act, and writes what was done as a script, in one line, and the text of the run of that.
/// `messages`, `directory` and `snapshots` read and run a script as `play` does, and write these of its run (docs/MESSAGES.md,
/// docs/DIRECTORY.md). `gen` reads nothing, makes the run of its two numbers, and writes its summary, or with `--script` its script.
/// `audit` reads a text and writes the line of its verdict (docs/AUDIT.md). `parts` reads a message of at most 65,535 bytes, and
/// writes its parts. On every status but Done, Disagrees and WriteFault nothing is written. `node` answers each line that it reads before it reads more (`speak` of am_node_lines), however many there are.
pub fn simulate<R: Threads + Wait + Sync, S: Source, K: Sink, G: TestHook + Sync>(
    rt: &R,
    alloc: Global,
    gate: &G,
    words: &[&str],
    source: &mut S,
    sink: &mut K,
) -> ExitStatus
    ensures usage { (result ≡ ExitStatus.Usage) ↔ (form_of_words words.now ≡ None) }
    ensures unread { (FormReads (form_of_words words.now) → ⊥) → source.new ≡ source.old }
    ensures generates { Generates (form_of_words words.now) → EndsGen result }
    ensures scripts { IfBadScript result (λ cause. ReadsScript (form_of_words words.now)) }
    ensures plays { result ≡ ExitStatus.Spent → Plays (form_of_words words.now) }
    ensures reads { S.count source.new ≡ source_reads_after result (S.count source.old) }
    ensures writes { K.count sink.new ≡ sink_writes_after result (K.count sink.old) }
    ensures too_long { result ≡ ExitStatus.TooLong
        → GaveMore (most_bytes_of (form_of_words words.now)) (S.left source.old) (S.left source.new) }
    ensures within { (WordsAskForNode (form_of_words words.now) → ⊥) → result ≢ ExitStatus.TooLong
        → GaveAtMost (most_bytes_of (form_of_words words.now)) (S.left source.old) (S.left source.new) }
    ensures bad_script { IfBadScript result (λ cause. (bytes : List ℕ)
        × ReadToEnd (S.left source.old) (S.left source.new) bytes
        × InputIsRefused (form_of_words words.now) bytes cause) }
    ensures spent { result ≡ ExitStatus.Spent → (bytes : List ℕ)
        × ReadToEnd (S.left source.old) (S.left source.new) bytes × IsSpent bytes }
    ensures spoken { IfNode (form_of_words words.now) (λ node. Spoken node result
        (S.left source.old) (S.left source.new) (K.contents sink.old) (K.contents sink.new)) }
    ensures part { (WordsAskForNode (form_of_words words.now) → ⊥) → OnWriteFault result ((text : List ℕ)
        × IsTextOfForm (form_of_words words.now) (S.left source.old) (S.left source.new) text
        × WroteTextPart (K.contents sink.old) (K.contents sink.new) text) }
    ensures done { OnDone result ((text : List ℕ)
        × IsTextOfForm (form_of_words words.now) (S.left source.old) (S.left source.new) text
        × Appends (K.contents sink.old) (K.contents sink.new) text) }
    ensures unwritten { (WordsAskForNode (form_of_words words.now) → ⊥) → (Writes result → ⊥)
        → sink.new ≡ sink.old }
    ensures bad_text { IfBadText result (λ line. (bytes : List ℕ)
        × ReadToEnd (S.left source.old) (S.left source.new) bytes × (read_text bytes ≡ Err line)) }
    ensures judges { IfAudit (form_of_words words.now)
        (Judges result (S.left source.old) (S.left source.new)) }
    ensures audits { IsOfAudit result → form_of_words words.now ≡ Some form.Audit }
{
    let asked = form_of(words);
    if let Some(Form::Race) = asked {
        return race_script(rt, alloc, gate, source, sink);
    }
    if let Some(Form::Node(node)) = asked {
        return speak_node(rt, alloc, &node, source, sink);
    }
    match simulate_alone(alloc, asked, words, source, sink) {
        Some(status) => status,
        None => unreachable!(),
    }
}

/// Reads a race to its end, lets its threads make their calls, and writes what was done, and the text of its run. It stands apart, so
/// that other words don't have what it keeps on their stack.
#[inline(never)]
#[tactic(auto, using(am_player::proofs::Given::source_gave_whole_within_limit))]
fn race_script<R: Threads + Wait + Sync, S: Source, K: Sink, G: TestHook + Sync>(
    rt: &R,
    alloc: Global,
    gate: &G,
    source: &mut S,
    sink: &mut K,
) -> ExitStatus
    ensures not_of_audit { IsOfAudit result → ⊥ }
    ensures not_usage { result ≢ ExitStatus.Usage }
    ensures not_spent { result ≢ ExitStatus.Spent }
    ensures took { Took S.left S.count most_input result source.old source.new }
    ensures bad_script { IfBadScript result (λ cause. (bytes : List ℕ)
        × ReadToEnd (S.left source.old) (S.left source.new) bytes
        × (race_reading bytes ≡ Err cause)) }
    ensures wrote { Wrote K.contents K.count (IsRacedText (S.left source.old) (S.left source.new))
        result sink.old sink.new }
{
    let bytes = read_input!(alloc, source, INPUT_MOST);
    let mut out = Buffered::new(sink);
    match race_answer(rt, alloc, gate, bytes.as_slice(), &mut out) {
        Ok(()) => {}
        Err(ScriptRefusal::NoMemory) => return ExitStatus::NoMemory,
        Err(cause) => return ExitStatus::BadScript(cause),
    }
    match out.finish() {
        Ok(()) => ExitStatus::Done,
        Err(_) => ExitStatus::WriteFault,
    }
}

/// Writes the text of the race that bytes are. After an error nothing was written.
fn race_answer<R: Threads + Wait + Sync, G: TestHook + Sync, K: Sink>(
    rt: &R,
    alloc: Global,
    gate: &G,
    bytes: &[u8],
    out: &mut Buffered<'_, K>,
) -> Result<(), ScriptRefusal>
    ensures raced { OnOk result ((text : List ℕ) × Raced bytes.now text
        × Goes K.contents K.count out.old text out.new) }
    ensures refused { IfErr result (λ e. e ≢ ScriptRefusal.NoMemory
        → race_reading bytes.now ≡ Err e) }
    ensures unwritten { OnErr result (out.new ≡ out.old) }
{
    let plan = read_race(alloc, bytes)?;
    write_race(rt, alloc, gate, &plan, out)?;
    Ok(())
}
