ghost use Rattle.std.specs.Prelude.{◌≡◌, ◌↔◌, ℕ, List, None, Some, Err, IfOk, IfSome, string_bytes};
ghost use Rattle.am_io.specs.Outside.{ReadToEnd};
ghost use Rattle.am_cli_words.specs.Forms.{IsGen, Generates, ScriptIsShort};
ghost use Rattle.am_cli_words.specs.declared.form.Form.TheVariants as form;
ghost use Rattle.am_audit_defs.specs.Lines.{read_text};
ghost use Rattle.am_player.specs.Plays.{IsSpent};
ghost use Rattle.am_player.specs.Statuses.{IfBadScript, IsOfAudit, Took, Wrote};
ghost use Rattle.am_sim.specs.Simulation.{form_of_words, most_bytes_of, Plays, FormReads, Waits, InputIsRefused, EndsGen, IsAnswerAlone, IsSummary, IfBadText, IfAudit, Judges};

use crate::auditing::audit_text;
use crate::generating::{generate_script, summary_of_run};
use crate::parting::write_parts;
use crate::playing::ShownRun;
use am_base::NoMemory;
use am_cli_words::form::Form;
use am_cli_words::options::gen_numbers;
use am_io::outside::{Sink, Source};
use am_io::whole::write_all;
use am_player::play::play;
use am_player::status::ExitStatus;
use std::alloc::Global;

/// Does what the words of a form ask for, as `simulate` does, but for the one word `race` and for `node`, and waits for nobody. None
/// exactly where the words are these; then nothing is read or written.
#[tactic(auto, using(crate::proofs::Answered::gen_took_nothing))]
pub fn simulate_alone<S: Source, K: Sink>(
    alloc: Global,
    asked: Option<Form>,
    words: &[&str],
    source: &mut S,
    sink: &mut K,
) -> Option<ExitStatus>
    requires form_ { asked ≡ form_of_words words.now }
    requires few { IfSome asked ScriptIsShort }
    ensures variant { (result ≡ None) ↔ Waits (form_of_words words.now) }
    ensures untouched_source { result ≡ None → source.new ≡ source.old }
    ensures untouched_sink { result ≡ None → sink.new ≡ sink.old }
    ensures usage { IfSome result (λ status. (status ≡ ExitStatus.Usage)
        ↔ (form_of_words words.now ≡ None)) }
    ensures unread { (FormReads (form_of_words words.now) → ⊥) → source.new ≡ source.old }
    ensures generates { Generates (form_of_words words.now) → IfSome result EndsGen }
    ensures took { IfSome result (λ status. Took S.left S.count
        (most_bytes_of (form_of_words words.now)) status source.old source.new) }
    ensures bad_script { IfSome result (λ status. IfBadScript status (λ cause. (bytes : List ℕ)
        × ReadToEnd (S.left source.old) (S.left source.new) bytes
        × InputIsRefused (form_of_words words.now) bytes cause)) }
    ensures scripts { IfSome result (λ status. IfBadScript status (λ cause.
        Plays (form_of_words words.now))) }
    ensures plays { IfSome result (λ status. status ≡ ExitStatus.Spent
        → Plays (form_of_words words.now)) }
    ensures spent { IfSome result (λ status. status ≡ ExitStatus.Spent → (bytes : List ℕ)
        × ReadToEnd (S.left source.old) (S.left source.new) bytes × IsSpent bytes) }
    ensures wrote { IfSome result (λ status. Wrote K.contents K.count
        (IsAnswerAlone (form_of_words words.now) (S.left source.old) (S.left source.new))
        status sink.old sink.new) }
    ensures bad_text { IfSome result (λ status. IfBadText status (λ line. (bytes : List ℕ)
        × ReadToEnd (S.left source.old) (S.left source.new) bytes × (read_text bytes ≡ Err line))) }
    ensures judges { IfSome result (λ status. IfAudit (form_of_words words.now)
        (Judges status (S.left source.old) (S.left source.new))) }
    ensures audits { IfSome result (λ status. IsOfAudit status
        → form_of_words words.now ≡ Some form.Audit) }
{
    match asked {
        Some(Form::Play(shown)) => Some(play(alloc, &ShownRun { alloc, shown }, source, sink)),
        Some(Form::Gen(_)) => Some(generate_run(alloc, words, sink)),
        Some(Form::Script(numbers)) => Some(generate_script(alloc, numbers, sink)),
        Some(Form::Audit) => Some(audit_text(alloc, source, sink)),
        Some(Form::Parts) => Some(write_parts(alloc, source, sink)),
        Some(Form::Race) => None,
        Some(Form::Node(_)) => None,
        None => Some(ExitStatus::Usage),
    }
}

/// Makes the run of the words of `gen`, and writes its summary.
fn generate_run<K: Sink>(alloc: Global, words: &[&str], sink: &mut K) -> ExitStatus
    requires { IsGen (form_of_words words.now) }
    ensures generates { EndsGen result }
    ensures wrote { Wrote K.contents K.count (IsSummary (form_of_words words.now))
        result sink.old sink.new }
{
    let Ok(text) = summary_of(alloc, words) else {
        return ExitStatus::NoMemory;
    };
    if write_all(sink, text.as_bytes()).is_err() {
        return ExitStatus::WriteFault;
    }
    ExitStatus::Done
}

/// The summary of the run of the words of `gen`.
fn summary_of(alloc: Global, words: &[&str]) -> Result<String, NoMemory>
    requires { IsGen (form_of_words words.now) }
    ensures { IfOk result (λ text. IsSummary (form_of_words words.now) (string_bytes text)) }
{
    let numbers = gen_numbers(alloc, words)?;
    summary_of_run(alloc, numbers)
}
