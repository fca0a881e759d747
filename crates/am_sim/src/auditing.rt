ghost use Rattle.std.specs.Prelude.{◌≡◌, ◌≢◌, ◌≤◌, length, List, ℕ, IfOk, IfErr, Err, string_bytes};
ghost use Rattle.am_io.specs.Outside.{ReadToEnd};
ghost use Rattle.am_audit_defs.specs.Lines.{read_text};
ghost use Rattle.am_player.specs.Statuses.{most_input, IfBadScript, Took, Wrote};
ghost use Rattle.am_sim.specs.Simulation.{IsAudited, Audited, HasVerdict, Judges, IfBadText, IsUnaudited};

use am_audit::audit::audit;
use am_audit::fault::TextRefusal;
use am_audit::telling::push_audit;
use am_io::outside::{Sink, Source};
use am_io::whole::{ReadRefusal, read_all, write_all};
use am_player::play::INPUT_MOST;
use am_player::read_input;
use am_player::status::ExitStatus;
use std::alloc::Global;

/// The line of the verdict on a text, and whether that agrees.
fn verdict_line(alloc: Global, bytes: &[u8]) -> Result<(String, bool), TextRefusal>
    requires { length bytes.now ≤ most_input }
    ensures audited { IfOk result (λ x. Audited bytes.now (string_bytes x.0)) }
    ensures verdict { IfOk result (λ x. HasVerdict x.1 bytes.now) }
    ensures refused { IfErr result (λ e. IsUnaudited bytes.now e) }
{
    let found = audit(alloc, bytes)?;
    let mut line = String::new(alloc);
    match push_audit(&mut line, &found) {
        Ok(()) => Ok((line, found.verdict.is_right())),
        Err(_) => Err(TextRefusal::NoMemory),
    }
}

/// Reads a text to its end, and writes the line of its verdict.
#[tactic(auto, using(am_player::proofs::Given::source_gave_whole_within_limit))]
pub fn audit_text<S: Source, K: Sink>(alloc: Global, source: &mut S, sink: &mut K) -> ExitStatus
    ensures not_usage { result ≢ ExitStatus.Usage }
    ensures not_spent { result ≢ ExitStatus.Spent }
    ensures took { Took S.left S.count most_input result source.old source.new }
    ensures no_script { IfBadScript result (λ cause. ⊥) }
    ensures bad_text { IfBadText result (λ line. (bytes : List ℕ)
        × ReadToEnd (S.left source.old) (S.left source.new) bytes × (read_text bytes ≡ Err line)) }
    ensures judges { Judges result (S.left source.old) (S.left source.new) }
    ensures wrote { Wrote K.contents K.count (IsAudited (S.left source.old) (S.left source.new))
        result sink.old sink.new }
{
    let bytes = read_input!(alloc, source, INPUT_MOST);
    let (line, right) = match verdict_line(alloc, bytes.as_slice()) {
        Ok(found) => found,
        Err(TextRefusal::NoMemory) => return ExitStatus::NoMemory,
        Err(TextRefusal::BadLine { line }) => return ExitStatus::BadText { line },
    };
    match write_all(sink, line.as_bytes()) {
        Ok(()) => {
            if right {
                ExitStatus::Done
            } else {
                ExitStatus::Disagrees
            }
        }
        Err(_) => ExitStatus::WriteFault,
    }
}
