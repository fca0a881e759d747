ghost use Rattle.std.specs.Prelude.{◌≢◌};
ghost use Rattle.am_service_defs.specs.Parts.{most_bytes_of_message};
ghost use Rattle.am_services.specs.Texts.{parts_text};
ghost use Rattle.am_player.specs.Statuses.{IfBadScript, IsOfAudit, Took, Wrote};
ghost use Rattle.am_sim.specs.Simulation.{IsParted};

use am_io::outside::{Sink, Source};
use am_io::whole::{ReadRefusal, read_all, write_all};
use am_long_messages::parts::MOST_MESSAGE;
use am_player::read_input;
use am_player::status::ExitStatus;
use am_services::messages::parts_text;
use std::alloc::Global;

/// Reads a message to its end, and writes its parts, a line each.
#[tactic(auto, using(am_player::proofs::Given::source_gave_whole_within_limit))]
pub fn write_parts<S: Source, K: Sink>(alloc: Global, source: &mut S, sink: &mut K) -> ExitStatus
    ensures not_usage { result ≢ ExitStatus.Usage }
    ensures not_spent { result ≢ ExitStatus.Spent }
    ensures not_of_audit { IsOfAudit result → ⊥ }
    ensures took { Took S.left S.count most_bytes_of_message result source.old source.new }
    ensures no_script { IfBadScript result (λ cause. ⊥) }
    ensures wrote { Wrote K.contents K.count (IsParted (S.left source.old) (S.left source.new))
        result sink.old sink.new }
{
    let bytes = read_input!(alloc, source, MOST_MESSAGE as u32);
    let Ok(text) = parts_text(alloc, bytes.as_slice()) else {
        return ExitStatus::NoMemory;
    };
    match write_all(sink, text.as_bytes()) {
        Ok(()) => ExitStatus::Done,
        Err(_) => ExitStatus::WriteFault,
    }
}
