ghost use Rattle.std.specs.Prelude.{◌≡◌, ◌<◌, length, IfOk, IfErr};
ghost use Rattle.am_script_defs.specs.Refusals.{Answers};
ghost use Rattle.am_script_defs.specs.RaceLimits.{RaceWithin};
ghost use Rattle.am_script_defs.specs.Races.{race_document_from, race_reading};
ghost use Rattle.am_script.specs.Seen.{seen};

use crate::race::race;
use am_group::plan::RacePlan;
use am_script::document::document;
use am_script::fields::behind;
use am_script_defs::key::ScriptKey;
use am_script_defs::refusal::{Read, ScriptRefusal};
use json::{Scratch, Value};
use std::alloc::Global;

/// The race of a document.
#[tactic(auto, unfolding(am_script_defs::specs::Races::race_document_from))]
fn race_in(alloc: Global, value: &Value) -> Read<RacePlan>
    ensures { Answers (race_document_from (seen value.now)) result }
{
    race(alloc, behind(ScriptKey::Race, value)?)
}

/// Reads a race (docs/PROTOCOL.md, "Scripts"): threads with the calls that each makes, within the limits of docs/PROTOCOL.md ("Limits"). A
/// refusal but NoMemory is the first cause that the bytes are none.
#[tactic(auto, using(am_script_defs::proofs::RaceLimits::answered_race_is_within), unfolding(am_script_defs::specs::Races::race_reading))]
pub fn read_race(alloc: Global, bytes: &[u8]) -> Result<RacePlan, ScriptRefusal>
    ensures answers { Answers (race_reading bytes.now) result }
    ensures within { IfOk result RaceWithin }
    ensures memory { IfErr result (λ e. e ≡ ScriptRefusal.NoMemory → 0 < length bytes.now) }
{
    let mut scratch = Scratch::new(alloc);
    let value = document(alloc, bytes, &mut scratch)?;
    race_in(alloc, &value)
}
