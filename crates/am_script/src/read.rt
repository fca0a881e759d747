ghost use Rattle.std.specs.Prelude.{◌≡◌, ◌≢◌, ◌<◌, length, Ok, Err, IfOk, IfErr};
ghost use Rattle.am_script_defs.specs.Refusals.{Answers};
ghost use Rattle.am_script_defs.specs.Limits.{ScriptWithin};
ghost use Rattle.am_script.specs.Seen.{seen};
ghost use Rattle.am_script_defs.specs.Scripts.{document_from, script_reading};

use crate::document::document;
use crate::fields::behind;
use crate::play::play;
use am_script_defs::key::ScriptKey;
use am_script_defs::refusal::{Read, ScriptRefusal};
use am_script_defs::script::Script;
use json::{Scratch, Value};
use std::alloc::Global;

/// The script of a document.
#[tactic(auto, unfolding(am_script_defs::specs::Scripts::document_from))]
fn script_in(alloc: Global, value: &Value) -> Read<Script>
    ensures { Answers (document_from (seen value.now)) result }
{
    let inner = behind(ScriptKey::Play, value)?;
    play(alloc, inner)
}

/// Reads a script (docs/PROTOCOL.md, "Scripts"). A refusal but NoMemory is the first cause that the bytes are none. It may have any
/// number of events.
#[tactic(auto, using(am_script_defs::proofs::Answered::answered_script_is_within), unfolding(am_script_defs::specs::Scripts::script_reading))]
pub fn read_script(alloc: Global, bytes: &[u8]) -> Result<Script, ScriptRefusal>
    ensures ok { IfOk result (λ script. script_reading bytes.now ≡ Ok script) }
    ensures within { IfOk result ScriptWithin }
    ensures refused { IfErr result (λ e. e ≢ ScriptRefusal.NoMemory → script_reading bytes.now ≡ Err e) }
    ensures memory { IfErr result (λ e. e ≡ ScriptRefusal.NoMemory → 0 < length bytes.now) }
{
    let mut scratch = Scratch::new(alloc);
    let value = document(alloc, bytes, &mut scratch)?;
    script_in(alloc, &value)
}
