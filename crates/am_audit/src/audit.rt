ghost use Rattle.std.specs.Prelude.{◌≡◌, ◌<◌, ◌≤◌, length, IfOk, [], None};
ghost use Rattle.am_base.specs.Lists.{blank};
ghost use Rattle.am_audit_defs.specs.Lines.{Reading, read_text};
ghost use Rattle.am_audit_defs.specs.Verdicts.{wrong_lists, wrong_events, verdict_of, first_fault, first_astray};
ghost use Rattle.am_audit.specs.Views.{reading_told, lines_in, texts_in, Audits};

use crate::fault::TextRefusal;
use crate::faults::first_fault;
use crate::fitting::first_misfit;
use crate::lists::{first_astray, first_early, first_lost};
use crate::reading::Lines;
use crate::sends::{first_skipped, first_unsent};
use crate::takes::{first_unlogged, first_untaken};
use crate::text::read_text;
use am_audit_defs::verdict::{Audit, Verdict};
use am_base::NoMemory;
use std::alloc::Global;

/// What is wrong with the list and the logs.
#[tactic(auto, unfolding(am_audit_defs::specs::Verdicts::wrong_lists))]
fn wrong_lists(alloc: Global, lines: &Lines) -> Result<Option<Verdict>, NoMemory>
    ensures { IfOk result (λ found. found ≡ wrong_lists (reading_told lines.now)) }
{
    match first_fault(alloc, &lines.logs)? {
        Some(fault) => return Ok(Some(fault)),
        None => {}
    }
    match first_astray(&lines.group, &lines.logs) {
        Some(astray) => return Ok(Some(astray)),
        None => {}
    }
    match first_lost(alloc, &lines.group, &lines.answers)? {
        Some(lost) => return Ok(Some(lost)),
        None => {}
    }
    match first_early(&lines.logs) {
        Some(early) => return Ok(Some(early)),
        None => {}
    }
    Ok(first_misfit(&lines.group))
}

/// What is wrong with the events, where the list and the logs are right.
#[tactic(auto, unfolding(am_audit_defs::specs::Verdicts::wrong_events))]
fn wrong_events(alloc: Global, lines: &Lines) -> Result<Option<Verdict>, NoMemory>
    requires faultless { first_fault [] (lines_in lines.now.logs.items) ≡ None }
    requires listed { first_astray (texts_in lines.now.group.items)
        (lines_in lines.now.logs.items) ≡ None }
    ensures { IfOk result (λ found. found ≡ wrong_events (reading_told lines.now)) }
{
    match first_skipped(&lines.sends) {
        Some(skipped) => return Ok(Some(skipped)),
        None => {}
    }
    match first_unsent(alloc, &lines.sends, &lines.group)? {
        Some(unsent) => return Ok(Some(unsent)),
        None => {}
    }
    match first_unlogged(&lines.group, &lines.logs, &lines.takes) {
        Some(unlogged) => return Ok(Some(unlogged)),
        None => {}
    }
    Ok(first_untaken(&lines.takes, &lines.logs))
}

/// The verdict on what was read.
#[tactic(auto, unfolding(am_audit_defs::specs::Verdicts::verdict_of))]
fn verdict_of(alloc: Global, lines: &Lines) -> Result<Verdict, NoMemory>
    ensures { IfOk result (λ verdict. verdict ≡ verdict_of (reading_told lines.now)) }
{
    let wrong = wrong_lists(alloc, lines)?;
    match wrong {
        Some(wrong) => return Ok(wrong),
        None => {}
    }
    if lines.events == 0 {
        return Ok(Verdict::ListsAgree);
    }
    match wrong_events(alloc, lines)? {
        Some(wrong) => Ok(wrong),
        None => Ok(Verdict::Agrees),
    }
}

/// Audits a text: its verdict, or its first bad line.
pub fn audit(alloc: Global, text: &[u8]) -> Result<Audit, TextRefusal>
    requires few { length text.now < 4294967290 }
    ensures { Audits result (read_text text.now) }
{
    let lines = read_text(alloc, text)?;
    match verdict_of(alloc, &lines) {
        Ok(verdict) => Ok(Audit {
            verdict,
            void_from: lines.void_from,
        }),
        Err(_) => Err(TextRefusal::NoMemory),
    }
}
