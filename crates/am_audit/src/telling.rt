#![tactic(auto, unfolding(am_audit_defs::specs::Verdicts::verdict_text, am_audit_defs::specs::Verdicts::verdict_line))]

ghost use Rattle.std.specs.Prelude.{◌≡◌, ◌++◌, OnOk, string_bytes};
ghost use Rattle.am_audit_defs.specs.declared.verdict.Verdict.TheVariants as verdicts;
ghost use Rattle.am_audit_defs.specs.Verdicts.{named, verdict_text, void_text, verdict_line};

use am_audit_defs::verdict::{Audit, Verdict};
use am_base::NoMemory;
use am_base::name::Name;
use am_text_output::text::push_name;

/// Adds a word, a name and a number.
fn push_named(out: &mut String, word: &str, name: Name, number: u32) -> Result<(), NoMemory>
    ensures { OnOk result (string_bytes out.new
        ≡ string_bytes out.old ++ named word.now name number) }
{
    out.push_str(word)?;
    out.push_str(" ")?;
    push_name(out, name)?;
    write!(out, " {number}")
}

/// Adds two names and a number.
fn push_differs(out: &mut String, node_a: Name, node_b: Name, number: u32) -> Result<(), NoMemory>
    ensures { OnOk result (string_bytes out.new
        ≡ string_bytes out.old ++ verdict_text (verdicts.Differs node_a node_b number)) }
{
    out.push_str("differs ")?;
    push_name(out, node_a)?;
    out.push_str(" ")?;
    push_name(out, node_b)?;
    write!(out, " {number}")
}

/// Adds a verdict.
pub fn push_verdict(out: &mut String, verdict: Verdict) -> Result<(), NoMemory>
    ensures { OnOk result (string_bytes out.new ≡ string_bytes out.old ++ verdict_text verdict) }
{
    match verdict {
        Verdict::Gap { node, number } => push_named(out, "gap", node, number),
        Verdict::Differs {
            node_a,
            node_b,
            number,
        } => push_differs(out, node_a, node_b, number),
        Verdict::Twice { from, req } => push_named(out, "twice", from, req),
        Verdict::Astray { node, number } => push_named(out, "astray", node, number),
        Verdict::Lost { node, req } => push_named(out, "lost", node, req),
        Verdict::Early { node, number } => push_named(out, "early", node, number),
        Verdict::Misfit { number } => write!(out, "misfit {number}"),
        Verdict::ListsAgree => out.push_str("lists-agree"),
        Verdict::Skipped { node, req } => push_named(out, "skipped", node, req),
        Verdict::Unsent { from, req } => push_named(out, "unsent", from, req),
        Verdict::Unlogged { node, number } => push_named(out, "unlogged", node, number),
        Verdict::Untaken { node, number } => push_named(out, "untaken", node, number),
        Verdict::Agrees => out.push_str("agrees"),
    }
}

/// Adds from which event on the run is void, where it is.
fn push_void(out: &mut String, void_from: Option<u32>) -> Result<(), NoMemory>
    ensures { OnOk result (string_bytes out.new ≡ string_bytes out.old ++ void_text void_from) }
{
    match void_from {
        Some(number) => write!(out, " void from {number}"),
        None => Ok(()),
    }
}

/// Adds the line of an audit.
pub fn push_audit(out: &mut String, audit: &Audit) -> Result<(), NoMemory>
    ensures { OnOk result (string_bytes out.new
        ≡ string_bytes out.old ++ verdict_line audit.now.verdict audit.now.void_from) }
{
    push_verdict(out, audit.verdict)?;
    push_void(out, audit.void_from)?;
    out.push_str("\n")
}
