ghost use Rattle.std.specs.Prelude.{◌≡◌, ◌++◌};
ghost use Rattle.std.specs.Fmt.{WritesInCalls};
ghost use Rattle.am_group_defs.specs.Text.{outcome_word, numbers_text, outcome_numbers, outcome_parts, outcome_text};
ghost use Rattle.am_report.specs.Outcomes.{outcome_numbers_in};

use crate::entry::push_entry;
use crate::name::{push_name, push_names, push_stamp};
use crate::number::push_behind;
use am_base::founding::Founding;
use am_base::outcome::Outcome;
use am_io::writer::Writer;

/// An outcome's word.
#[tactic(auto, unfolding(am_group_defs::specs::Text::outcome_word))]
pub fn outcome_word(outcome: &Outcome) -> &'static str
    ensures { result.now ≡ outcome_word outcome.now }
{
    match outcome {
        Outcome::Queued { .. } => "queued",
        Outcome::Busy { .. } => "busy",
        Outcome::Pending { .. } => "pending",
        Outcome::Sent { .. } => "sent",
        Outcome::Unknown => "unknown",
        Outcome::Took { .. } => "took",
        Outcome::Empty => "empty",
        Outcome::Asked => "asked",
        Outcome::Joined { .. } => "joined",
        Outcome::Leaving => "leaving",
        Outcome::Departed => "departed",
        Outcome::Stranger => "stranger",
        Outcome::NotMember => "not-member",
        Outcome::Ticked => "ticked",
        Outcome::Idle => "idle",
        Outcome::PutOff { .. } => "put-off",
        Outcome::Numbered { .. } => "numbered",
        Outcome::Again => "again",
        Outcome::Early { .. } => "early",
        Outcome::Held { .. } => "held",
        Outcome::Kept => "kept",
        Outcome::Known => "known",
        Outcome::Stored { .. } => "stored",
        Outcome::Gap { .. } => "gap",
        Outcome::NoBody { .. } => "no-body",
        Outcome::Behind => "behind",
        Outcome::Unfit => "unfit",
        Outcome::Advanced { .. } => "advanced",
        Outcome::Noted => "noted",
        Outcome::Accepted { .. } => "accepted",
        Outcome::Served { .. } => "served",
        Outcome::Welcomed { .. } => "welcomed",
        Outcome::LetGo { .. } => "let-go",
        Outcome::Elsewhere => "elsewhere",
        Outcome::Refused { .. } => "refused",
        Outcome::Voted => "voted",
        Outcome::Newer { .. } => "newer",
        Outcome::Catching { .. } => "catching",
        Outcome::Waiting { .. } => "waiting",
        Outcome::Fetching { .. } => "fetching",
        Outcome::TooFew { .. } => "too-few",
        Outcome::Crowded { .. } => "crowded",
        Outcome::Overtaken { .. } => "overtaken",
        Outcome::NotIn { .. } => "not-in",
        Outcome::Decided { .. } => "decided",
        Outcome::NotCoordinator => "not-coordinator",
        Outcome::Stopped => "stopped",
        Outcome::NoPacket => "no-packet",
        Outcome::NotAddressed => "not-addressed",
        Outcome::IsStopped => "is-stopped",
        Outcome::NotStopped => "not-stopped",
        Outcome::Occupied { .. } => "occupied",
        Outcome::Running { .. } => "running",
        Outcome::NoLife => "no-life",
        Outcome::Returned { .. } => "returned",
    }
}

/// The numbers of an outcome, in order.
enum OutcomeNumbers {
    Nothing,
    One(u32),
    Two(u32, u32),
    Three(u32, u32, u32),
}

// The numbers of an outcome that has nothing but numbers.
#[tactic(auto, unfolding(crate::specs::Outcomes::outcome_numbers_in))]
fn numbers_of(outcome: &Outcome) -> OutcomeNumbers
    ensures { outcome_numbers_in result ≡ outcome_numbers outcome.now }
{
    match outcome {
        Outcome::Queued { req: number }
        | Outcome::Pending { req: number }
        | Outcome::Joined { number }
        | Outcome::Numbered { number }
        | Outcome::Early { last: number }
        | Outcome::Stored { number }
        | Outcome::Gap { want: number }
        | Outcome::Advanced { acc: number }
        | Outcome::Accepted { acc: number }
        | Outcome::Served { count: number }
        | Outcome::Welcomed { number }
        | Outcome::LetGo { number }
        | Outcome::Catching { want: number } => OutcomeNumbers::One(*number),
        Outcome::Busy { queued: number }
        | Outcome::Refused { cause: number }
        | Outcome::Running { life: number }
        | Outcome::Returned { life: number } => OutcomeNumbers::One(u32::from(*number)),
        Outcome::Sent {
            req: first,
            number: second,
        }
        | Outcome::Held {
            base: first,
            top: second,
        }
        | Outcome::TooFew {
            got: first,
            least: second,
        }
        | Outcome::Crowded {
            base: first,
            top: second,
        } => OutcomeNumbers::Two(*first, *second),
        Outcome::PutOff { req, base, top } => OutcomeNumbers::Three(*req, *base, *top),
        _ => OutcomeNumbers::Nothing,
    }
}

// Adds the numbers of an outcome that has nothing but numbers, with a blank before each.
#[tactic(auto, unfolding(crate::specs::Outcomes::outcome_numbers_in))]
fn push_numbers<O: Writer>(out: &mut O, outcome: &Outcome)
    ensures { WritesInCalls O.writes out.old (numbers_text (outcome_numbers outcome.now)) out.new }
{
    match numbers_of(outcome) {
        OutcomeNumbers::Nothing => {}
        OutcomeNumbers::One(first) => push_behind(out, " ", u64::from(first)),
        OutcomeNumbers::Two(first, second) => {
            push_behind(out, " ", u64::from(first));
            push_behind(out, " ", u64::from(second));
        }
        OutcomeNumbers::Three(first, second, third) => {
            push_behind(out, " ", u64::from(first));
            push_behind(out, " ", u64::from(second));
            push_behind(out, " ", u64::from(third));
        }
    }
}

// Adds what stands after an outcome's word, with a blank before each part.
#[tactic(auto, using(am_io::proofs::Writers::two_words_written_in_calls, am_io::proofs::Writers::three_words_written_in_calls), unfolding(am_group_defs::specs::Text::outcome_parts))]
fn push_parts<O: Writer>(out: &mut O, founding: &Founding, outcome: &Outcome)
    ensures { WritesInCalls O.writes out.old (outcome_parts founding.now outcome.now) out.new }
{
    match outcome {
        Outcome::Took { number, entry } => {
            push_behind(out, " ", u64::from(*number));
            out.put(" ");
            push_entry(out, founding, &entry.as_ref());
        }
        Outcome::NoBody { from, req: number } | Outcome::Fetching { from, want: number } => {
            out.put(" ");
            push_name(out, *from);
            push_behind(out, " ", u64::from(*number));
        }
        Outcome::Newer { promise: stamp }
        | Outcome::Overtaken { by: stamp }
        | Outcome::NotIn { best: stamp } => {
            out.put(" ");
            push_stamp(out, *stamp);
        }
        Outcome::Waiting { names } => {
            out.put(" ");
            push_names(out, *names);
        }
        Outcome::Decided { number, members } => {
            push_behind(out, " ", u64::from(*number));
            out.put(" ");
            push_names(out, *members);
        }
        Outcome::Occupied { name } => {
            out.put(" ");
            push_name(out, *name);
        }
        _ => push_numbers(out, outcome),
    }
}

/// Adds an outcome: its word and its parts.
pub fn push_outcome<O: Writer>(out: &mut O, founding: &Founding, outcome: &Outcome)
    ensures { WritesInCalls O.writes out.old (outcome_text founding.now outcome.now) out.new }
{
    out.put(outcome_word(outcome));
    push_parts(out, founding, outcome);
}
