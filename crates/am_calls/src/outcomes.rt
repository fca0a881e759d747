ghost use Rattle.std.specs.Prelude.{◌≡◌, unwrap_or};
ghost use Rattle.am_race_laws.specs.Answers.{refusal, ballot_answer, join_answer, leave_answer, left_answer, send_answer, take_answer, stop_answer, own_answer, end_answer, queued_request, sent_request, put_off_in, late_after, is_take};
ghost use Rattle.am_race_laws.specs.Going.{request_in_call, told_at_end};

use am_base::outcome::Outcome;
use am_group::event::Act;
use am_race_laws::answer::CallAnswer;
use am_race_laws::call::Came;

/// Whether a call is a receive, which makes its act at its end.
pub fn is_take(act: &Act) -> bool
    ensures { result ≡ is_take act.now }
{
    matches!(act, Act::Take)
}

/// The request of a send that was queued, and else 0.
pub fn request_in(outcome: &Outcome) -> u32
    ensures { result ≡ sent_request outcome.now }
{
    match outcome {
        Outcome::Queued { req } => *req,
        _ => 0,
    }
}

/// The request of a send that was queued.
fn queued_request(outcome: &Outcome) -> Option<u32>
    ensures { result ≡ queued_request outcome.now }
{
    match outcome {
        Outcome::Queued { req } => Some(*req),
        _ => None,
    }
}

/// What an outcome that refuses a call answers.
fn refusal(outcome: &Outcome) -> Option<CallAnswer>
    ensures { result ≡ refusal outcome.now }
{
    match outcome {
        Outcome::NotMember => Some(CallAnswer::NotMember),
        Outcome::Leaving => Some(CallAnswer::Leaving),
        _ => None,
    }
}

/// What an outcome answers a call to reset; None where its ballot isn't over.
pub fn ballot_answer(outcome: &Outcome) -> Option<CallAnswer>
    ensures { result ≡ ballot_answer outcome.now }
{
    match outcome {
        Outcome::Decided { number, members } => Some(CallAnswer::Decided {
            number: *number,
            members: *members,
        }),
        Outcome::TooFew { got, least } => Some(CallAnswer::TooFew {
            got: *got,
            least: *least,
        }),
        Outcome::Crowded { base, top } => Some(CallAnswer::Crowded {
            base: *base,
            top: *top,
        }),
        Outcome::Overtaken { by } => Some(CallAnswer::Overtaken { by: *by }),
        Outcome::NotIn { best } => Some(CallAnswer::NotIn { best: *best }),
        _ => refusal(outcome),
    }
}

fn join_answer(outcome: &Outcome) -> Option<CallAnswer>
    ensures { result ≡ join_answer outcome.now }
{
    match outcome {
        Outcome::Joined { number } => Some(CallAnswer::Joined { number: *number }),
        Outcome::Departed => Some(CallAnswer::NotMember),
        _ => refusal(outcome),
    }
}

fn leave_answer(outcome: &Outcome) -> Option<CallAnswer>
    ensures { result ≡ leave_answer outcome.now }
{
    match outcome {
        Outcome::Departed => Some(CallAnswer::Left),
        Outcome::Busy { queued } => Some(CallAnswer::Busy { queued: *queued }),
        _ => refusal(outcome),
    }
}

/// That a leave goes on is no answer at its check.
fn left_answer(outcome: &Outcome) -> Option<CallAnswer>
    ensures { result ≡ left_answer outcome.now }
{
    if let Outcome::Leaving = outcome {
        return None;
    }
    leave_answer(outcome)
}

fn send_answer(outcome: &Outcome) -> Option<CallAnswer>
    ensures { result ≡ send_answer outcome.now }
{
    match outcome {
        Outcome::Sent { req, number } => Some(CallAnswer::Sent {
            req: *req,
            number: *number,
        }),
        Outcome::Busy { queued } => Some(CallAnswer::Busy { queued: *queued }),
        _ => refusal(outcome),
    }
}

fn take_answer(outcome: &Outcome) -> Option<CallAnswer>
    ensures { result ≡ take_answer outcome.now }
{
    match outcome {
        Outcome::Took { number, entry } => Some(CallAnswer::Took {
            number: *number,
            entry: entry.as_ref().to_entry(),
        }),
        Outcome::NotMember => Some(CallAnswer::NotMember),
        _ => None,
    }
}

fn stop_answer(outcome: &Outcome) -> Option<CallAnswer>
    ensures { result ≡ stop_answer outcome.now }
{
    match outcome {
        Outcome::Stopped => Some(CallAnswer::StopDone),
        _ => None,
    }
}

/// What the outcome of a call's own act answers; None where the call goes on.
#[tactic(auto, unfolding(am_race_laws::specs::Answers::own_answer))]
pub fn own_answer(act: &Act, outcome: &Outcome) -> Option<CallAnswer>
    ensures { result ≡ own_answer act.now outcome.now }
{
    match act {
        Act::Send(_) => send_answer(outcome),
        Act::Take => take_answer(outcome),
        Act::Join => join_answer(outcome),
        Act::Leave => leave_answer(outcome),
        Act::Reset { .. } => ballot_answer(outcome),
        Act::Stop => stop_answer(outcome),
        _ => None,
    }
}

/// What the outcome of the check at a call's end answers; None where it tells none.
#[tactic(auto, unfolding(am_race_laws::specs::Answers::own_answer, am_race_laws::specs::Answers::end_answer))]
pub fn end_answer(act: &Act, outcome: &Outcome) -> Option<CallAnswer>
    ensures { result ≡ end_answer act.now outcome.now }
{
    match act {
        Act::Leave => left_answer(outcome),
        Act::Send(_) | Act::Join | Act::Reset { .. } => own_answer(act, outcome),
        _ => None,
    }
}

/// The request of a call that goes on, by what came of its own act: of a send that was queued.
pub fn request_in_call(act: &Act, came: &Option<Came>) -> Option<u32>
    ensures { result ≡ request_in_call act.now came.now }
{
    match (act, came) {
        (Act::Send(_), Some(came)) => queued_request(&came.outcome),
        _ => None,
    }
}

/// Where the sequencer had no room for a request.
fn put_off_in(request: Option<u32>, outcome: &Outcome) -> Option<CallAnswer>
    ensures { result ≡ put_off_in request outcome.now }
{
    match (request, outcome) {
        (
            Some(req),
            Outcome::PutOff {
                req: its,
                base,
                top,
            },
        ) if *its == req => {
            Some(CallAnswer::PutOff {
                req,
                base: *base,
                top: *top,
            })
        }
        _ => None,
    }
}

/// What a call that used its turns answers, after one record more.
pub fn late_after(request: Option<u32>, late: CallAnswer, outcome: &Outcome) -> CallAnswer
    ensures { result ≡ late_after request late outcome.now }
{
    put_off_in(request, outcome).unwrap_or(late)
}

/// What the outcome of a call's end answers; None where it tells none.
fn told_at_end(act: &Act, outcome: &Outcome) -> Option<CallAnswer>
    ensures { result ≡ told_at_end act.now outcome.now }
{
    if is_take(act) {
        return own_answer(act, outcome);
    }
    end_answer(act, outcome)
}

/// What a call answers at its end, which is late where that tells nothing.
pub fn answer_at_end(
    act: &Act,
    request: Option<u32>,
    outcome: &Outcome,
    late: CallAnswer,
) -> CallAnswer
    ensures { result ≡ unwrap_or (told_at_end act.now outcome.now)
        (late_after request late outcome.now) }
{
    told_at_end(act, outcome).unwrap_or(late_after(request, late, outcome))
}
