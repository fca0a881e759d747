ghost use Rattle.std.specs.Prelude.{◌≡◌, ◌≤◌, length, []};
ghost use Rattle.am_node_parts.specs.Prelude.{Node, node_of};
ghost use Rattle.am_model.specs.Emit.{Plan, finish};
ghost use Rattle.am_model.specs.Ends as ends;
ghost use Rattle.am_node_parts.specs.Replies.{letters_before_end, outcome_of_answer, is_departure, EndsOrDeparts, StandsAtEnd, MayEnd, Replies};

use crate::accepting::tell_accepted;
use crate::departing::depart;
use crate::going::may_go;
use crate::letters::tell;
use crate::owning::hand_out;
use crate::serving::serve;
use am_base::outcome::Outcome;
use am_node_parts::parts::Parts;
use am_node_parts::reply::{Reply, StepAnswer, Telling};
use am_packet_writer::out_box::OutBox;

/// The answer, with the values that stand now.
fn answer(parts: &Parts, answer: StepAnswer) -> Outcome
    ensures { result ≡ outcome_of_answer answer (node_of parts.now) }
{
    match answer {
        StepAnswer::Is(outcome) => outcome,
        StepAnswer::Advanced { since } => {
            let acc = parts.core.acc;
            if since < acc {
                return Outcome::Advanced { acc };
            }
            Outcome::Known
        }
        StepAnswer::LetGo { to, number } => {
            if may_go(parts, to) {
                return Outcome::LetGo { number };
            }
            Outcome::Again
        }
        StepAnswer::Accepted { since } => {
            let acc = parts.core.acc;
            if since < acc {
                return Outcome::Accepted { acc };
            }
            Outcome::Noted
        }
    }
}

/// The end of a step, with what goes out first where that stands before it.
fn end(parts: &mut Parts, first: &Telling, out: &mut OutBox)
    requires empty { out.old ≡ [] }
    requires there { StandsAtEnd first.now (node_of parts.old) }
    ensures ended { EndsOrDeparts (is_departure first.now) (node_of parts.old) (node_of parts.new) }
    ensures letters { out.new ≡ letters_before_end (node_of parts.old) first.now (node_of parts.new) }
    ensures few { length out.new ≤ 8 }
{
    match first {
        Telling::Entries { to, stored, pieces } => serve(parts, *to, *stored, *pieces, out),
        Telling::Own { to, letter } => hand_out(parts, *to, *letter, out),
        Telling::Departs => depart(parts),
        _ => parts.end(),
    }
}

/// Ends the step of a row that says this, before which so much was accepted: the node takes in what it knows by now, answers,
/// and puts out its letters. The sequencer tells the other members what is accepted, where that rose and nothing else tells it,
/// or it polls them. The out box must be empty.
pub fn finish(parts: &mut Parts, before: u32, reply: Reply, out: &mut OutBox) -> Outcome
    requires empty { out.old ≡ [] }
    requires may { MayEnd reply (node_of parts.old) }
    ensures { (m : Node) (p : Plan) → m.core.acc ≡ before → Replies p reply.entry (node_of parts.old)
        → ends.StepComesTo (finish m p) result out.new (node_of parts.new) }
{
    let _before = parts.accept_front(); // for its order
    end(parts, &reply.first, out);
    let _after = parts.accept_front(); // for its order
    let outcome = answer(parts, reply.answer);
    tell(parts, &outcome, &reply.first, out);
    tell(parts, &outcome, &reply.second, out);
    tell_accepted(parts, before, reply.polls, reply.numbers, out);
    outcome
}
