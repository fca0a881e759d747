ghost use Rattle.std.specs.Prelude.{◌≡◌, ◌++◌};
ghost use Rattle.std.specs.Fmt.{WritesInCalls};
ghost use Rattle.am_group_defs.specs.Text.{act_word, act_parts, event_text};

use crate::entry::{push_body, push_resilience};
use crate::name::push_name;
use crate::number::push_behind;
use am_base::founding::Founding;
use am_group::event::{Act, Event};
use am_io::writer::Writer;

/// An act's word.
#[tactic(auto, unfolding(am_group_defs::specs::Text::act_word))]
pub fn act_word(act: &Act) -> &'static str
    ensures { result.now ≡ act_word act.now }
{
    match act {
        Act::Send(_) => "send",
        Act::Done(_) => "done",
        Act::Take => "take",
        Act::Join => "join",
        Act::State => "state",
        Act::Leave => "leave",
        Act::Reset { .. } => "reset",
        Act::Ask(_) => "ask",
        Act::GiveUp(_) => "giveup",
        Act::Stop => "stop",
        Act::Tick => "tick",
        Act::Hear(_) => "hear",
        Act::Cut { .. } => "cut",
        Act::Return => "return",
    }
}

// Adds what stands after an act's node, with a blank before each part.
#[tactic(auto, using(am_io::proofs::Writers::two_words_written_in_calls), unfolding(am_group_defs::specs::Text::act_parts))]
fn push_parts<O: Writer>(out: &mut O, founding: &Founding, act: &Act)
    ensures { WritesInCalls O.writes out.old (act_parts founding.now act.now) out.new }
{
    match act {
        Act::Send(body) => {
            out.put(" ");
            push_body(out, body.bytes());
        }
        Act::Reset { least, resilience } => {
            push_behind(out, " ", u64::from(*least));
            push_resilience(out, founding, *resilience);
        }
        Act::GiveUp(name) => {
            out.put(" ");
            push_name(out, *name);
        }
        Act::Done(number) | Act::Ask(number) | Act::Hear(number) => {
            push_behind(out, " ", u64::from(*number));
        }
        Act::Cut { packet, keep } => {
            push_behind(out, " ", u64::from(*packet));
            push_behind(out, " ", u64::from(*keep));
        }
        Act::Take | Act::Join | Act::State | Act::Leave | Act::Stop | Act::Tick | Act::Return => {}
    }
}

/// Adds an event: its act's word, the place of its node, and the rest.
pub fn push_event<O: Writer>(out: &mut O, founding: &Founding, event: &Event)
    ensures { WritesInCalls O.writes out.old (event_text founding.now event.now) out.new }
{
    out.put(act_word(&event.act));
    push_behind(out, " ", u64::from(event.node.place()));
    push_parts(out, founding, &event.act);
}
