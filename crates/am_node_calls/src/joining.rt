ghost use Rattle.std.specs.Prelude.{◌≡◌, ◌==◌, ◌<◌, if◌then◌else◌, IfSome, IfNone};
ghost use Rattle.am_node_parts.specs.Prelude.{node_of};
ghost use Rattle.am_node_parts.specs.Replies.{Replies};
ghost use Rattle.am_base.specs.Names.{list_by_place};
ghost use Rattle.am_model.specs.Calls.{first_lives_of_other_places, ask_to_join, join_row, state_row};
ghost use Rattle.am_model.specs.declared.status.Status.TheVariants as status;
ghost use Rattle.am_model.specs.Emit.{plan_without_letters};

use am_base::name::Name;
use am_base::names::Names;
use am_base::outcome::Outcome;
use am_model::status::Status;
use am_node_parts::parts::Parts;
use am_node_parts::reply::{Note, Reply, Telling, quiet, saying};

/// Life 1 of all places but one.
#[tactic(auto, using(crate::proofs::Lives::life_one_of_others))]
fn all_but(own: u8) -> Names
    requires { own < 16 }
    ensures { result ≡ list_by_place (λ place. if place == own then 0 else 1) }
{
    let mut lives = [1; 16];
    lives[usize::from(own)] = 0;
    Names::of_lives(lives)
}

/// Life 1 of the fifteen other places.
#[tactic(auto, unfolding(am_model::specs::Calls::first_lives_of_other_places))]
fn everywhere_else(parts: &Parts) -> Names
    ensures { result ≡ first_lives_of_other_places (node_of parts.now) }
{
    all_but(parts.core.who.place())
}

/// Asks everybody else to be let in.
pub fn ask_to_join<'a>(parts: &Parts, answer: Outcome) -> Reply<'a>
    ensures { Replies (ask_to_join (node_of parts.now) answer) result (node_of parts.now) }
{
    let ask = Telling::Note {
        to: everywhere_else(parts),
        note: Note::JoinAsk,
    };
    saying(answer, ask)
}

/// What a node is told that would join; None where it can ask.
#[tactic(auto, unfolding(am_model::specs::Calls::join_row))]
fn join_answer(parts: &Parts) -> Option<Outcome>
    ensures told { IfSome result (λ answer. join_row (node_of parts.now)
        ≡ plan_without_letters (node_of parts.now) answer) }
    ensures asks { IfNone result (parts.now.status ≡ status.Stranger) }
{
    match parts.status() {
        Status::Stranger => None,
        Status::Asking => Some(Outcome::Asked),
        Status::Member => Some(Outcome::Joined {
            number: parts.start(),
        }),
        Status::Departed => Some(Outcome::NotMember),
    }
}

/// The application would join (docs/PROTOCOL.md, "Calls"). A Stranger asks: Asked. Asked again; Joined with its number;
/// NotMember once it has departed.
pub fn on_join<'a>(parts: &mut Parts) -> Reply<'a>
    ensures { Replies (join_row (node_of parts.old)) result (node_of parts.new) }
{
    match join_answer(parts) {
        Some(answer) => quiet(answer),
        None => {
            parts.set_status(Status::Asking);
            ask_to_join(parts, Outcome::Asked)
        }
    }
}

/// How the node stands to its group.
#[tactic(auto, unfolding(am_model::specs::Calls::state_row))]
fn standing(parts: &Parts) -> Outcome
    ensures { state_row (node_of parts.now) ≡ plan_without_letters (node_of parts.now) result }
{
    match parts.status() {
        Status::Stranger => Outcome::Stranger,
        Status::Asking => Outcome::Asked,
        Status::Member => {
            if parts.is_leaving() {
                return Outcome::Leaving;
            }
            Outcome::Joined {
                number: parts.start(),
            }
        }
        Status::Departed => Outcome::Departed,
    }
}

/// The application asks how the node stands to its group: Stranger, Asked, Leaving, Joined with its number, or Departed.
pub fn on_state<'a>(parts: &Parts) -> Reply<'a>
    ensures { Replies (state_row (node_of parts.now)) result (node_of parts.now) }
{
    quiet(standing(parts))
}
