ghost use Rattle.std.specs.Prelude.{◌≡◌, Some, None, IfSome, false, option_map};
ghost use Rattle.am_node_parts.specs.Prelude.{StampIsInRange, stamp_is_less, IsOwnBallot, node_of};
ghost use Rattle.am_ballots.specs.Kept.{ballot_of};
ghost use Rattle.am_model.specs.Ballots.{node_with_promise, overtake_lower_ballot};

use crate::stamps::is_same;
use am_ballots::ballot::Ballot;
use am_base::name::Stamp;
use am_node_parts::parts::Parts;
use am_node_storage::history::History;
use am_node_storage::state::Core;

/// An unfinished ballot of a lower stamp is overtaken.
fn overtake(ballot: &mut Option<Ballot>, by: &Stamp)
    ensures { option_map ballot_of ballot.new ≡ overtake_lower_ballot by.now (option_map ballot_of ballot.old) }
{
    if let Some(ballot) = ballot {
        ballot.overtake(Stamp {
            round: by.round,
            by: by.by,
        });
    }
}

/// The promise is this stamp.
fn raise(core: &mut Core<History>, stamp: Stamp)
    requires { StampIsInRange stamp }
    ensures { core.new ≡ record core.old { promise = stamp } }
{
    core.promise = stamp;
}

/// The promise becomes this stamp; an unfinished ballot of a lower one is overtaken.
pub fn raise_promise(parts: &mut Parts, stamp: Stamp)
    requires within { StampIsInRange stamp }
    requires higher { stamp_is_less stamp parts.old.core.promise ≡ false }
    ensures { node_of parts.new ≡ node_with_promise (node_of parts.old) stamp }
{
    if is_same(&stamp, &parts.promise()) {
        return;
    }
    overtake(&mut parts.ballot, &stamp);
    raise(&mut parts.core, stamp);
}

/// Takes the ballot out of the parts.
pub fn take_ballot(parts: &mut Parts) -> Option<Ballot>
    ensures ballot { option_map ballot_of result ≡ (node_of parts.old).ballot }
    ensures rest { node_of parts.new ≡ record (node_of parts.old) { ballot = None } }
    ensures own { IfSome (option_map ballot_of result) (λ b. IsOwnBallot (node_of parts.new) b) }
{
    parts.ballot.take()
}

/// Puts a ballot back.
pub fn put_back(parts: &mut Parts, ballot: Ballot)
    requires { IsOwnBallot (node_of parts.old) (ballot_of ballot) }
    ensures { node_of parts.new ≡ record (node_of parts.old) { ballot = Some (ballot_of ballot) } }
{
    parts.ballot = Some(ballot);
}
