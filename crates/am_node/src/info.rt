ghost use Rattle.std.specs.Prelude.{◌≡◌, option_map};
ghost use Rattle.am_node_parts.specs.Prelude.{node_of};
ghost use Rattle.am_ballots.specs.Kept.{ballot_of};
ghost use Rattle.am_model.specs.Info.{role_by_status, role_of_node, info_of_node, names_waited_for_by_outcome, names_waited_for, end_of_ballot, end_of_ballot_of_round};

use am_ballots::ballot::Ballot;
use am_base::names::Names;
use am_base::outcome::Outcome;
use am_model::info::{BallotEnd, Info, Role};
use am_model::status::Status;
use am_node_parts::parts::Parts;
use am_node_storage::log::Log;

/// The role that a status gives to who leads nothing.
fn role_by(status: Status) -> Role
    ensures { result ≡ role_by_status status }
{
    match status {
        Status::Stranger => Role::Stranger,
        Status::Asking => Role::Asking,
        Status::Member => Role::Member,
        Status::Departed => Role::Departed,
    }
}

/// The role of a node: that of its unfinished ballot, that of its own view, or that of its status.
fn role_of(parts: &Parts) -> Role
    ensures { result ≡ role_of_node (node_of parts.now) }
{
    if let Some(ballot) = &parts.ballot {
        if !ballot.is_over() {
            return Role::Coordinator;
        }
    }
    if parts.is_sequencer() {
        return Role::Sequencer;
    }
    role_by(parts.status)
}

/// What a node knows of itself and of its group.
pub fn info_of(parts: &Parts) -> Info
    ensures { result ≡ info_of_node (node_of parts.now) }
{
    let log = &parts.core.log;
    Info {
        role: role_of(parts),
        view: log.view(),
        members: log.members_after(log.top()),
        base: log.base(),
        taken: parts.core.taken,
        accepted: parts.core.acc,
        top: log.top(),
        promise: parts.core.promise,
    }
}

/// The names whose votes a ballot waits for that was last answered this.
fn waited_in(answer: &Outcome) -> Names
    ensures { result ≡ names_waited_for_by_outcome answer.now }
{
    match answer {
        Outcome::Waiting { names } => *names,
        _ => Names::empty(),
    }
}

/// The names whose votes a ballot still wants; nobody where there is none or it is over.
pub fn waited_for(ballot: &Option<Ballot>) -> Names
    ensures { result ≡ names_waited_for (option_map ballot_of ballot.now) }
{
    match ballot {
        Some(ballot) if !ballot.is_over() => waited_in(ballot.answer()),
        _ => Names::empty(),
    }
}

/// How a ballot stands.
fn end_of(ballot: &Ballot) -> BallotEnd
    ensures { result ≡ end_of_ballot (ballot_of ballot.now) }
{
    let answer = ballot.answer().copy();
    if ballot.is_over() {
        return BallotEnd::Ended(answer);
    }
    BallotEnd::Going(answer)
}

/// How the ballot of a round stands; None where the last ballot's round is lower, or there is none.
pub fn ballot_end(ballot: &Option<Ballot>, round: u32) -> Option<BallotEnd>
    ensures { result ≡ end_of_ballot_of_round round (option_map ballot_of ballot.now) }
{
    let ballot = ballot.as_ref()?;
    let stamp = ballot.stamp();
    if stamp.round < round {
        return None;
    }
    if round < stamp.round {
        return Some(BallotEnd::Ended(Outcome::Overtaken { by: stamp }));
    }
    Some(end_of(ballot))
}
