//! The refinement: a world of the whole definitions and an abstract group that stand for each other, and how each step of a name is moves
//! of that group (docs/SAFETY.md).
#![tactic(auto)]

pub mod steps_move;

ghost use Rattle.am_refinement.specs.Accepting.{RefreshAccepts, RefreshLearns, ClosingAccepts};
ghost use Rattle.am_refinement.specs.Branches.{MovesBranch, MovesNamed, DecisionsAreNew, BranchesBegin};
ghost use Rattle.am_refinement.specs.Ends.{EndsStand, CloseStands};
ghost use Rattle.am_refinement.specs.Growing.{LettersStay, MovesGrow};
ghost use Rattle.am_refinement.specs.Keeping.{StartKeeps, PlainChangesKeepStepping, RefreshesKeep, OthersKeep};
ghost use Rattle.am_refinement.specs.Lawful.{LawfulRunsGoOn};
ghost use Rattle.am_refinement.specs.Standing.{StartStands};
ghost use Rattle.am_refinement.specs.Sending.{SentSays, DepartedSilent};
ghost use Rattle.am_refinement.specs.States.{RunsHaveRounds, RunsLeaveOut, RunsOpen};
ghost use Rattle.am_refinement.specs.Steps.{ChangesStand, EventsStand};

/// At the start each founder is told of the first entry, and then the group stands for the world.
pub fn start_stands()
    ensures { StartStands }
{}

/// An event that no node does is no move of the group, or that a name stops.
pub fn events_stand()
    ensures { EventsStand }
{}

/// Each change of a node is no move of the group, or one of its own, where what it needs is so: from a world and a group that stand for
/// each other it leads to such a group for the world after it. The last member's own Leave isn't among these.
pub fn changes_stand()
    ensures { ChangesStand }
{}

/// At the end of a step the group accepts what its sequencer does, and the name learns how far that is. A last member that numbers its own
/// Leave ends its step by that one move.
pub fn ends_stand()
    ensures end { EndsStand }
    ensures close { CloseStands }
{}

/// What a sequencer's refresh accepts is held by enough names, where what they reported is true. So a step ends by what the group may
/// accept, and by what its name may learn of it; and the last member's own Leave needs nothing else.
pub fn reports_accept()
    ensures refresh { RefreshAccepts }
    ensures learn { RefreshLearns }
    ensures close { ClosingAccepts }
{}

/// Each letter that a name sends at the end of its step is so, once a voter has shown the list that its vote tells, and served what it sends
/// of it. Who has departed sends nothing.
pub fn letters_are_so()
    ensures sent { SentSays }
    ensures departed { DepartedSilent }
{}

/// With each move the group goes on so that what a letter says of it stays so, where a decided view is a new one that found all that was
/// accepted.
pub fn letters_stay()
    ensures moves { MovesGrow }
    ensures letters { LettersStay }
{}

/// A lawful run of the group that goes on by a move that is no stop is lawful: so between the moves of one event all is kept.
pub fn runs_go_on()
    ensures { LawfulRunsGoOn }
{}

/// In a lawful run of the group, what begins the line of a decided view begins the line of its own last View's, which was decided.
pub fn lines_open()
    ensures { RunsOpen }
{}

/// And in such a run each decided stamp has a round, and whom a View on the chain left out has stopped.
pub fn views_leave_out()
    ensures rounds { RunsHaveRounds }
    ensures left { RunsLeaveOut }
{}

/// What a name has that hasn't departed is on the chain, or was left out of it by a View; so a decision finds what each of its members has,
/// also one that leaves or has stopped, where each of them has voted. And who joins on the chain is one of the 256 names.
pub fn decisions_find_leavers()
    ensures begin { BranchesBegin }
    ensures moves { MovesBranch }
    ensures new { DecisionsAreNew }
    ensures names { MovesNamed }
{}

/// What is known within a step of its node, of the letter that it heard and of the group, gives each change what it needs, and is known again
/// after it, but after a refresh and after the last member's end. A refresh keeps what the node keeps, once the group has accepted what it
/// accepts; and so does each node that does nothing, while the group goes on. At the start each node keeps it.
pub fn steps_go_on()
    ensures start { StartKeeps }
    ensures change { PlainChangesKeepStepping }
    ensures refresh { RefreshesKeep }
    ensures others { OthersKeep }
{}
