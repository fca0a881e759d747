ghost use Rattle.std.specs.Prelude.{◌≡◌, ℕ, ◌<◌, ◌≤◌, None, Some, length, IfSome, IfNone, Option, true, false};
ghost use Rattle.am_base.specs.Most.{most_events_of_run};
ghost use Rattle.am_shared_journal_defs.specs.Passes.{Sees};
ghost use Rattle.am_race_laws.specs.Boxes.{IsShareOf, BoxLooks, Hears, GivesUp, node_by, heard_in, lost_in, Picked, is_turn_act, Found, turn_event_at, turn_by};
ghost use Rattle.am_race_laws.specs.Callings.{caller_luck_after};
ghost use Rattle.am_race_laws.specs.Going.{luck_behind};
ghost use Rattle.am_race_laws.specs.Ready.{is_ready};
ghost use Rattle.am_race_laws.specs.Tags.{of_call, own_of};
ghost use Rattle.am_shared_journal_defs.specs.Choices.{act_of};
ghost use Rattle.am_group.specs.declared.event.Act.TheVariants as acts;
ghost use Rattle.am_race_laws.specs.Lawful.{IsSent, threadless_plan_of_terms, terms_of};
ghost use Rattle.am_race_laws.specs.Turns.{waits_in_vain, words_drawn, is_turn};

use super::{NodeBox, Visit};
use crate::acts::least_of_both;
use crate::naming::{RaceLaw, Racing};
use am_base::name::Name;
use am_group::event::Act;
use am_packet::letter::LetterCopy;
use am_race_laws::call::Came;
use am_shared_journal::wire::{Share, SharedJournal};
use am_shared_journal_defs::choice::Choice;
use am_turn_chooser::chooser::Chooser;
use std::sync::Wait;

/// A turn: what the node does, the letter that it hears, and the number of the letter that it lost, or 0.
#[derive(Drop)]
pub(super) struct FoundTurn {
    pub(super) act: Act,
    pub(super) letter: Option<LetterCopy>,
    pub(super) lost: u32,
}

impl<N: Racing> NodeBox<N> {
    /// The least name that its ballot waits for and that has stopped.
    fn in_vain<R: Wait>(&mut self, rt: &R, wire: &SharedJournal<RaceLaw>) -> Option<Name>
        requires own { wire.now.id ≡ N.wire }
        requires open_ { self.old.closed ≡ None }
        ensures looks { BoxLooks self.old self.new }
        ensures some { IfSome result (GivesUp N.plan self.new.seen self.new.name) }
        ensures none { IfNone result (waits_in_vain
            (node_by N.plan self.new.seen self.new.name) self.new.seen ≡ false) }
    {
        let waited = self.node.waits_for();
        waited.lowest()?;
        let stopped = wire.stopped_names(rt, &mut self.pass);
        least_of_both(waited, stopped)
    }

    /// A letter that was sent to its node.
    fn letter<R: Wait>(&mut self, rt: &R, wire: &SharedJournal<RaceLaw>, number: u32) -> LetterCopy
        requires own { wire.now.id ≡ N.wire }
        requires open_ { self.old.closed ≡ None }
        requires sent { IsSent self.old.seen self.old.name number }
        ensures looks { BoxLooks self.old self.new }
        ensures hears { Hears self.new.seen self.new.name number (Some result) }
    {
        match wire.read(rt, &mut self.pass, number) {
            Some(letter) => {
                let _bytes = letter.bytes();
                letter
            }
            None => unreachable!(),
        }
    }

    /// What a choice does, which hears only what was sent to the node.
    fn turn_of_choice<R: Wait>(
        &mut self,
        rt: &R,
        wire: &SharedJournal<RaceLaw>,
        choice: Choice,
    ) -> FoundTurn
        requires own { wire.now.id ≡ N.wire }
        requires open_ { self.old.closed ≡ None }
        requires sent { (number : ℕ) → heard_in choice ≡ Some number
            → IsSent self.old.seen self.old.name number }
        ensures looks { BoxLooks self.old self.new }
        ensures act_ { result.act ≡ act_of choice }
        ensures lost_ { result.lost ≡ lost_in choice }
        ensures hears { (number : ℕ) → heard_in choice ≡ Some number
            → Hears self.new.seen self.new.name number result.letter }
    {
        match choice {
            Choice::Tick => FoundTurn {
                act: Act::Tick,
                letter: None,
                lost: 0,
            },
            Choice::Lose(number) => FoundTurn {
                act: Act::Tick,
                letter: None,
                lost: number,
            },
            Choice::Hear(number) | Choice::Repeat(number) => FoundTurn {
                act: Act::Hear(number),
                letter: Some(self.letter(rt, wire, number)),
                lost: 0,
            },
        }
    }

    /// What the chooser says by the letters for its node.
    fn choose<R: Wait>(
        &mut self,
        rt: &R,
        wire: &SharedJournal<RaceLaw>,
        chooser: &mut Chooser,
    ) -> FoundTurn
        requires own { wire.now.id ≡ N.wire }
        requires open_ { self.old.closed ≡ None }
        ensures looks { BoxLooks self.old self.new }
        ensures picked { Picked chooser.old self.old.name self.old.seen self.new.seen result.act
            result.lost }
        ensures hears { (number : ℕ) → result.act ≡ acts.Hear number
            → Hears self.new.seen self.new.name number result.letter }
        ensures turns { is_turn_act result.act ≡ true }
        ensures drawn { chooser.new ≡ luck_behind chooser.old result.act result.lost }
    {
        let ahead = wire.next_for(rt, &mut self.pass, self.name, self.cursor);
        let choice = chooser.choose(ahead, self.last);
        self.turn_of_choice(rt, wire, choice)
    }

    /// What its node does at a turn: it gives up the least name that it waits for and that has stopped, or does what the chooser
    /// says.
    fn find<R: Wait>(
        &mut self,
        rt: &R,
        wire: &SharedJournal<RaceLaw>,
        chooser: &mut Chooser,
    ) -> FoundTurn
        requires own { wire.now.id ≡ N.wire }
        requires open_ { self.old.closed ≡ None }
        ensures looks { BoxLooks self.old self.new }
        ensures found { Found N.plan chooser.old self.old.name self.old.seen self.new.seen
            result.act result.lost }
        ensures drawn { chooser.new ≡ luck_behind chooser.old result.act result.lost }
        ensures hears { (number : ℕ) → result.act ≡ acts.Hear number
            → Hears self.new.seen self.new.name number result.letter }
    {
        match self.in_vain(rt, wire) {
            Some(name) => FoundTurn {
                act: Act::GiveUp(name),
                letter: None,
                lost: 0,
            },
            None => self.choose(rt, wire, chooser),
        }
    }

    /// What its node does at a turn of a caller's call, which isn't ready. Box and caller then see the same again.
    pub(super) fn turn<R: Wait, G>(
        &mut self,
        visit: &Visit<R, G>,
        share: &mut Share,
        chooser: &mut Chooser,
    ) -> FoundTurn
        requires own { visit.now.wire.now.id ≡ N.wire }
        requires open_ { self.old.closed ≡ None }
        requires share { IsShareOf N.wire N.plan visit.now.tag.caller share.old }
        requires met { share.old.seen ≡ self.old.seen }
        requires luck { chooser.old ≡ caller_luck_after N.plan visit.now.tag.caller
            (words_drawn visit.now.tag.caller self.old.seen) }
        requires unready { is_ready (node_by N.plan self.old.seen self.old.name)
            (own_of (of_call visit.now.tag.caller visit.now.tag.call self.old.seen)) ≡ false }
        ensures looks { BoxLooks self.old self.new }
        ensures share { Sees share.old share.new }
        ensures met { share.new.seen ≡ self.new.seen }
        ensures few { length self.new.seen ≤ most_events_of_run }
        ensures turn { is_turn (threadless_plan_of_terms (terms_of N.plan)) self.new.seen
            (turn_event_at self.old.name result.act)
            (turn_by visit.now.tag.caller visit.now.tag.call result.lost) ≡ true }
        ensures hears { (number : ℕ) → result.act ≡ acts.Hear number
            → Hears self.new.seen self.new.name number result.letter }
        ensures drawn { chooser.new ≡ luck_behind chooser.old result.act result.lost }
    {
        let turn = self.find(visit.rt, visit.wire, chooser);
        visit.wire.meet(&mut self.pass, share);
        turn
    }

    /// Whether there is a letter for its node that it hasn't come to.
    fn has_letter<R: Wait>(&mut self, rt: &R, wire: &SharedJournal<RaceLaw>) -> bool
        requires own { wire.now.id ≡ N.wire }
        requires open_ { self.old.closed ≡ None }
        ensures looks { BoxLooks self.old self.new }
    {
        let ahead = wire.next_for(rt, &mut self.pass, self.name, self.cursor);
        ahead.is_some()
    }

    /// Whether a look of a call would do more than tick: it ends, or is refused, or its node gives somebody up or comes to a letter.
    /// No clause says so, and a call that goes by it may tick all the same.
    pub fn has_to_do<R: Wait>(
        &mut self,
        rt: &R,
        wire: &SharedJournal<RaceLaw>,
        act: &Act,
        came: &Option<Came>,
    ) -> bool
        requires own { wire.now.id ≡ N.wire }
        ensures { self.new.name ≡ self.old.name }
    {
        if let Some(_refusal) = self.closed {
            return true;
        }
        if self.is_stopped || self.is_ready(act, came) {
            return true;
        }
        if let Some(_name) = self.in_vain(rt, wire) {
            return true;
        }
        self.has_letter(rt, wire)
    }
}
