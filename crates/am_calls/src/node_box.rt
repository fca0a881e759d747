ghost use Rattle.std.specs.Prelude.{◌≡◌, ◌<◌, ◌≤◌, [], ◌∷◌, None, Some, length, IfOk, IfErr, OnOk, OnErr, Option, true, false};
ghost use Rattle.std.specs.Option.{option_copied};
ghost use Rattle.am_base.specs.Most.{most_events_of_run};
ghost use Rattle.am_group_defs.specs.World.{first_node};
ghost use Rattle.am_model.specs.Info.{info_of_node};
ghost use Rattle.am_node.specs.Stands.{state_of};
ghost use Rattle.am_group.specs.declared.event.Record.{Record};
ghost use Rattle.am_shared_journal_defs.specs.declared.terms.SharerKey.TheVariants.{Place, Caller as CallerKey};
ghost use Rattle.am_shared_journal_defs.specs.declared.terms.WireRefusal.TheVariants as refusals;
ghost use Rattle.am_shared_journal_defs.specs.Sights.{GoesOn};
ghost use Rattle.am_shared_journal_defs.specs.Passes.{Sees, fresh};
ghost use Rattle.am_shared_journal_defs.specs.Stops.{has_stopped};
ghost use Rattle.am_race_laws.specs.Boxes.{what_of, MayAct, IsShareOf, IsTimely, Acted, IsRefused, BoxLooks, refusal_answer, node_by};
ghost use Rattle.am_race_laws.specs.Callings.{IsHand};
ghost use Rattle.am_race_laws.specs.Going.{end_act, end_part, is_asked, ToldBy, OwnActIsDone, IsCame, EndTells, Began, HasSpent, HasEnded, HasLooked, WasRefused, HandIsAtOpenBox};
ghost use Rattle.am_race_laws.specs.Plans.{is_call};
ghost use Rattle.am_race_laws.specs.Ready.{is_ready};
ghost use Rattle.am_race_laws.specs.Tags.{of_call, own_of, is_turn_part};
ghost use Rattle.am_race_laws.specs.Lawful.{terms_of};
ghost use Rattle.am_race_laws.specs.Answers.{is_end_of, is_take};
ghost use Rattle.am_race_laws.specs.Turns.{is_due};
ghost use Rattle.am_calls.specs.Looks.{CallerMayLook};

mod finding;

use crate::acts::{
    ActRoom, blank, copy_into, cursor_after, heard_by, last_after, letter_lost_by_part, room_for,
    stops_by,
};
use crate::caller::Hand;
use crate::gate::TestHook;
use crate::naming::{RaceLaw, Racing};
use crate::outcomes::{is_take, request_in};
use crate::ready::{is_ready_after, may_take, round_in};
use crate::steps::step;
use am_base::NoMemory;
use am_base::name::Name;
use am_group::event::{Act, By, Part, Record};
use am_model::info::Info;
use am_node::node::Node;
use am_packet::letter::LetterCopy;
use am_packet_writer::out_box::Rooms;
use am_race_laws::answer::CallAnswer;
use am_race_laws::call::{Came, Looked, Tag};
use am_shared_journal::wire::{Pass, Share, SharedJournal};
use am_shared_journal_defs::terms::WireRefusal;
use finding::FoundTurn;
use std::alloc::Global;
use std::marker::{Model, PhantomData};
use std::mem;
use std::sync::Wait;

/// A node's place: its node, its pass, and how far it has come with the letters for it. Contracts see it as its name, what
/// its pass has seen, and the refusal that closed it, if one did: of a closed box nothing more is known, and it does
/// nothing more.
#[derive(Drop)]
pub struct NodeBox<N: Racing> {
    name: Name,
    node: Node,
    pass: Pass,
    cursor: u32,
    last: Option<u32>,
    is_stopped: bool,
    closed: Option<WireRefusal>,
    rooms: Rooms,
    race: PhantomData<N>,
}

impl<N: Racing> Model for NodeBox<N> {
    ghost use Rattle.am_node.specs.Stands.{state_of};
    ghost use Rattle.am_race_laws.specs.Boxes.{Boxed, IsBox};

    ghost Value = { Boxed };

    ghost view = { λ b. record { name = b.name; seen = b.pass.seen; closed = b.closed } };

    ghost invariant = { λ b. IsBox N.wire N.plan b.name b.pass (state_of b.node) b.cursor b.last b.is_stopped b.closed };
}

/// What a look at a node is made with, besides its caller's hand: what waits, where its record's memory is from, the journal,
/// what is done between the look and its act, whose call it is, and the call's own act.
#[derive(Drop)]
pub struct Visit<'a, R, G> {
    pub rt: &'a R,
    pub alloc: Global,
    pub wire: &'a SharedJournal<RaceLaw>,
    pub gate: &'a G,
    pub tag: Tag,
    pub act: &'a Act,
}

fn answer_of(refusal: WireRefusal) -> CallAnswer
    ensures { result ≡ refusal_answer refusal }
{
    match refusal {
        WireRefusal::NoMemory => CallAnswer::NoMemory,
        WireRefusal::Spent => CallAnswer::Spent,
    }
}

/// What a call does at its end, by what came of its own act.
fn end_act(act: &Act, came: &Option<Came>) -> Act
    ensures { result ≡ end_act act.now came.now }
{
    match (act, came) {
        (Act::Send(_), Some(came)) => Act::Done(request_in(&came.outcome)),
        (Act::Join | Act::Leave, _) => Act::State,
        (Act::Reset { .. }, Some(came)) => Act::Ask(came.round),
        _ => Act::Take,
    }
}

/// The part of that.
fn end_part(act: &Act) -> Part
    ensures { result ≡ end_part act.now }
{
    if is_take(act) {
        Part::Call
    } else {
        Part::Check
    }
}

impl<N: Racing> NodeBox<N> {
    /// The box of a node to which nothing has happened.
    pub fn new(name: Name, node: Node, pass: Pass) -> NodeBox<N>
        requires place { name < 16 }
        requires node { state_of node ≡ first_node N.plan.founding name }
        requires pass { pass ≡ fresh N.wire (terms_of N.plan) (Place name) }
        ensures { result ≡ record { name = name; seen = []; closed = None } }
    {
        NodeBox {
            name,
            node,
            pass,
            cursor: 0,
            last: None,
            is_stopped: false,
            closed: None,
            rooms: Rooms::new(),
            race: PhantomData,
        }
    }

    /// The name of its node, of its place's first life.
    pub fn name(&self) -> Name
        ensures value { result ≡ self.now.name }
        ensures place { result < 16 }
    {
        self.name
    }

    /// Its pass alone.
    pub fn into_pass(self) -> Pass
        ensures own { result.wire ≡ N.wire }
        ensures terms { result.terms ≡ terms_of N.plan }
        ensures keys { result.keys ≡ Place self.name ∷ [] }
        ensures seen { result.seen ≡ self.seen }
    {
        self.pass
    }

    /// The box and a caller see what either has seen. It is an error where the box does nothing more.
    fn meet(&mut self, wire: &SharedJournal<RaceLaw>, share: &mut Share) -> Result<(), CallAnswer>
        requires own { (wire.now.id ≡ N.wire) × (share.old.wire ≡ N.wire) }
        requires terms { share.old.terms ≡ terms_of N.plan }
        requires one { length share.old.keys ≡ 1 }
        ensures looks { BoxLooks self.old self.new }
        ensures share { Sees share.old share.new }
        ensures both { share.new.seen ≡ self.new.seen }
        ensures few { length self.new.seen ≤ most_events_of_run }
        ensures open_ { OnOk result (self.new.closed ≡ None) }
        ensures runs { OnOk result (has_stopped self.new.seen self.new.name ≡ false) }
        ensures err { IfErr result (IsRefused self.new.seen self.new.name) }
    {
        wire.meet(&mut self.pass, share);
        if let Some(refusal) = self.closed {
            return Err(answer_of(refusal));
        }
        if self.is_stopped {
            return Err(CallAnswer::Stopped);
        }
        Ok(())
    }

    /// What its node knows, by what the box and the caller have then seen. It is an error where the box does nothing more.
    pub fn info(
        &mut self,
        wire: &SharedJournal<RaceLaw>,
        hand: &mut Hand,
    ) -> Result<Info, WireRefusal>
        requires own { (wire.now.id ≡ N.wire) × (hand.old.share.wire ≡ N.wire) }
        requires terms { hand.old.share.terms ≡ terms_of N.plan }
        requires one { length hand.old.share.keys ≡ 1 }
        ensures looks { BoxLooks self.old self.new }
        ensures share { Sees hand.old.share hand.new.share }
        ensures chooser { hand.new.chooser ≡ hand.old.chooser }
        ensures both { hand.new.share.seen ≡ self.new.seen }
        ensures ok { IfOk result (λ info. info
            ≡ info_of_node (node_by N.plan self.new.seen self.new.name)) }
        ensures err { IfErr result (λ refusal. self.new.closed ≡ Some refusal) }
        ensures spent { IfErr result (λ refusal. refusal ≡ refusals.Spent
            → length self.new.seen ≡ most_events_of_run) }
    {
        wire.meet(&mut self.pass, &mut hand.share);
        if let Some(refusal) = self.closed {
            return Err(refusal);
        }
        Ok(self.node.info())
    }

    /// Its node does an act of a caller, which both have then seen in the journal. After what both have seen it may do it, a turn
    /// is one of its call, and a call may end there that it ends. After a refusal of the journal the box is closed; where there was no memory for the record, all is
    /// as it was.
    pub fn act<R: Wait, G: TestHook>(
        &mut self,
        visit: &Visit<R, G>,
        share: &mut Share,
        act: Act,
        letter: Option<&LetterCopy>,
        by: By,
    ) -> Result<Came, WireRefusal>
        requires own { visit.now.wire.now.id ≡ N.wire }
        requires share { IsShareOf N.wire N.plan by.caller share.old }
        requires open_ { self.old.closed ≡ None }
        requires few { length self.old.seen ≤ most_events_of_run }
        requires may { MayAct self.old.seen self.old.name act (option_copied letter) }
        requires met { share.old.seen ≡ self.old.seen }
        requires timely { IsTimely N.plan self.old.seen
            (record { node = self.old.name; act = act }) by }
        ensures name { self.new.name ≡ self.old.name }
        ensures share { IsShareOf N.wire N.plan by.caller share.new }
        ensures both { share.new.seen ≡ self.new.seen }
        ensures ok { IfOk result (λ came. Acted self.old self.new share.old share.new act by came) }
        ensures place { OnErr result (GoesOn (Place self.old.name
            ∷ []) self.old.seen self.new.seen) }
        ensures caller { OnErr result (GoesOn share.old.keys share.old.seen share.new.seen) }
        ensures told { IfOk result (λ came. ToldBy (what_of act (option_copied letter.entry))
            (node_by N.plan self.old.seen self.old.name) came.outcome) }
        ensures spent { IfErr result (λ refusal. refusal ≡ refusals.Spent
            → length self.new.seen ≡ most_events_of_run) }
    {
        let Ok(mut item) = blank(visit.alloc, self.name, &act, by) else {
            return Err(WireRefusal::NoMemory);
        };
        let rooms = mem::replace(&mut self.rooms, Rooms::new());
        let Ok(room) = room_for(visit.alloc, rooms, &act, letter) else {
            return Err(WireRefusal::NoMemory);
        };
        let ActRoom {
            what,
            spare,
            given,
            mut out,
        } = room;
        let outcome = step(&mut self.node, &mut out, &what, spare);
        let round = round_in(out.letters());
        let (letters, rooms) = out.into_letters(visit.alloc);
        item.outcome = copy_into(&outcome, given);
        item.packets = letters;
        self.rooms = rooms;
        match visit.wire.commit(visit.rt, &mut self.pass, share, item) {
            Ok(_number) => {
                let heard = heard_by(&act);
                self.last = last_after(self.last, heard);
                self.cursor = cursor_after(self.cursor, heard, letter_lost_by_part(by.part));
                self.is_stopped = stops_by(self.is_stopped, &act);
                Ok(Came { outcome, round })
            }
            Err(refusal) => {
                self.closed = Some(refusal);
                Err(refusal)
            }
        }
    }

    /// Whether the end of a call would tell its answer, so that it makes no turn. Its node then tells one.
    fn is_ready(&self, act: &Act, came: &Option<Came>) -> bool
        requires open_ { self.now.closed ≡ None }
        ensures ready { (own : Option Record) → IsCame act.now came.now own
            → result ≡ is_ready (node_by N.plan self.now.seen self.now.name) own }
        ensures told { (own : Option Record) → IsCame act.now came.now own → result ≡ true
            → EndTells (node_by N.plan self.now.seen self.now.name) act.now came.now }
    {
        match came {
            None => may_take(&self.node),
            Some(came) => is_ready_after(&self.node, act, came),
        }
    }

    /// The box and a caller see what either has seen. It is an error where the box does nothing more.
    fn meet_caller(
        &mut self,
        wire: &SharedJournal<RaceLaw>,
        hand: &mut Hand,
        tag: Tag,
    ) -> Result<(), CallAnswer>
        requires own { wire.now.id ≡ N.wire }
        requires hand { IsHand N.wire N.plan tag.caller hand.old.share hand.old.chooser }
        ensures hand { IsHand N.wire N.plan tag.caller hand.new.share hand.new.chooser }
        ensures name { self.new.name ≡ self.old.name }
        ensures goes { GoesOn (CallerKey tag.caller ∷ []) hand.old.share.seen hand.new.share.seen }
        ensures ok { OnOk result (HandIsAtOpenBox N.wire N.plan tag.caller self.new hand.new.share
            hand.new.chooser) }
        ensures err { IfErr result (WasRefused self.old.name tag.caller hand.old.share.seen
            hand.new.share.seen) }
    {
        self.meet(wire, &mut hand.share)
    }

    /// A turn of a caller's call, which isn't ready.
    fn spend<R: Wait, G: TestHook>(
        &mut self,
        visit: &Visit<R, G>,
        hand: &mut Hand,
    ) -> Result<Looked, CallAnswer>
        requires own { visit.now.wire.now.id ≡ N.wire }
        requires met { HandIsAtOpenBox N.wire N.plan visit.now.tag.caller self.old hand.old.share
            hand.old.chooser }
        requires unready { is_ready (node_by N.plan self.old.seen self.old.name)
            (own_of (of_call visit.now.tag.caller visit.now.tag.call self.old.seen)) ≡ false }
        ensures hand { IsHand N.wire N.plan visit.now.tag.caller hand.new.share hand.new.chooser }
        ensures ok { IfOk result (HasSpent self.old.name visit.now.tag hand.old.share.seen
            hand.new.share.seen) }
        ensures err { IfErr result (WasRefused self.old.name visit.now.tag.caller
            hand.old.share.seen hand.new.share.seen) }
    {
        let Ok(mut chooser) = hand.chooser.try_copy() else {
            return Err(CallAnswer::NoMemory);
        };
        let turn = self.turn(visit, &mut hand.share, &mut chooser);
        let by = visit.tag.with(Part::Turn(turn.lost));
        visit.gate.between(self.name, &by);
        let FoundTurn { act, letter, .. } = turn;
        let share = &mut hand.share;
        match self.act(visit, share, act, letter.as_ref(), by) {
            Ok(came) => {
                hand.chooser = chooser;
                Ok(Looked::Turn(came.outcome))
            }
            Err(refusal) => Err(answer_of(refusal)),
        }
    }

    /// A call's own act, or its check.
    fn ask<R: Wait, G: TestHook>(
        &mut self,
        visit: &Visit<R, G>,
        hand: &mut Hand,
        act: Act,
        by: By,
    ) -> Result<Came, CallAnswer>
        requires own { visit.now.wire.now.id ≡ N.wire }
        requires met { HandIsAtOpenBox N.wire N.plan by.caller self.old hand.old.share hand.old.chooser }
        requires asks { is_asked act ≡ true }
        requires no_turn { is_turn_part by.part ≡ false }
        requires due { is_end_of by.part act ≡ true
            → is_due N.plan (node_by N.plan self.old.seen self.old.name)
            (of_call by.caller by.call self.old.seen) ≡ true }
        ensures hand { IsHand N.wire N.plan by.caller hand.new.share hand.new.chooser }
        ensures ok { IfOk result (λ came. OwnActIsDone N.plan self.old.name act by came hand.old.share.seen
            hand.new.share.seen) }
        ensures err { IfErr result (WasRefused self.old.name by.caller hand.old.share.seen
            hand.new.share.seen) }
    {
        visit.gate.between(self.name, &by);
        let share = &mut hand.share;
        match self.act(visit, share, act, None, by) {
            Ok(came) => Ok(came),
            Err(refusal) => Err(answer_of(refusal)),
        }
    }

    /// The end of a call, which is ready or has used its turns: its check, or the act of a receive.
    fn end<R: Wait, G: TestHook>(
        &mut self,
        visit: &Visit<R, G>,
        hand: &mut Hand,
        came: &Option<Came>,
    ) -> Result<Looked, CallAnswer>
        requires own { visit.now.wire.now.id ≡ N.wire }
        requires met { HandIsAtOpenBox N.wire N.plan visit.now.tag.caller self.old hand.old.share
            hand.old.chooser }
        requires due { is_due N.plan (node_by N.plan self.old.seen self.old.name)
            (of_call visit.now.tag.caller visit.now.tag.call self.old.seen) ≡ true }
        ensures hand { IsHand N.wire N.plan visit.now.tag.caller hand.new.share hand.new.chooser }
        ensures ok { IfOk result (HasEnded N.plan self.old.name visit.now.tag visit.now.act.now
            came.entry.now hand.old.share.seen hand.new.share.seen) }
        ensures err { IfErr result (WasRefused self.old.name visit.now.tag.caller
            hand.old.share.seen hand.new.share.seen) }
    {
        let last = end_act(visit.act, came);
        let part = end_part(visit.act);
        match self.ask(visit, hand, last, visit.tag.with(part)) {
            Ok(came) => Ok(Looked::End(came.outcome)),
            Err(answer) => Err(answer),
        }
    }

    /// The first look of a call that is no receive: its own act.
    pub fn begin<R: Wait, G: TestHook>(
        &mut self,
        visit: &Visit<R, G>,
        hand: &mut Hand,
    ) -> Result<Came, CallAnswer>
        requires own { visit.now.wire.now.id ≡ N.wire }
        requires hand { IsHand N.wire N.plan visit.now.tag.caller hand.old.share hand.old.chooser }
        requires call { is_call visit.now.act.now ≡ true }
        requires no_receive { is_take visit.now.act.now ≡ false }
        ensures hand { IsHand N.wire N.plan visit.now.tag.caller hand.new.share hand.new.chooser }
        ensures ok { IfOk result (λ came. Began self.old.name visit.now.tag visit.now.act.now came
            hand.old.share.seen hand.new.share.seen) }
        ensures err { IfErr result (WasRefused self.old.name visit.now.tag.caller
            hand.old.share.seen hand.new.share.seen) }
    {
        self.meet_caller(visit.wire, hand, visit.tag)?;
        let Ok(own) = visit.act.try_copy() else {
            return Err(CallAnswer::NoMemory);
        };
        self.ask(visit, hand, own, visit.tag.with(Part::Call))
    }

    /// A further look of a call: a turn, where it has one left and isn't ready, and else its end. One that has no turn left has
    /// used them.
    pub fn look<R: Wait, G: TestHook>(
        &mut self,
        visit: &Visit<R, G>,
        hand: &mut Hand,
        came: &Option<Came>,
        has_turn: bool,
    ) -> Result<Looked, CallAnswer>
        requires own { visit.now.wire.now.id ≡ N.wire }
        requires hand { IsHand N.wire N.plan visit.now.tag.caller hand.old.share hand.old.chooser }
        requires may { CallerMayLook N.plan visit.now.tag visit.now.act.now came.now has_turn
            hand.old.share.seen }
        ensures hand { IsHand N.wire N.plan visit.now.tag.caller hand.new.share hand.new.chooser }
        ensures ok { IfOk result (HasLooked self.old.name visit.now.tag visit.now.act.now came.entry.now
            has_turn hand.old.share.seen hand.new.share.seen) }
        ensures err { IfErr result (WasRefused self.old.name visit.now.tag.caller
            hand.old.share.seen hand.new.share.seen) }
    {
        self.meet_caller(visit.wire, hand, visit.tag)?;
        if !has_turn {
            return self.end(visit, hand, came);
        }
        if self.is_ready(visit.act, came) {
            return self.end(visit, hand, came);
        }
        self.spend(visit, hand)
    }
}
