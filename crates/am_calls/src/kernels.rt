ghost use Rattle.std.specs.Prelude.{◌≡◌, ◌<◌, [], ◌∷◌, IfOk, IfErr, true, false, vec_len, map, length, All};
ghost use Rattle.std.specs.List.{range_with_len};
ghost use Rattle.am_base.specs.Most.{most_events_of_run, greatest_word};
ghost use Rattle.am_base.specs.Names.{place_of_name};
ghost use Rattle.am_group.specs.declared.event.Act.TheVariants as acts;
ghost use Rattle.am_model.specs.Info.{info_of_node};
ghost use Rattle.am_shared_journal_defs.specs.declared.terms.SharerKey.TheVariants.{Caller as CallerKey};
ghost use Rattle.am_shared_journal_defs.specs.Passes.{Sees};
ghost use Rattle.am_shared_journal_defs.specs.Sights.{GoesOn};
ghost use Rattle.am_shared_journal_defs.specs.declared.terms.WireRefusal.TheVariants as refusals;
ghost use Rattle.am_race_laws.specs.Boxes.{node_by};
ghost use Rattle.am_race_laws.specs.Callings.{Called, IsHand};
ghost use Rattle.am_race_laws.specs.Going.{CallHasBegun, Began, HasLooked, WasRefused, Made};
ghost use Rattle.am_race_laws.specs.Answers.{is_take};
ghost use Rattle.am_race_laws.specs.Tags.{of_call};
ghost use Rattle.am_race_laws.specs.Lawful.{terms_of};
ghost use Rattle.am_race_laws.specs.Legal.{IsLegalWithTags};
ghost use Rattle.am_race_laws.specs.Plans.{is_call};
ghost use Rattle.am_race_laws.specs.Ran.{calls_by, fresh_callers, caller_numbers, EndsFor};
ghost use Rattle.am_calls.specs.Looks.{CallerMayLook};

use crate::caller::{Caller, Hand};
use crate::crowd::Crowd;
use crate::dealing::{all_places, boxes_of, callers_of, with_callers};
use crate::gate::TestHook;
use crate::naming::{RaceLaw, Racing};
use crate::node_box::{NodeBox, Visit};
use crate::outcomes::{answer_at_end, is_take, late_after, own_answer, request_in_call};
use crate::outset::Outset;
use am_base::NoMemory;
use am_base::body::{Body, SentBody};
use am_base::founding::Founding;
use am_base::name::Name;
use am_base::outcome::Outcome;
use am_group::event::Act;
use am_journal::journal::Journal;
use am_model::info::Info;
use am_node::node::Node;
use am_race_laws::answer::CallAnswer;
use am_race_laws::call::{Came, Looked, Tag};
use am_shared_journal::wire::SharedJournal;
use am_shared_journal_defs::terms::WireRefusal;
use std::alloc::Global;
use std::sync::{Mutex, MutexGuard, Wait};

/// How often a call without a turn to make looks at its node: as often as a journal has records.
const MOST_RESTS: u32 = 100_000;

/// A call on its way: its tag, the node that it is made at, and its own act.
#[derive(Drop)]
struct Call<'a> {
    tag: Tag,
    node: Name,
    act: &'a Act,
}

/// The nodes of a race, each in its box under a lock, over one journal; its callers make blocking calls at them.
#[derive(Drop)]
pub struct Kernels<'g, N: Racing, G: TestHook> {
    alloc: Global,
    wire: SharedJournal<RaceLaw>,
    boxes: Vec<Mutex<NodeBox<N>>>,
    gate: &'g G,
    pub(crate) crowd: Crowd,
    turns: u32,
    ghost named: { wire.id ≡ N.wire },
    ghost planned: { wire.terms ≡ terms_of N.plan },
    ghost turned: { turns ≡ N.plan.turns },
    ghost sixteen: { vec_len boxes ≡ 16 },
}

impl<'g, N: Racing, G: TestHook> Kernels<'g, N, G> {
    /// The nodes of a plan's founding, to which nothing has happened, and a caller for each of its threads.
    pub fn start(
        alloc: Global,
        gate: &'g G,
        outset: Outset,
    ) -> Result<(Kernels<'g, N, G>, Vec<Caller<N>>), NoMemory>
        requires plan { outset.plan.now ≡ N.plan }
        requires wire { outset.wire.id ≡ N.wire }
        ensures { IfOk result (λ r. r.1.items ≡ fresh_callers (length N.plan.threads)) }
    {
        let Outset {
            plan,
            wire,
            passes,
            shares,
        } = outset;
        let boxes = boxes_of(alloc, &plan.founding, passes)?;
        let callers = callers_of(alloc, plan, shares)?;
        let kernels = Kernels {
            alloc,
            wire,
            boxes,
            gate,
            crowd: Crowd::new(plan.threads.as_slice().len() as u64),
            turns: plan.turns,
        };
        Ok((kernels, callers))
    }

    /// What a call looks at a node with.
    fn visit<'a, R>(&'a self, rt: &'a R, call: &Call<'a>) -> Visit<'a, R, G>
        ensures wire { result.wire.now.id ≡ N.wire }
        ensures tag { result.tag ≡ call.now.tag }
        ensures act_ { result.act.now ≡ call.now.act.now }
    {
        Visit {
            rt,
            alloc: self.alloc,
            wire: &self.wire,
            gate: self.gate,
            tag: call.tag,
            act: call.act,
        }
    }

    /// The box of a node's place, under its lock. Each box stands at its own place, but of what a lock guards nothing is known when
    /// it is taken. So no proof says which box this is: it is looked at, and never a second time.
    fn box_at<R: Wait>(&self, rt: &R, node: Name) -> MutexGuard<'_, NodeBox<N>>
        ensures { result.value.name ≡ place_of_name node }
    {
        for _ in rt.forever() {
            let guard = self.boxes[usize::from(node.place())].lock(rt);
            if guard.name().place() == node.place() {
                return guard;
            }
        }
        unreachable!()
    }

    /// The first look of a call that is no receive: its own act.
    fn begin<R: Wait>(&self, rt: &R, hand: &mut Hand, call: &Call) -> Result<Came, CallAnswer>
        requires hand { IsHand N.wire N.plan call.now.tag.caller hand.old.share hand.old.chooser }
        requires call { is_call call.now.act.now ≡ true }
        requires no_receive { is_take call.now.act.now ≡ false }
        ensures hand { IsHand N.wire N.plan call.now.tag.caller hand.new.share hand.new.chooser }
        ensures ok { IfOk result (λ came. Began (place_of_name call.now.node) call.now.tag
            call.now.act.now came hand.old.share.seen hand.new.share.seen) }
        ensures err { IfErr result (WasRefused (place_of_name call.now.node) call.now.tag.caller
            hand.old.share.seen hand.new.share.seen) }
    {
        let mut guard = self.box_at(rt, call.node);
        let begun = guard.begin(&self.visit(rt, call), hand);
        self.crowd.stir();
        begun
    }

    /// A further look of a call. Where it has a turn left and its node would only tick, it lets other callers go first: until there
    /// is something to do, or its caller is due.
    fn look<R: Wait>(
        &self,
        rt: &R,
        hand: &mut Hand,
        call: &Call,
        came: &Option<Came>,
        has_turn: bool,
    ) -> Result<Looked, CallAnswer>
        requires hand { IsHand N.wire N.plan call.now.tag.caller hand.old.share hand.old.chooser }
        requires may { CallerMayLook N.plan call.now.tag call.now.act.now came.now has_turn hand.old.share.seen }
        ensures hand { IsHand N.wire N.plan call.now.tag.caller hand.new.share hand.new.chooser }
        ensures ok { IfOk result (HasLooked (place_of_name call.now.node) call.now.tag call.now.act.now
            came.entry.now has_turn hand.old.share.seen hand.new.share.seen) }
        ensures err { IfErr result (WasRefused (place_of_name call.now.node) call.now.tag.caller
            hand.old.share.seen hand.new.share.seen) }
    {
        let due = self.crowd.due(call.tag.caller);
        let mut rests = if has_turn { MOST_RESTS } else { 0 };
        // Each round leaves fewer rests, and the one without any is the last.
        for _ in rt.forever() {
            let round = self.crowd.round();
            if self.crowd.due(call.tag.caller) != due {
                rests = 0;
            }
            let mut guard = self.box_at(rt, call.node);
            if rests == 0 || guard.has_to_do(rt, &self.wire, call.act, came) {
                let looked = guard.look(&self.visit(rt, call), hand, came, has_turn);
                self.crowd.stir();
                return looked;
            }
            drop(guard);
            rests = rests.saturating_sub(1);
            if !self.crowd.rest(round) {
                rests = 0;
            }
        }
        unreachable!()
    }

    /// Looks at the node until the call has its answer.
    fn go_on<R: Wait>(
        &self,
        rt: &R,
        hand: &mut Hand,
        call: &Call,
        came: &Option<Came>,
    ) -> CallAnswer
        requires hand { IsHand N.wire N.plan call.now.tag.caller hand.old.share hand.old.chooser }
        requires begun { CallHasBegun call.now.act.now came.now
            (of_call call.now.tag.caller call.now.tag.call hand.old.share.seen) }
        ensures hand { IsHand N.wire N.plan call.now.tag.caller hand.new.share hand.new.chooser }
        ensures made { Made N.plan call.now.node call.now.tag call.now.act.now
            (of_call call.now.tag.caller call.now.tag.call hand.old.share.seen) hand.old.share.seen
            hand.new.share.seen result }
    {
        let request = request_in_call(call.act, came);
        let mut late = CallAnswer::Late { turns: self.turns };
        for spent in 0..self.turns {
            match self.look(rt, hand, call, came, true) {
                Err(answer) => return answer,
                Ok(Looked::End(outcome)) => {
                    return answer_at_end(call.act, request, &outcome, late);
                }
                Ok(Looked::Turn(outcome)) => late = late_after(request, late, &outcome),
            }
        }
        match self.look(rt, hand, call, came, false) {
            Err(answer) => answer,
            Ok(Looked::End(outcome)) => answer_at_end(call.act, request, &outcome, late),
            Ok(Looked::Turn(_)) => unreachable!(),
        }
    }

    /// Makes a call of which nothing is done yet.
    fn do_call<R: Wait>(&self, rt: &R, hand: &mut Hand, call: &Call) -> CallAnswer
        requires hand { IsHand N.wire N.plan call.now.tag.caller hand.old.share hand.old.chooser }
        requires call { is_call call.now.act.now ≡ true }
        requires fresh { of_call call.now.tag.caller call.now.tag.call hand.old.share.seen ≡ [] }
        ensures hand { IsHand N.wire N.plan call.now.tag.caller hand.new.share hand.new.chooser }
        ensures made { Made N.plan call.now.node call.now.tag call.now.act.now
            [] hand.old.share.seen hand.new.share.seen result }
    {
        if is_take(call.act) {
            return self.go_on(rt, hand, call, &None);
        }
        match self.begin(rt, hand, call) {
            Err(answer) => answer,
            Ok(came) => match own_answer(call.act, &came.outcome) {
                Some(answer) => answer,
                None => self.go_on(rt, hand, call, &Some(came)),
            },
        }
    }

    /// Makes a call, and answers by its records (docs/PROTOCOL.md, "Races"). It ends after its own act, at most as many turns
    /// as the race says, and its check. `Caller::may_call` tells whether the caller may make it.
    pub fn make<R: Wait>(&self, rt: &R, caller: &mut Caller<N>, node: Name, act: &Act) -> CallAnswer
        requires room { length caller.old.calls < greatest_word }
        requires call { is_call act.now ≡ true }
        ensures { Called N.plan node act.now caller.old caller.new result }
    {
        let tag = caller.next_call();
        let answer = self.do_call(rt, &mut caller.hand, &Call { tag, node, act });
        caller.count += 1;
        caller.calls.push(act);
        answer
    }

    /// Sends a body to the group. Sent with its number in the list; Late or PutOff where its turns were used before.
    pub fn send<R: Wait>(
        &self,
        rt: &R,
        caller: &mut Caller<N>,
        node: Name,
        body: Body,
    ) -> CallAnswer
        requires { length caller.old.calls < greatest_word }
        ensures { Called N.plan node (acts.Send body) caller.old caller.new result }
    {
        match SentBody::of(self.alloc, &body) {
            Ok(sent) => self.make(rt, caller, node, &Act::Send(sent)),
            Err(_) => {
                caller.count += 1;
                caller.calls.push_send(&body);
                CallAnswer::NoMemory
            }
        }
    }

    /// Takes the next accepted entry. Took with it; Late where its turns were used before there was one.
    pub fn receive<R: Wait>(&self, rt: &R, caller: &mut Caller<N>, node: Name) -> CallAnswer
        requires { length caller.old.calls < greatest_word }
        ensures { Called N.plan node acts.Take caller.old caller.new result }
    {
        self.make(rt, caller, node, &Act::Take)
    }

    /// Joins the group. Joined with the number of its Join; Late where its turns were used before.
    pub fn join<R: Wait>(&self, rt: &R, caller: &mut Caller<N>, node: Name) -> CallAnswer
        requires { length caller.old.calls < greatest_word }
        ensures { Called N.plan node acts.Join caller.old caller.new result }
    {
        self.make(rt, caller, node, &Act::Join)
    }

    /// Leaves the group. Left, or Late where its turns were used before.
    pub fn leave<R: Wait>(&self, rt: &R, caller: &mut Caller<N>, node: Name) -> CallAnswer
        requires { length caller.old.calls < greatest_word }
        ensures { Called N.plan node acts.Leave caller.old caller.new result }
    {
        self.make(rt, caller, node, &Act::Leave)
    }

    /// Rebuilds the group with at least so many members. Decided with its new view; else why there is none, or Late.
    pub fn reset<R: Wait>(
        &self,
        rt: &R,
        caller: &mut Caller<N>,
        node: Name,
        least: u8,
        resilience: u8,
    ) -> CallAnswer
        requires { length caller.old.calls < greatest_word }
        ensures { Called N.plan node (acts.Reset least resilience) caller.old caller.new result }
    {
        self.make(rt, caller, node, &Act::Reset { least, resilience })
    }

    /// Stops the node for good.
    pub fn stop<R: Wait>(&self, rt: &R, caller: &mut Caller<N>, node: Name) -> CallAnswer
        requires { length caller.old.calls < greatest_word }
        ensures { Called N.plan node acts.Stop caller.old caller.new result }
    {
        self.make(rt, caller, node, &Act::Stop)
    }

    /// A look at what a node knows.
    fn info_at<R: Wait>(&self, rt: &R, hand: &mut Hand, node: Name) -> Result<Info, WireRefusal>
        requires own { hand.old.share.wire ≡ N.wire }
        requires terms { hand.old.share.terms ≡ terms_of N.plan }
        requires one { length hand.old.share.keys ≡ 1 }
        ensures share { Sees hand.old.share hand.new.share }
        ensures chooser { hand.new.chooser ≡ hand.old.chooser }
        ensures ok { IfOk result (λ info. info
            ≡ info_of_node (node_by N.plan hand.new.share.seen (place_of_name node))) }
        ensures spent { IfErr result (λ refusal. refusal ≡ refusals.Spent
            → length hand.new.share.seen ≡ most_events_of_run) }
    {
        self.box_at(rt, node).info(&self.wire, hand)
    }

    /// What a node knows of itself and of its group, by what the caller has then seen; a node that stopped, what it knew then. It
    /// makes no record, and is no call that counts. It is an error where a record of the node was refused before: Spent, where the
    /// journal had 100,000 records, or NoMemory.
    pub fn info<R: Wait>(
        &self,
        rt: &R,
        caller: &mut Caller<N>,
        node: Name,
    ) -> Result<Info, WireRefusal>
        ensures number { caller.new.number ≡ caller.old.number }
        ensures calls { caller.new.calls ≡ caller.old.calls }
        ensures goes { GoesOn (CallerKey caller.old.number ∷ []) caller.old.seen caller.new.seen }
        ensures ok { IfOk result (λ info. info
            ≡ info_of_node (node_by N.plan caller.new.seen (place_of_name node))) }
        ensures spent { IfErr result (λ refusal. refusal ≡ refusals.Spent
            → length caller.new.seen ≡ most_events_of_run) }
    {
        self.info_at(rt, &mut caller.hand, node)
    }

    /// Ends a race, to which all its callers are handed in: the journal that they leave is legal with the calls that they made.
    pub fn finish<R: Wait>(self, rt: &R, callers: Vec<Caller<N>>) -> Journal
        requires callers { caller_numbers callers.items ≡ range_with_len 0 (length N.plan.threads) }
        ensures founding { result.founding ≡ N.plan.founding }
        ensures legal { IsLegalWithTags N.plan (calls_by callers.items) result.records }
        ensures ends { All (EndsFor result.records) callers.items }
        ensures callers { All (λ r. r.by.caller < length N.plan.threads) result.records }
    {
        let Kernels { wire, boxes, .. } = self;
        let pass = all_places(rt, &wire, boxes);
        let pass = with_callers(&wire, pass, callers);
        wire.close(pass)
    }
}
