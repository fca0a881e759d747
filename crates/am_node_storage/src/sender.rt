ghost use Rattle.std.specs.Prelude.{ℕ, List, find, map, IsTrue, ◌≡◌, ◌<◌, ◌≤◌, ◌+◌, length, OnOk, OnErr, IfOk, IfErr, IsOk, ◌↔◌, Some, IfSome, option_map};
ghost use Rattle.std.specs.Option.{option_copied};
ghost use Rattle.am_base.specs.Most.{greatest_number};
ghost use Rattle.am_node_defs.specs.Sends.{no_sends, sends_without_request, send_has_request, request_and_body_of_waiting_send, outcome_of_collecting, unsettled_count, has_settled_send, settle_send, queue_send, settle_request, collect, collect_outcome, next_request, SendsAreWithinLimits};

use am_base::body::{Body, SentBody};
use am_base::outcome::Outcome;
use am_node_defs::sender::OwnSend;
use arrayvec::ArrayVec;
use std::marker::Model;

/// What a send of this request answers.
fn outcome_of(send: &OwnSend, req: u32) -> Outcome
    ensures { result ≡ outcome_of_collecting req send.now.number }
{
    match send.number {
        None => Outcome::Pending { req },
        Some(number) => Outcome::Sent { req, number },
    }
}

/// Too many sends aren't collected.
#[derive(Clone, Copy, PartialEq, Eq, Debug)]
pub struct Busy {
    /// How many there are.
    pub queued: u8,
}

/// A node's sends that aren't collected, at most four, and the last request number that it gave out.
#[derive(Drop)]
pub struct Sender {
    last: u32,
    queue: ArrayVec<OwnSend, 4>,
}

impl Model for Sender {
    ghost use Rattle.am_node_defs.specs.Sends.{Sends, SendsAreWithinLimits};

    ghost Value = { Sends };

    ghost view = { λ s. record { last = s.last; queue = s.queue.items } };

    ghost invariant = { λ s. SendsAreWithinLimits s.last s.queue.items };
}

/// Gives the sends of this request a number.
fn settle_in(queue: &mut [OwnSend], req: u32, number: u32)
    ensures { queue.new ≡ map (settle_send req number) queue.old }
{
    for send in queue.iter_mut() {
        if send.req == req {
            send.number = Some(number);
        }
    }
}

impl Sender {
    /// No sends.
    pub fn new() -> Sender
        ensures { result ≡ no_sends }
    {
        Sender {
            last: 0,
            queue: ArrayVec::new(),
        }
    }

    /// Queues a send and gives its request number, one more than the last. Busy exactly where four sends aren't
    /// collected; then nothing changes.
    pub fn submit(&mut self, body: &SentBody) -> Result<u32, Busy>
        requires { self.old.last < greatest_number }
        ensures variant { IsOk result ↔ (length self.old.queue < 4) }
        ensures number { IfOk result (λ req. req ≡ self.old.last + 1) }
        ensures ok { OnOk result (self.new ≡ queue_send body.now self.old) }
        ensures next { next_request self.new ≡ next_request self.old }
        ensures busy { IfErr result (λ busy. busy.queued ≡ 4) }
        ensures err { OnErr result (self.new ≡ self.old) }
    {
        if self.queue.is_full() {
            return Err(Busy { queued: 4 });
        }
        self.last += 1;
        self.queue.push(OwnSend {
            req: self.last,
            body: body.as_ref().to_body(),
            number: None,
        });
        Ok(self.last)
    }

    /// The last request number that it gave out, 0 where it gave out none.
    pub fn last(&self) -> u32
        ensures value { result ≡ self.now.last }
        ensures within { result ≤ greatest_number }
    {
        self.last
    }

    /// The oldest send that has no number.
    fn first_unsettled(&self) -> Option<(u32, &Body)>
        ensures kept { SendsAreWithinLimits self.now.last self.now.queue }
        ensures value { option_map {U = ℕ × List ℕ} (λ send. (send.0, send.1.now)) result
            ≡ request_and_body_of_waiting_send self.now }
    {
        self.queue
            .as_slice()
            .iter()
            .find(|send| send.number.is_none())
            .map(|send| (send.req, &send.body))
    }

    /// The send that is sent next, the first that isn't settled; None exactly where there is none.
    pub fn waiting(&self) -> Option<(u32, &Body)>
        ensures value { option_map {U = ℕ × List ℕ} (λ send. (send.0, send.1.now)) result
            ≡ request_and_body_of_waiting_send self.now }
        ensures within { IfSome result (λ send. send.0 ≤ greatest_number) }
        ensures kept { SendsAreWithinLimits self.now.last self.now.queue }
    {
        self.first_unsettled()
    }

    /// Settles the send that waits: it stands in the list at this number.
    pub fn settle(&mut self, req: u32, number: u32)
        requires { option_map (λ send. send.0) (request_and_body_of_waiting_send self.old) ≡ Some req }
        ensures value { self.new ≡ settle_request req number self.old }
        ensures next { next_request self.new ≡ req + 1 }
    {
        settle_in(self.queue.as_mut_slice(), req, number);
    }

    /// Whether a send of this request has a number.
    fn has_settled(&self, req: u32) -> bool
        ensures kept { SendsAreWithinLimits self.now.last self.now.queue }
        ensures value { result ≡ has_settled_send req self.now }
    {
        self.queue
            .as_slice()
            .iter()
            .any(|send| send.req == req && send.number.is_some())
    }

    /// Whether a send with this request is there and settled.
    pub fn is_settled(&self, req: u32) -> bool
        ensures value { result ≡ has_settled_send req self.now }
        ensures low { IsTrue result → req < next_request self.now }
    {
        self.has_settled(req)
    }

    /// How many sends aren't settled.
    pub fn unsettled_count(&self) -> u32
        ensures value { result ≡ unsettled_count self.now }
        ensures few { result ≤ 4 }
    {
        self.queue
            .as_slice()
            .iter()
            .filter(|send| send.number.is_none())
            .count() as u32
    }

    /// Answers Sent and removes the send where it is settled, Pending where it isn't, and Unknown where there is none
    /// with this request.
    pub fn collect(&mut self, req: u32) -> Outcome
        ensures answer { result ≡ collect_outcome req self.old }
        ensures rest { self.new ≡ collect req self.old }
        ensures next { next_request self.new ≡ next_request self.old }
    {
        let outcome = self.outcome(req);
        if self.is_settled(req) {
            self.remove(req);
        }
        outcome
    }

    /// The send of a request.
    fn find(&self, req: u32) -> Option<&OwnSend>
        ensures { option_copied result ≡ find (send_has_request req) self.now.queue }
    {
        self.queue.as_slice().iter().find(|send| send.req == req)
    }

    fn outcome(&self, req: u32) -> Outcome
        ensures { result ≡ collect_outcome req self.now }
    {
        match self.find(req) {
            None => Outcome::Unknown,
            Some(send) => outcome_of(send, req),
        }
    }

    /// Forgets the sends of a request.
    fn remove(&mut self, req: u32)
        requires { req < next_request self.old }
        ensures value { self.new ≡ sends_without_request req self.old }
        ensures next { next_request self.new ≡ next_request self.old }
    {
        self.queue.retain(|send| send.req != req);
    }
}
