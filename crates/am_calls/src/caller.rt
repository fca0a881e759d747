ghost use Rattle.std.specs.Prelude.{◌≡◌, ◌<◌, [], ◌∷◌, length, nat_lt};
ghost use Rattle.am_base.specs.Most.{greatest_word};
ghost use Rattle.am_shared_journal_defs.specs.declared.terms.SharerKey.TheVariants.{Caller as CallerKey};
ghost use Rattle.am_shared_journal_defs.specs.Passes.{fresh};
ghost use Rattle.am_race_laws.specs.Callings.{HasMade, caller_luck_after};
ghost use Rattle.am_race_laws.specs.Lawful.{terms_of};

use crate::naming::Racing;
use am_group::plan::RacePlan;
use am_race_laws::call::Tag;
use am_race_laws::calls::Calls;
use am_shared_journal::wire::Share;
use am_turn_chooser::chooser::Chooser;
use std::marker::{Model, PhantomData};

/// What a caller acts with: its share, and its chooser, which stands after the words that its turns drew.
#[derive(Drop)]
pub struct Hand {
    pub share: Share,
    pub chooser: Chooser,
}

impl Hand {
    /// The hand of a caller that has drawn no word.
    fn new(plan: &RacePlan, number: u32, share: Share) -> Hand
        ensures share { result.share ≡ share }
        ensures chooser { result.chooser ≡ caller_luck_after plan.now number 0 }
    {
        Hand {
            share,
            chooser: Chooser::new(plan.seed_number, u64::from(number), plan.loss, plan.repeat),
        }
    }
}

/// Who makes calls, one after the other. Contracts see it as its number, the calls that it has made, and what it has seen of
/// the journal; of what it has seen, its own records are those of its calls.
#[derive(Drop)]
pub struct Caller<N: Racing> {
    pub(crate) number: u32,
    pub(crate) count: u32,
    pub(crate) calls: Calls,
    pub(crate) hand: Hand,
    race: PhantomData<N>,
}

impl<N: Racing> Model for Caller<N> {
    ghost use Rattle.am_race_laws.specs.Callings.{Calling, IsHand, HasMade};
    ghost use Rattle.std.specs.Prelude.{◌≡◌, length};

    ghost Value = { Calling };

    ghost view = { λ c. record { number = c.number; calls = c.calls; seen = c.hand.share.seen } };

    ghost invariant = { λ c. IsHand N.wire N.plan c.number c.hand.share c.hand.chooser × HasMade N.plan c.number c.calls c.hand.share.seen × (c.count ≡ length c.calls) };
}

impl<N: Racing> Caller<N> {
    /// A caller that has made no call.
    pub fn new(plan: &RacePlan, number: u32, share: Share) -> Caller<N>
        requires plan { plan.now ≡ N.plan }
        requires share { share ≡ fresh N.wire (terms_of N.plan) (CallerKey number) }
        ensures { result ≡ record { number = number; calls = []; seen = [] } }
    {
        let calls = Calls::new();
        let hand = Hand::new(plan, number, share);
        Caller {
            number,
            count: 0,
            calls,
            hand,
            race: PhantomData,
        }
    }

    /// Its number.
    pub fn number(&self) -> u32
        ensures { result ≡ self.now.number }
    {
        self.number
    }

    /// Its next call.
    pub fn next_call(&self) -> Tag
        ensures { result ≡ record { caller = self.now.number; call = length self.now.calls } }
    {
        Tag {
            caller: self.number,
            call: self.count,
        }
    }

    /// Whether it may make a further call: it has made fewer than 4,294,967,295.
    pub fn may_call(&self) -> bool
        ensures { result ≡ nat_lt (length self.now.calls) greatest_word }
    {
        self.count < u32::MAX
    }

    /// Its share alone.
    pub fn into_share(self) -> Share
        ensures own { result.wire ≡ N.wire }
        ensures keys { result.keys ≡ CallerKey self.number ∷ [] }
        ensures seen { result.seen ≡ self.seen }
        ensures made { HasMade N.plan self.number self.calls self.seen }
    {
        self.hand.share
    }

    /// How many calls it has made.
    pub fn calls(&self) -> u32
        ensures { result ≡ length self.now.calls }
    {
        self.count
    }
}
