ghost use Rattle.std.specs.Prelude.{◌≡◌, ◌<◌, ◌≤◌, ◌+◌, Some, None, IfSome, true, not, nat_lt, if◌then◌else◌};
ghost use Rattle.am_base.specs.Stamps.{stamp_is_less};
ghost use Rattle.am_base.specs.Votes.{vote_is_less};
ghost use Rattle.am_node_defs.specs.Reports.{lesser_of_options};

use am_base::image::Vote;
use am_base::name::{Name, Stamp};
use am_base::names::Names;
use am_base::outcome::Outcome;
use am_node_storage::fronts::lesser;
use std::marker::Model;

/// Whether a vote is below another: by view, then by top.
fn is_below(vote: &Vote, other: &Vote) -> bool
    ensures { result ≡ vote_is_less vote.now other.now }
{
    if vote.view.is_below(other.view) {
        return true;
    }
    vote.view.round == other.view.round && vote.view.by == other.view.by && vote.top < other.top
}

/// A life where a test holds of its name, else 0.
fn life_where(holds: bool, life: u8) -> u8
    ensures { result ≡ (if holds then life else 0) }
{
    if holds {
        return life;
    }
    0
}

/// The same vote.
fn copy_of(vote: &Vote) -> Vote
    ensures { result ≡ vote.now }
{
    Vote {
        view: vote.view,
        top: vote.top,
        taken: vote.taken,
        members: vote.members,
    }
}

/// A vote with the name that showed it.
#[derive(Drop)]
pub struct Best {
    by: Name,
    vote: Vote,
}

impl Model for Best {
    ghost use Rattle.am_base.specs.Votes.{NamedVote};

    ghost Value = { NamedVote };

    ghost view = { λ b. record { by = b.by; vote = b.vote } };
}

impl Best {
    /// Who showed it.
    pub fn by(&self) -> Name
        ensures { result ≡ self.now.by }
    {
        self.by
    }

    /// The view of the list that it shows.
    pub fn view(&self) -> Stamp
        ensures { result ≡ self.now.vote.view }
    {
        self.vote.view
    }

    /// The members of the list that it shows: whose votes are needed.
    pub fn members(&self) -> Names
        ensures { result ≡ self.now.vote.members }
    {
        self.vote.members
    }
}

/// A node's last ballot (docs/PROTOCOL.md, "A ballot"): its stamp, the least size and the resilience asked for, what each
/// of the 256 names voted, who was given up, and what was last decided on it, or how it ended.
#[derive(Drop)]
pub struct Ballot {
    stamp: Stamp,
    least: u8,
    resilience: u8,
    votes: [Option<Vote>; 256],
    given_up: [bool; 256],
    answer: Outcome,
    is_over: bool,
}

impl Model for Ballot {
    ghost use Rattle.std.specs.Prelude.{◌≡◌, false};
    ghost use Rattle.am_base.specs.Outcomes.{is_outcome_took};
    ghost use Rattle.am_ballots.specs.Kept.{KeptBallot};

    ghost Value = { KeptBallot };

    ghost view = { λ b. record {
      stamp = b.stamp;
      least = b.least;
      resilience = b.resilience;
      votes = b.votes;
      given_up = b.given_up;
      answer = b.answer;
      is_over = b.is_over;
    } };

    ghost invariant = { λ b. is_outcome_took b.answer ≡ false };
}

impl Ballot {
    ghost use Rattle.std.specs.Prelude.{false};
    ghost use Rattle.am_base.specs.Names.{has, name_of_place_and_life, names_of, names_without};
    ghost use Rattle.am_base.specs.Outcomes.{is_outcome_took};
    ghost use Rattle.am_base.specs.Votes.{better_vote_of, best_vote};
    ghost use Rattle.am_node_defs.specs.Reports.{least_of_names};
    ghost use Rattle.am_model.specs.Node.{names_that_pass, life_where_name_passes};
    ghost use Rattle.am_model.specs.Ballots.{overtake_lower_ballot, has_voted, is_waited_for, need_set_without_given_up, taken_number_of_voter, ballot_with_answer, ballot_with_end, new_ballot, ballot_with_vote, ballot_without_voter};
    ghost use Rattle.am_model.specs.Resets.{is_open_ballot, fetches_from};
    ghost use Rattle.am_ballots.specs.Kept.{ballot_of};

    /// A ballot that begins: nobody voted or was given up.
    pub fn new(stamp: Stamp, least: u8, resilience: u8) -> Ballot
        ensures { ballot_of result ≡ new_ballot stamp least resilience }
    {
        Ballot {
            stamp,
            least,
            resilience,
            votes: [None; 256],
            given_up: [false; 256],
            answer: Outcome::Asked,
            is_over: false,
        }
    }

    /// Its stamp.
    pub fn stamp(&self) -> Stamp
        ensures { result ≡ self.now.stamp }
    {
        self.stamp
    }

    /// The least size that was asked for.
    pub fn least(&self) -> u8
        ensures { result ≡ self.now.least }
    {
        self.least
    }

    /// The resilience that was asked for.
    pub fn resilience(&self) -> u8
        ensures { result ≡ self.now.resilience }
    {
        self.resilience
    }

    /// What was last decided on it, or how it ended; Asked where it was never looked at.
    pub fn answer(&self) -> &Outcome
        ensures value { result.now ≡ self.now.answer }
        ensures plain { is_outcome_took result.now ≡ false }
    {
        &self.answer
    }

    /// Whether it has ended.
    pub fn is_over(&self) -> bool
        ensures { result ≡ self.now.is_over }
    {
        self.is_over
    }

    /// Whether it is an unfinished ballot of this stamp.
    pub fn is_open(&self, stamp: Stamp) -> bool
        ensures { result ≡ is_open_ballot stamp (ballot_of self.now) }
    {
        !self.is_over && self.stamp.round == stamp.round && self.stamp.by == stamp.by
    }

    /// A stamp is promised: an unfinished ballot of a lower stamp ends, overtaken by it.
    pub fn overtake(&mut self, by: Stamp)
        ensures { Some (ballot_of self.new) ≡ overtake_lower_ballot by (Some (ballot_of self.old)) }
    {
        let (round, name) = (by.round, by.by);
        if !self.is_over && self.stamp.is_below(by) {
            self.answer = Outcome::Overtaken {
                by: Stamp { round, by: name },
            };
            self.is_over = true;
        }
    }

    /// The ballot goes on, and this was decided on it.
    pub fn go_on(&mut self, answer: &Outcome)
        requires { is_outcome_took answer.now ≡ false }
        ensures { ballot_of self.new ≡ ballot_with_answer (ballot_of self.old) answer.now }
    {
        self.answer = answer.copy();
        self.is_over = false;
    }

    /// The ballot ends with this.
    pub fn end(&mut self, answer: &Outcome)
        requires { is_outcome_took answer.now ≡ false }
        ensures { ballot_of self.new ≡ ballot_with_end (ballot_of self.old) answer.now }
    {
        self.answer = answer.copy();
        self.is_over = true;
    }

    /// Keeps a vote, in place of an older one of this name.
    pub fn keep(&mut self, name: Name, vote: &Vote)
        ensures { ballot_of self.new ≡ ballot_with_vote (ballot_of self.old) name vote.now }
    {
        self.votes[usize::from(name.get())] = Some(copy_of(vote));
    }

    /// Gives up a name: its vote is dropped.
    pub fn give_up(&mut self, name: Name)
        ensures { ballot_of self.new ≡ ballot_without_voter (ballot_of self.old) name }
    {
        self.votes[usize::from(name.get())] = None;
        self.given_up[usize::from(name.get())] = true;
    }

    /// Whether a name was given up.
    pub fn has_given_up(&self, name: Name) -> bool
        ensures { result ≡ (ballot_of self.now).given_up name }
    {
        self.given_up[usize::from(name.get())]
    }

    /// Whether a name has voted, as the coordinator always has.
    pub fn has_voted(&self, coordinator: Name, name: Name) -> bool
        ensures { result ≡ has_voted coordinator (ballot_of self.now) name }
    {
        name == coordinator || self.votes[usize::from(name.get())].is_some()
    }

    /// Whether the coordinator answers to this name's pieces: it fetches from it.
    pub fn fetches_from(&self, name: Name) -> bool
        ensures { result ≡ fetches_from self.now.answer name }
    {
        match &self.answer {
            Outcome::Fetching { from, .. } => *from == name,
            _ => false,
        }
    }

    /// The better of the best so far and a name's vote; the earlier where neither is greater.
    fn better(&self, best: Best, name: Name) -> Best
        ensures { result ≡ better_vote_of best name ((ballot_of self.now).votes name) }
    {
        match &self.votes[usize::from(name.get())] {
            None => best,
            Some(vote) => {
                if is_below(&best.vote, vote) {
                    return Best {
                        by: name,
                        vote: copy_of(vote),
                    };
                }
                best
            }
        }
    }

    #[tactic(auto, using(crate::proofs::Votes::best_vote_rules))]
    /// The best of the kept votes and the coordinator's own: the greatest, of the coordinator where it is among them, else
    /// of the lowest name.
    pub fn best(&self, coordinator: Name, own: &Vote) -> Best
        ensures { result ≡ best_vote (ballot_of self.now).votes coordinator own.now }
    {
        let mut best = Best {
            by: coordinator,
            vote: copy_of(own),
        };
        for rank in 0..256u16 {
            best = self.better(best, Name::of_byte((rank / 16 + 16 * (rank % 16)) as u8));
        }
        best
    }

    /// A life of a place that isn't given up, else 0.
    fn left_life(&self, place: u8, life: u8) -> u8
        requires { (place < 16) × (life ≤ 16) }
        ensures value { result ≡ life_where_name_passes (λ name. not ((ballot_of self.now).given_up name)) place
            life }
        ensures fits { result ≤ 16 }
    {
        match Name::of(place, life) {
            None => 0,
            Some(name) => life_where(!self.has_given_up(name), life),
        }
    }

    /// The names of a set that weren't given up.
    pub fn left_in(&self, needed: Names) -> Names
        ensures { result ≡ need_set_without_given_up (ballot_of self.now) needed }
    {
        let lives = needed.each_life();
        let mut left = [0; 16];
        for place in 0..16u8 {
            left[usize::from(place)] = self.left_life(place, lives[usize::from(place)]);
        }
        Names::of_lives(left)
    }

    /// A life of a place that hasn't voted, else 0.
    fn silent_life(&self, coordinator: Name, place: u8, life: u8) -> u8
        requires { (place < 16) × (life ≤ 16) }
        ensures value { result ≡ life_where_name_passes (λ name. not
            (has_voted coordinator (ballot_of self.now) name)) place life }
        ensures fits { result ≤ 16 }
    {
        match Name::of(place, life) {
            None => 0,
            Some(name) => life_where(!self.has_voted(coordinator, name), life),
        }
    }

    /// The names of a set that haven't voted.
    fn silent_in(&self, coordinator: Name, needed: Names) -> Names
        ensures { result ≡ names_that_pass (λ name. not (has_voted coordinator (ballot_of self.now) name))
            needed }
    {
        let lives = needed.each_life();
        let mut silent = [0; 16];
        for place in 0..16u8 {
            silent[usize::from(place)] = self.silent_life(
                coordinator,
                place,
                lives[usize::from(place)],
            );
        }
        Names::of_lives(silent)
    }

    /// The names of a set that have neither voted nor been given up.
    pub fn waited_for(&self, coordinator: Name, needed: Names) -> Names
        ensures { result ≡ names_that_pass (is_waited_for coordinator (ballot_of self.now)) needed }
    {
        self.left_in(self.silent_in(coordinator, needed))
    }

    /// The names of a set that another doesn't have, and that haven't voted.
    pub fn newly_needed(&self, coordinator: Name, needed: Names, before: Names) -> Names
        ensures { result ≡ names_that_pass (λ name. not (has_voted coordinator (ballot_of self.now) name))
            (names_without needed before) }
    {
        self.silent_in(coordinator, needed.minus(before))
    }

    /// How far a voter has taken the list, the coordinator this far; 0 where it hasn't voted.
    fn taken_by(&self, coordinator: Name, taken: u32, name: Name) -> u32
        ensures { result ≡ taken_number_of_voter coordinator taken (ballot_of self.now) name }
    {
        if name == coordinator {
            return taken;
        }
        match &self.votes[usize::from(name.get())] {
            None => 0,
            Some(vote) => vote.taken,
        }
    }

    /// How far the name of a place and a life has taken the list, where there is such a name.
    fn taken_at(&self, coordinator: Name, taken: u32, place: u8, life: u8) -> Option<u32>
        requires { (place < 16) × (life ≤ 16) }
        ensures { result ≡ (if nat_lt 0 life then Some
            (taken_number_of_voter coordinator taken (ballot_of self.now) (name_of_place_and_life place life)) else None) }
    {
        match Name::of(place, life) {
            None => None,
            Some(name) => Some(self.taken_by(coordinator, taken, name)),
        }
    }

    /// The least that the names of a set have taken, the coordinator this much; None exactly where the set is empty.
    #[tactic(auto, using(am_node_defs::proofs::ReportLaws::least_of_rules))]
    pub fn least_taken(&self, coordinator: Name, taken: u32, names: Names) -> Option<u32>
        ensures value { result ≡ least_of_names (taken_number_of_voter coordinator taken (ballot_of self.now))
            (names_of names) }
        ensures own { has names coordinator ≡ true → IfSome result (λ least. least ≤ taken) }
    {
        let lives = names.each_life();
        let mut least = None;
        for place in 0..16u8 {
            least = lesser(
                least,
                self.taken_at(coordinator, taken, place, lives[usize::from(place)]),
            );
        }
        least
    }
}
