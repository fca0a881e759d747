//! The rule of the table on which a wire stands, and what its steps tell.
ghost use Rattle.std.specs.Prelude.{[], ◌∷◌, ◌++◌, false, take, drop};
ghost use Rattle.am_shared_journal_defs.specs.Keys.{all_keys};
ghost use Rattle.am_shared_journal_defs.specs.Sights.{longer_list};
ghost use Rattle.am_shared_journal.specs.Seats.{Stands, seat_view, take_step, count_step, give_step, look_step, no_terms};

use crate::sheet::Sheet;
use am_group::event::Record;
use am_shared_journal_defs::terms::{SharerKey, Terms};
use atomic_table::{Join, Play, Split, TableRule};
use std::collections::LinkedList;
use std::marker::PhantomData;

/// Which record may come next after others, by the terms of a wire. Each record of the wire's journal does.
pub trait Law: Send + Sync {
    ghost use Rattle.std.specs.Prelude.{List};
    ghost use Rattle.am_group.specs.declared.event.Record.{Record};
    ghost use Rattle.am_shared_journal_defs.specs.declared.terms.Terms.{Terms};

    ghost next: { Terms → List Record → Record → Type 0 };
}

/// What a seat had seen of the journal when another joined it, and the keys that it had. No value of it is made.
pub struct Sight {
    pub keys: LinkedList<SharerKey>,
    pub seen: LinkedList<Record>,
}

/// What a seat knows: the wire's terms, its keys, what it has seen of the journal, what it and another had seen
/// before they were joined, and whether it has the turn. No value of it is made.
pub struct SeatView {
    pub terms: Terms,
    pub keys: LinkedList<SharerKey>,
    pub seen: LinkedList<Record>,
    pub older: LinkedList<Sight>,
    pub turn: bool,
}

/// There is one journal, of which each record comes next.
pub struct OneJournal<L: Law>(PhantomData<L>);

impl<L: Law> TableRule<Sheet, SeatView, Terms> for OneJournal<L> {
    ghost holds = { Stands L.next };

    ghost first = { λ terms. seat_view terms (all_keys terms.callers) [] [] false };
}

/// Takes the slot.
pub struct Take<L: Law>(PhantomData<L>);

impl<L: Law> Play<Sheet, SeatView> for Take<L> {
    ghost then = { take_step L.next };
}

/// Counts a record more.
pub struct Count;

impl Play<Sheet, SeatView> for Count {
    ghost then = { count_step };
}

/// Gives the slot back.
pub struct Give;

impl Play<Sheet, SeatView> for Give {
    ghost then = { give_step };
}

/// Looks at the count.
pub struct CountLook<L: Law>(PhantomData<L>);

impl<L: Law> Play<Sheet, SeatView> for CountLook<L> {
    ghost then = { look_step L.next };
}

/// A new seat gets the first key.
pub struct FirstKey;

impl Split<SeatView> for FirstKey {
    ghost left = { λ v. seat_view v.terms (drop 1 v.keys) v.seen v.older v.turn };

    ghost right = { λ v. seat_view v.terms (take 1 v.keys) v.seen [] false };
}

/// One seat gets the keys of both, and has seen the longer of what they had seen.
pub struct Together;

impl Join<SeatView> for Together {
    ghost use Rattle.am_shared_journal.specs.Seats.{sight_of};

    ghost both = { λ v w. seat_view v.terms (w.keys ++ v.keys) (longer_list v.seen w.seen) (sight_of v ∷ sight_of w ∷ []) false };

    ghost spent = { seat_view no_terms [] [] [] false };
}
