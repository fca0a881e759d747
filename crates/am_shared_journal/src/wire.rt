ghost use Rattle.std.specs.Prelude.{◌≡◌, ◌+◌, ◌*◌, ◌<◌, ◌≤◌, ◌↔◌, [], ◌∷◌, false, length, take, drop, map, All, IfOk, IfErr, IfSome, OnOk, OnErr};
ghost use Rattle.am_base.specs.Most.{most_events_of_run};
ghost use Rattle.am_base.specs.Names.{place_of_name};
ghost use Rattle.am_group.specs.Addressed.{next_for};
ghost use Rattle.am_group.specs.Journals.{letters_of_records, letter_at};
ghost use Rattle.am_shared_journal_defs.specs.declared.terms.SharerKey.TheVariants.{Place, Caller};
ghost use Rattle.am_shared_journal_defs.specs.declared.terms.WireRefusal.TheVariants as refusals;
ghost use Rattle.am_shared_journal_defs.specs.Keys.{place_keys, caller_keys, all_keys, times};
ghost use Rattle.am_shared_journal_defs.specs.Stops.{stopped_names};
ghost use Rattle.am_shared_journal_defs.specs.Sights.{EachComesNext, longer_list};
ghost use Rattle.am_shared_journal_defs.specs.Passes.{HasEachKey, Sees, Joined, IsReady, Committed, Gathered, fresh};
ghost use Rattle.am_shared_journal.specs.Seats.{SeatIsIdle, HasTurn, SeatTakes, Unites, Parts, AddsRecord, seat_view};
ghost use Rattle.am_shared_journal.specs.Wires.{OneSeatRests, known_by};

use crate::rule::{Count, CountLook, FirstKey, Give, Law, OneJournal, SeatView, Take, Together};
use crate::sheet::Sheet;
use am_base::NoMemory;
use am_base::limits::MOST_EVENTS;
use am_base::name::Name;
use am_base::names::Names;
use am_group::event::Record;
use am_journal::journal::Journal;
use am_packet::letter::LetterCopy;
use am_shared_journal_defs::terms::{Terms, WireRefusal};
use atomic_table::{Badge, Seat, Table};
use std::alloc::{AllocError, Global};
use std::marker::Model;
use std::sync::Wait;
use std::{mem, thread};

type TableSeat = Seat<Sheet, SeatView>;

/// The one journal of a race, of which each pass has seen a beginning. Each of its records comes next after those before it,
/// by the law `L`. Contracts see it as which wire it is, and its terms.
#[derive(Drop)]
pub struct SharedJournal<L: Law> {
    table: Table<Sheet, SeatView, Terms, OneJournal<L>, Global>,
}

impl<L: Law> Model for SharedJournal<L> {
    ghost use Rattle.std.specs.Prelude.{◌≡◌};
    ghost use Rattle.am_shared_journal.specs.Wires.{WireLine};

    ghost Value = { WireLine };

    ghost view = { λ w. record { id = w.table.shared.table_id; terms = w.table.shared.key } };

    ghost invariant = { λ w. (w.table.shared.table_id.words ≡ 2) × (w.table.shared.table_id.slots ≡ 1) };
}

/// What one thread at a time knows of the journal: what it has seen of it, and all records of its keys. Contracts see it
/// so, with the wire that it is of.
#[derive(Drop)]
pub struct Pass {
    badge: Badge<SeatView>,
}

impl Model for Pass {
    ghost use Rattle.am_shared_journal_defs.specs.Passes.{Known};
    ghost use Rattle.am_shared_journal.specs.Wires.{known_by, OneSeatRests};

    ghost Value = { Known };

    ghost view = { λ p. known_by p.badge.table_id p.badge.views };

    ghost invariant = { λ p. OneSeatRests p.badge.views };
}

/// The pass of a caller: its one key is that caller's.
pub type Share = Pass;

/// Takes the seat of a pass out.
fn seat_in(badge: &mut Badge<SeatView>) -> TableSeat
    requires { OneSeatRests badge.old.views }
    ensures wire { result.table_id ≡ badge.old.table_id }
    ensures one { badge.old.views ≡ result.me.0 ∷ [] }
    ensures empty { result.me.1 ≡ [] }
{
    mem::replace(badge, Badge::blank()).into_seat()
}

impl Pass {
    /// The pass of a seat that has keys.
    fn of(seat: TableSeat) -> Pass
        requires idle { SeatIsIdle seat.me }
        requires keyed { 0 < length seat.me.0.keys }
        ensures { result ≡ known_by seat.table_id (seat.me.0 ∷ []) }
    {
        Pass {
            badge: seat.into_badge(),
        }
    }
}

impl<L: Law> SharedJournal<L> {
    /// Makes the table. Its first seat has all keys.
    fn new(alloc: Global, terms: &Terms) -> Result<(SharedJournal<L>, TableSeat), NoMemory>
        ensures wire { IfOk result (λ r. r.0.terms ≡ terms.now) }
        ensures seat { IfOk result (λ r. (r.1.table_id ≡ r.0.id)
            × (r.1.me ≡ (seat_view terms.now (all_keys terms.now.callers) [] [] false, []))) }
    {
        let mut slots = Vec::new(alloc);
        slots.push(Sheet::new(alloc, &terms.founding))?;
        match Table::new(alloc, &[0, 0], slots, terms) {
            Ok((table, seat)) => Ok((SharedJournal { table }, seat)),
            Err(_) => Err(AllocError),
        }
    }

    /// Takes the slot, and sees all of the journal.
    fn take<R: Wait>(&self, rt: &R, seat: &mut TableSeat)
        requires own { seat.old.table_id ≡ self.now.id }
        requires idle { SeatIsIdle seat.old.me }
        requires keyed { 0 < length seat.old.me.0.keys }
        ensures same { seat.new.table_id ≡ seat.old.table_id }
        ensures takes { SeatTakes L.next seat.old.me seat.new.me }
    {
        // It waits as long as another thread has the turn. Each gives it back after one record or one look, but no proof says that it
        // runs, so there is no bound.
        for _ in rt.forever() {
            if self.table.shared.compare_exchange::<Take<L>>(seat, 0, 0, 1) == 0 {
                return;
            }
            thread::yield_now();
        }
        unreachable!()
    }

    /// Gives the slot back.
    fn give(&self, seat: &mut TableSeat)
        requires own { seat.old.table_id ≡ self.now.id }
        requires turn { HasTurn seat.old.me }
        ensures same { seat.new.table_id ≡ seat.old.table_id }
        ensures gave { seat.new.me ≡ (
          seat_view seat.old.me.0.terms seat.old.me.0.keys seat.old.me.0.seen
              [] false,
          [],
        ) }
    {
        self.table.shared.store::<Give>(seat, 0, 0);
    }

    /// A seat gets another's keys, and sees what either had seen.
    fn unite(&self, seat: &mut TableSeat, other: TableSeat)
        requires own { (seat.old.table_id ≡ self.now.id) × (other.table_id ≡ self.now.id) }
        requires idle { SeatIsIdle seat.old.me × SeatIsIdle other.me }
        requires keyed { 0 < length seat.old.me.0.keys }
        ensures same { seat.new.table_id ≡ seat.old.table_id }
        ensures unites { Unites L.next seat.old.me.0 other.me.0 seat.new.me }
    {
        self.table.shared.join_seat::<Together>(seat, other);
        self.table.shared.load::<CountLook<L>>(seat, 1);
    }

    /// Splits off a seat with the first key.
    fn part(&self, seat: &mut TableSeat) -> TableSeat
        requires own { seat.old.table_id ≡ self.now.id }
        requires idle { SeatIsIdle seat.old.me }
        ensures same { (seat.new.table_id ≡ seat.old.table_id)
            × (result.table_id ≡ seat.old.table_id) }
        ensures parts { Parts seat.old.me seat.new.me result.me }
    {
        self.table.shared.split_seat::<FirstKey>(seat)
    }

    /// Adds a record with the turn, and answers its number.
    fn add(&self, seat: &mut TableSeat, item: Record) -> Result<u32, WireRefusal>
        requires own { seat.old.table_id ≡ self.now.id }
        requires turn { HasTurn seat.old.me }
        requires most { length seat.old.me.0.seen ≤ most_events_of_run }
        requires place { 0 < times (Place (place_of_name item.event.node)) seat.old.me.0.keys }
        requires caller { 0 < times (Caller item.by.caller) seat.old.me.0.keys }
        requires few { length item.packets ≤ 24 }
        requires next { L.next seat.old.me.0.terms seat.old.me.0.seen item }
        ensures same { seat.new.table_id ≡ seat.old.table_id }
        ensures ok { OnOk result (AddsRecord seat.old.me item seat.new.me) }
        ensures number { IfOk result (λ n. n ≡ length seat.old.me.0.seen + 1) }
        ensures room { OnOk result (length seat.old.me.0.seen < most_events_of_run) }
        ensures err { OnErr result (seat.new.me ≡ seat.old.me) }
        ensures spent { IfErr result (λ e. e ≡ refusals.Spent
            ↔ (length seat.old.me.0.seen ≡ most_events_of_run)) }
    {
        let sheet = seat.slot_mut(&self.table.shared, 0);
        let count = sheet.len();
        if count >= MOST_EVENTS {
            return Err(WireRefusal::Spent);
        }
        if sheet.add(item).is_err() {
            return Err(WireRefusal::NoMemory);
        }
        self.table.shared.fetch_add::<Count>(seat, 1, 1);
        Ok(count as u32 + 1)
    }

    /// Splits off passes with the first keys, one for each.
    fn deal(&self, alloc: Global, seat: &mut TableSeat, count: usize) -> Result<Vec<Pass>, NoMemory>
        requires own { seat.old.table_id ≡ self.now.id }
        requires idle { SeatIsIdle seat.old.me }
        requires unseen { seat.old.me.0.seen ≡ [] }
        requires count { count ≤ length seat.old.me.0.keys }
        ensures passes { IfOk result (λ v. v.items
            ≡ map (fresh self.now.id seat.old.me.0.terms) (take count seat.old.me.0.keys)) }
        ensures same { seat.new.table_id ≡ seat.old.table_id }
        ensures idle { SeatIsIdle seat.new.me }
        ensures unseen { seat.new.me.0.seen ≡ [] }
        ensures terms { seat.new.me.0.terms ≡ seat.old.me.0.terms }
        ensures keys { OnOk result (seat.new.me.0.keys ≡ drop count seat.old.me.0.keys) }
    {
        let mut passes = Vec::new(alloc);
        for _done in 0..count {
            let other = self.part(seat);
            passes.push(Pass::of(other))?;
        }
        Ok(passes)
    }

    /// The wire of these terms, with a pass for each of the sixteen places and a share for each caller. None has seen a
    /// record.
    pub fn start(
        alloc: Global,
        terms: &Terms,
    ) -> Result<(SharedJournal<L>, Vec<Pass>, Vec<Share>), NoMemory>
        ensures wire { IfOk result (λ r. r.0.terms ≡ terms.now) }
        ensures passes { IfOk result (λ r. r.1.items ≡ map (fresh r.0.id terms.now) place_keys) }
        ensures shares { IfOk result (λ r. r.2.items
            ≡ map (fresh r.0.id terms.now) (caller_keys terms.now.callers)) }
    {
        let (wire, mut seat) = SharedJournal::new(alloc, terms)?;
        let passes = wire.deal(alloc, &mut seat, 16)?;
        let shares = wire.deal(alloc, &mut seat, terms.callers as usize)?;
        Ok((wire, passes, shares))
    }

    /// A pass gets the keys of another, and sees what either had seen.
    pub fn join(&self, pass: &mut Pass, other: Pass)
        requires own { (pass.old.wire ≡ self.now.id) × (other.wire ≡ self.now.id) }
        ensures { Joined pass.old other pass.new }
    {
        let Pass { badge } = other;
        let mut seat = seat_in(&mut pass.badge);
        self.unite(&mut seat, badge.into_seat());
        pass.badge = seat.into_badge();
    }

    /// A pass gets the keys of several others, and sees what any of them had seen.
    pub fn gather(&self, pass: &mut Pass, others: Vec<Pass>)
        requires own { (pass.old.wire ≡ self.now.id)
            × All (λ p. p.wire ≡ self.now.id) others.items }
        ensures wire { pass.new.wire ≡ pass.old.wire }
        ensures gathered { Gathered (pass.old ∷ others.items) pass.new }
    {
        for other in others {
            self.join(pass, other);
        }
    }

    /// A pass and a share see the longer of what they had seen.
    pub fn meet(&self, pass: &mut Pass, share: &mut Share)
        requires own { (pass.old.wire ≡ self.now.id) × (share.old.wire ≡ self.now.id) }
        requires terms { share.old.terms ≡ pass.old.terms }
        requires one { length share.old.keys ≡ 1 }
        ensures pass { Sees pass.old pass.new }
        ensures share { Sees share.old share.new }
        ensures longer { pass.new.seen ≡ longer_list pass.old.seen share.old.seen }
        ensures lawful { EachComesNext (L.next pass.old.terms) pass.new.seen }
        ensures both { share.new.seen ≡ pass.new.seen }
        ensures few { length pass.new.seen ≤ most_events_of_run }
    {
        let mut seat = seat_in(&mut pass.badge);
        self.unite(&mut seat, seat_in(&mut share.badge));
        share.badge = self.part(&mut seat).into_badge();
        pass.badge = seat.into_badge();
    }

    /// Adds a record, and answers its number, from 1. The pass is that of the record's place and the share that of its
    /// caller; whatever others have added since, the record comes next by the law. After a refusal the journal is as it was, and the record is dropped; Spent comes exactly where the
    /// journal, which both have then seen, has 100,000 records.
    pub fn commit<R: Wait>(
        &self,
        rt: &R,
        pass: &mut Pass,
        share: &mut Share,
        item: Record,
    ) -> Result<u32, WireRefusal>
        requires ready { IsReady (L.next pass.old.terms) self.now.id pass.old share.old item }
        ensures ok { IfOk result (λ n. Committed
            (L.next pass.old.terms) pass.old share.old item n pass.new share.new) }
        ensures err { OnErr result (Sees pass.old pass.new × Sees share.old share.new) }
        ensures lawful { EachComesNext (L.next pass.old.terms) pass.new.seen }
        ensures both { share.new.seen ≡ pass.new.seen }
        ensures spent { IfErr result (λ e. e ≡ refusals.Spent
            ↔ (length pass.new.seen ≡ most_events_of_run)) }
    {
        let mut seat = seat_in(&mut pass.badge);
        self.unite(&mut seat, seat_in(&mut share.badge));
        self.take(rt, &mut seat);
        let added = self.add(&mut seat, item);
        self.give(&mut seat);
        share.badge = self.part(&mut seat).into_badge();
        pass.badge = seat.into_badge();
        added
    }

    /// A letter of the journal by its number, from 1; None exactly where the journal that the pass has then seen has none.
    pub fn read<R: Wait>(&self, rt: &R, pass: &mut Pass, number: u32) -> Option<LetterCopy>
        requires own { pass.old.wire ≡ self.now.id }
        ensures sees { Sees pass.old pass.new }
        ensures letter { result ≡ letter_at (letters_of_records pass.new.seen) number }
        ensures lawful { EachComesNext (L.next pass.old.terms) pass.new.seen }
    {
        let mut seat = seat_in(&mut pass.badge);
        self.take(rt, &mut seat);
        let letter = seat.slot_mut(&self.table.shared, 0).letter(number);
        self.give(&mut seat);
        pass.badge = seat.into_badge();
        letter
    }

    /// The least number above another of a letter that is for this name; None exactly where the journal that the pass has
    /// then seen has none.
    pub fn next_for<R: Wait>(&self, rt: &R, pass: &mut Pass, node: Name, after: u32) -> Option<u32>
        requires own { pass.old.wire ≡ self.now.id }
        ensures sees { Sees pass.old pass.new }
        ensures value { result ≡ next_for (letters_of_records pass.new.seen) node after }
        ensures lawful { EachComesNext (L.next pass.old.terms) pass.new.seen }
    {
        let mut seat = seat_in(&mut pass.badge);
        self.take(rt, &mut seat);
        let next = seat.slot_mut(&self.table.shared, 0).next_for(node, after);
        self.give(&mut seat);
        pass.badge = seat.into_badge();
        next
    }

    /// The names that stopped in the journal that the pass has then seen.
    pub fn stopped_names<R: Wait>(&self, rt: &R, pass: &mut Pass) -> Names
        requires own { pass.old.wire ≡ self.now.id }
        ensures sees { Sees pass.old pass.new }
        ensures value { result ≡ stopped_names pass.new.seen }
        ensures lawful { EachComesNext (L.next pass.old.terms) pass.new.seen }
    {
        let mut seat = seat_in(&mut pass.badge);
        self.take(rt, &mut seat);
        let stopped = seat.slot_mut(&self.table.shared, 0).stopped_names();
        self.give(&mut seat);
        pass.badge = seat.into_badge();
        stopped
    }

    /// The journal as it stands at the end: the pass that has all keys has seen all of it.
    pub fn close(self, pass: Pass) -> Journal
        requires own { pass.wire ≡ self.id }
        requires all { HasEachKey self.terms.callers pass.keys }
        ensures founding { result.founding ≡ self.terms.founding }
        ensures records { result.records ≡ pass.seen }
        ensures callers { All (λ r. r.by.caller < self.terms.callers) pass.seen }
        ensures lawful { EachComesNext (L.next self.terms) pass.seen }
    {
        let Pass { badge } = pass;
        let seat = badge.into_seat();
        let SharedJournal { table } = self;
        let mut closed = table.close_with(seat);
        let sheet: Sheet = closed.take(0);
        closed.free();
        sheet.into_journal()
    }
}
