ghost use Rattle.std.specs.Prelude.{◌≡◌, ◌+◌, ◌-◌, ◌<◌, ◌==◌, Some, true, false, nat_lt, take, count_by, ◌||◌, not};
ghost use Rattle.std.specs.List.{list_any};
ghost use Rattle.am_node_parts.specs.Prelude.{NumberIsInRange, EntryIsInRange, fits, IsSetOfNames, names_of, number_is_within_bound, image_of_node, top, node_of};
ghost use Rattle.am_base.specs.declared.outcome.Outcome.{Outcome};
ghost use Rattle.am_model.specs.Receiving.{is_view, bodies_after_stored_entry, acknowledges, store_numbered_entry};
ghost use Rattle.am_node_defs.specs.Kept.{IsKept};
ghost use Rattle.am_node_parts.specs.Replies.{Replies};
ghost use Rattle.am_ordering.specs.Receiving.{Follows};

use crate::receiver::{Told, ack_where};
use am_base::entry::{EntryParts, EntryRef};
use am_base::name::Name;
use am_base::names::Names;
use am_base::outcome::Outcome;
use am_node_parts::parts::Parts;
use am_node_parts::reply::{Reply, quiet, saying};
use am_node_storage::bodies::Pool;
use am_node_storage::log::Log;

/// Whether an entry is a View.
fn is_view(entry: &EntryRef) -> bool
    ensures { result ≡ is_view entry.now }
{
    match entry.parts() {
        EntryParts::View(_) => true,
        EntryParts::Data { .. } => false,
        EntryParts::Join(_) => false,
        EntryParts::Leave(_) => false,
    }
}

/// Whether an entry may not be stored with this number.
fn is_unfit(parts: &Parts, number: u32, entry: &EntryRef) -> bool
    ensures value { result ≡ (is_view entry.now
        || (not (fits (image_of_node (node_of parts.now)) entry.now)
        || not (number_is_within_bound (node_of parts.now) parts.now.core.base number))) }
    ensures start { parts.now.core.base ≡ parts.now.core.log.start }
    ensures kept { IsKept parts.now.core.log (parts.now.core.rules.window + 15) }
{
    let base = parts.base();
    is_view(entry)
        || !parts.fits(entry)
        || number.saturating_sub(base) > u32::from(parts.core.rules.window()) + 15
}

/// The bodies that a stored entry leaves.
fn drop_from(pool: &mut Pool, entry: &EntryRef)
    ensures { pool.new ≡ bodies_after_stored_entry pool.old entry.now }
{
    match entry.parts() {
        EntryParts::Data { from, req, .. } => pool.drop_upto(*from, *req),
        EntryParts::Join(_) => {}
        EntryParts::Leave(_) => {}
        EntryParts::View(_) => {}
    }
}

/// Lets go of the bodies that a stored entry leaves behind.
fn drop_bodies(parts: &mut Parts, entry: &EntryRef)
    ensures { node_of parts.new ≡ record (node_of parts.old)
        { bodies = bodies_after_stored_entry (node_of parts.old).bodies entry.now } }
{
    drop_from(&mut parts.pool, entry);
}

/// How many names of a set stand at lower places than this.
fn lives_below(set: Names, place: u8) -> usize
    requires { place < 16 }
    ensures value { result ≡ count_by (λ life. nat_lt 0 life) (take place set) }
    ensures set { IsSetOfNames set }
{
    let lives = set.each_life();
    lives[..usize::from(place)]
        .iter()
        .filter(|life| 0 < **life)
        .count()
}

/// Whether a name is among so many lowest ones of a set.
fn is_among_lowest(set: Names, count: u8, name: Name) -> bool
    ensures { result ≡ list_any (λ other. other == name) (take count (names_of set)) }
{
    let lower = lives_below(set, name.place());
    set.has(name) && lower < usize::from(count)
}

/// Whether the node is among so many lowest members other than the sequencer.
#[tactic(auto, using(am_node_defs::proofs::Ends::image_top_rules))]
fn acknowledges(parts: &Parts, sequencer: Name) -> bool
    ensures { result ≡ acknowledges (node_of parts.now) sequencer (node_of parts.now) }
{
    let members = parts.core.log.members_after(parts.core.log.top());
    is_among_lowest(
        members.without(sequencer),
        parts.core.log.resilience(),
        parts.core.who,
    )
}

/// Stores the entry that is told next, where it fits, and acknowledges it where that is due. Unfit where it doesn't fit, else
/// Stored.
pub fn store<'a>(parts: &mut Parts, told: Told, entry: &EntryRef) -> Reply<'a>
    requires entry { EntryIsInRange entry.now }
    requires number { NumberIsInRange told.number }
    requires next { told.number ≡ top (node_of parts.old) + 1 }
    requires follows { Follows (node_of parts.old) }
    ensures { (missing : Outcome) → Replies (store_numbered_entry (node_of parts.old) told.sender told.number
        (Some entry.now) missing) result (node_of parts.new) }
{
    if is_unfit(parts, told.number, entry) {
        return quiet(Outcome::Unfit);
    }
    parts.push(entry);
    drop_bodies(parts, entry);
    let ack = ack_where(acknowledges(parts, told.sender), told.sender);
    let number = told.number;
    saying(Outcome::Stored { number }, ack)
}
