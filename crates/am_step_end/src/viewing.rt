ghost use Rattle.std.specs.Prelude.{◌≡◌, ◌<◌, ◌≤◌, ◌+◌, nat_lt, length};
ghost use Rattle.std.specs.Option.{option_copied};
ghost use Rattle.am_node_parts.specs.Prelude.{log_entry_at, other_members, node_of};
ghost use Rattle.am_node_defs.specs.Reports.{reports_of};
ghost use Rattle.am_model.specs.Node.{life_where_name_passes, names_that_pass};
ghost use Rattle.am_model.specs.Ticks.{members_of_view_entry};
ghost use Rattle.am_node_parts.specs.Replies.{letters_with_view};

use crate::notes::result;
use am_base::entry::Entry;
use am_base::name::Name;
use am_base::names::Names;
use am_node_parts::parts::Parts;
use am_node_storage::log::Log;
use am_packet_writer::out_box::OutBox;

/// A life of a place that has reported less than a number as stored, else 0.
fn behind_life(parts: &Parts, number: u32, place: u8, life: u8) -> u8
    requires { (place < 16) × (life ≤ 16) }
    ensures value { result ≡ life_where_name_passes (λ name. nat_lt
        (reports_of parts.now.fronts name).stored number) place life }
    ensures fits { result ≤ 16 }
{
    match Name::of(place, life) {
        None => 0,
        Some(name) => {
            if parts.fronts.of(name).stored < number {
                return life;
            }
            0
        }
    }
}

/// The other members that have reported less than a number as stored.
fn behind(parts: &Parts, number: u32) -> Names
    ensures { result ≡ names_that_pass (λ name. nat_lt (reports_of parts.now.fronts name).stored number)
        (other_members (node_of parts.now)) }
{
    let lives = parts.others().each_life();
    let mut behind = [0; 16];
    for place in 0..16u8 {
        behind[usize::from(place)] = behind_life(parts, number, place, lives[usize::from(place)]);
    }
    Names::of_lives(behind)
}

/// The members that a View names; nobody for another entry.
fn viewed_by(entry: Option<&Entry>) -> Names
    ensures { result ≡ members_of_view_entry (option_copied entry.entry) }
{
    match entry {
        None => Names::empty(),
        Some(entry) => match entry {
            Entry::View(view) => view.members,
            Entry::Data { .. } => Names::empty(),
            Entry::Join(_) => Names::empty(),
            Entry::Leave(_) => Names::empty(),
        },
    }
}

/// The members that the entry of a number names.
fn viewed_at(parts: &Parts, number: u32) -> Names
    ensures { result ≡ members_of_view_entry (log_entry_at parts.now.core.log number) }
{
    viewed_by(parts.core.log.entry(number))
}

/// Tells the last View again to the other members that haven't stored it, as long as it isn't trimmed.
#[tactic(auto, using(am_model::proofs::Letters::with_letter_adds_one))]
pub fn tell_view(parts: &Parts, out: &mut OutBox)
    requires { length out.old < 24 }
    ensures letters { out.new ≡ letters_with_view out.old (node_of parts.now) }
    ensures few { length out.new ≤ length out.old + 1 }
{
    let number = parts.view_number();
    if number <= parts.base() {
        return;
    }
    let to = behind(parts, number);
    let members = viewed_at(parts, number);
    let result = result(parts, number, members, parts.resilience());
    out.put(to, &result);
}
