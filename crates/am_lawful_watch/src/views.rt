ghost use Rattle.std.specs.Prelude.{◌≡◌, map, if◌then◌else◌};
ghost use Rattle.am_model.specs.Node.{founding_stamp};
ghost use Rattle.am_lawful_defs.specs.Watching.{blank_standing, standing_at_start, founders_decided_view, standings_are_alike, watch_decides, new_pending, store_view, number_or_else, place_view};

use am_base::entry::GroupView;
use am_base::founding::Founding;
use am_base::name::{Name, Stamp};
use am_lawful_defs::views::{DecidedView, NameStanding, Pending};
use am_model::status::Status;

/// What a name shows before its first step.
pub fn blank_standing() -> NameStanding
    ensures { result ≡ blank_standing }
{
    NameStanding {
        status: Status::Stranger,
        view: Stamp {
            round: 0,
            by: Name::of_byte(0),
        },
        start: 0,
        from: 0,
    }
}

fn founding_stamp(founding: &Founding) -> Stamp
    ensures { result ≡ founding_stamp founding.now }
{
    Stamp {
        round: 1,
        by: founding.founders().lowest().unwrap_or(Name::of_byte(0)),
    }
}

/// What a name shows before anything happened.
pub fn first_standing(founding: &Founding, name: Name) -> NameStanding
    ensures { result ≡ standing_at_start founding.now name }
{
    if !founding.founders().has(name) {
        return blank_standing();
    }
    NameStanding {
        status: Status::Member,
        view: founding_stamp(founding),
        start: 1,
        from: 0,
    }
}

/// The founders' view.
pub fn first_view(founding: &Founding) -> DecidedView
    ensures { result ≡ founders_decided_view founding.now }
{
    DecidedView {
        number: 1,
        view: GroupView {
            stamp: founding_stamp(founding),
            members: founding.founders(),
            resilience: founding.resilience(),
        },
    }
}

/// Whether two standings are alike in what views ask for.
pub fn is_alike(before: &NameStanding, after: &NameStanding) -> bool
    ensures { result ≡ standings_are_alike before.now after.now }
{
    before.view == after.view
        && before.status.has_departed() == after.status.has_departed()
        && before.from == after.from
        && before.start == after.start
}

/// Whether the name decided a view in this step.
pub fn decides(before: &NameStanding, name: Name, after: &NameStanding) -> bool
    ensures { result ≡ watch_decides before.now name after.now }
{
    before.status.is_member() && after.view.by == name && before.view != after.view
}

/// A view that nobody has stored.
pub fn new_pending(decided: &DecidedView) -> Pending
    ensures { result ≡ new_pending decided.now }
{
    Pending {
        decided: *decided,
        stored: [false; 256],
        number_in_group: None,
    }
}

fn store(v: &mut Pending, name: Name, stamp: &Stamp)
    ensures { v.new ≡ store_view name stamp.now v.old }
{
    if *stamp == v.decided.view.stamp {
        v.stored[usize::from(name.get())] = true;
    }
}

/// The name stored the View of this stamp.
pub fn store_in_each(pending: &mut [Pending], name: Name, stamp: &Stamp)
    ensures { pending.new ≡ map (store_view name stamp.now) pending.old }
{
    for v in pending.iter_mut() {
        store(v, name, stamp);
    }
}

fn number_after(known: Option<u32>, is_it: bool, number: u32) -> Option<u32>
    ensures { result ≡ number_or_else known (if is_it then Some number else None) }
{
    match known {
        Some(known) => Some(known),
        None => { if is_it { Some(number) } else { None } }
    }
}

fn place(v: &mut Pending, number: u32, stamp: &Stamp)
    ensures { v.new ≡ place_view number stamp.now v.old }
{
    let is_it = *stamp == v.decided.view.stamp;
    v.number_in_group = number_after(v.number_in_group, is_it, number);
}

/// The group list goes on by the View of this stamp, which has this number.
pub fn place_in_each(pending: &mut [Pending], number: u32, stamp: &Stamp)
    ensures { pending.new ≡ map (place_view number stamp.now) pending.old }
{
    for v in pending.iter_mut() {
        place(v, number, stamp);
    }
}
