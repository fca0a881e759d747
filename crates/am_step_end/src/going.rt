ghost use Rattle.std.specs.Prelude.{◌≡◌};
ghost use Rattle.am_node_defs.specs.Reports.{reports_of};
ghost use Rattle.am_model.specs.Joining.{leaver_may_go};
ghost use Rattle.am_node_parts.specs.Prelude.{node_of};
ghost use Rattle.am_step_end.specs.Going.{is_stored};

use am_base::name::Name;
use am_base::names::Names;
use am_node_parts::parts::Parts;
use am_node_storage::fronts::Fronts;

/// Whether there is a Leave of this number that is accepted, and that all names of a set have stored.
fn is_stored(fronts: &Fronts, accepted: u32, left: u32, names: Names) -> bool
    ensures { result ≡ is_stored (reports_of fronts.now) accepted left names }
{
    if left == 0 || accepted < left {
        return false;
    }
    match fronts.least_stored(names) {
        None => true,
        Some(least) => left <= least,
    }
}

/// Whether a leaver may go: its Leave is accepted, and everybody else who is concerned has stored it.
pub fn may_go(parts: &Parts, name: Name) -> bool
    ensures { result ≡ leaver_may_go (node_of parts.now) name }
{
    let left = parts.row(name).left;
    let accepted = parts.accept_front();
    let others = parts.core.since_accepted().without(name);
    is_stored(&parts.fronts, accepted, left, others)
}
