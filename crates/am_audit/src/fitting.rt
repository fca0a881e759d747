ghost use Rattle.std.specs.Prelude.{◌≡◌};
ghost use Rattle.am_base.specs.Lists.{blank};
ghost use Rattle.am_audit_defs.specs.Verdicts.{bare_entry, founds, first_misfit};
ghost use Rattle.am_audit.specs.Views.{texts_in};

use crate::fields::outline;
use crate::line::Piece;
use am_audit_defs::outline::Outline;
use am_audit_defs::verdict::Verdict;
use am_base::body::Body;
use am_base::entry::Entry;
use am_base::limits::MOST_NUMBER;
use am_node_storage::table::Table;
use am_report::name::are_first;

/// The entry, with nothing as a body.
fn bare_entry(outline: &Outline) -> Entry
    ensures { result ≡ bare_entry outline.now }
{
    match outline {
        Outline::Data { from, req } => Entry::Data {
            from: *from,
            req: *req,
            body: Body::default(),
        },
        Outline::Join(name) => Entry::Join(*name),
        Outline::Leave(name) => Entry::Leave(*name),
        Outline::View(view) => Entry::View(*view),
    }
}

/// Whether it is a view with which a group is founded.
fn founds(outline: &Outline) -> bool
    ensures { result ≡ founds outline.now }
{
    let Outline::View(view) = outline else {
        return false;
    };
    let Some(lowest) = view.members.lowest() else {
        return false;
    };
    if view.stamp.round != 1 || lowest != view.stamp.by {
        return false;
    }
    are_first(view.members) && view.resilience == 0
}

/// The first entry that doesn't fit what stands before it.
pub fn first_misfit(group: &[Piece]) -> Option<Verdict>
    ensures { result ≡ first_misfit 1 blank (texts_in group.now) }
{
    let mut table = Table::blank();
    for at in 0..group.len() {
        let number = at as u32 + 1;
        let Ok(outline) = outline(group[at].text) else {
            return Some(Verdict::Misfit { number });
        };
        let entry = bare_entry(&outline);
        let standing = entry.as_ref();
        let fits = if number == 1 {
            founds(&outline)
        } else {
            number <= MOST_NUMBER && table.fits(&standing)
        };
        if !fits {
            return Some(Verdict::Misfit { number });
        }
        table.apply(number, &standing);
    }
    None
}
