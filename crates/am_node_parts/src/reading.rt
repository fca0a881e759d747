ghost use Rattle.std.specs.Prelude.{◌≡◌, ◌≤◌, ◌<◌, ◌+◌, length, max, not, IsTrue};
ghost use Rattle.am_node_parts.specs.Prelude.{greatest_number, NumberIsInRange, RowIsInRange, StampIsInRange, CoreFrontsAreInOrder, row_at_place, top_of_log, fits, has_own_leave, is_member, number_is_within_bound, stamps_are_equal, other_members, image_of_node, top, view, TellsAlike, node_of};
ghost use Rattle.am_base.specs.declared.outcome.Outcome.TheVariants as said;
ghost use Rattle.am_base.specs.Limits.{ReportIsInRange};
ghost use Rattle.am_node_defs.specs.Kept.{IsKept};
ghost use Rattle.am_model.specs.Node.{has_room, own_report_of, report_fits};
ghost use Rattle.am_model.specs.Sequencing.{row_of_name_in_list, has_no_join};

use crate::parts::Parts;
use am_base::entry::EntryRef;
use am_base::image::{Report, Row};
use am_base::name::{Name, Stamp};
use am_base::names::Names;
use am_base::outcome::Outcome;
use am_model::status::Status;
use am_node_storage::log::Log;

impl Parts {
    /// The node's name.
    pub fn name(&self) -> Name
        ensures value { result ≡ self.now.core.who }
        ensures order { CoreFrontsAreInOrder self.now.core }
    {
        self.core.who
    }

    /// The greatest stamp that it has promised to.
    pub fn promise(&self) -> Stamp
        ensures value { result ≡ self.now.core.promise }
        ensures within { StampIsInRange result }
        ensures order { CoreFrontsAreInOrder self.now.core }
    {
        self.core.promise
    }

    /// How it stands to its group.
    pub fn status(&self) -> Status
        ensures { result ≡ self.now.status }
    {
        self.status
    }

    /// Whether it is a member by its status.
    pub fn is_member(&self) -> bool
        ensures { result ≡ is_member self.now.status }
    {
        self.status.is_member()
    }

    /// Whether it is leaving.
    pub fn is_leaving(&self) -> bool
        ensures { result ≡ self.now.leaving }
    {
        self.leaving
    }

    /// The number from which on it is a member.
    pub fn start(&self) -> u32
        ensures { result ≡ self.now.core.start }
    {
        self.core.start
    }

    /// The number up to which its list is trimmed.
    pub fn base(&self) -> u32
        ensures value { result ≡ self.now.core.base }
        ensures within { NumberIsInRange result }
        ensures start { self.now.core.base ≡ self.now.core.log.start }
        ensures kept { IsKept self.now.core.log (self.now.core.rules.window + 15) }
        ensures order { CoreFrontsAreInOrder self.now.core }
    {
        self.core.log.base()
    }

    /// The number of its last entry.
    pub fn top(&self) -> u32
        ensures value { result ≡ top_of_log self.now.core.log }
        ensures within { result ≤ greatest_number }
        ensures kept { IsKept self.now.core.log (self.now.core.rules.window + 15) }
        ensures order { CoreFrontsAreInOrder self.now.core }
    {
        self.core.log.top()
    }

    /// The number up to which its application has taken the list.
    pub fn taken(&self) -> u32
        ensures value { result ≡ self.now.core.taken }
        ensures order { CoreFrontsAreInOrder self.now.core }
    {
        self.core.taken
    }

    /// The stamp of the last View.
    pub fn view(&self) -> Stamp
        ensures value { result ≡ view (node_of self.now) }
        ensures within { StampIsInRange result }
    {
        self.core.log.view()
    }

    /// Whether this is the view.
    pub fn has_view(&self, stamp: Stamp) -> bool
        ensures { result ≡ stamps_are_equal (view (node_of self.now)) stamp }
    {
        self.core.log.view() == stamp
    }

    /// The number of the last View.
    pub fn view_number(&self) -> u32
        ensures value { result ≡ (image_of_node (node_of self.now)).view_number }
        ensures within { result ≤ greatest_number }
    {
        self.core.log.view_number()
    }

    /// The resilience of the last View.
    pub fn resilience(&self) -> u8
        ensures value { result ≡ (image_of_node (node_of self.now)).resilience }
        ensures within { result ≤ 15 }
    {
        self.core.log.resilience()
    }

    /// The members without the node itself.
    pub fn others(&self) -> Names
        ensures value { result ≡ other_members (node_of self.now) }
        ensures tells { TellsAlike other_members (node_of self.now) result }
        ensures order { CoreFrontsAreInOrder self.now.core }
    {
        self.core
            .log
            .members_after(self.core.log.top())
            .without(self.core.who)
    }

    /// The row of a name's place.
    pub fn at_place(&self, name: Name) -> Row
        ensures value { result ≡ row_at_place (image_of_node (node_of self.now)) name }
        ensures within { RowIsInRange result }
    {
        self.core.log.at_place(name)
    }

    /// The row of a name.
    pub fn row(&self, name: Name) -> Row
        ensures value { result ≡ row_of_name_in_list (node_of self.now) name }
        ensures within { RowIsInRange result }
    {
        self.core.log.row(name)
    }

    /// Whether no Join of a name stands in the list.
    pub fn is_unknown(&self, name: Name) -> bool
        ensures { result ≡ has_no_join (node_of self.now) name }
    {
        self.row(name).joined == 0
    }

    /// Whether its own Leave stands in its list.
    pub fn has_own_leave(&self) -> bool
        ensures { result ≡ has_own_leave (node_of self.now) }
    {
        0 < self.core.log.row(self.core.who).left
    }

    /// Whether an entry fits after the last one.
    pub fn fits(&self, entry: &EntryRef) -> bool
        ensures { result ≡ fits (image_of_node (node_of self.now)) entry.now }
    {
        self.core.log.fits(entry)
    }

    /// Whether a number is beyond the bound of the greater of two bases.
    pub fn is_beyond_bound(&self, base: u32, number: u32) -> bool
        ensures { result ≡ not (number_is_within_bound (node_of self.now)
            (max self.now.core.base base) number) }
    {
        let greater = self.core.log.base().max(base);
        number.saturating_sub(greater) > u32::from(self.core.rules.window()) + 15
    }

    /// Whether another entry may be numbered.
    pub fn has_room(&self) -> bool
        ensures value { result ≡ has_room (node_of self.now) }
        ensures room { IsTrue result → length self.now.core.log.entries < self.now.core.rules.window
            + 15 }
    {
        self.core.log.top() + 1 - self.core.log.base() <= u32::from(self.core.rules.window())
    }

    /// The answer where there is no room.
    pub fn held_answer(&self) -> Outcome
        ensures { result ≡ said.Held self.now.core.base (top (node_of self.now)) }
    {
        Outcome::Held {
            base: self.core.log.base(),
            top: self.core.log.top(),
        }
    }

    /// The number that the next entry gets.
    pub fn next_number(&self) -> u32
        requires { top (node_of self.now) < greatest_number }
        ensures value { result ≡ top (node_of self.now) + 1 }
        ensures within { NumberIsInRange result }
        ensures order { CoreFrontsAreInOrder self.now.core }
        ensures kept { IsKept self.now.core.log (self.now.core.rules.window + 15) }
    {
        self.core.log.top() + 1
    }

    /// What it has stored and taken.
    pub fn own_report(&self) -> Report
        ensures value { result ≡ own_report_of (node_of self.now) }
        ensures within { ReportIsInRange result }
    {
        Report {
            stored: self.core.log.top(),
            taken: self.core.taken,
        }
    }

    /// Whether its sender could have made a report of this list.
    pub fn report_fits(&self, report: Report) -> bool
        ensures value { result ≡ report_fits (node_of self.now) report }
        ensures stored { IsTrue result → report.stored ≤ top (node_of self.now) }
    {
        report.taken <= report.stored && report.stored <= self.core.log.top()
    }
}
