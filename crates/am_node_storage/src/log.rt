ghost use Rattle.std.specs.Prelude.{◌≡◌, ℕ, ◌≤◌, ◌<◌, true, [], length};
ghost use Rattle.std.specs.Option.{option_copied, IfSome};
ghost use Rattle.am_base.specs.Most.{greatest_number};
ghost use Rattle.am_base.specs.Lists as lists;
ghost use Rattle.am_base.specs.Lists.{top_of_log, log_entry_at, log_members_at, image_of_log, log_with_entry, fits, row_at_place, row_of_name};
ghost use Rattle.am_base.specs.Limits.{StampIsInRange, NumberIsInRange, RowIsInRange, ImageIsInRange, EntryIsInRange};
ghost use Rattle.am_node_defs.specs.Kept.{IsKept, log_above};

use am_base::entry::{Entry, EntryRef};
use am_base::image::{Image, Row};
use am_base::name::{Name, Stamp};
use am_base::names::Names;

/// What is known of a history: a start with what was told up to there, the entries since, and a capacity that no call
/// changes (docs/PROTOCOL.md, "The list").
pub trait Log {
    ghost list: { Self → lists.Log };

    ghost capacity: { Self → ℕ };

    /// The number up to which it is trimmed.
    fn base(&self) -> u32
        ensures value { result ≡ (list self.now).start }
        ensures kept { IsKept (list self.now) (capacity self.now) };

    /// The number of the last entry.
    fn top(&self) -> u32
        ensures value { result ≡ top_of_log (list self.now) }
        ensures kept { IsKept (list self.now) (capacity self.now) };

    /// The entry of a number; None exactly outside `base + 1` to `top`.
    fn entry(&self, number: u32) -> Option<&Entry>
        ensures value { option_copied result ≡ log_entry_at (list self.now) number }
        ensures within { IfSome result (λ e. EntryIsInRange e.now) };

    /// The members after a number.
    fn members_after(&self, number: u32) -> Names
        requires low { (list self.now).start ≤ number }
        requires high { number ≤ top_of_log (list self.now) }
        ensures { result ≡ log_members_at (list self.now) number };

    /// The stamp of the last View.
    fn view(&self) -> Stamp
        ensures value { result ≡ (image_of_log (list self.now)).view }
        ensures within { StampIsInRange result };

    /// The number of the last View.
    fn view_number(&self) -> u32
        ensures value { result ≡ (image_of_log (list self.now)).view_number }
        ensures within { NumberIsInRange result };

    /// The resilience of the last View, 0 where there is none.
    fn resilience(&self) -> u8
        ensures value { result ≡ (image_of_log (list self.now)).resilience }
        ensures within { result ≤ 15 };

    /// The row of a name's place.
    fn at_place(&self, name: Name) -> Row
        ensures value { result ≡ row_at_place (image_of_log (list self.now)) name }
        ensures within { RowIsInRange result };

    /// The row of a name's place where its life is the name's, and else all zeros.
    fn row(&self, name: Name) -> Row
        ensures value { result ≡ row_of_name (image_of_log (list self.now)) name }
        ensures within { RowIsInRange result };

    /// What is told up to the base.
    fn image_at_base(&self) -> &Image
        ensures value { result.now ≡ (list self.now).image }
        ensures within { ImageIsInRange result.now };

    /// Whether an entry fits after the last one.
    fn fits(&self, entry: &EntryRef) -> bool
        ensures { result ≡ fits (image_of_log (list self.now)) entry.now };

    /// Adds an entry at the end.
    fn push(&mut self, entry: &EntryRef)
        requires fits { fits (image_of_log (list self.old)) entry.now ≡ true }
        requires room { length (list self.old).entries < capacity self.old }
        requires entry { EntryIsInRange entry.now }
        requires number { top_of_log (list self.old) < greatest_number }
        ensures list { list self.new ≡ log_with_entry (list self.old) entry.now }
        ensures capacity { capacity self.new ≡ capacity self.old };

    /// Lets go of all up to a number.
    fn trim(&mut self, to: u32)
        requires low { (list self.old).start ≤ to }
        requires high { to ≤ top_of_log (list self.old) }
        ensures list { list self.new ≡ log_above (list self.old) to }
        ensures capacity { capacity self.new ≡ capacity self.old };

    /// Begins a blank log after a number, with what is told up to there.
    fn begin(&mut self, base: u32, image: &Image)
        requires blank { top_of_log (list self.old) ≡ 0 }
        requires base { NumberIsInRange base }
        requires image { ImageIsInRange image.now }
        ensures list { list self.new ≡ record { start = base; image = image.now; entries = [] } }
        ensures capacity { capacity self.new ≡ capacity self.old };
}
