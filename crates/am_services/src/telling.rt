ghost use Rattle.std.specs.Prelude.{◌≡◌, ◌++◌, ℕ, List, OnOk, string_bytes};
ghost use Rattle.std.specs.List.{fold};
ghost use Rattle.am_base.specs.declared.entry.Entry.{Entry};
ghost use Rattle.am_group.specs.Deliveries.{entries_given_to, deliveries};
ghost use Rattle.am_services.specs.Telling.{told};

use am_base::NoMemory;
use am_base::entry::Entry;
use am_base::name::Name;
use am_group::event::Record;
use am_journal::delivered::given_to;

/// What goes through the entries that a name was given, and tells lines of each.
pub(crate) trait TellsEntries {
    // What it is after an entry more.
    ghost next: { Self → ℕ × Entry → Self };

    // The lines that it then tells of a name's entry.
    ghost lines: { ℕ → ℕ × Entry → Self → List ℕ };

    /// Takes a name's next entry with its number, and adds the lines that it tells of it.
    fn tell(&mut self, out: &mut String, name: Name, given: (u32, Entry)) -> Result<(), NoMemory>
        ensures text { OnOk result (string_bytes out.new
            ≡ string_bytes out.old ++ lines name given (next self.old given)) }
        ensures next { OnOk result (self.new ≡ next self.old given) };
}

/// Adds the lines that are told of what a record gave to a name, where it gave something.
fn push_given<T: TellsEntries>(
    out: &mut String,
    teller: &mut T,
    name: Name,
    item: &Record,
) -> Result<(), NoMemory>
    ensures text { OnOk result (string_bytes out.new ≡ string_bytes out.old
        ++ told T.next (T.lines name) teller.old (entries_given_to name item.now)) }
    ensures next { OnOk result (teller.new ≡ fold T.next teller.old (entries_given_to name item.now)) }
{
    match given_to(item, name) {
        Some((number, entry)) => teller.tell(out, name, (number, entry.to_entry())),
        None => Ok(()),
    }
}

/// Adds the lines that are told of all that a name was given.
#[tactic(auto, using(crate::proofs::Given::given_entries_rules))]
pub(crate) fn push_told<T: TellsEntries>(
    out: &mut String,
    teller: &mut T,
    records: &[Record],
    name: Name,
) -> Result<(), NoMemory>
    ensures { OnOk result (string_bytes out.new ≡ string_bytes out.old
        ++ told T.next (T.lines name) teller.old (deliveries records.now name)) }
{
    for item in records {
        push_given(out, teller, name, item)?;
    }
    Ok(())
}
