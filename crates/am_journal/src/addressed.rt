ghost use Rattle.std.specs.Prelude.{◌≡◌, ◌<◌};
ghost use Rattle.am_group.specs.Journals.{letters_of_records};
ghost use Rattle.am_group.specs.Addressed.{is_for, next_for};

use crate::journal::Journal;
use am_base::name::Name;
use am_packet::letter::Letter;

/// Whether a letter is for a name: for exactly this name, or for any life of its place.
pub fn is_for(letter: &Letter, name: Name) -> bool
    ensures { result ≡ is_for letter.now name }
{
    if letter.is_for_any() {
        return 0 < letter.to().life_at(name.place());
    }
    letter.to().has(name)
}

impl Journal {
    /// The least number above another of a letter that is for this name; None exactly where there is none.
    pub fn next_for(&self, node: Name, after: u32) -> Option<u32>
        ensures { result ≡ next_for (letters_of_records self.now.records) node after }
    {
        for number in after..self.packets() {
            match self.packet(number + 1) {
                Some(letter) => {
                    if is_for(letter, node) {
                        return Some(number + 1);
                    }
                }
                None => return None,
            }
        }
        None
    }
}
