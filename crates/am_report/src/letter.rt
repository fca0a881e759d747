ghost use Rattle.std.specs.Prelude.{◌≡◌, ◌+◌, ◌<◌, ◌++◌};
ghost use Rattle.std.specs.Fmt.{WritesInCalls};
ghost use Rattle.am_group_defs.specs.Text.{kind_word, addressees_text, letter_text, letters_text};

use crate::name::{is_everybody_else, push_names};
use crate::number::push_behind;
use am_io::writer::Writer;
use am_packet::kind::PacketKind;
use am_packet::letter::Letter;

/// The name of a letter's kind. The packet isn't read for it.
#[tactic(auto, using(am_packet::proofs::Again::kind_at_number_of_kind), unfolding(am_group_defs::specs::Text::kind_word))]
pub fn kind_word(letter: &Letter) -> &'static str
    ensures { result.now ≡ kind_word letter.now.packet }
{
    match PacketKind::of_byte(letter.kind()) {
        Some(kind) => kind.word(),
        None => unreachable!(),
    }
}

// Adds for whom a letter of a node at this place is.
#[tactic(auto, unfolding(am_group_defs::specs::Text::addressees_text))]
fn push_addressees<O: Writer>(out: &mut O, place: u8, letter: &Letter)
    requires { place < 16 }
    ensures { WritesInCalls O.writes out.old (addressees_text place letter.now) out.new }
{
    if letter.is_for_any() || is_everybody_else(letter.to(), place) {
        out.put("all");
        return;
    }
    push_names(out, letter.to());
}

// Adds a letter of a node at this place: its number, its kind and for whom it is.
fn push_letter<O: Writer>(out: &mut O, place: u8, number: u64, letter: &Letter)
    requires { place < 16 }
    ensures { WritesInCalls O.writes out.old (letter_text place number letter.now) out.new }
{
    push_behind(out, " | ", number);
    out.put(" ");
    out.put(kind_word(letter));
    out.put(" to ");
    push_addressees(out, place, letter);
}

/// Adds the letters of a node at this place, before which so many were sent.
pub fn push_letters<O: Writer>(out: &mut O, place: u8, before: u32, letters: &[Letter])
    requires { place < 16 }
    ensures { WritesInCalls O.writes out.old (letters_text place (before + 1) letters.now) out.new }
{
    for at in 0..letters.len() {
        push_letter(out, place, u64::from(before) + 1 + at as u64, &letters[at]);
    }
}
