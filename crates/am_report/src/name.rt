ghost use Rattle.std.specs.Prelude.{◌≡◌, ◌<◌, IfOk, slice_index, nat_le};
ghost use Rattle.std.specs.Fmt.{WritesInCalls};
ghost use Rattle.std.specs.List.{list_all};
ghost use Rattle.am_group_defs.specs.Text.{name_text, stamp_text, names_text, is_everybody_else};
ghost use Rattle.am_report.specs.Names.{listed_text, place_text, is_next_first};

use crate::number::{push_behind, push_number};
use am_base::name::{Name, Stamp};
use am_base::names::Names;
use am_io::writer::Writer;

/// Adds a name: its place, and a life other than the first after a slash.
#[tactic(auto, using(am_io::proofs::Writers::two_words_written_in_calls), unfolding(am_group_defs::specs::Text::name_text))]
pub fn push_name<O: Writer>(out: &mut O, name: Name)
    ensures { WritesInCalls O.writes out.old (name_text name) out.new }
{
    push_number(out, u64::from(name.place()));
    let life = name.life();
    if life == 1 {
        return;
    }
    push_behind(out, "/", u64::from(life));
}

/// Adds a stamp.
pub fn push_stamp<O: Writer>(out: &mut O, stamp: Stamp)
    ensures { WritesInCalls O.writes out.old (stamp_text stamp) out.new }
{
    push_number(out, u64::from(stamp.round));
    out.put(".");
    push_name(out, stamp.by);
}

// Adds a name, after a comma if it isn't the first.
fn push_listed<O: Writer>(out: &mut O, first: bool, name: Name)
    ensures { WritesInCalls O.writes out.old (listed_text first name) out.new }
{
    if first {
        push_name(out, name);
        return;
    }
    out.put(",");
    push_name(out, name);
}

// Adds the name of a place, where there is one, after a comma if it isn't the first; whether the next is the first.
fn push_place<O: Writer>(out: &mut O, first: bool, names: Names, place: u8) -> bool
    requires { place < 16 }
    ensures text { WritesInCalls O.writes out.old
        (place_text first place (slice_index names place)) out.new }
    ensures first { result ≡ is_next_first first (slice_index names place) }
{
    let Some(name) = Name::of(place, names.life_at(place)) else {
        return first;
    };
    push_listed(out, first, name);
    false
}

/// Adds the names of a set, ascending, with commas between them, or a dash.
pub fn push_names<O: Writer>(out: &mut O, names: Names)
    ensures { WritesInCalls O.writes out.old (names_text names) out.new }
{
    let mut first = true;
    for place in 0..16u8 {
        first = push_place(out, first, names, place);
    }
    if first {
        out.put("-");
    }
}

/// Whether everybody has the first life.
pub fn are_first(names: Names) -> bool
    ensures { result ≡ list_all (λ life. nat_le life 1) names }
{
    names.are_first_lives()
}

/// Whether these are exactly the fifteen other places' names of life 1.
pub fn is_everybody_else(names: Names, place: u8) -> bool
    requires { place < 16 }
    ensures { result ≡ is_everybody_else place names }
{
    names.len() == 15 && are_first(names) && names.life_at(place) == 0
}
