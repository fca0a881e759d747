ghost use Rattle.std.specs.Prelude.{◌≡◌, ◌++◌, decimal};
ghost use Rattle.std.specs.Fmt.{WritesInCalls};

use am_io::writer::Writer;
use itoa::Buffer;

/// Adds a number in decimal.
pub fn push_number<O: Writer>(out: &mut O, number: u64)
    ensures { WritesInCalls O.writes out.old (decimal number) out.new }
{
    let mut digits = Buffer::new();
    out.put(digits.format(number));
}

/// Adds some words and a number after them.
pub fn push_behind<O: Writer>(out: &mut O, words: &str, number: u64)
    ensures { WritesInCalls O.writes out.old (words.now ++ decimal number) out.new }
{
    out.put(words);
    push_number(out, number);
}
