ghost use Rattle.std.specs.Prelude.{◌≡◌, ◌<◌, option_map, length};
ghost use Rattle.std.specs.Option.{ForSome};
ghost use Rattle.am_text_defs.specs.Fields.{cut_of};

/// A text's first part, which ends at the first separator, and what stands after that; None where there is no separator.
pub fn cut(text: &[u8], separator: u8) -> (&[u8], Option<&[u8]>)
    ensures first { result.0.now ≡ (cut_of separator text.entry.now).0 }
    ensures rest { option_map (λ rest. rest.now) result.1 ≡ (cut_of separator text.entry.now).1 }
    ensures shorter { ForSome result.1 (λ rest. length rest.now < length text.entry.now) }
{
    for (at, byte) in text.iter().enumerate() {
        if *byte == separator {
            return (&text[..at], Some(&text[at + 1..]));
        }
    }
    (text, None)
}
