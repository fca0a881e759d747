ghost use Rattle.std.specs.Prelude.{◌≡◌, ◌<◌, length, drop, option_map};
ghost use Rattle.am_audit_defs.specs.Lines.{begins_mark, mark_cut};

/// Whether a mark between blanks stands at an index.
fn is_mark(text: &[u8], at: usize, mark: u8) -> bool
    requires { at < length text.now }
    ensures { result ≡ begins_mark mark (drop at text.now) }
{
    text.len() - at > 2 && text[at] == b' ' && text[at + 1] == mark && text[at + 2] == b' '
}

/// What stands before the first mark between blanks, and what after it.
pub fn mark_cut(text: &[u8], mark: u8) -> (&[u8], Option<&[u8]>)
    requires { (0 < mark) × (mark < 128) }
    ensures first { result.0.now ≡ (mark_cut mark text.entry.now).0 }
    ensures rest { option_map (λ rest. rest.now) result.1 ≡ (mark_cut mark text.entry.now).1 }
{
    for at in 0..text.len() {
        if is_mark(text, at, mark) {
            return (&text[..at], Some(&text[at + 3..]));
        }
    }
    (text, None)
}
