ghost use Rattle.std.specs.Prelude.{◌≡◌, ℕ, [], Option};
ghost use Rattle.am_audit_defs.specs.Lines.{Line};
ghost use Rattle.am_audit_defs.specs.declared.verdict.Verdict.{Verdict};
ghost use Rattle.am_audit_defs.specs.Verdicts.{first_found};
ghost use Rattle.am_audit.specs.Views.{line_seen, lines_in};

use crate::line::TextLine;
use am_audit_defs::verdict::Verdict;

/// What is looked for in lines, at each by the number of its name's last one.
pub(crate) trait Check {
    // What is found at a line.
    ghost found: { Option ℕ → Line → Option Verdict };

    /// What is found at a line, whose name's last one has this number.
    fn found(last: Option<u32>, line: &TextLine) -> Option<Verdict>
        ensures { result ≡ found last (line_seen line.now) };
}

/// What is found first.
pub(crate) fn first_found<C: Check>(lines: &[TextLine]) -> Option<Verdict>
    ensures { result ≡ first_found C.found [] (lines_in lines.now) }
{
    let mut last = [None; 256];
    for at in 0..lines.len() {
        let line = &lines[at];
        match C::found(last[usize::from(line.name)], line) {
            Some(found) => return Some(found),
            None => {}
        }
        last[usize::from(line.name)] = Some(line.number);
    }
    None
}
