ghost use Rattle.am_audit_defs.specs.Agreement.{AgreesMeans, ListsAgreeMeans, BadLinesStay, GoodLinesGoOn};
ghost use Rattle.am_audit_defs.specs.Meanings.{VerdictsSay, AgreedAgrees};

/// What the verdicts that agree mean (docs/AUDIT.md): at Agrees each log is a gapless piece of the one list, from the founders'
/// view or its name's Join on, and is what the name's takes were; the list is one that a group can have; each send in it was asked
/// for, and each send that was answered as sent stands in it once, at that number. At ListsAgree the same holds of list and logs.
/// Each other verdict says what is wrong, and that is so; it doesn't come where all is so that Agrees means, and no send stands twice.
pub fn verdicts_mean()
    ensures say { VerdictsSay }
    ensures agreed { AgreedAgrees }
    ensures agrees { AgreesMeans }
    ensures lists_agree { ListsAgreeMeans }
{}

/// BadLine is the first line up to which the lines begin no text. Where one of some whole lines is bad, it is the bad line whatever
/// stands after them; and whole lines of which none is bad go on to a text.
pub fn first_bad_lines()
    ensures stay { BadLinesStay }
    ensures begin { GoodLinesGoOn }
{}
