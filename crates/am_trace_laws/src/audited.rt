ghost use Rattle.am_trace_laws.specs.Claims.{RunsHaveTheirTexts, LawfulTextsAgree, ScriptsArePassedOver};

/// The text of every run of at most 100,000 events, lawful or not, is read as the run's records, its group list and its logs.
pub fn runs_have_their_texts()
    ensures { RunsHaveTheirTexts }
{}

/// Where the run is lawful, or nobody began a ballot, whoever stops, its verdict agrees, too, or the lists agree where there are no events.
pub fn lawful_texts_agree()
    ensures { LawfulTextsAgree }
{}

/// A run's text after its events as a script, as a race writes them, is read as it is without that line.
pub fn scripts_are_passed_over()
    ensures { ScriptsArePassedOver }
{}
