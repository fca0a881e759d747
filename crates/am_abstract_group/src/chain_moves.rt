ghost use Rattle.am_abstract_group.specs.MovesClaims.{QuietRunsKeep};

/// As long as no ballot is decided all is kept, whoever stops.
pub fn quiet_runs_keep()
    ensures { QuietRunsKeep }
{}
