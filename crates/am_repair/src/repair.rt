ghost use Rattle.am_repair.specs.Standing.{OneListAgrees, RepairsWhereListsAgree};
ghost use Rattle.am_repair.specs.Known.{KnownIsTaken, SequencersTrimKnown};
ghost use Rattle.am_repair.specs.Rounds.{CalmStays, RoundsStore};
ghost use Rattle.am_repair.specs.Rows.{EntriesAreStored, FrontsAreHeard, FrontsRise, GapsAreAsked, MembersReport, NacksAreServed, ReportsAreTaken, SequencersPoll};

/// What a tick sends: the sequencer's poll, and a member's report.
pub fn ticks_tell()
    ensures poll { SequencersPoll }
    ensures report { MembersReport }
{}

/// What a member does with what its sequencer tells: it accepts as far as it has stored, asks for what is missing, and stores what comes
/// next.
pub fn members_follow()
    ensures fronts { FrontsAreHeard }
    ensures gaps { GapsAreAsked }
    ensures entries { EntriesAreStored }
{}

/// What the sequencer does with reports: it keeps them, sends again what is missing, and accepts what all who count have reported.
pub fn sequencers_serve()
    ensures reports { ReportsAreTaken }
    ensures entries { NacksAreServed }
    ensures fronts { FrontsRise }
{}

/// A calm world of a run stays calm with each event of a schedule, and with each round each member has stored eight entries more, or all up
/// to where the sequencer stood.
pub fn calm_worlds_go_on()
    ensures stay { CalmStays }
    ensures store { RoundsStore }
{}

/// What a lossless schedule repairs in a run, where the lists of the view's members agree (`Agree`): each of them stores and accepts all up
/// to where their sequencer stood.
pub fn schedules_repair()
    ensures { RepairsWhereListsAgree }
{}

/// A sequencer trims no more than it knows each member of its list to have taken.
pub fn sequencers_trim_known()
    ensures { SequencersTrimKnown }
{}

/// What anybody knows a name to have taken was taken, or is no more than its own base.
pub fn what_is_known_was_taken()
    ensures { KnownIsTaken }
{}

/// Lists agree where the sequencer's whole list fits and the one of each Member that runs begins it, where it trims no more than each member
/// has taken, and where who counts for what isn't accepted is a member.
pub fn one_list_agrees()
    ensures { OneListAgrees }
{}
