ghost use Rattle.std.specs.Prelude.{◌≡◌, ℕ, ◌+◌, ◌≤◌, ◌<◌, nat_le, count_by, true, false};
ghost use Rattle.am_base.specs.Names.{names_of, name_of_place_and_life, size};
ghost use Rattle.am_base.specs.Lists.{top_of_log, image_of_log};
ghost use Rattle.am_base.specs.Fronts.{accept_front, is_held, counting_names_at};
ghost use Rattle.am_node_defs.specs.Reports.{reports_of, no_reports, reports_after_report, reports_with_joiner, reports_beginning_at, lesser_of_options, least_of_names, least_stored_of_names, least_taken_of_names};
ghost use Rattle.am_node_storage.specs.Measures.{measured_number};

use crate::log::Log;
use crate::state::Core;
use am_base::entry::Entry;
use am_base::image::Report;
use am_base::name::Name;
use am_base::names::Names;
use std::marker::Model;

/// Nothing is reported.
const NO_REPORT: Report = Report {
    stored: 0,
    taken: 0,
};

/// Which of a report's numbers is meant.
#[derive(Clone, Copy)]
enum Measure {
    Stored,
    Taken,
}

impl Measure {
    /// That number of a report.
    fn of(self, report: Report) -> u32
        ensures { result ≡ measured_number self report }
    {
        match self {
            Measure::Stored => report.stored,
            Measure::Taken => report.taken,
        }
    }
}

/// What each of the 256 names has reported. Contracts see it as the list of the reports, by the names' bytes.
#[derive(Drop)]
pub struct Fronts {
    reports: [Report; 256],
}

impl Model for Fronts {
    ghost use Rattle.std.specs.Prelude.{List};
    ghost use Rattle.am_base.specs.declared.image.Report.{Report};

    ghost Value = { List Report };

    ghost view = { λ f. f.reports };
}

/// The lesser of two numbers that are there.
pub fn lesser(least: Option<u32>, number: Option<u32>) -> Option<u32>
    ensures { result ≡ lesser_of_options least number }
{
    match (least, number) {
        (None, other) => other,
        (Some(least), None) => Some(least),
        (Some(least), Some(other)) => Some(least.min(other)),
    }
}

/// Who counts at a number: the members before the entry there, or those of the View that it is.
fn counted_at<L: Log>(log: &L, number: u32) -> Names
    requires low { (L.list log.now).start < number }
    requires high { number ≤ top_of_log (L.list log.now) }
    ensures { result ≡ counting_names_at (L.list log.now) number }
{
    match log.entry(number) {
        None => log.members_after(number - 1),
        Some(entry) => match entry {
            Entry::View(view) => view.members,
            Entry::Data { .. } => log.members_after(number - 1),
            Entry::Join(_) => log.members_after(number - 1),
            Entry::Leave(_) => log.members_after(number - 1),
        },
    }
}

impl Fronts {
    ghost use Rattle.am_node_defs.specs.Kept.{IsKept};
    ghost use Rattle.am_node_defs.specs.Cores.{CoreFrontsAreInOrder};
    ghost use Rattle.am_node_defs.specs.Refresh.{core_and_reports, raise_own_report, raise_accepted_by_reports, refresh_with_reports, RefreshesAlike, SecondChangesNothing, IsMemberOrLastLeaver};

    /// Nobody has reported anything.
    pub fn new() -> Fronts
        ensures { reports_of result ≡ no_reports }
    {
        Fronts {
            reports: [NO_REPORT; 256],
        }
    }

    /// What a name has reported.
    pub fn of(&self, name: Name) -> Report
        ensures { result ≡ reports_of self.now name }
    {
        self.reports[usize::from(name.get())]
    }

    /// What the name of a place and a life, which isn't 0, has reported.
    fn at(&self, place: usize, life: u8) -> Report
        requires { (place < 16) × (0 < life) × (life ≤ 16) }
        ensures { result ≡ reports_of self.now (name_of_place_and_life place life) }
    {
        self.reports[place + 16 * usize::from(life - 1)]
    }

    /// A name reports: each number is raised, and none falls.
    pub fn report(&mut self, name: Name, report: Report)
        ensures { reports_of self.new ≡ reports_after_report (reports_of self.old) name report }
    {
        let old = self.of(name);
        self.reports[usize::from(name.get())] = Report {
            stored: old.stored.max(report.stored),
            taken: old.taken.max(report.taken),
        };
    }

    /// A name begins at a number.
    pub fn admit(&mut self, name: Name, base: u32)
        ensures { reports_of self.new ≡ reports_with_joiner (reports_of self.old) name base }
    {
        self.reports[usize::from(name.get())] = Report {
            stored: base,
            taken: base,
        };
    }

    /// Each name begins at a number.
    pub fn restart(&mut self, base: u32)
        ensures { reports_of self.new ≡ reports_beginning_at base }
    {
        self.reports = [Report {
            stored: base,
            taken: base,
        }; 256];
    }

    /// The least that the names of a set have of what a measure takes; None exactly where the set is empty.
    #[tactic(auto, using(am_node_defs::proofs::ReportLaws::least_of_after_last_place))]
    fn least_by(&self, measure: Measure, set: Names) -> Option<u32>
        ensures { result ≡ least_of_names (λ name. measured_number measure (reports_of self.now name))
            (names_of set) }
    {
        let lives = set.each_life();
        let mut found = false;
        let mut least = u32::MAX;
        for place in 0..16usize {
            let life = lives[place];
            if 0 < life {
                let number = measure.of(self.at(place, life));
                found = true;
                least = least.min(number);
            }
        }
        if found { Some(least) } else { None }
    }

    /// The least that the names of a set have taken; None exactly where the set is empty.
    pub fn least_taken(&self, set: Names) -> Option<u32>
        ensures { result ≡ least_taken_of_names (reports_of self.now) set }
    {
        self.least_by(Measure::Taken, set)
    }

    /// The least that the names of a set have stored; None exactly where the set is empty.
    pub fn least_stored(&self, set: Names) -> Option<u32>
        ensures { result ≡ least_stored_of_names (reports_of self.now) set }
    {
        self.least_by(Measure::Stored, set)
    }

    /// How many names a set has, and how many of them have stored up to a number.
    #[tactic(auto, using(am_node_defs::proofs::ReportLaws::count_and_size_rules))]
    fn holders(&self, counted: Names, number: u32) -> (u32, u32)
        ensures names { result.0 ≡ size counted }
        ensures held { result.1 ≡ count_by (λ name. nat_le number (reports_of self.now name).stored)
            (names_of counted) }
    {
        let lives = counted.each_life();
        let mut names = 0;
        let mut held = 0;
        for place in 0..16usize {
            let life = lives[place];
            if 0 < life {
                names += 1;
                held += u32::from(number <= self.at(place, life).stored);
            }
        }
        (names, held)
    }

    /// Whether as many have stored the entry at a number as it needs.
    #[tactic(auto, using(am_node_defs::proofs::Views::resilience_at_since_last_view))]
    fn is_held<L: Log>(&self, log: &L, number: u32) -> bool
        requires low { (L.list log.now).start < number }
        requires high { number ≤ top_of_log (L.list log.now) }
        requires view { (image_of_log (L.list log.now)).view_number ≤ number }
        ensures { result ≡ is_held (reports_of self.now) (L.list log.now) number }
    {
        let (names, held) = self.holders(counted_at(log, number), number);
        let need = (u32::from(log.resilience()) + 1).min(names);
        need <= held
    }

    /// The number before the first, above this one, that too few have stored.
    fn walk<L: Log>(&self, log: &L, from: u32) -> u32
        requires low { (L.list log.now).start ≤ from }
        requires high { from ≤ top_of_log (L.list log.now) }
        requires view { (image_of_log (L.list log.now)).view_number ≤ from }
        ensures low { from ≤ result }
        ensures high { result ≤ top_of_log (L.list log.now) }
        ensures held { (n : ℕ) → from < n → n ≤ result
            → is_held (reports_of self.now) (L.list log.now) n ≡ true }
        ensures stops { result < top_of_log (L.list log.now)
            → is_held (reports_of self.now) (L.list log.now) (result + 1) ≡ false }
    {
        let top = log.top();
        for number in from..top {
            if !self.is_held(log, number + 1) {
                return number;
            }
        }
        top
    }

    /// The accept front: the greatest number, from what is accepted on, up to which every entry has as many holders as
    /// it needs. Those below the last View are accepted together with it.
    pub fn accept_front<L: Log>(&self, log: &L, acc: u32) -> u32
        requires low { (L.list log.now).start ≤ acc }
        requires high { acc ≤ top_of_log (L.list log.now) }
        ensures value { result ≡ accept_front (reports_of self.now) (L.list log.now) acc }
        ensures low { acc ≤ result }
        ensures high { result ≤ top_of_log (L.list log.now) }
    {
        let view = log.view_number();
        if view <= acc {
            return self.walk(log, acc);
        }
        if log.top() < view {
            return acc;
        }
        if !self.is_held(log, view) {
            return acc;
        }
        self.walk(log, view)
    }

    /// Reports what the node itself has.
    #[tactic(auto, unfolding(am_node_defs::specs::Refresh::raise_own_report))]
    fn report_own<L: Log>(&mut self, core: &Core<L>)
        ensures { core_and_reports core.now self.new
            ≡ raise_own_report (core_and_reports core.now self.old) }
    {
        self.report(
            core.who,
            Report {
                stored: core.log.top(),
                taken: core.taken,
            },
        );
    }

    /// Reports what the node itself has, and accepts as far as that goes.
    fn go_up<L: Log>(&mut self, core: &mut Core<L>)
        ensures value { core_and_reports core.new self.new
            ≡ raise_accepted_by_reports (core_and_reports core.old self.old) }
        ensures was { CoreFrontsAreInOrder core.old }
        ensures order { CoreFrontsAreInOrder core.new }
        ensures kept { IsKept core.new.log (core.new.rules.window + 15) }
    {
        self.report_own(core);
        core.told = self.accept_front(&core.log, core.acc);
        core.advance();
        let _top = core.log.top();
        self.report_own(core);
    }

    /// What a sequencer does at the beginning and at the end of a step: its own report is what it has, what is told is
    /// the accept front, what is accepted goes on, and the list is trimmed to what all who may need it have taken.
    pub fn refresh<L: Log>(&mut self, core: &mut Core<L>)
        requires own { (reports_of self.old core.old.who).taken ≤ core.old.taken }
        requires leads { IsMemberOrLastLeaver core.old }
        ensures value { RefreshesAlike refresh_with_reports (core_and_reports core.old self.old)
            (core_and_reports core.new self.new) }
        ensures again { SecondChangesNothing refresh_with_reports (core_and_reports core.old self.old)
            (core_and_reports core.new self.new) }
        ensures order { CoreFrontsAreInOrder core.new }
        ensures own { (reports_of self.new core.new.who).taken ≡ core.new.taken }
        ensures leads { IsMemberOrLastLeaver core.new }
    {
        self.go_up(core);
        let names = core.since_accepted();
        match self.least_taken(names) {
            Some(taken) => core.trim_to(taken),
            None => {}
        }
    }
}
