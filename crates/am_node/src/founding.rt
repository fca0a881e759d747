ghost use Rattle.std.specs.Prelude.{◌≡◌, ◌+◌, ◌≤◌, [], EachIndex, slice_index, true, IfOk, if◌then◌else◌};
ghost use Rattle.am_base.specs.Lists.{blank};
ghost use Rattle.am_node_parts.specs.Prelude.{has, node_of};
ghost use Rattle.am_base.specs.Founding.{MayFound};
ghost use Rattle.am_node_defs.specs.Reports.{reports_of, reports_after_report, no_report};
ghost use Rattle.am_model.specs.Node.{founder, stranger_node, founders_entry, founding_stamp};

use am_base::entry::{Entry, GroupView};
use am_base::founding::Founding;
use am_base::image::Report;
use am_base::name::{Name, Stamp};
use am_base::names::Names;
use am_model::status::Status;
use am_node_parts::parts::Parts;
use am_node_storage::bodies::Pool;
use am_node_storage::fronts::Fronts;
use am_node_storage::history::History;
use am_node_storage::log::Log;
use am_node_storage::sender::Sender;
use am_node_storage::state::Core;
use std::alloc::{AllocError, Global};
use std::marker::Model;

/// The stamp of the founders' view.
pub fn founding_stamp(founding: &Founding) -> Stamp
    ensures { result ≡ founding_stamp founding.now }
{
    Stamp {
        round: 1,
        by: founding.founders().lowest().unwrap_or(Name::of_byte(0)),
    }
}

/// The first entry of the list.
pub fn founders_view(founding: &Founding) -> Entry
    ensures value { result ≡ founders_entry founding.now }
    ensures within { MayFound founding.now }
{
    let founders = founding.founders();
    Entry::View(GroupView {
        stamp: founding_stamp(founding),
        members: founders,
        resilience: founding.resilience(),
    })
}

/// The memory that a node takes for the end of its list, before it begins. Contracts see it as its group's founding.
#[derive(Drop)]
pub struct Room {
    log: History,
    founding: Founding,
}

impl Model for Room {
    ghost use Rattle.std.specs.Prelude.{◌≡◌, ◌+◌, []};
    ghost use Rattle.am_base.specs.Founding.{Rules};
    ghost use Rattle.am_base.specs.Lists.{blank};

    ghost Value = { Rules };

    ghost view = { λ r. r.founding };

    ghost invariant = { λ r. (r.log.list ≡ record { start = 0; image = blank; entries = [] }) × (r.log.capacity ≡ r.founding.window + 15) };
}

impl Room {
    /// Room for a node of this group. It is an error where there is no memory.
    pub fn new(alloc: Global, founding: &Founding) -> Result<Room, AllocError>
        ensures { IfOk result (λ room. room ≡ founding.now) }
    {
        Ok(Room {
            log: History::new(alloc, founding.window())?,
            founding: *founding,
        })
    }
}

/// The core of a name that no one has seen, over a blank history.
fn first_core(log: History, name: Name, founding: &Founding) -> Core<History>
    requires list { log.list ≡ record { start = 0; image = blank; entries = [] } }
    requires capacity { log.capacity ≡ founding.now.window + 15 }
    ensures value { result ≡ (stranger_node founding.now name).core }
{
    Core {
        who: name,
        rules: *founding,
        log,
        promise: Stamp::default(),
        told: 0,
        acc: 0,
        taken: 0,
        start: 0,
    }
}

/// The parts of a name that no one has seen.
pub fn stranger(room: Room, name: Name) -> Parts
    ensures { node_of result ≡ stranger_node room name }
{
    let core = first_core(room.log, name, &room.founding);
    Parts {
        core,
        status: Status::Stranger,
        leaving: false,
        sender: Sender::new(),
        pool: Pool::new(),
        fronts: Fronts::new(),
        ballot: None,
    }
}

/// A founder has stored the founders' View.
fn report_first(fronts: &mut Fronts, founders: Names, name: Name)
    ensures { reports_of fronts.new ≡ (if has founders name then reports_after_report
        (reports_of fronts.old) name (record { stored = 1; taken = 0 }) else
        reports_of fronts.old) }
{
    if founders.has(name) {
        let report = Report {
            stored: 1,
            taken: 0,
        };
        fronts.report(name, report);
    }
}

/// What is reported at first: each founder has stored the founders' View.
fn first_reports(founders: Names) -> Fronts
    requires { EachIndex founders (λ place. slice_index founders place ≤ 1) }
    ensures { reports_of result ≡ (λ name. if has founders name
        then record { stored = 1; taken = 0 } else no_report) }
{
    let mut fronts = Fronts::new();
    for byte in 0..256u16 {
        report_first(&mut fronts, founders, Name::of_byte(byte as u8));
    }
    fronts
}

/// The core of a founder, over a blank history.
fn founder_core(log: History, name: Name, founding: &Founding) -> Core<History>
    requires list { log.list ≡ record { start = 0; image = blank; entries = [] } }
    requires capacity { log.capacity ≡ founding.now.window + 15 }
    ensures { result ≡ (founder founding.now name).core }
{
    let mut core = first_core(log, name, founding);
    core.push(&founders_view(founding).as_ref());
    core.promise = founding_stamp(founding);
    core.told = 1;
    core.acc = 1;
    core.start = 1;
    core
}

/// The parts of a founder.
pub fn founder(room: Room, name: Name) -> Parts
    requires { has room.founders name ≡ true }
    ensures { node_of result ≡ founder room name }
{
    let fronts = first_reports(room.founding.founders());
    let core = founder_core(room.log, name, &room.founding);
    Parts {
        core,
        status: Status::Member,
        leaving: false,
        sender: Sender::new(),
        pool: Pool::new(),
        fronts,
        ballot: None,
    }
}

/// The parts of a name at its beginning: of a founder where it is one of the founders, and else of a name that no one has seen.
pub fn first(room: Room, name: Name) -> Parts
    ensures { node_of result ≡ (if has room.founders name then founder room name else
        stranger_node room name) }
{
    if room.founding.founders().has(name) {
        return founder(room, name);
    }
    stranger(room, name)
}
