ghost use Rattle.std.specs.Prelude.{◌≡◌, ◌+◌, ◌<◌, ◌≤◌, ◌++◌, [], ◌∷◌, length, drop, if◌then◌else◌};
ghost use Rattle.am_base.specs.Most.{greatest_number, greatest_word};
ghost use Rattle.am_lawful_defs.specs.Watching.{standing, watch_accepts, pass_event, note_stop, watching_with_entries};
ghost use Rattle.am_lawful_defs.specs.Telling.{entry_of_heard_piece, list_begins_in_step, standing_after, list_of_option, views_stored_in_step, view_entry_of, watching_with_views, watching_after_told_step, stops_by_outcome};
ghost use Rattle.am_lawful_watch.specs.Watchers.{watching_of, HasWatchRoom};

use crate::views::decides;
use crate::watcher::Watcher;
use am_base::entry::Entry;
use am_base::event::NodeEvent;
use am_base::name::Name;
use am_base::outcome::Outcome;
use am_lawful_defs::views::{DecidedView, NameStanding, ShownNode};
use am_model::status::Status;
use am_packet::packet::Packet;
use am_packet_reader::reader::decode;

/// Whether the name's list began in a step.
fn begins(before: &NameStanding, after: Status) -> bool
    ensures { result ≡ list_begins_in_step before.now after }
{
    !before.status.has_log() && after.is_member()
}

/// How a name stands after a step, by what its node then shows.
fn standing_after(before: &NameStanding, shown: &ShownNode) -> NameStanding
    ensures { result ≡ standing_after before.now shown.now }
{
    NameStanding {
        status: shown.status,
        view: shown.decided.view.stamp,
        start: shown.start,
        from: if begins(before, shown.status) {
            shown.base
        } else {
            before.from
        },
    }
}

/// The View that made a view.
fn last_view(decided: &DecidedView) -> Entry
    ensures { result ≡ view_entry_of decided.now }
{
    Entry::View(decided.view)
}

/// The entry of a Piece, where an event brings one.
fn entry_in(what: &NodeEvent) -> Option<Entry>
    ensures { result ≡ entry_of_heard_piece what.now }
{
    let NodeEvent::Hear(bytes) = what else {
        return None;
    };
    match decode(bytes.as_slice()) {
        Ok(Packet::Piece { entry, .. }) => Some(entry.to_entry()),
        _ => None,
    }
}

/// The watcher is told of an entry that a name stored, where there is one.
#[tactic(auto, using(crate::proofs::Tellings::with_entries_rules))]
fn store_one(watcher: &mut Watcher, name: Name, found: Option<Entry>)
    ensures { watching_of watcher.new ≡ watching_with_entries (watching_of watcher.old) name (list_of_option found) }
{
    match found {
        Some(entry) => watcher.store(name, &entry),
        None => {}
    }
}

/// What a name fetched, where it then decided a view.
fn fetched_before(is_decided: bool, what: &NodeEvent) -> Option<Entry>
    ensures { list_of_option result ≡ (if is_decided then list_of_option (entry_of_heard_piece what.now) else []) }
{
    if is_decided { entry_in(what) } else { None }
}

/// A step of a name: how it stood before and after, the view in which its list then ends, and what the step was of.
#[derive(Clone, Copy)]
struct Stepped<'a> {
    name: Name,
    before: &'a NameStanding,
    after: &'a NameStanding,
    view: &'a DecidedView,
    what: &'a NodeEvent,
}

/// The watcher is told which Views a name stored in a step in which its view became another: what it fetched, where it then
/// decided a view, and the last one.
#[inline(never)]
fn store_new_views(watcher: &mut Watcher, step: &Stepped<'_>, is_decided: bool)
    ensures { watching_of watcher.new ≡ watching_with_entries (watching_of watcher.old) step.now.name
        ((if is_decided then list_of_option (entry_of_heard_piece step.now.what.now) else [])
        ++ view_entry_of step.now.view.now ∷ []) }
{
    let earlier = fetched_before(is_decided, step.what);
    store_one(watcher, step.name, earlier);
    watcher.store(step.name, &last_view(step.view));
}

/// The watcher is told which Views a name stored in a step.
fn store_views(watcher: &mut Watcher, step: &Stepped<'_>)
    ensures { watching_of watcher.new ≡ watching_with_entries (watching_of watcher.old) step.now.name
        (views_stored_in_step step.now.name step.now.before.now step.now.after.now step.now.view.now
        step.now.what.now) }
{
    if begins(step.before, step.after.status) || step.before.view == step.after.view {
        return;
    }
    store_new_views(watcher, step, decides(step.before, step.name, step.after));
}

/// The watcher is told which view a name decided in a step, and which Views it stored: none where its last View stayed.
fn note_views(watcher: &mut Watcher, step: &Stepped<'_>)
    requires room { HasWatchRoom watcher.old }
    requires before { step.now.before.now ≡ standing (watching_of watcher.old) step.now.name }
    ensures { watching_of watcher.new ≡ watching_with_views (watching_of watcher.old) step.now.name
        step.now.before.now step.now.after.now step.now.view.now step.now.what.now }
{
    if step.before.view == step.after.view {
        return;
    }
    watcher.decide(step.name, step.after, step.view);
    store_views(watcher, step);
}

/// The watcher is told how the group list goes on above a number.
fn accept_above(watcher: &mut Watcher, group: &[Entry], known: usize)
    requires known { known ≤ length group.now }
    requires few { length group.now ≤ greatest_number }
    ensures { watching_of watcher.new ≡ watch_accepts (watching_of watcher.old) (known + 1)
        (drop known group.now) }
{
    for index in known..group.len() {
        watcher.accept(index as u32 + 1, &group[index]);
    }
}

/// Whether a name that has or hasn't stopped stops by an answer: by its own event, or because its place returns.
pub fn stops_by(has_stopped: bool, outcome: &Outcome) -> bool
    ensures { result ≡ stops_by_outcome has_stopped outcome.now }
{
    match outcome {
        Outcome::Stopped => true,
        Outcome::Returned { .. } => !has_stopped,
        _ => false,
    }
}

impl Watcher {
    /// An event that was no step of a node, after which a name has stopped or not.
    pub fn note_answer(&mut self, name: Name, stops: bool)
        requires room { HasWatchRoom self.old }
        requires few { (watching_of self.old).count < greatest_word }
        ensures { watching_of self.new ≡ (if stops then note_stop (watching_of self.old) name
            else pass_event (watching_of self.old)) }
    {
        if stops {
            self.stop(name);
        } else {
            self.pass();
        }
    }

    /// A name's step: what its node shows then, what the step was of, and how the group list goes on above a number.
    pub fn note_step(
        &mut self,
        name: Name,
        shown: &ShownNode,
        what: &NodeEvent,
        group: &[Entry],
        known: usize,
    )
        requires room { HasWatchRoom self.old }
        requires few { (watching_of self.old).count < greatest_word }
        requires known { known ≤ length group.now }
        requires short { length group.now ≤ greatest_number }
        ensures { watching_of self.new ≡ watching_after_told_step (watching_of self.old) name
            shown.now what.now (known + 1) (drop known group.now) }
    {
        let before = self.standing(name);
        let after = standing_after(&before, shown);
        let step = Stepped {
            name,
            before: &before,
            after: &after,
            view: &shown.decided,
            what,
        };
        note_views(self, &step);
        self.finish(name, &after);
        accept_above(self, group, known);
    }
}
