use am_base::entry::GroupView;
use am_base::name::Stamp;
use am_model::status::Status;

/// A view that a name decided.
#[derive(Clone, Copy)]
pub struct DecidedView {
    /// The number of its View in the list of the name that decided it.
    pub number: u32,
    /// What its View says.
    pub view: GroupView,
}

/// What a name's node shows.
#[derive(Clone, Copy)]
pub struct NameStanding {
    /// How it stands to the group.
    pub status: Status,
    /// The stamp of its list's last View.
    pub view: Stamp,
    /// The number of its own Join, 1 for a founder, 0 where it has no list.
    pub start: u32,
    /// How many entries the group had accepted where its list begins.
    pub from: u32,
}

/// What a watcher is told of a node, once it did a step.
#[derive(Clone, Copy)]
pub struct ShownNode {
    /// How it stands to the group.
    pub status: Status,
    /// The number of its own Join, 1 for a founder, 0 where it has no list.
    pub start: u32,
    /// The number up to which its list is trimmed.
    pub base: u32,
    /// The view in which its list ends.
    pub decided: DecidedView,
}

/// A view that isn't complete: who stored its View in a list of its own, and where that stands in the group list.
#[derive(Drop)]
pub struct Pending {
    /// The view.
    pub decided: DecidedView,
    /// For each of the 256 names, whether its View stands among the entries that the name stored.
    pub stored: [bool; 256],
    /// The number of its View in the group list, where it stands there.
    pub number_in_group: Option<u32>,
}
