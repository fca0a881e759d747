use am_base::name::Stamp;
use am_base::names::Names;
use am_base::outcome::Outcome;

/// What a node is to its group.
#[derive(Clone, Copy, PartialEq, Eq, Debug)]
pub enum Role {
    /// It has no list and has not asked for one.
    Stranger,
    /// It has asked to join.
    Asking,
    /// It has a list.
    Member,
    /// It numbers its group's entries.
    Sequencer,
    /// It has a ballot that isn't over.
    Coordinator,
    /// It has left.
    Departed,
}

/// What a node knows of itself and of its group: the answer of GetInfoGroup (docs/PROTOCOL.md, "A node").
#[derive(Clone, Copy, PartialEq, Eq, Debug)]
pub struct Info {
    /// What it is to its group.
    pub role: Role,
    /// The stamp of the last View of its list.
    pub view: Stamp,
    /// The members after its last entry.
    pub members: Names,
    /// The number up to which its list is trimmed.
    pub base: u32,
    /// The number up to which its application has taken entries.
    pub taken: u32,
    /// The number up to which it knows the list to be accepted.
    pub accepted: u32,
    /// The number of its last entry.
    pub top: u32,
    /// The greatest stamp that it has promised to follow.
    pub promise: Stamp,
}

/// How a ballot stands.
#[derive(Drop)]
pub enum BallotEnd {
    /// It isn't over; this was last decided on it.
    Going(Outcome),
    /// It ended with this.
    Ended(Outcome),
}
