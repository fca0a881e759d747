use crate::applied::Applied;

/// What an entry came to at a replica (docs/DIRECTORY.md, "Replicas").
#[derive(Clone, Copy, PartialEq, Eq, Debug)]
pub enum ReplicaStep {
    /// The replica is ready: the body of a send was applied.
    Applied(Applied),
    /// The entry is no send; or the replica waits, and the body is no command.
    Noted,
    /// The replica waits: the command is held until a snapshot comes.
    Held,
    /// A snapshot for the replica's start came whole. The replica is ready now, and what was held is applied.
    Restored,
}
