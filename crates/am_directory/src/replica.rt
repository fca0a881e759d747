ghost use Rattle.std.specs.Prelude.{◌≡◌, IfOk, OnOk, OnErr, is_none};
ghost use Rattle.am_service_defs.specs.Replicas.{fresh_replica, fed, step_of};

use crate::backlog::{Backlog, apply_entry};
use crate::directory::Directory;
use am_base::NoMemory;
use am_base::entry::Entry;
use am_service_defs::step::ReplicaStep;
use std::alloc::Global;
use std::marker::Model;

/// A node's directory, made of the entries that the node was given (docs/DIRECTORY.md, "Replicas"). One that was given the list from
/// entry 1 on is ready at once; one that begins with its Join is ready once a snapshot for that Join came. Contracts see its start, what
/// it keeps while it waits, and its contents.
#[derive(Drop)]
pub struct Replica {
    alloc: Global,
    start: u32,
    backlog: Option<Backlog>,
    directory: Directory,
}

impl Model for Replica {
    ghost use Rattle.am_service_defs.specs.Replicas.{ReplicaState};
    ghost use Rattle.am_directory.specs.Holding.{replica_state_of};

    ghost Value = { ReplicaState };

    ghost view = { λ r. replica_state_of r };
}

impl Replica {
    /// The replica of a name whose first entry has this number. It is an error where there is no memory for it.
    pub fn new(alloc: Global, start: u32) -> Result<Replica, NoMemory>
        ensures { IfOk result (λ r. r ≡ fresh_replica start) }
    {
        let backlog = if start == 1 {
            None
        } else {
            Some(Backlog::new(alloc)?)
        };
        Ok(Replica {
            alloc,
            start,
            backlog,
            directory: Directory::new(alloc),
        })
    }

    /// Whether it is ready: whether its directory is what its node knows of the group's.
    pub fn is_ready(&self) -> bool
        ensures { result ≡ is_none self.now.waiting }
    {
        self.backlog.is_none()
    }

    /// Its directory: once it is ready, what its node knows of the group's.
    pub fn directory(&self) -> &Directory
        ensures { result.now ≡ self.now.contents }
    {
        &self.directory
    }

    /// Takes the next entry, with its number. It is an error where there is no memory for what it asks; then nothing has changed, and
    /// the same entry may be fed again.
    pub fn feed(&mut self, number: u32, entry: &Entry) -> Result<ReplicaStep, NoMemory>
        ensures step { IfOk result (λ step. step ≡ step_of self.old entry.now) }
        ensures fed { OnOk result (self.new ≡ fed self.old number entry.now) }
        ensures err { OnErr result (self.new ≡ self.old) }
    {
        let Some(backlog) = &mut self.backlog else {
            return apply_entry(&mut self.directory, number, entry);
        };
        match backlog.restored(self.alloc, self.start, number, entry)? {
            None => backlog.take(self.alloc, number, entry),
            Some(directory) => {
                self.directory = directory;
                self.backlog = None;
                Ok(ReplicaStep::Restored)
            }
        }
    }
}
