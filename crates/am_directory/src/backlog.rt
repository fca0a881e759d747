ghost use Rattle.std.specs.Prelude.{◌≡◌, IfOk, OnOk, OnErr, ℕ};
ghost use Rattle.std.specs.Option.{option_map};
ghost use Rattle.am_service_defs.specs.Contents.{contents_with};
ghost use Rattle.am_service_defs.specs.Replicas.{begin_waiting, apply_held, held_with, snapshot_for, for_message, step_ready, step_held, with_held, waiting_with};
ghost use Rattle.am_directory.specs.Holding.{held_in, waiting_in};
ghost use Rattle.am_service_defs.specs.Assembling.{after_entry};

use crate::command::Command;
use crate::directory::Directory;
use am_base::NoMemory;
use am_base::body::SentBody;
use am_base::entry::Entry;
use am_long_messages::assembler::Assembler;
use am_service_defs::step::ReplicaStep;
use std::alloc::Global;

/// Applies an entry, of which the body counts where it is a send.
pub fn apply_entry(
    directory: &mut Directory,
    number: u32,
    entry: &Entry,
) -> Result<ReplicaStep, NoMemory>
    ensures step { IfOk result (λ step. step ≡ step_ready directory.old entry.now) }
    ensures applied { OnOk result (directory.new ≡ contents_with directory.old (number, entry.now)) }
    ensures err { OnErr result (directory.new ≡ directory.old) }
{
    match entry {
        Entry::Data { body, .. } => Ok(ReplicaStep::Applied(directory.apply(
            number,
            body.bytes(),
        )?)),
        Entry::Join(_) | Entry::Leave(_) | Entry::View(_) => Ok(ReplicaStep::Noted),
    }
}

/// A command that is held, with the number of its entry.
#[derive(Drop)]
pub struct HeldCommand {
    pub number: u32,
    pub body: SentBody,
}

/// Applies all commands that were held.
fn apply_held(directory: &mut Directory, held: &[HeldCommand]) -> Result<(), NoMemory>
    ensures { OnOk result (directory.new ≡ apply_held directory.old (held_in held.now)) }
{
    for at in 0..held.len() {
        let command = &held[at];
        directory.apply(command.number, command.body.bytes())?;
    }
    Ok(())
}

/// The directory of a message that is a snapshot for this Join; None where it is none.
fn directory_for(alloc: Global, start: u32, message: &[u8]) -> Result<Option<Directory>, NoMemory>
    ensures { IfOk result (λ found. found ≡ for_message start message.now) }
{
    match Directory::restore(alloc, message)? {
        Some((join, directory)) if join == start => Ok(Some(directory)),
        _ => Ok(None),
    }
}

/// What a replica keeps until its snapshot comes.
#[derive(Drop)]
pub struct Backlog {
    pub held: Vec<HeldCommand>,
    pub assembler: Assembler,
}

impl Backlog {
    /// Before any entry. It is an error where there is no memory for messages from each place.
    pub fn new(alloc: Global) -> Result<Backlog, NoMemory>
        ensures { IfOk result (λ backlog. waiting_in backlog ≡ begin_waiting) }
    {
        Ok(Backlog {
            held: Vec::new(alloc),
            assembler: Assembler::new(alloc)?,
        })
    }

    /// The directory of the snapshot for this Join that would end with the next entry; None where none would.
    fn snapshot_with(
        &self,
        alloc: Global,
        start: u32,
        entry: &Entry,
    ) -> Result<Option<Directory>, NoMemory>
        ensures { IfOk result (λ found. found
            ≡ snapshot_for start (after_entry (waiting_in self.now).assembly entry.now).ended) }
    {
        match self.assembler.whole_with(alloc, entry)? {
            Some(message) => directory_for(alloc, start, message.as_slice()),
            None => Ok(None),
        }
    }

    /// The same, with all commands applied that came, that of this entry too.
    pub fn restored(
        &self,
        alloc: Global,
        start: u32,
        number: u32,
        entry: &Entry,
    ) -> Result<Option<Directory>, NoMemory>
        ensures { IfOk result (λ found. found
            ≡ with_held (held_with (waiting_in self.now).held number entry.now)
            (snapshot_for start (after_entry (waiting_in self.now).assembly entry.now).ended)) }
    {
        let Some(mut directory) = self.snapshot_with(alloc, start, entry)? else {
            return Ok(None);
        };
        apply_held(&mut directory, self.held.as_slice())?;
        apply_entry(&mut directory, number, entry)?;
        Ok(Some(directory))
    }

    /// Holds the body of an entry of a number, where it is a command.
    fn hold(&mut self, alloc: Global, number: u32, entry: &Entry) -> Result<ReplicaStep, NoMemory>
        ensures step { IfOk result (λ step. step ≡ step_held entry.now) }
        ensures held { OnOk result ((waiting_in self.new).held
            ≡ held_with (waiting_in self.old).held number entry.now) }
        ensures same { (waiting_in self.new).assembly ≡ (waiting_in self.old).assembly }
        ensures err { OnErr result (waiting_in self.new ≡ waiting_in self.old) }
    {
        match entry {
            Entry::Data { body, .. } if Command::read(body.bytes()).is_some() => {
                let body = SentBody::of(alloc, body)?;
                self.held.push(HeldCommand { number, body })?;
                Ok(ReplicaStep::Held)
            }
            _ => Ok(ReplicaStep::Noted),
        }
    }

    /// Takes the next entry, which ends no snapshot for the replica.
    pub fn take(
        &mut self,
        alloc: Global,
        number: u32,
        entry: &Entry,
    ) -> Result<ReplicaStep, NoMemory>
        ensures step { IfOk result (λ step. step ≡ step_held entry.now) }
        ensures taken { OnOk result (waiting_in self.new
            ≡ waiting_with (waiting_in self.old) number entry.now) }
        ensures err { OnErr result (waiting_in self.new ≡ waiting_in self.old) }
    {
        let step = self.hold(alloc, number, entry)?;
        self.assembler.feed(entry);
        Ok(step)
    }
}
