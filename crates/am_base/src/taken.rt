ghost use Rattle.std.specs.Prelude.{◌≡◌, ◌≤◌, IfOk};
ghost use Rattle.am_base.specs.Entries.{body_length};

use crate::body::SentBody;
use crate::entry::{EntryParts, EntryRef, GroupView};
use crate::name::Name;
use std::alloc::{AllocError, Global};
use std::fmt;
use std::marker::Model;

/// What an entry is, with a body that stands apart.
#[derive(Drop)]
enum TakenParts {
    /// A send of a member: its request number, from 1, and its body.
    Data {
        from: Name,
        req: u32,
        body: SentBody,
    },
    /// A name becomes a member.
    Join(Name),
    /// A member goes.
    Leave(Name),
    /// A view begins.
    View(GroupView),
}

/// An entry that was taken from a list, with as many bytes as its body has. Contracts see it as the entry.
#[derive(Drop)]
pub struct TakenEntry {
    parts: TakenParts,
}

impl Model for TakenEntry {
    ghost use Rattle.am_base.specs.declared.entry.Entry.{Entry};

    ghost Value = { Entry };

    ghost use Rattle.am_base.specs.Entries.{taken_entry_of_parts};

    ghost view = { λ e. taken_entry_of_parts e.parts };
}

impl fmt::Debug for TakenEntry {
    fn fmt<W: fmt::Write>(&self, f: &mut fmt::Formatter<W>) -> fmt::Result {
        self.as_ref().fmt(f)
    }
}

impl TakenEntry {
    /// The entry where it stands.
    pub fn as_ref(&self) -> EntryRef<'_>
        ensures { result ≡ self.now }
    {
        match &self.parts {
            TakenParts::Data { from, req, body } => EntryRef::of(EntryParts::Data {
                from: *from,
                req: *req,
                body: body.as_ref(),
            }),
            TakenParts::Join(name) => EntryRef::of(EntryParts::Join(*name)),
            TakenParts::Leave(name) => EntryRef::of(EntryParts::Leave(*name)),
            TakenParts::View(view) => EntryRef::of(EntryParts::View(*view)),
        }
    }
}

/// Room for an entry whose body has at most so many bytes. Contracts see it as that number.
#[derive(Drop)]
pub struct EntryRoom(Vec<u8>);

impl Model for EntryRoom {
    ghost use Rattle.std.specs.Prelude.{◌≡◌, ℕ, [], vec_capacity};

    ghost Value = { ℕ };

    ghost view = { λ r. vec_capacity r.0 };

    ghost invariant = { λ r. r.0.items ≡ [] };
}

impl EntryRoom {
    /// Room for a body of so many bytes. It is an error where there is no memory for them.
    pub fn new(alloc: Global, bytes: usize) -> Result<EntryRoom, AllocError>
        ensures { IfOk result (λ room. bytes ≤ room) }
    {
        Ok(EntryRoom(Vec::with_capacity(alloc, bytes)?))
    }

    /// The entry in this room. It takes no memory, and gives back the room that the body leaves over.
    pub fn fill(self, entry: &EntryRef<'_>) -> TakenEntry
        requires { body_length entry.now ≤ self }
        ensures { result ≡ entry.now }
    {
        let parts = match entry.parts() {
            EntryParts::Data { from, req, body } => TakenParts::Data {
                from: *from,
                req: *req,
                body: SentBody::in_room(self.0, body),
            },
            EntryParts::Join(name) => TakenParts::Join(*name),
            EntryParts::Leave(name) => TakenParts::Leave(*name),
            EntryParts::View(view) => TakenParts::View(*view),
        };
        TakenEntry { parts }
    }
}
