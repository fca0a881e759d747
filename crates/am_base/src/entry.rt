ghost use Rattle.std.specs.Prelude.{◌≡◌, ◌≤◌};
ghost use Rattle.am_base.specs.declared.entry.Entry.TheVariants as entries;
ghost use Rattle.am_base.specs.Entries.{entry_of_parts, body_length};
ghost use Rattle.am_base.specs.Most.{most_bytes_of_body};

use crate::body::{Body, BodyRef};
use crate::name::{Name, Stamp};
use crate::names::Names;
use std::marker::Model;

/// What a View says (docs/PROTOCOL.md, "The list").
#[derive(Clone, Copy, Debug)]
pub struct GroupView {
    /// Its stamp.
    pub stamp: Stamp,
    /// Its members.
    pub members: Names,
    /// How many stops an accepted entry is to survive, 0 to 15.
    pub resilience: u8,
}

/// An entry of a group's list (docs/PROTOCOL.md, "The list").
#[derive(Drop, Debug)]
pub enum Entry {
    /// A send of a member: its request number, from 1, and its body.
    Data { from: Name, req: u32, body: Body },
    /// A name becomes a member.
    Join(Name),
    /// A member goes.
    Leave(Name),
    /// A view begins.
    View(GroupView),
}

impl Default for Entry {
    ghost use Rattle.am_base.specs.declared.entry.Entry.TheVariants as entries;

    ghost is_default = { λ entry. entry ≡ entries.Join 0 };

    fn default() -> Entry {
        Entry::Join(Name::default())
    }
}

impl Entry {
    /// The entry where it stands.
    pub fn as_ref(&self) -> EntryRef<'_>
        ensures { result ≡ self.now }
    {
        EntryRef::of(match self {
            Entry::Data { from, req, body } => EntryParts::Data {
                from: *from,
                req: *req,
                body: body.as_ref(),
            },
            Entry::Join(name) => EntryParts::Join(*name),
            Entry::Leave(name) => EntryParts::Leave(*name),
            Entry::View(view) => EntryParts::View(*view),
        })
    }

    /// The same entry. It takes no memory.
    pub fn copy(&self) -> Entry
        ensures { result ≡ self.now }
    {
        self.as_ref().to_entry()
    }

    /// How many bytes its body has: none, where it has no body.
    pub fn body_len(&self) -> usize
        ensures value { result ≡ body_length self.now }
        ensures fits { result ≤ most_bytes_of_body }
    {
        self.as_ref().body_len()
    }
}

/// What an entry is, with a body where it stands.
#[derive(Drop, Debug)]
pub enum EntryParts<'a> {
    /// A send of a member: its request number, from 1, and its body.
    Data {
        from: Name,
        req: u32,
        body: BodyRef<'a>,
    },
    /// A name becomes a member.
    Join(Name),
    /// A member goes.
    Leave(Name),
    /// A view begins.
    View(GroupView),
}

/// An entry where it stands: among a packet's bytes, or in a list. Contracts see it as the entry.
#[derive(Drop, Debug)]
pub struct EntryRef<'a> {
    parts: EntryParts<'a>,
}

impl<'a> Model for EntryRef<'a> {
    ghost use Rattle.am_base.specs.declared.entry.Entry.{Entry};

    ghost Value = { Entry };

    ghost use Rattle.am_base.specs.Entries.{entry_of_parts};

    ghost view = { λ e. entry_of_parts e.parts };
}

impl<'a> EntryRef<'a> {
    /// The entry of these parts.
    pub fn of(parts: EntryParts<'a>) -> EntryRef<'a>
        ensures { result ≡ entry_of_parts parts.entry }
    {
        EntryRef { parts }
    }

    /// A Join of a name.
    pub fn join(name: Name) -> EntryRef<'a>
        ensures { result ≡ entries.Join name }
    {
        EntryRef::of(EntryParts::Join(name))
    }

    /// A Leave of a name.
    pub fn leave(name: Name) -> EntryRef<'a>
        ensures { result ≡ entries.Leave name }
    {
        EntryRef::of(EntryParts::Leave(name))
    }

    /// Its parts.
    pub fn parts(&self) -> &EntryParts<'a>
        ensures { entry_of_parts result.now ≡ self.now }
    {
        &self.parts
    }

    /// How many bytes its body has: none, where it has no body.
    pub fn body_len(&self) -> usize
        ensures value { result ≡ body_length self.now }
        ensures fits { result ≤ most_bytes_of_body }
    {
        match &self.parts {
            EntryParts::Data { body, .. } => body.bytes().len(),
            EntryParts::Join(_) | EntryParts::Leave(_) | EntryParts::View(_) => 0,
        }
    }

    /// The same entry, where it stands.
    pub fn again(&self) -> EntryRef<'a>
        ensures { result ≡ self.now }
    {
        EntryRef::of(match &self.parts {
            EntryParts::Data { from, req, body } => EntryParts::Data {
                from: *from,
                req: *req,
                body: body.again(),
            },
            EntryParts::Join(name) => EntryParts::Join(*name),
            EntryParts::Leave(name) => EntryParts::Leave(*name),
            EntryParts::View(view) => EntryParts::View(*view),
        })
    }

    /// The same entry in a place of its own. It takes no memory.
    pub fn to_entry(&self) -> Entry
        ensures { result ≡ self.now }
    {
        match &self.parts {
            EntryParts::Data { from, req, body } => Entry::Data {
                from: *from,
                req: *req,
                body: body.to_body(),
            },
            EntryParts::Join(name) => Entry::Join(*name),
            EntryParts::Leave(name) => Entry::Leave(*name),
            EntryParts::View(view) => Entry::View(*view),
        }
    }
}
