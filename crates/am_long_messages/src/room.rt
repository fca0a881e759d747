ghost use Rattle.std.specs.Prelude.{◌≡◌, ◌*◌, ◌≤◌, length, vec_capacity};
ghost use Rattle.std.specs.Option.{ForSome};

use crate::parts::{MOST_MESSAGE, PartRef, part_in};
use am_base::NoMemory;
use am_base::name::Name;
use am_service_defs::fed::Fed;
use std::alloc::Global;

/// How far a message has come of which some parts came.
#[derive(Clone, Copy, Debug)]
pub struct Unfinished {
    /// Whose it is.
    pub from: Name,
    /// Which part comes next, from 1.
    pub next: u32,
    /// How many parts it has.
    pub count: u32,
}

/// Where the messages from one place are put together: one message of one name at a time.
#[derive(Drop, Debug)]
pub struct MessageRoom {
    /// What began and isn't all there.
    pub unfinished: Option<Unfinished>,
    /// What came of it; or the message that ended last.
    pub bytes: Vec<u8>,
    ghost has_room: { 65535 ≤ vec_capacity bytes },
    ghost is_so_far: { ForSome unfinished (λ begun. length bytes.items ≡ 1019 * begun.next) },
}

impl MessageRoom {
    ghost use Rattle.std.specs.Prelude.{◌==◌, ◌&&◌, IfOk, None, true, option_map};
    ghost use Rattle.am_service_defs.specs.Parts.{fits_message};
    ghost use Rattle.am_service_defs.specs.Assembling.{with_part, take_part, taken_with, awaits, fed_by, whole_in};
    ghost use Rattle.am_long_messages.specs.Reading.{part_read};
    ghost use Rattle.am_long_messages.specs.Rooms.{begun_in, RoomKeeps};

    /// Nothing began. It is an error where there is no memory for a whole message.
    pub fn new(alloc: Global) -> Result<MessageRoom, NoMemory>
        ensures { IfOk result (λ room. begun_in room ≡ None) }
    {
        let bytes = Vec::with_capacity(alloc, MOST_MESSAGE)?;
        Ok(MessageRoom {
            unfinished: None,
            bytes,
        })
    }

    /// Whether a part goes on with what began.
    fn awaits(&self, from: Name, part: &PartRef) -> bool
        ensures { result ≡ awaits (begun_in self.now) from (part_read part.now) }
    {
        match &self.unfinished {
            Some(begun) => begun.from == from
                && begun.next == part.index
                && begun.count == part.count,
            None => false,
        }
    }

    /// Takes a part after the bytes that are there.
    fn put(&mut self, from: Name, part: &PartRef) -> Fed
        requires fits { fits_message (part_read part.now) ≡ true }
        requires so_far { length self.old.bytes.items ≡ 1019 * part.now.index }
        ensures value { result ≡ fed_by from (with_part from (part_read part.now) self.old.bytes.items) }
        ensures after { RoomKeeps self.new (with_part from (part_read part.now) self.old.bytes.items) }
    {
        self.unfinished = None;
        let _ = self.bytes.extend_from_slice(part.payload);
        if part.index + 1 == part.count {
            return Fed::Whole { from };
        }
        self.unfinished = Some(Unfinished {
            from,
            next: part.index + 1,
            count: part.count,
        });
        Fed::Part {
            from,
            index: part.index,
        }
    }

    /// Takes the body of a Data of a name.
    pub fn take(&mut self, from: Name, body: &[u8]) -> Fed
        ensures value { result ≡ fed_by from (taken_with (begun_in self.old) from body.now) }
        ensures after { RoomKeeps self.new (taken_with (begun_in self.old) from body.now) }
    {
        let Some(part) = part_in(body) else {
            self.unfinished = None;
            return Fed::Plain { from };
        };
        if part.index == 0 {
            self.unfinished = None;
            self.bytes.clear();
            return self.put(from, &part);
        }
        if self.awaits(from, &part) {
            return self.put(from, &part);
        }
        self.unfinished = None;
        Fed::Passed { from }
    }

    /// The message that would end with this body of a Data of a name; None where none would. It is an error where there is no
    /// memory for it.
    pub fn whole_with(
        &self,
        alloc: Global,
        from: Name,
        body: &[u8],
    ) -> Result<Option<Vec<u8>>, NoMemory>
        ensures { IfOk result (λ found. option_map (λ m. m.items) found
            ≡ whole_in (taken_with (begun_in self.now) from body.now)) }
    {
        let found = part_in(body);
        let Some(part) = found else {
            return Ok(None);
        };
        if part.index + 1 != part.count {
            return Ok(None);
        }
        if part.index == 0 {
            return Ok(Some(Vec::from_slice(alloc, part.payload)?));
        }
        if !self.awaits(from, &part) {
            return Ok(None);
        }
        let mut message = Vec::with_capacity(alloc, self.bytes.len() + part.payload.len())?;
        message.extend_from_slice(self.bytes.as_slice())?;
        message.extend_from_slice(part.payload)?;
        Ok(Some(message))
    }
}
