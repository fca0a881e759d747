ghost use Rattle.std.specs.Prelude.{◌≡◌, IfOk, option_map};
ghost use Rattle.am_service_defs.specs.Assembling.{no_parts, taken_at, fed_by, after_data, after_entry, fed_with, ended_from, message_in};

use crate::room::MessageRoom;
use am_base::NoMemory;
use am_base::entry::Entry;
use am_base::name::Name;
use am_service_defs::fed::Fed;
use std::alloc::Global;
use std::marker::Model;

/// How many places there are.
const PLACES: usize = 16;

/// Puts messages together from the entries of a list, fed one after the other: at each of sixteen places one message of one name
/// at a time. Contracts see what had begun at each place, and the message that the last entry ended.
#[derive(Drop, Debug)]
pub struct Assembler {
    rooms: Vec<MessageRoom>,
    whole: Option<Name>,
}

impl Model for Assembler {
    ghost use Rattle.am_service_defs.specs.Assembling.{Assembly};

    ghost Value = { Assembly };

    ghost use Rattle.std.specs.Prelude.{◌≡◌, length};
    ghost use Rattle.am_long_messages.specs.Rooms.{assembly_of};

    ghost view = { λ a. assembly_of a };

    ghost invariant = { λ a. length a.rooms.items ≡ 16 };
}

impl Assembler {
    /// Nothing has begun. It is an error where there is no memory for a message from each place.
    pub fn new(alloc: Global) -> Result<Assembler, NoMemory>
        ensures { IfOk result (λ a. a ≡ no_parts) }
    {
        let mut rooms = Vec::with_capacity(alloc, PLACES)?;
        for _ in 0..PLACES {
            rooms.push(MessageRoom::new(alloc)?)?;
        }
        Ok(Assembler { rooms, whole: None })
    }

    /// Takes the body of a Data of a name.
    fn take(&mut self, from: Name, body: &[u8]) -> Fed
        ensures value { result ≡ fed_by from (taken_at self.old from body.now) }
        ensures after { self.new ≡ after_data self.old from (taken_at self.old from body.now) }
    {
        let room = &mut self.rooms[from.place() as usize];
        let fed = room.take(from, body);
        self.whole = match fed {
            Fed::Whole { from } => Some(from),
            _ => None,
        };
        fed
    }

    /// Takes the next entry. It takes no memory.
    #[tactic(auto, unfolding(am_service_defs::specs::Assembling::after_entry, am_service_defs::specs::Assembling::fed_with))]
    pub fn feed(&mut self, entry: &Entry) -> Fed
        ensures value { result ≡ fed_with self.old entry.now }
        ensures after { self.new ≡ after_entry self.old entry.now }
    {
        match entry {
            Entry::Data { from, body, .. } => self.take(*from, body.bytes()),
            Entry::Join(_) | Entry::Leave(_) | Entry::View(_) => {
                self.whole = None;
                Fed::Other
            }
        }
    }

    /// The message of a name that the last entry ended; None exactly where the last feed wasn't Whole of this name.
    pub fn message(&self, from: Name) -> Option<&[u8]>
        ensures { option_map (λ m. m.now) result ≡ ended_from from self.now.ended }
    {
        if self.whole != Some(from) {
            return None;
        }
        Some(self.rooms[from.place() as usize].bytes.as_slice())
    }

    /// The message that would end with the next entry; None where none would. It is an error where there is no memory for it.
    #[tactic(auto, unfolding(am_service_defs::specs::Assembling::after_entry))]
    pub fn whole_with(&self, alloc: Global, entry: &Entry) -> Result<Option<Vec<u8>>, NoMemory>
        ensures { IfOk result (λ found. option_map (λ m. m.items) found
            ≡ message_in (after_entry self.now entry.now).ended) }
    {
        match entry {
            Entry::Data { from, body, .. } => {
                self.rooms[from.place() as usize].whole_with(alloc, *from, body.bytes())
            }
            Entry::Join(_) | Entry::Leave(_) | Entry::View(_) => Ok(None),
        }
    }
}
