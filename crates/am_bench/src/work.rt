use crate::ring::TimedHistory;
use am_base::body::PacketBytes;
use am_base::founding::Founding;
use am_base::items::Items;
use am_base::name::{Name, Stamp};
use am_base::names::Names;
use am_base::outcome::Outcome;
use am_group::event::{Act, By, Event, Record};
use am_journal::journal::Journal;
use am_packet::letter::Letter;
use am_packet::packet::Packet;
use am_packet_reader::reader::decode;
use am_packet_writer::letter::letter_of;
use am_packet_writer::writer::encode;
use std::alloc::{AllocError, Global};
use std::io;
use std::rt::Clock;
use std::time::Instant;

/// An Ack of 20 bytes.
const ACK: &[u8] = b"AG\x03\x06\x01\x00\x00\x00\x02\x00\x00\x14\x00\x00\x00\x05\x00\x00\x00\x04";

/// A Request with a body of 1,024 bytes, of which the header and the numbers stand here.
const REQUEST: &[u8] =
    b"AG\x03\x01\x01\x00\x00\x00\x02\x00\x04\x18\x00\x00\x00\x05\x00\x00\x00\x04\x00\x00\x00\x03";

/// What is done again and again.
#[derive(Clone, Copy)]
pub enum TimedWork {
    /// A packet is read, with another last byte each time.
    Decode,
    /// A packet is written.
    Encode,
    /// A letter is looked up, one of the last hundred.
    LookUp,
    /// A history is emptied and filled, entry by entry.
    Refill,
    /// Each entry of a history is looked up.
    Entry,
    /// The members after each entry are looked up.
    Members,
    /// An accept front is found over all entries.
    Front,
}

/// What is timed: its name in a line, what is done, and with what. That is a packet, of which these are the first bytes and so many
/// there are in all, a journal of so many records, and a history with this window.
#[derive(Clone, Copy)]
pub struct Work {
    name: &'static str,
    kind: TimedWork,
    bytes: &'static [u8],
    total: usize,
    records: u32,
    window: u16,
}

/// The work on a packet.
fn packet(name: &'static str, kind: TimedWork, bytes: &'static [u8], total: usize) -> Work {
    Work {
        name,
        kind,
        bytes,
        total,
        records: 0,
        window: 112,
    }
}

/// The work on a journal or on a history.
fn list(name: &'static str, kind: TimedWork, records: u32, window: u16) -> Work {
    Work {
        name,
        kind,
        bytes: ACK,
        total: 20,
        records,
        window,
    }
}

/// The works on packets and journals.
pub fn codec() -> [Work; 6] {
    [
        packet("proved   decode 20-byte Ack", TimedWork::Decode, ACK, 20),
        packet("proved   encode 20-byte Ack", TimedWork::Encode, ACK, 20),
        packet(
            "proved   decode 1,024-byte Request",
            TimedWork::Decode,
            REQUEST,
            1048,
        ),
        packet(
            "proved   encode 1,024-byte Request",
            TimedWork::Encode,
            REQUEST,
            1048,
        ),
        list("Journal::packet among 100", TimedWork::LookUp, 100, 112),
        list(
            "Journal::packet among 10000",
            TimedWork::LookUp,
            10_000,
            112,
        ),
    ]
}

/// The works on histories.
pub fn parts() -> [Work; 7] {
    [
        list("ours 112 push and trim", TimedWork::Refill, 0, 112),
        list("ours 112 entry", TimedWork::Entry, 0, 112),
        list("ours 112 members_after", TimedWork::Members, 0, 112),
        list("ours 112 accept_front", TimedWork::Front, 0, 112),
        list("ours 1008 push and trim", TimedWork::Refill, 0, 1008),
        list("ours 1008 entry", TimedWork::Entry, 0, 1008),
        list("ours 1008 members_after", TimedWork::Members, 0, 1008),
    ]
}

/// A letter for these names.
#[tactic(auto, unfolding(am_packet::specs::Limits::PacketIsWithin))]
fn letter_to(alloc: Global, to: Names) -> Result<Letter, AllocError> {
    let invite = Packet::Invite {
        sender: Name::of_byte(0),
        stamp: Stamp {
            round: 1,
            by: Name::of_byte(0),
        },
    };
    letter_of(alloc, to, &invite)
}

/// A Tick with one letter.
fn record_to(alloc: Global, to: Names) -> Result<Record, AllocError> {
    let mut packets = Items::new(alloc);
    packets.push(letter_to(alloc, to)?)?;
    Ok(Record {
        event: Event::at(0, Act::Tick),
        life: 1,
        by: By::call(0, 0),
        outcome: Outcome::Ticked,
        packets,
    })
}

/// A journal of so many records with one letter each.
fn journal_of(alloc: Global, founding: &Founding, records: u32) -> Result<Journal, AllocError> {
    let mut journal = Journal::new(alloc, founding);
    for _ in 0..records {
        journal.reserve()?;
        let item = record_to(alloc, founding.founders())?;
        if journal.records().len() < 100000 && item.packets.as_slice().len() <= 24 {
            journal.push(item);
        }
    }
    Ok(journal)
}

/// So many bytes of a packet, of which the first are these.
fn bytes_of(alloc: Global, first: &[u8], total: usize) -> Result<Vec<u8>, AllocError> {
    let mut bytes = Vec::from_slice(alloc, first)?;
    bytes.resize(total, 7)?;
    Ok(bytes)
}

/// What a work is done with.
#[derive(Drop)]
struct Ready {
    kind: TimedWork,
    bytes: Vec<u8>,
    written: PacketBytes,
    journal: Journal,
    ring: TimedHistory,
}

impl Ready {
    /// All that a work wants.
    fn new(alloc: Global, founding: &Founding, work: &Work) -> Result<Ready, AllocError> {
        Ok(Ready {
            kind: work.kind,
            bytes: bytes_of(alloc, work.bytes, work.total)?,
            written: PacketBytes::new(alloc)?,
            journal: journal_of(alloc, founding, work.records)?,
            ring: TimedHistory::new(alloc, work.window.clamp(1, 1008))?,
        })
    }

    /// Reads the packet, with this last byte.
    fn read(&mut self, last: u8) -> u64 {
        if let Some(byte) = self.bytes.last_mut() {
            *byte = last;
        }
        match &decode(&self.bytes) {
            Ok(packet) => u64::from(packet.kind().number()),
            Err(_) => 0,
        }
    }

    /// Writes the packet so many times.
    fn write(&mut self, count: u32) -> u64 {
        let Ok(packet) = &decode(&self.bytes) else {
            return 0;
        };
        let mut sum = 0u64;
        for _ in 0..count {
            encode(packet, &mut self.written);
            sum = sum.wrapping_add(self.written.bytes().len() as u64);
        }
        sum
    }

    /// Looks up a letter, one of the last hundred.
    fn look_up(&self, turn: u32) -> u64 {
        let first = self.journal.packets().saturating_sub(100);
        match self.journal.packet(first.wrapping_add(turn % 100 + 1)) {
            Some(letter) => u64::from(letter.kind()),
            None => 0,
        }
    }

    /// Does the work once, in this turn; a number that comes of it.
    fn once(&mut self, turn: u32) -> u64 {
        match self.kind {
            TimedWork::Decode => self.read((turn % 256) as u8),
            TimedWork::Encode => 0,
            TimedWork::LookUp => self.look_up(turn),
            TimedWork::Refill => self.ring.refill(),
            TimedWork::Entry => self.ring.requests(),
            TimedWork::Members => self.ring.memberships(),
            TimedWork::Front => self.ring.front(),
        }
    }

    /// Does the work so many times; the sum of what came of it.
    fn again(&mut self, count: u32) -> u64 {
        if let TimedWork::Encode = self.kind {
            return self.write(count);
        }
        let mut sum = 0u64;
        for turn in 0..count {
            sum = sum.wrapping_add(self.once(turn));
        }
        sum
    }

    /// How many calls are made at a time.
    fn calls(&self) -> u32 {
        match self.kind {
            TimedWork::Refill | TimedWork::Entry | TimedWork::Members => self.ring.room(),
            TimedWork::Decode | TimedWork::Encode | TimedWork::LookUp | TimedWork::Front => 1,
        }
    }
}

/// Does each of some works so many times, and prints what came of it; after how many nanoseconds a call took, where it is timed.
pub fn time(
    rt: &(impl Clock + Print + AllocGlobal),
    works: &[Work],
    count: u32,
    is_timed: bool,
) -> io::Result<()> {
    let Some(founding) = Founding::new(Names::of_mask(1), 0, 64, 256) else {
        return Ok(());
    };
    for work in works {
        let mut ready = Ready::new(rt.alloc(), &founding, work)?;
        let name = work.name;
        let start = Instant::now(rt)?;
        let sum = ready.again(count);
        let spent = start.elapsed(rt)?;
        let calls = u128::from(count.max(1)) * u128::from(ready.calls().max(1));
        let nanos = if is_timed {
            spent.as_nanos() / calls
        } else {
            0
        };
        println!(rt; "{name}: {nanos} ns ({sum})")?;
    }
    Ok(())
}
