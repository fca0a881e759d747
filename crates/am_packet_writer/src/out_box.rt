ghost use Rattle.std.specs.Prelude.{◌≡◌, ◌==◌, ◌<◌, ◌≤◌, ◌+◌, [], ◌++◌, length, vec_len, vec_capacity, IfOk, OnOk};
ghost use Rattle.am_base.specs.Names.{size};
ghost use Rattle.am_packet.specs.Boxes.{with_letter, place_for};
ghost use Rattle.am_packet.specs.Limits.{PacketIsWithin};

use crate::writer::encode;
use am_base::NoMemory;
use am_base::body::PacketBytes;
use am_base::items::Items;
use am_base::names::Names;
use am_packet::letter::Letter;
use am_packet::packet::Packet;
use std::alloc::Global;
use std::marker::Model;
use std::mem;

/// The most letters of one step.
const MOST_LETTERS: usize = 24;

/// What an out box keeps: its letters, room for one that is alone, and rooms for the bytes of those to come.
#[derive(Drop)]
struct Kept {
    letters: Vec<Letter>,
    single: Vec<Letter>,
    rooms: Vec<PacketBytes>,
}

/// Rooms for the letters of a step to come: as many as an earlier one left.
#[derive(Drop)]
pub struct Rooms {
    kept: Option<Box<Kept>>,
}

impl Rooms {
    /// No rooms, though no clause counts them.
    pub fn new() -> Rooms {
        Rooms { kept: None }
    }

    /// What they keep, in a place apart, which is made where there was none.
    fn into_kept(self, alloc: Global) -> Result<Box<Kept>, NoMemory> {
        match self.kept {
            Some(kept) => Ok(kept),
            None => Ok(Box::new(
                alloc,
                Kept {
                    letters: Vec::new(alloc),
                    single: Vec::new(alloc),
                    rooms: Vec::new(alloc),
                },
            )?),
        }
    }
}

/// Makes as many rooms as a step may have letters.
fn fill(alloc: Global, rooms: &mut Vec<PacketBytes>) -> Result<(), NoMemory>
    ensures { OnOk result (24 ≤ vec_len rooms.new) }
{
    for _count in rooms.len()..MOST_LETTERS {
        let room = PacketBytes::new(alloc)?;
        rooms.push(room)?;
    }
    Ok(())
}

/// Whether a set has no names.
fn has_nobody(set: Names) -> bool
    ensures { result ≡ (size set == 0) }
{
    match set.lowest() {
        Some(_) => false,
        None => true,
    }
}

/// The letters of one step, at most 24. It has room for all of them from the beginning, and apart for one that is alone, as
/// it mostly is: the large room then stays. Contracts see it as their list.
#[derive(Drop)]
pub struct OutBox {
    alloc: Global,
    kept: Box<Kept>,
}

impl Model for OutBox {
    ghost use Rattle.std.specs.Prelude.{◌≡◌, ◌<◌, ◌≤◌, ◌+◌, List, [], length, vec_len, vec_capacity};
    ghost use Rattle.am_packet.specs.Boxes as boxes;

    ghost Value = { List boxes.Letter };

    ghost view = { λ b. b.kept.value.letters.items };

    ghost invariant = { λ b. (length b.kept.value.letters.items ≤ 24) × (24 ≤ vec_capacity b.kept.value.letters)
        × (24 ≤ length b.kept.value.letters.items + vec_len b.kept.value.rooms)
        × (b.kept.value.single.items ≡ []) × (vec_len b.kept.value.single < vec_capacity b.kept.value.single) };
}

impl OutBox {
    /// An empty box. It is an error where there is no memory for 24 letters.
    pub fn new(alloc: Global) -> Result<OutBox, NoMemory>
        ensures { IfOk result (λ b. b ≡ []) }
    {
        OutBox::over(alloc, Rooms::new())
    }

    /// An empty box over rooms that are there. It is an error where there is no memory for those that 24 letters still want.
    #[inline(always)]
    pub fn over(alloc: Global, rooms: Rooms) -> Result<OutBox, NoMemory>
        ensures { IfOk result (λ b. b ≡ []) }
    {
        let mut kept = rooms.into_kept(alloc)?;
        kept.letters.clear();
        kept.letters.reserve(MOST_LETTERS)?;
        kept.single.clear();
        kept.single.reserve_exact(1)?;
        fill(alloc, &mut kept.rooms)?;
        Ok(OutBox { alloc, kept })
    }

    /// The letters in their order.
    pub fn letters(&self) -> &[Letter]
        ensures value { result.now ≡ self.now }
        ensures few { length result.now ≤ 24 }
    {
        self.kept.letters.as_slice()
    }

    /// The letters in their order, and the rooms that they don't take.
    #[inline(always)]
    pub fn into_letters(self, alloc: Global) -> (Items<Letter>, Rooms)
        ensures { result.0 ≡ self }
    {
        let mut kept = self.kept;
        let mut letters = Vec::new(alloc);
        if kept.letters.len() > 1 {
            letters = mem::replace(&mut kept.letters, letters);
            letters.shrink_to_fit();
        } else if let Some(letter) = kept.letters.pop() {
            letters = mem::replace(&mut kept.single, letters);
            letters.push_reserved(letter);
        }
        (Items::of(letters), Rooms { kept: Some(kept) })
    }

    /// Moves the letters, in their order, to the end of a list that has room for them, and gives the rooms that they don't take. It
    /// takes no memory.
    #[inline(always)]
    pub fn append_to(self, letters: &mut Vec<Letter>) -> Rooms
        requires room { vec_len letters.old + length self ≤ vec_capacity letters.old }
        ensures items { letters.new.items ≡ letters.old.items ++ self }
        ensures capacity { vec_capacity letters.old ≤ vec_capacity letters.new }
    {
        let mut kept = self.kept;
        match letters.append(&mut kept.letters) {
            Ok(()) => {}
            Err(_) => unreachable!(),
        }
        Rooms { kept: Some(kept) }
    }

    /// How many letters are of this kind or a lower one, which come first.
    fn place_for(&self, kind: u8) -> usize
        ensures value { result ≡ place_for kind self.now }
        ensures fits { result ≤ length self.now }
    {
        self.kept
            .letters
            .as_slice()
            .iter()
            .take_while(|letter| letter.kind() <= kind)
            .count()
    }

    /// Adds a letter after those of its own kind and of lower ones; nothing where it is for nobody. Where there is no memory for its
    /// bytes, it takes room that is there.
    #[tactic(auto, using(am_packet::proofs::Read::spelled_packet_rules))]
    pub fn put(&mut self, to: Names, packet: &Packet)
        requires room { length self.old < 24 }
        requires within { PacketIsWithin packet.now }
        ensures { self.new ≡ with_letter to packet.now self.old }
    {
        if has_nobody(to) {
            return;
        }
        let at = self.place_for(packet.kind().number());
        let mut written = self.kept.rooms.pop().unwrap();
        encode(packet, &mut written);
        let letter = Letter::with_bytes(self.alloc, to, written, &mut self.kept.rooms);
        match self.kept.letters.insert(at, letter) {
            Ok(()) => {}
            Err(_) => unreachable!(),
        }
    }
}
