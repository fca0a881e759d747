use crate::wrong_fields::FAULTS;
use am_base::entry::{EntryParts, EntryRef};
use am_base::image::Report;
use am_base::names::Names;
use am_packet::PacketRefusal;
use am_packet::packet::Packet;
use am_packet::vectors::{
    ACCEPT, ACK, BCAST_DATA, BCAST_JOIN, BCAST_LEAVE, BCAST_VIEW, FETCH, GONE, HAND_OVER, HOLD,
    INVITE, JOIN_ASK, LEAVE_ASK, NACK, ORDER, PIECE_DATA, PIECE_JOIN, PIECE_LEAVE, PIECE_VIEW,
    REQUEST, RESULT, SPREAD, VOTE, WELCOME,
};
use am_packet_reader::reader::decode;
use am_packet_writer::letter::letter_of;
use std::alloc::Global;
use std::test::*;

/// Each kind and each tag, with the numbers of its packet after the stamp.
const VECTORS: [(&[u8], [u32; 8]); 24] = [
    (REQUEST, [5, 4, 3, 2, 0, 0, 0, 0]),
    (SPREAD, [5, 4, 70009, 0, 0, 0, 0, 0]),
    (BCAST_DATA, [6, 7, 8, 1, 17, 9, 1, 0]),
    (BCAST_JOIN, [6, 7, 8, 2, 18, 0, 0, 0]),
    (BCAST_LEAVE, [6, 7, 8, 3, 19, 0, 0, 0]),
    (BCAST_VIEW, [6, 7, 8, 4, 10, 0x8003, 0x0210, 15]),
    (ORDER, [6, 7, 8, 20, 11, 0, 0, 0]),
    (ACCEPT, [6, 7, 8, 1, 0, 0, 0, 0]),
    (ACK, [5, 4, 0, 0, 0, 0, 0, 0]),
    (NACK, [5, 4, 0, 0, 0, 0, 0, 0]),
    (HOLD, [6, 7, 8, 0, 0, 0, 0, 0]),
    (JOIN_ASK, [0, 0, 0, 0, 0, 0, 0, 0]),
    (WELCOME, [6, 7, 2, 5, 3, 12, 14, 17]),
    (LEAVE_ASK, [5, 4, 0, 0, 0, 0, 0, 0]),
    (GONE, [8, 0, 0, 0, 0, 0, 0, 0]),
    (INVITE, [0, 0, 0, 0, 0, 0, 0, 0]),
    (VOTE, [2, 7, 6, 0x8003, 0x0210, 0, 0, 0]),
    (FETCH, [8, 0, 0, 0, 0, 0, 0, 0]),
    (PIECE_DATA, [6, 8, 1, 17, 9, 0, 0, 0]),
    (PIECE_JOIN, [6, 8, 2, 18, 0, 0, 0, 0]),
    (PIECE_LEAVE, [6, 8, 3, 19, 0, 0, 0, 0]),
    (PIECE_VIEW, [6, 8, 4, 10, 0x8003, 0x0210, 15, 0]),
    (RESULT, [6, 8, 0x8003, 0x0210, 15, 0, 0, 0]),
    (HAND_OVER, [0, 0, 0, 0, 0, 0, 0, 0]),
];

/// Totals that a kind or a tag can't have.
const TOTALS: [(&[u8], u16); 47] = [
    (REQUEST, 23),
    (REQUEST, 1049),
    (SPREAD, 23),
    (SPREAD, 1049),
    (BCAST_DATA, 24),
    (BCAST_DATA, 29),
    (BCAST_DATA, 1055),
    (BCAST_JOIN, 25),
    (BCAST_JOIN, 27),
    (BCAST_LEAVE, 25),
    (BCAST_LEAVE, 27),
    (BCAST_VIEW, 40),
    (BCAST_VIEW, 42),
    (ORDER, 28),
    (ORDER, 30),
    (ACCEPT, 24),
    (ACCEPT, 26),
    (ACK, 19),
    (ACK, 21),
    (NACK, 19),
    (NACK, 21),
    (HOLD, 23),
    (HOLD, 25),
    (JOIN_ASK, 13),
    (WELCOME, 237),
    (WELCOME, 239),
    (LEAVE_ASK, 19),
    (LEAVE_ASK, 21),
    (GONE, 15),
    (GONE, 17),
    (INVITE, 13),
    (VOTE, 34),
    (VOTE, 36),
    (FETCH, 15),
    (FETCH, 17),
    (PIECE_DATA, 20),
    (PIECE_DATA, 25),
    (PIECE_DATA, 1051),
    (PIECE_JOIN, 21),
    (PIECE_JOIN, 23),
    (PIECE_LEAVE, 21),
    (PIECE_LEAVE, 23),
    (PIECE_VIEW, 36),
    (PIECE_VIEW, 38),
    (RESULT, 30),
    (RESULT, 32),
    (HAND_OVER, 13),
];

/// A Bcast of ten bytes, `0123456789`.
const TEN: &[u8] =
    b"AG\x03\x03\x00\x00\x00\x00\x01\x00\x00\x28\x00\x00\x00\x00\x00\x00\x00\x02\x00\x00\x00\x02\x01\x01\x00\x00\x00\x010123456789";

/// Headers that no packet has: an offset, another byte there, and what is said of it, as `refusal_of` has it.
const HEADERS: [(usize, u8, [u32; 3]); 7] = [
    (0, b'B', [2, 0, 0]),
    (1, b'A', [2, 0, 0]),
    (2, 2, [3, 2, 0]),
    (2, 4, [3, 4, 0]),
    (3, 0, [4, 0, 0]),
    (3, 19, [4, 19, 0]),
    (11, 41, [5, 41, 40]),
];

/// The numbers of a set: its places, and the lives at the places 1 and 15.
fn set_numbers(names: Names) -> [u32; 2] {
    let lives = u32::from(names.life_at(1)) * 256 + u32::from(names.life_at(15));
    [u32::from(names.mask()), lives]
}

/// The numbers of an entry: its tag, and its first ones.
fn entry_numbers(entry: &EntryRef) -> [u32; 5] {
    match entry.parts() {
        EntryParts::Data { from, req, body } => [
            1,
            u32::from(from.get()),
            *req,
            body.bytes().len() as u32,
            0,
        ],
        EntryParts::Join(name) => [2, u32::from(name.get()), 0, 0, 0],
        EntryParts::Leave(name) => [3, u32::from(name.get()), 0, 0, 0],
        EntryParts::View(view) => {
            let [mask, lives] = set_numbers(view.members);
            [4, view.stamp.round, mask, lives, u32::from(view.resilience)]
        }
    }
}

/// The numbers of a packet after its stamp, in the order of its bytes: a body by its length, a set by its places and lives.
fn numbers_of(packet: &Packet) -> [u32; 8] {
    match packet {
        Packet::Request {
            report: Report { stored, taken },
            req,
            body,
            ..
        }
        | Packet::Spread {
            report: Report { stored, taken },
            req,
            body,
            ..
        } => [*stored, *taken, *req, body.bytes().len() as u32, 0, 0, 0, 0],
        Packet::Bcast {
            base,
            acc,
            number,
            entry,
            ..
        } => {
            let [tag, first, second, third, last] = entry_numbers(entry);
            [*base, *acc, *number, tag, first, second, third, last]
        }
        Packet::Piece {
            base,
            number,
            entry,
            ..
        } => {
            let [tag, first, second, third, last] = entry_numbers(entry);
            [*base, *number, tag, first, second, third, last, 0]
        }
        _ => other_numbers_of(packet),
    }
}

/// The same of the kinds that hold neither a body nor an entry.
fn other_numbers_of(packet: &Packet) -> [u32; 8] {
    match packet {
        Packet::Order {
            from,
            req,
            base,
            acc,
            number,
            ..
        } => [*base, *acc, *number, u32::from(from.get()), *req, 0, 0, 0],
        Packet::Accept {
            base,
            acc,
            top,
            poll,
            ..
        } => [*base, *acc, *top, u32::from(*poll), 0, 0, 0, 0],
        Packet::Ack { report, .. }
        | Packet::Nack { report, .. }
        | Packet::LeaveAsk { report, .. } => [report.stored, report.taken, 0, 0, 0, 0, 0, 0],
        Packet::Hold { base, top, req, .. } => [*base, *top, *req, 0, 0, 0, 0, 0],
        Packet::Gone { number, .. } | Packet::Fetch { stored: number, .. } => {
            [*number, 0, 0, 0, 0, 0, 0, 0]
        }
        _ => numbers_of_views(packet),
    }
}

/// The same of the kinds that tell of views, and of those that tell nothing.
fn numbers_of_views(packet: &Packet) -> [u32; 8] {
    match packet {
        Packet::Welcome {
            base,
            join,
            image,
            ..
        } => {
            let image = image.to_image();
            [
                *base,
                *join,
                image.view.round,
                image.view_number,
                u32::from(image.resilience),
                image.rows[0].last,
                image.rows[1].left,
                image.rows[15].last,
            ]
        }
        Packet::Vote { vote, .. } => {
            let [mask, lives] = set_numbers(vote.members);
            [vote.view.round, vote.top, vote.taken, mask, lives, 0, 0, 0]
        }
        Packet::Result {
            base,
            number,
            view,
            ..
        } => {
            let [mask, lives] = set_numbers(view.members);
            [
                *base,
                *number,
                mask,
                lives,
                u32::from(view.resilience),
                0,
                0,
                0,
            ]
        }
        _ => [0; 8],
    }
}

#[test]
fn each_kind_is_read(rt: HostRuntime) -> Result<(), Fail> {
    for (bytes, numbers) in &VECTORS {
        let packet = decode(bytes).ok().ok_or("the bytes are a packet")?;
        let (sender, stamp) = packet.signature();
        assert!(rt; sender.get() == 1 && stamp.round == 2 && stamp.by.get() == 0);
        assert!(rt; packet.kind().number() == bytes[3]);
        assert!(rt; numbers_of(&packet) == *numbers);
    }
    Ok(())
}

#[test]
fn each_kind_is_written(rt: HostRuntime) -> Result<(), Fail> {
    for (bytes, _numbers) in &VECTORS {
        let packet = decode(bytes).ok().ok_or("the bytes are a packet")?;
        let letter = letter_of(rt.alloc(), Names::of_mask(6), &packet)?;
        assert!(rt; letter.bytes() == *bytes);
    }
    Ok(())
}

/// Bytes with another one at an offset.
fn with_byte(alloc: Global, bytes: &[u8], at: usize, byte: u8) -> Result<Vec<u8>, Fail> {
    let mut changed = Vec::from_slice(alloc, bytes)?;
    *changed.get_mut(at).ok_or("the offset is within")? = byte;
    Ok(changed)
}

/// Why bytes are no packet: the number of the cause, and the numbers that it tells.
fn refusal_of(bytes: &[u8]) -> [u32; 3] {
    match decode(bytes) {
        Ok(_packet) => [0, 0, 0],
        Err(PacketRefusal::Short) => [1, 0, 0],
        Err(PacketRefusal::BadMark) => [2, 0, 0],
        Err(PacketRefusal::BadVersion(byte)) => [3, u32::from(byte), 0],
        Err(PacketRefusal::BadKind(byte)) => [4, u32::from(byte), 0],
        Err(PacketRefusal::BadLength { said, found }) => [5, said, found],
        Err(PacketRefusal::BadField { at }) => [6, at, 0],
    }
}

#[test]
fn a_wrong_byte_is_refused_at_its_offset(rt: HostRuntime) -> Result<(), Fail> {
    for (packet, at, byte, refused_at) in &FAULTS {
        let changed = with_byte(rt.alloc(), packet, *at, *byte)?;
        assert!(rt; refusal_of(&changed) == [6, *refused_at, 0], "at {at}");
    }
    Ok(())
}

#[test]
fn a_wrong_header_is_refused(rt: HostRuntime) -> Result<(), Fail> {
    for (at, byte, wanted) in &HEADERS {
        let changed = with_byte(rt.alloc(), TEN, *at, *byte)?;
        assert!(rt; refusal_of(&changed) == *wanted, "at {at}");
    }
    Ok(())
}

/// A packet with another total in its header, and as many bytes.
fn with_total(alloc: Global, bytes: &[u8], total: u16) -> Result<Vec<u8>, Fail> {
    let [high, low] = total.to_be_bytes();
    let mut changed = with_byte(alloc, bytes, 10, high)?;
    *changed.get_mut(11).ok_or("there is a total")? = low;
    changed.resize(usize::from(total), 0)?;
    Ok(changed)
}

#[test]
fn a_wrong_total_is_refused(rt: HostRuntime) -> Result<(), Fail> {
    for (bytes, total) in &TOTALS {
        let changed = with_total(rt.alloc(), bytes, *total)?;
        assert!(rt; refusal_of(&changed) == [6, 10, 0], "with {total}");
    }
    Ok(())
}
