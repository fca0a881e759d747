ghost use Rattle.std.specs.Prelude.{◌≡◌, ◌+◌, ◌≤◌, ◌<◌, ◌++◌, ◌∷◌, [], length};
ghost use Rattle.am_base.specs.Most.{most_bytes_of_body, most_bytes_of_packet};
ghost use Rattle.byteorder.specs.Endian.{big_bytes};
ghost use Rattle.am_base.specs.Names.{IsSetOfNames};
ghost use Rattle.am_packet.specs.Images.{rows_length, image_length};
ghost use Rattle.am_packet.specs.Kinds.{most_entry};
ghost use Rattle.am_packet.specs.Limits.{PacketIsWithin, IsPacket, HasParts, HasEntryParts};
ghost use Rattle.am_packet.specs.Spelling.{spelling, header, fields_of, two_bytes, entry_bytes, image_bytes, vote_bytes, rows_bytes, row_bytes, set_bytes, report_bytes, stamp_bytes, flag_byte};

use am_base::body::{BodyRef, PacketBytes};
use am_base::entry::{EntryParts, EntryRef};
use am_base::image::{Image, Report, Row, Vote};
use am_base::name::{Name, Stamp};
use am_base::names::Names;
use am_packet::image_ref::ImageRef;
use am_packet::packet::Packet;

const VERSION: u8 = 3;

/// Writes one byte.
fn put_byte(into: &mut PacketBytes, byte: u8)
    requires { length into.old < most_bytes_of_packet }
    ensures { into.new ≡ into.old ++ byte ∷ [] }
{
    into.extend(&[byte]);
}

/// Writes two bytes, the most significant first.
fn put_short(into: &mut PacketBytes, number: u16)
    requires { length into.old + 2 ≤ most_bytes_of_packet }
    ensures { into.new ≡ into.old ++ big_bytes 2 number }
{
    into.extend(&number.to_be_bytes());
}

/// Writes four bytes, the most significant first.
fn put_number(into: &mut PacketBytes, number: u32)
    requires { length into.old + 4 ≤ most_bytes_of_packet }
    ensures { into.new ≡ into.old ++ big_bytes 4 number }
{
    into.extend(&number.to_be_bytes());
}

/// Writes eight bytes, the most significant first.
fn put_long(into: &mut PacketBytes, number: u64)
    requires { length into.old + 8 ≤ most_bytes_of_packet }
    ensures { into.new ≡ into.old ++ big_bytes 8 number }
{
    into.extend(&number.to_be_bytes());
}

/// Writes 1 where it holds, else 0.
fn put_flag(into: &mut PacketBytes, flag: bool)
    requires { length into.old < most_bytes_of_packet }
    ensures { into.new ≡ into.old ++ flag_byte flag ∷ [] }
{
    if flag {
        put_byte(into, 1);
    } else {
        put_byte(into, 0);
    }
}

/// Writes a round and the name that began it.
fn put_stamp(into: &mut PacketBytes, stamp: Stamp)
    requires { length into.old + 5 ≤ most_bytes_of_packet }
    ensures { into.new ≡ into.old ++ stamp_bytes stamp }
{
    put_number(into, stamp.round);
    put_byte(into, stamp.by.get());
}

/// Writes what is stored and what is taken.
fn put_report(into: &mut PacketBytes, report: Report)
    requires { length into.old + 8 ≤ most_bytes_of_packet }
    ensures { into.new ≡ into.old ++ report_bytes report }
{
    put_number(into, report.stored);
    put_number(into, report.taken);
}

/// Writes the places of a set as a mask, and their lives.
fn put_set(into: &mut PacketBytes, set: Names)
    requires { length into.old + 10 ≤ most_bytes_of_packet }
    ensures { into.new ≡ into.old ++ set_bytes set }
{
    put_short(into, set.mask());
    put_long(into, set.lives());
}

/// Writes a place's life and its three numbers.
fn put_row(into: &mut PacketBytes, row: Row)
    requires { length into.old + 13 ≤ most_bytes_of_packet }
    ensures { into.new ≡ into.old ++ row_bytes row }
{
    put_byte(into, row.life);
    put_numbers(into, row.joined, row.left, row.last);
}

/// Writes the sixteen rows one after the other.
fn put_rows(into: &mut PacketBytes, rows: &[Row; 16])
    requires { length into.old + rows_length ≤ most_bytes_of_packet }
    ensures { into.new ≡ into.old ++ rows_bytes rows.now }
{
    for row in rows {
        put_row(into, *row);
    }
}

/// Writes a view and its table.
fn put_image(into: &mut PacketBytes, image: &Image)
    requires { length into.old + image_length ≤ most_bytes_of_packet }
    ensures { into.new ≡ into.old ++ image_bytes image.now }
{
    put_stamp(into, image.view);
    put_number(into, image.view_number);
    put_byte(into, image.resilience);
    put_rows(into, &image.rows);
}

/// How many bytes sixteen rows take.
fn rows_len(rows: &[Row; 16]) -> usize
    ensures value { result ≡ length (rows_bytes rows.now) }
    ensures fits { result ≤ rows_length }
    ensures parts { length rows.now ≡ 16 }
{
    13 * rows.len()
}

/// How many bytes an image takes.
#[inline(never)]
fn image_len(image: &ImageRef) -> usize
    ensures value { result ≡ length (image_bytes image.now) }
    ensures fits { result ≤ image_length }
    ensures parts { length image.now.rows ≡ 16 }
{
    10 + rows_len(&image.to_image().rows)
}

/// Writes what a voter shows of its list.
fn put_vote(into: &mut PacketBytes, vote: Vote)
    requires { length into.old + 23 ≤ most_bytes_of_packet }
    ensures { into.new ≡ into.old ++ vote_bytes vote }
{
    put_stamp(into, vote.view);
    put_number(into, vote.top);
    put_number(into, vote.taken);
    put_set(into, vote.members);
}

/// How many bytes a set takes.
fn set_len(set: Names) -> usize
    ensures value { result ≡ length (set_bytes set) }
    ensures parts { IsSetOfNames set }
{
    2 + set.each_life().len() / 2
}

/// How many bytes an entry takes.
#[tactic(auto, unfolding(am_packet::specs::Spelling::entry_bytes))]
fn entry_len(entry: &EntryRef) -> usize
    ensures value { result ≡ length (entry_bytes entry.now) }
    ensures fits { result ≤ most_entry }
    ensures parts { HasEntryParts entry.now }
{
    match entry.parts() {
        EntryParts::Data { body, .. } => 6 + body_len(body),
        EntryParts::Join(_) => 2,
        EntryParts::Leave(_) => 2,
        EntryParts::View(view) => 7 + set_len(view.members),
    }
}

/// Writes an entry's tag, and then its fields.
#[tactic(auto, unfolding(am_packet::specs::Spelling::entry_bytes))]
fn put_entry(into: &mut PacketBytes, entry: &EntryRef)
    requires { length into.old ≤ 24 }
    ensures { into.new ≡ into.old ++ entry_bytes entry.now }
{
    match entry.parts() {
        EntryParts::Data { from, req, body } => {
            put_byte(into, 1);
            put_byte(into, from.get());
            put_number(into, *req);
            into.extend(body.bytes());
        }
        EntryParts::Join(name) => {
            put_byte(into, 2);
            put_byte(into, name.get());
        }
        EntryParts::Leave(name) => {
            put_byte(into, 3);
            put_byte(into, name.get());
        }
        EntryParts::View(view) => {
            put_byte(into, 4);
            put_stamp(into, view.stamp);
            put_set(into, view.members);
            put_byte(into, view.resilience);
        }
    }
}

/// How many bytes a body takes.
fn body_len(body: &BodyRef) -> usize
    ensures value { result ≡ length body.now }
    ensures fits { result ≤ most_bytes_of_body }
{
    body.bytes().len()
}

/// How many bytes a packet's fields take.
#[tactic(auto, unfolding(am_packet::specs::Spelling::fields_of, am_packet::specs::Limits::HasParts))]
fn fields_len(packet: &Packet) -> usize
    ensures value { result ≡ length (fields_of packet.now) }
    ensures fits { result ≤ 1100 }
    ensures parts { HasParts packet.now }
{
    match packet {
        Packet::Request { body, .. } | Packet::Spread { body, .. } => 12 + body_len(body),
        Packet::Bcast { entry, .. } => 12 + entry_len(entry),
        Packet::Order { .. } => 17,
        Packet::Accept { .. } => 13,
        Packet::Ack { .. } | Packet::Nack { .. } | Packet::LeaveAsk { .. } => 8,
        Packet::Hold { .. } => 12,
        Packet::Welcome { image, .. } => 8 + image_len(image),
        Packet::Gone { .. } | Packet::Fetch { .. } => 4,
        Packet::Vote { vote, .. } => 13 + set_len(vote.members),
        Packet::Piece { entry, .. } => 8 + entry_len(entry),
        Packet::Result { view, .. } => 9 + set_len(view.members),
        _ => 0,
    }
}

/// Writes what a Request and a Spread tell.
fn put_send(into: &mut PacketBytes, report: Report, req: u32, body: &BodyRef)
    requires { length into.old ≤ 12 }
    ensures { into.new ≡ into.old ++ (report_bytes report ++ big_bytes 4 req ++ body.now) }
{
    put_report(into, report);
    put_number(into, req);
    into.extend(body.bytes());
}

/// Writes three numbers.
fn put_numbers(into: &mut PacketBytes, first: u32, second: u32, third: u32)
    requires { length into.old + 12 ≤ most_bytes_of_packet }
    ensures { into.new ≡ into.old ++ (big_bytes 4 first ++ big_bytes 4 second
        ++ big_bytes 4 third) }
{
    put_number(into, first);
    put_number(into, second);
    put_number(into, third);
}

/// Writes two numbers.
fn put_two(into: &mut PacketBytes, first: u32, second: u32)
    requires { length into.old + 8 ≤ most_bytes_of_packet }
    ensures { into.new ≡ into.old ++ two_bytes first second }
{
    put_number(into, first);
    put_number(into, second);
}

/// Writes what a Bcast tells.
fn put_bcast(into: &mut PacketBytes, base: u32, acc: u32, number: u32, entry: &EntryRef)
    requires { length into.old ≤ 12 }
    ensures { into.new ≡ into.old ++ (big_bytes 4 base ++ big_bytes 4 acc ++ big_bytes 4 number
        ++ entry_bytes entry.now) }
{
    put_numbers(into, base, acc, number);
    put_entry(into, entry);
}

/// Writes what an Accept tells.
fn put_accept(into: &mut PacketBytes, base: u32, acc: u32, top: u32, poll: bool)
    requires { length into.old ≤ 12 }
    ensures { into.new ≡ into.old ++ (big_bytes 4 base ++ big_bytes 4 acc ++ big_bytes 4 top
        ++ flag_byte poll ∷ []) }
{
    put_numbers(into, base, acc, top);
    put_flag(into, poll);
}

/// Writes what a Welcome tells.
#[inline(never)]
fn put_welcome(into: &mut PacketBytes, base: u32, join: u32, image: &ImageRef)
    requires { length into.old ≤ 12 }
    ensures { into.new ≡ into.old ++ (two_bytes base join ++ image_bytes image.now) }
{
    put_two(into, base, join);
    put_image(into, &image.to_image());
}

/// Writes what stands after a packet's header.
#[tactic(auto, using(crate::proofs::Pieces::bytes_after_no_piece), unfolding(am_packet::specs::Spelling::fields_of))]
fn put_fields(into: &mut PacketBytes, packet: &Packet)
    requires { length into.old ≤ 12 }
    ensures { into.new ≡ into.old ++ fields_of packet.now }
{
    match packet {
        Packet::Request {
            report,
            req,
            body,
            ..
        }
        | Packet::Spread {
            report,
            req,
            body,
            ..
        } => put_send(into, *report, *req, body),
        Packet::Bcast {
            base,
            acc,
            number,
            entry,
            ..
        } => put_bcast(into, *base, *acc, *number, entry),
        Packet::Order {
            base,
            acc,
            number,
            from,
            req,
            ..
        } => {
            put_numbers(into, *base, *acc, *number);
            put_byte(into, from.get());
            put_number(into, *req);
        }
        Packet::Accept {
            base,
            acc,
            top,
            poll,
            ..
        } => put_accept(into, *base, *acc, *top, *poll),
        Packet::Ack { report, .. }
        | Packet::Nack { report, .. }
        | Packet::LeaveAsk { report, .. } => put_report(into, *report),
        Packet::Hold { base, top, req, .. } => put_numbers(into, *base, *top, *req),
        Packet::Welcome {
            base,
            join,
            image,
            ..
        } => put_welcome(into, *base, *join, image),
        Packet::Gone { number, .. } | Packet::Fetch { stored: number, .. } => {
            put_number(into, *number);
        }
        Packet::Vote { vote, .. } => put_vote(into, *vote),
        Packet::Piece {
            base,
            number,
            entry,
            ..
        } => {
            put_two(into, *base, *number);
            put_entry(into, entry);
        }
        Packet::Result {
            base,
            number,
            view,
            ..
        } => {
            put_two(into, *base, *number);
            put_set(into, view.members);
            put_byte(into, view.resilience);
        }
        _ => {}
    }
}

/// Writes the mark, the version, the kind, who sends, the stamp and the total.
fn put_header(into: &mut PacketBytes, kind: u8, sender: Name, stamp: Stamp, total: u16)
    requires { length into.old + 12 ≤ most_bytes_of_packet }
    ensures { into.new ≡ into.old ++ header kind sender stamp total }
{
    into.extend(&[b'A', b'G', VERSION, kind, sender.get()]);
    put_stamp(into, stamp);
    put_short(into, total);
}

/// Leaves in `into` exactly the packet's spelling.
#[tactic(auto, unfolding(am_packet::specs::Spelling::spelling))]
pub fn encode(packet: &Packet, into: &mut PacketBytes)
    requires { PacketIsWithin packet.now }
    ensures spelled { into.new ≡ spelling packet.now }
    ensures packet { IsPacket packet.now }
{
    let total = 12 + fields_len(packet) as u16;
    let (sender, stamp) = packet.signature();
    into.clear();
    put_header(into, packet.kind().number(), sender, stamp, total);
    put_fields(into, packet);
}
