//! Each kind that has fields is read by a function of its own: a function clears its large locals whenever it is entered.
#![tactic(auto, unfolding(am_packet::specs::Reading::packet_at))]

ghost use Rattle.std.specs.Prelude.{◌≡◌, ◌≤◌, ◌+◌, ℕ, length, Ok, Err, IfOk, IfErr};
ghost use Rattle.am_packet.specs.declared.packet.Packet.{Packet};
ghost use Rattle.am_packet.specs.Images.{image_length};
ghost use Rattle.am_packet.specs.declared.packet.Packet.TheVariants as packets;
ghost use Rattle.am_packet.specs.declared.kind.PacketKind.TheVariants as kinds;
ghost use Rattle.am_packet.specs.Kinds.{least_total, most_total, most_request};
ghost use Rattle.am_packet.specs.Reading.{Read, number_at, three_at, packet_at};

use crate::field_reader::{body, entry, flag, image, name, number, report, resilience, set, vote};
use am_base::entry::GroupView;
use am_base::name::{Name, Stamp};
use am_packet::PacketRefusal;
use am_packet::kind::PacketKind;
use am_packet::packet::Packet;

/// The three numbers after the header, of kinds that have so many there.
#[derive(Clone, Copy)]
struct ThreeNumbers {
    first: u32,
    second: u32,
    third: u32,
}

#[inline(always)]
fn three(bytes: &[u8]) -> Result<ThreeNumbers, PacketRefusal>
    requires { 24 ≤ length bytes.now }
    ensures ok { IfOk result (λ r. (number_at bytes.now 12 ≡ Ok r.first)
        × (number_at bytes.now 16 ≡ Ok r.second) × (number_at bytes.now 20 ≡ Ok r.third)) }
    ensures err { IfErr result (λ e. (make : ℕ → ℕ → ℕ → Read Packet) → three_at bytes.now make ≡ Err e) }
{
    read!(bytes, ThreeNumbers { first: number @ 12, second: number @ 16, third: number @ 20 })
}

#[inline(never)]
fn request(sender: Name, stamp: Stamp, bytes: &[u8]) -> Result<Packet<'_>, PacketRefusal>
    requires least { 24 ≤ length bytes.now }
    requires most { length bytes.now ≤ most_request }
    ensures { result ≡ packet_at kinds.Request sender stamp bytes.now }
{
    let body = body(bytes, 24);
    read!(bytes, Packet::Request { report: report @ 12, req: number @ 20 }, sender, stamp, body)
}

#[inline(never)]
fn spread(sender: Name, stamp: Stamp, bytes: &[u8]) -> Result<Packet<'_>, PacketRefusal>
    requires least { 24 ≤ length bytes.now }
    requires most { length bytes.now ≤ most_request }
    ensures { result ≡ packet_at kinds.Spread sender stamp bytes.now }
{
    let body = body(bytes, 24);
    read!(bytes, Packet::Spread { report: report @ 12, req: number @ 20 }, sender, stamp, body)
}

#[inline(never)]
fn bcast(sender: Name, stamp: Stamp, bytes: &[u8]) -> Result<Packet<'_>, PacketRefusal>
    requires { 25 ≤ length bytes.now }
    ensures { result ≡ packet_at kinds.Bcast sender stamp bytes.now }
{
    let numbers = three(bytes)?;
    Ok(Packet::Bcast {
        sender,
        stamp,
        base: numbers.first,
        acc: numbers.second,
        number: numbers.third,
        entry: entry(bytes, 24)?,
    })
}

#[inline(never)]
fn order(sender: Name, stamp: Stamp, bytes: &[u8]) -> Result<Packet<'_>, PacketRefusal>
    requires { 29 ≤ length bytes.now }
    ensures { result ≡ packet_at kinds.Order sender stamp bytes.now }
{
    let numbers = three(bytes)?;
    Ok(Packet::Order {
        sender,
        stamp,
        base: numbers.first,
        acc: numbers.second,
        number: numbers.third,
        from: name(bytes, 24),
        req: number(bytes, 25)?,
    })
}

#[inline(never)]
fn accept(sender: Name, stamp: Stamp, bytes: &[u8]) -> Result<Packet<'_>, PacketRefusal>
    requires { 25 ≤ length bytes.now }
    ensures { result ≡ packet_at kinds.Accept sender stamp bytes.now }
{
    let numbers = three(bytes)?;
    Ok(Packet::Accept {
        sender,
        stamp,
        base: numbers.first,
        acc: numbers.second,
        top: numbers.third,
        poll: flag(bytes, 24)?,
    })
}

#[inline(never)]
fn ack(sender: Name, stamp: Stamp, bytes: &[u8]) -> Result<Packet<'_>, PacketRefusal>
    requires { 20 ≤ length bytes.now }
    ensures { result ≡ packet_at kinds.Ack sender stamp bytes.now }
{
    read!(bytes, Packet::Ack { report: report @ 12 }, sender, stamp)
}

#[inline(never)]
fn nack(sender: Name, stamp: Stamp, bytes: &[u8]) -> Result<Packet<'_>, PacketRefusal>
    requires { 20 ≤ length bytes.now }
    ensures { result ≡ packet_at kinds.Nack sender stamp bytes.now }
{
    read!(bytes, Packet::Nack { report: report @ 12 }, sender, stamp)
}

#[inline(never)]
fn hold(sender: Name, stamp: Stamp, bytes: &[u8]) -> Result<Packet<'_>, PacketRefusal>
    requires { 24 ≤ length bytes.now }
    ensures { result ≡ packet_at kinds.Hold sender stamp bytes.now }
{
    let numbers = three(bytes)?;
    Ok(Packet::Hold {
        sender,
        stamp,
        base: numbers.first,
        top: numbers.second,
        req: numbers.third,
    })
}

#[inline(never)]
fn welcome(sender: Name, stamp: Stamp, bytes: &[u8]) -> Result<Packet<'_>, PacketRefusal>
    requires { 20 + image_length ≤ length bytes.now }
    ensures { result ≡ packet_at kinds.Welcome sender stamp bytes.now }
{
    read!(bytes, Packet::Welcome { base: number @ 12, join: number @ 16, image: image @ 20 }, sender, stamp)
}

#[inline(never)]
fn leave_ask(sender: Name, stamp: Stamp, bytes: &[u8]) -> Result<Packet<'_>, PacketRefusal>
    requires { 20 ≤ length bytes.now }
    ensures { result ≡ packet_at kinds.LeaveAsk sender stamp bytes.now }
{
    read!(bytes, Packet::LeaveAsk { report: report @ 12 }, sender, stamp)
}

#[inline(never)]
fn gone(sender: Name, stamp: Stamp, bytes: &[u8]) -> Result<Packet<'_>, PacketRefusal>
    requires { 16 ≤ length bytes.now }
    ensures { result ≡ packet_at kinds.Gone sender stamp bytes.now }
{
    read!(bytes, Packet::Gone { number: number @ 12 }, sender, stamp)
}

#[inline(never)]
fn vote_of(sender: Name, stamp: Stamp, bytes: &[u8]) -> Result<Packet<'_>, PacketRefusal>
    requires { 35 ≤ length bytes.now }
    ensures { result ≡ packet_at kinds.Vote sender stamp bytes.now }
{
    read!(bytes, Packet::Vote { vote: vote @ 12 }, sender, stamp)
}

#[inline(never)]
fn fetch(sender: Name, stamp: Stamp, bytes: &[u8]) -> Result<Packet<'_>, PacketRefusal>
    requires { 16 ≤ length bytes.now }
    ensures { result ≡ packet_at kinds.Fetch sender stamp bytes.now }
{
    read!(bytes, Packet::Fetch { stored: number @ 12 }, sender, stamp)
}

#[inline(never)]
fn piece(sender: Name, stamp: Stamp, bytes: &[u8]) -> Result<Packet<'_>, PacketRefusal>
    requires { 21 ≤ length bytes.now }
    ensures { result ≡ packet_at kinds.Piece sender stamp bytes.now }
{
    read!(bytes, Packet::Piece { base: number @ 12, number: number @ 16, entry: entry @ 20 }, sender, stamp)
}

#[inline(never)]
fn result_of(sender: Name, stamp: Stamp, bytes: &[u8]) -> Result<Packet<'_>, PacketRefusal>
    requires { 31 ≤ length bytes.now }
    ensures { result ≡ packet_at kinds.Result sender stamp bytes.now }
{
    let base = number(bytes, 12)?;
    let number = number(bytes, 16)?;
    let members = set(bytes, 20)?;
    let resilience = resilience(bytes, 30)?;
    let view = GroupView {
        stamp,
        members,
        resilience,
    };
    Ok(Packet::Result {
        sender,
        base,
        number,
        view,
    })
}

/// The packet of a kind, a sender and a stamp, whose fields stand after the header.
pub fn packet(
    kind: PacketKind,
    sender: Name,
    stamp: Stamp,
    bytes: &[u8],
) -> Result<Packet<'_>, PacketRefusal>
    requires least { least_total kind ≤ length bytes.now }
    requires most { length bytes.now ≤ most_total kind }
    ensures { result ≡ packet_at kind sender stamp bytes.now }
{
    match kind {
        PacketKind::Request => request(sender, stamp, bytes),
        PacketKind::Spread => spread(sender, stamp, bytes),
        PacketKind::Bcast => bcast(sender, stamp, bytes),
        PacketKind::Order => order(sender, stamp, bytes),
        PacketKind::Accept => accept(sender, stamp, bytes),
        PacketKind::Ack => ack(sender, stamp, bytes),
        PacketKind::Nack => nack(sender, stamp, bytes),
        PacketKind::Hold => hold(sender, stamp, bytes),
        PacketKind::JoinAsk => Ok(Packet::JoinAsk { sender, stamp }),
        PacketKind::Welcome => welcome(sender, stamp, bytes),
        PacketKind::LeaveAsk => leave_ask(sender, stamp, bytes),
        PacketKind::Gone => gone(sender, stamp, bytes),
        PacketKind::Invite => Ok(Packet::Invite { sender, stamp }),
        PacketKind::Vote => vote_of(sender, stamp, bytes),
        PacketKind::Fetch => fetch(sender, stamp, bytes),
        PacketKind::Piece => piece(sender, stamp, bytes),
        PacketKind::Result => result_of(sender, stamp, bytes),
        PacketKind::HandOver => Ok(Packet::HandOver { sender, stamp }),
    }
}
