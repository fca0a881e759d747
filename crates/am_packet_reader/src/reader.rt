ghost use Rattle.std.specs.Prelude.{◌≡◌, ℕ, ◌≤◌, ◌<◌, ◌≢◌, ◌↔◌, false, length, Some, None, Ok, Err, IfOk, OnOk, IfErr, slice_index};
ghost use Rattle.am_packet.specs.declared.packet.Packet.{Packet};
ghost use Rattle.am_packet.specs.declared.refusal.PacketRefusal.TheVariants.{Short, BadMark, BadVersion, BadKind, BadLength, BadField};
ghost use Rattle.am_packet.specs.Causes.{HasMark, HasVersion, HasKind, HasTotal};
ghost use Rattle.am_packet.specs.Faults.{wrong_in};
ghost use Rattle.am_packet.specs.Kinds.{kind_at, least_total, most_total};
ghost use Rattle.am_packet.specs.Limits.{IsPacket};
ghost use Rattle.am_packet.specs.Spelling.{spelling};
ghost use Rattle.am_packet.specs.Reading.{reading, of_kind_at, has_mark, version_in, kind_in, total_in, found_in, fields_at, packet_at};

use crate::field_reader::{name, stamp};
use crate::packet_reader::packet;
use am_base::name::Stamp;
use am_packet::PacketRefusal;
use am_packet::kind::PacketKind;
use am_packet::letter::Letter;
use am_packet::packet::Packet;
use byteorder::{BigEndian, ByteOrder};

const VERSION: u8 = 3;

/// The stamp of a packet of this kind, where the packet has a total that the kind can have.
#[tactic(auto, unfolding(am_packet::specs::Reading::fields_at))]
fn begin(kind: PacketKind, bytes: &[u8]) -> Result<Stamp, PacketRefusal>
    requires { 12 ≤ length bytes.now }
    ensures least { OnOk result (least_total kind ≤ length bytes.now) }
    ensures most { OnOk result (length bytes.now ≤ most_total kind) }
    ensures ok { IfOk result (λ stamp. fields_at kind bytes.now
        ≡ packet_at kind (slice_index bytes.now 4) stamp bytes.now) }
    ensures err { IfErr result (λ refusal. fields_at kind bytes.now ≡ Err refusal) }
{
    let stamp = stamp(bytes, 5)?;
    if kind.is_total(bytes.len()) {
        return Ok(stamp);
    }
    Err(PacketRefusal::BadField { at: 10 })
}

/// The kind after a mark and a version, where the header says how many bytes there are.
#[tactic(auto, unfolding(am_packet::specs::Reading::of_kind_at))]
fn kind_of(bytes: &[u8]) -> Result<PacketKind, PacketRefusal>
    requires { 12 ≤ length bytes.now }
    ensures ok { IfOk result (λ kind. of_kind_at (kind_at (kind_in bytes.now)) bytes.now
        ≡ fields_at kind bytes.now) }
    ensures err { IfErr result (λ refusal. of_kind_at (kind_at (kind_in bytes.now)) bytes.now
        ≡ Err refusal) }
{
    let Some(kind) = PacketKind::of_byte(bytes[3]) else {
        return Err(PacketRefusal::BadKind(bytes[3]));
    };
    let total = BigEndian::read_u16(&bytes[10..]);
    if usize::from(total) != bytes.len() {
        return Err(PacketRefusal::BadLength {
            said: u32::from(total),
            found: bytes.len().min(u32::MAX as usize) as u32,
        });
    }
    Ok(kind)
}

/// The kind of the packet, where the header is right.
#[tactic(auto, unfolding(am_packet::specs::Reading::reading))]
fn header(bytes: &[u8]) -> Result<PacketKind, PacketRefusal>
    ensures long { OnOk result (12 ≤ length bytes.now) }
    ensures ok { IfOk result (λ kind. reading bytes.now ≡ fields_at kind bytes.now) }
    ensures err { IfErr result (λ refusal. reading bytes.now ≡ Err refusal) }
{
    if bytes.len() < 12 {
        return Err(PacketRefusal::Short);
    }
    if bytes[0] != b'A' || bytes[1] != b'G' {
        return Err(PacketRefusal::BadMark);
    }
    if bytes[2] != VERSION {
        return Err(PacketRefusal::BadVersion(bytes[2]));
    }
    kind_of(bytes)
}

/// The header, the stamp with the total, and then the fields.
fn read(bytes: &[u8]) -> Result<Packet<'_>, PacketRefusal>
    ensures { result ≡ reading bytes.now }
{
    let kind = header(bytes)?;
    let stamp = begin(kind, bytes)?;
    packet(kind, name(bytes, 4), stamp, bytes)
}

/// The packet that these bytes spell, all of them, or the first cause that they spell none. A count of bytes above
/// 4,294,967,295 is told as that number.
pub fn decode(bytes: &[u8]) -> Result<Packet<'_>, PacketRefusal>
    ensures exact { result ≡ reading bytes.now }
    // What is read is spelled so.
    ensures found { IfOk result (λ packet. IsPacket packet × (bytes.now ≡ spelling packet)) }
    // What is spelled so is read.
    ensures only { (packet : Packet) → IsPacket packet → bytes.now ≡ spelling packet
        → result ≡ Ok packet }
    // Each refusal comes exactly where it is the first cause.
    ensures short { (result ≡ Err Short) ↔ (length bytes.now < 12) }
    ensures bad_mark { (result ≡ Err BadMark)
        ↔ ((12 ≤ length bytes.now) × (has_mark bytes.now ≡ false)) }
    ensures bad_version { (version : ℕ) → (result ≡ Err (BadVersion version))
        ↔ (HasMark bytes.now × (version_in bytes.now ≡ version) × (version ≢ 3)) }
    ensures bad_kind { (kind : ℕ) → (result ≡ Err (BadKind kind))
        ↔ (HasVersion bytes.now × (kind_in bytes.now ≡ kind) × (kind_at kind ≡ None)) }
    ensures bad_length { (said found : ℕ) → (result ≡ Err (BadLength said found))
        ↔ (HasKind bytes.now × (total_in bytes.now ≡ said) × (found_in bytes.now ≡ found)
        × (said ≢ length bytes.now)) }
    ensures bad_field { (at : ℕ) → (result ≡ Err (BadField at))
        ↔ (HasTotal bytes.now × (wrong_in (kind_at (kind_in bytes.now)) bytes.now ≡ Some at)) }
{
    read(bytes)
}

/// The packet that a letter's bytes spell.
pub fn packet_of(letter: &Letter) -> Packet<'_>
    ensures { result ≡ letter.now.packet }
{
    match decode(letter.bytes()) {
        Ok(packet) => packet,
        Err(_) => unreachable!(),
    }
}
