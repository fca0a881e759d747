ghost use Rattle.std.specs.Prelude.{◌≡◌, ◌+◌, ◌≤◌, ◌<◌, ◌==◌, true, false, IfOk, IfErr, length, drop, slice_index};
ghost use Rattle.am_base.specs.Most.{most_bytes_of_body, most_bytes_of_packet};
ghost use Rattle.am_packet.specs.Images.{rows_length, image_length};
ghost use Rattle.am_packet.specs.Reading.{number_at, report_at, stamp_at, read_set_at, resilience_at, flag_at, life_at, read_row_at, rows_at, read_image_at, vote_at, read_entry_at, data_at, view_at, view_fields_at};

use am_base::body::BodyRef;
use am_base::entry::{EntryParts, EntryRef, GroupView};
use am_base::image::{Image, Report, Row, Vote};
use am_base::limits::{MOST_BODY, MOST_NUMBER, MOST_RESILIENCE};
use am_base::name::{Name, Stamp};
use am_base::names::Names;
use am_packet::PacketRefusal;
use am_packet::image_ref::ImageRef;
use byteorder::{BigEndian, ByteOrder};

/// The number in the four bytes at an offset.
#[tactic(auto, unfolding(am_packet::specs::Reading::number_at))]
pub fn number(bytes: &[u8], at: u32) -> Result<u32, PacketRefusal>
    requires { at + 4 ≤ length bytes.now }
    ensures { result ≡ number_at bytes.now at }
{
    let number = BigEndian::read_u32(&bytes[at as usize..]);
    if number <= MOST_NUMBER {
        return Ok(number);
    }
    Err(PacketRefusal::BadField { at })
}

/// The name in the byte at an offset.
pub fn name(bytes: &[u8], at: u32) -> Name
    requires { at < length bytes.now }
    ensures { result ≡ slice_index bytes.now at }
{
    Name::of_byte(bytes[at as usize])
}

/// The report at an offset.
#[tactic(auto, unfolding(am_packet::specs::Reading::report_at))]
pub fn report(bytes: &[u8], at: u32) -> Result<Report, PacketRefusal>
    requires long { at + 8 ≤ length bytes.now }
    requires small { at < most_bytes_of_packet }
    ensures { result ≡ report_at bytes.now at }
{
    read!(bytes, Report { stored: number @ at, taken: number @ at + 4 })
}

/// The stamp at an offset.
#[tactic(auto, unfolding(am_packet::specs::Reading::stamp_at))]
pub fn stamp(bytes: &[u8], at: u32) -> Result<Stamp, PacketRefusal>
    requires long { at + 5 ≤ length bytes.now }
    requires small { at < most_bytes_of_packet }
    ensures { result ≡ stamp_at bytes.now at }
{
    let by = name(bytes, at + 4);
    read!(bytes, Stamp { round: number @ at }, by)
}

/// The set of names at an offset.
#[tactic(auto, unfolding(am_packet::specs::Reading::read_set_at))]
pub fn set(bytes: &[u8], at: u32) -> Result<Names, PacketRefusal>
    requires long { at + 10 ≤ length bytes.now }
    requires small { at < most_bytes_of_packet }
    ensures { result ≡ read_set_at bytes.now at }
{
    let mask = BigEndian::read_u16(&bytes[at as usize..]);
    let lives = BigEndian::read_u64(&bytes[at as usize + 2..]);
    match Names::of_parts(mask, lives) {
        Some(set) => Ok(set),
        None => Err(PacketRefusal::BadField { at: at + 2 }),
    }
}

/// The resilience in the byte at an offset.
#[tactic(auto, unfolding(am_packet::specs::Reading::resilience_at))]
pub fn resilience(bytes: &[u8], at: u32) -> Result<u8, PacketRefusal>
    requires { at < length bytes.now }
    ensures { result ≡ resilience_at bytes.now at }
{
    let resilience = bytes[at as usize];
    if resilience <= MOST_RESILIENCE {
        return Ok(resilience);
    }
    Err(PacketRefusal::BadField { at })
}

/// The flag in the byte at an offset.
#[tactic(auto, unfolding(am_packet::specs::Reading::flag_at))]
pub fn flag(bytes: &[u8], at: u32) -> Result<bool, PacketRefusal>
    requires { at < length bytes.now }
    ensures { result ≡ flag_at bytes.now at }
{
    match bytes[at as usize] {
        0 => Ok(false),
        1 => Ok(true),
        _ => Err(PacketRefusal::BadField { at }),
    }
}

/// The life at an offset, of a row whose Join has this number.
#[tactic(auto, unfolding(am_packet::specs::Reading::life_at))]
fn life(bytes: &[u8], at: u32, joined: u32) -> Result<u8, PacketRefusal>
    requires { at < length bytes.now }
    ensures { result ≡ life_at bytes.now at joined }
{
    let life = bytes[at as usize];
    if life <= 16 && (life == 0) == (joined == 0) {
        return Ok(life);
    }
    Err(PacketRefusal::BadField { at })
}

/// The row of a place at an offset.
#[tactic(auto, unfolding(am_packet::specs::Reading::read_row_at))]
fn row(bytes: &[u8], at: u32) -> Result<Row, PacketRefusal>
    requires long { at + 13 ≤ length bytes.now }
    requires small { at < most_bytes_of_packet }
    ensures { result ≡ read_row_at bytes.now at }
{
    let joined = number(bytes, at + 1)?;
    let life = life(bytes, at, joined)?;
    read!(bytes, Row { left: number @ at + 5, last: number @ at + 9 }, life, joined)
}

/// The rows of the sixteen places from an offset on.
fn rows(bytes: &[u8], at: u32) -> Result<[Row; 16], PacketRefusal>
    requires long { at + rows_length ≤ length bytes.now }
    requires small { at < 100 }
    ensures { result ≡ rows_at 16 bytes.now at }
{
    let mut rows = [Row::default(); 16];
    for place in 0..16usize {
        rows[place] = row(bytes, at + 13 * place as u32)?;
    }
    Ok(rows)
}

/// The image at an offset, read whole.
#[tactic(auto, unfolding(am_packet::specs::Reading::read_image_at))]
fn whole_image(bytes: &[u8], at: u32) -> Result<Image, PacketRefusal>
    requires long { at + image_length ≤ length bytes.now }
    requires small { at < 50 }
    ensures { result ≡ read_image_at bytes.now at }
{
    read!(bytes, Image { view: stamp @ at, view_number: number @ at + 5, resilience: resilience @ at + 9, rows: rows @ at + 10 })
}

/// The image at an offset, where it stands. It is read whole, to see that it is one.
pub fn image(bytes: &[u8], at: u32) -> Result<ImageRef<'_>, PacketRefusal>
    requires long { at + image_length ≤ length bytes.now }
    requires small { at < 50 }
    ensures { result ≡ read_image_at bytes.now at }
{
    match whole_image(bytes, at) {
        Ok(_) => Ok(ImageRef::among(bytes, at as usize)),
        Err(refusal) => Err(refusal),
    }
}

/// The vote at an offset.
#[tactic(auto, unfolding(am_packet::specs::Reading::vote_at))]
pub fn vote(bytes: &[u8], at: u32) -> Result<Vote, PacketRefusal>
    requires small { at < 100 }
    requires long { at + 23 ≤ length bytes.now }
    ensures { result ≡ vote_at bytes.now at }
{
    read!(bytes, Vote { view: stamp @ at, top: number @ at + 5, taken: number @ at + 9, members: set @ at + 13 })
}

/// The body that stands from an offset on.
pub fn body(bytes: &[u8], at: u32) -> BodyRef<'_>
    requires least { at ≤ length bytes.now }
    requires most { length bytes.now ≤ at + most_bytes_of_body }
    ensures { result ≡ drop at bytes.now }
{
    BodyRef::of(&bytes[at as usize..]).unwrap()
}

/// A send, whose body goes on to the end.
#[tactic(auto, unfolding(am_packet::specs::Reading::data_at))]
fn data(bytes: &[u8], at: u32) -> Result<EntryRef<'_>, PacketRefusal>
    requires long { at < length bytes.now }
    requires small { at < 100 }
    ensures { result ≡ data_at bytes.now at }
{
    let at_body = at + 6;
    if bytes.len() < at_body as usize || at_body as usize + MOST_BODY < bytes.len() {
        return Err(PacketRefusal::BadField { at: 10 });
    }
    let req = number(bytes, at + 2)?;
    let from = name(bytes, at + 1);
    let body = body(bytes, at_body);
    Ok(EntryRef::of(EntryParts::Data { from, req, body }))
}

/// The name after the tag of an entry that has nothing else.
fn named(bytes: &[u8], at: u32) -> Result<Name, PacketRefusal>
    requires { at < 100 }
    ensures ok { IfOk result (λ name. ((length bytes.now == at + 2) ≡ true)
        × (name ≡ slice_index bytes.now (at + 1))) }
    ensures err { IfErr result (λ e. ((length bytes.now == at + 2) ≡ false)
        × (e ≡ PacketRefusal.BadField 10)) }
{
    if bytes.len() == at as usize + 2 {
        return Ok(name(bytes, at + 1));
    }
    Err(PacketRefusal::BadField { at: 10 })
}

/// What stands after the tag of a View.
#[tactic(auto, unfolding(am_packet::specs::Reading::view_fields_at))]
fn view_fields(bytes: &[u8], at: u32) -> Result<EntryRef<'_>, PacketRefusal>
    requires long { at + 17 ≤ length bytes.now }
    requires small { at < 100 }
    ensures { result ≡ view_fields_at bytes.now at }
{
    let stamp = stamp(bytes, at + 1)?;
    let members = set(bytes, at + 6)?;
    let resilience = resilience(bytes, at + 16)?;
    Ok(EntryRef::of(EntryParts::View(GroupView {
        stamp,
        members,
        resilience,
    })))
}

/// A View, where the bytes end after it.
#[tactic(auto, unfolding(am_packet::specs::Reading::view_at))]
fn view(bytes: &[u8], at: u32) -> Result<EntryRef<'_>, PacketRefusal>
    requires { at < 100 }
    ensures { result ≡ view_at bytes.now at }
{
    if bytes.len() == at as usize + 17 {
        return view_fields(bytes, at);
    }
    Err(PacketRefusal::BadField { at: 10 })
}

/// The entry that stands from an offset on.
#[tactic(auto, unfolding(am_packet::specs::Reading::read_entry_at, am_packet::specs::Reading::join_at, am_packet::specs::Reading::leave_at))]
pub fn entry(bytes: &[u8], at: u32) -> Result<EntryRef<'_>, PacketRefusal>
    requires long { at < length bytes.now }
    requires small { at < 100 }
    ensures { result ≡ read_entry_at bytes.now at }
{
    match bytes[at as usize] {
        1 => data(bytes, at),
        2 => Ok(EntryRef::of(EntryParts::Join(named(bytes, at)?))),
        3 => Ok(EntryRef::of(EntryParts::Leave(named(bytes, at)?))),
        4 => view(bytes, at),
        _ => Err(PacketRefusal::BadField { at }),
    }
}
