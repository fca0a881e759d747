ghost use Rattle.std.specs.Prelude.{◌≡◌, ◌≤◌, ◌↔◌, ◌+◌, ◌++◌, [], length, vec_capacity, IsSome, IfSome, IfOk};
ghost use Rattle.am_base.specs.Most.{most_bytes_of_body, most_bytes_of_packet};

use crate::limits::{MOST_BODY, MOST_PACKET};
use arrayvec::ArrayVec;
use std::alloc::{AllocError, Global};
use std::marker::Model;

/// The body of a send: 0 to 1,024 bytes. Contracts see it as its bytes.
#[derive(Drop, Clone, Debug)]
pub struct Body(ArrayVec<u8, MOST_BODY>);

impl Model for Body {
    ghost use Rattle.std.specs.Prelude.{ℕ, List, ◌≤◌, length};
    ghost use Rattle.am_base.specs.Most.{most_bytes_of_body};

    ghost Value = { List ℕ };

    ghost view = { λ b. b.0.items };

    ghost invariant = { λ b. length b.0.items ≤ most_bytes_of_body };
}

impl Default for Body {
    ghost is_default = { λ body. body ≡ [] };

    fn default() -> Body {
        Body(ArrayVec::new())
    }
}

impl Body {
    /// The body of these bytes; None exactly where there are more than 1,024.
    pub fn of(bytes: &[u8]) -> Option<Body>
        ensures variant { IsSome result ↔ (length bytes.now ≤ most_bytes_of_body) }
        ensures value { IfSome result (λ b. b ≡ bytes.now) }
    {
        let mut body = ArrayVec::new();
        match body.try_extend_from_slice(bytes) {
            Ok(()) => Some(Body(body)),
            Err(_) => None,
        }
    }

    /// Its bytes.
    pub fn bytes(&self) -> &[u8]
        ensures value { result.now ≡ self.now }
        ensures fits { length result.now ≤ most_bytes_of_body }
    {
        self.0.as_slice()
    }

    /// The body where it stands.
    pub fn as_ref(&self) -> BodyRef<'_>
        ensures { result ≡ self.now }
    {
        BodyRef(self.bytes())
    }

    /// The same body. It takes no memory.
    pub fn copy(&self) -> Body
        ensures { result ≡ self.now }
    {
        self.as_ref().to_body()
    }
}

/// A body where it stands: among a packet's bytes, or in what holds it. Contracts see it as its bytes.
#[derive(Drop, Debug)]
pub struct BodyRef<'a>(&'a [u8]);

impl<'a> Model for BodyRef<'a> {
    ghost use Rattle.std.specs.Prelude.{ℕ, List, ◌≤◌, length};
    ghost use Rattle.am_base.specs.Most.{most_bytes_of_body};

    ghost Value = { List ℕ };

    ghost view = { λ b. b.0.now };

    ghost invariant = { λ b. length b.0.now ≤ most_bytes_of_body };
}

impl<'a> BodyRef<'a> {
    /// These bytes as a body; None exactly where there are more than 1,024.
    pub fn of(bytes: &'a [u8]) -> Option<BodyRef<'a>>
        ensures variant { IsSome result ↔ (length bytes.now ≤ most_bytes_of_body) }
        ensures value { IfSome result (λ b. b ≡ bytes.now) }
    {
        if bytes.len() <= MOST_BODY {
            return Some(BodyRef(bytes));
        }
        None
    }

    /// Its bytes.
    pub fn bytes(&self) -> &'a [u8]
        ensures value { result.now ≡ self.now }
        ensures fits { length result.now ≤ most_bytes_of_body }
    {
        self.0
    }

    /// The same body, where it stands.
    pub fn again(&self) -> BodyRef<'a>
        ensures { result ≡ self.now }
    {
        BodyRef(self.0)
    }

    /// The same body in a place of its own. It takes no memory.
    pub fn to_body(&self) -> Body
        ensures { result ≡ self.now }
    {
        let mut body = ArrayVec::new();
        match body.try_extend_from_slice(self.0) {
            Ok(()) => Body(body),
            Err(_) => unreachable!(),
        }
    }
}

/// A body that stands apart from what holds it: as many bytes as there are, at most 1,024. Contracts see it as its bytes.
#[derive(Drop, Clone, Debug)]
pub struct SentBody(Vec<u8>);

impl Model for SentBody {
    ghost use Rattle.std.specs.Prelude.{ℕ, List, ◌≤◌, length};
    ghost use Rattle.am_base.specs.Most.{most_bytes_of_body};

    ghost Value = { List ℕ };

    ghost view = { λ b. b.0.items };

    ghost invariant = { λ b. length b.0.items ≤ most_bytes_of_body };
}

impl SentBody {
    /// The same body, apart. It is an error where there is no memory for it.
    pub fn of(alloc: Global, body: &Body) -> Result<SentBody, AllocError>
        ensures { IfOk result (λ b. b ≡ body.now) }
    {
        SentBody::of_bytes(alloc, body.bytes())
    }

    /// A body of these bytes. It is an error where there is no memory for it.
    pub fn of_bytes(alloc: Global, bytes: &[u8]) -> Result<SentBody, AllocError>
        requires { length bytes.now ≤ most_bytes_of_body }
        ensures { IfOk result (λ b. b ≡ bytes.now) }
    {
        Ok(SentBody(Vec::from_slice(alloc, bytes)?))
    }

    /// The same body in room that is there. It takes no memory, and gives back the room that is left over.
    pub(crate) fn in_room(room: Vec<u8>, body: &BodyRef<'_>) -> SentBody
        requires blank { room.items ≡ [] }
        requires room { length body.now ≤ vec_capacity room }
        ensures { result ≡ body.now }
    {
        let mut bytes = room;
        let _ = bytes.extend_from_slice(body.bytes());
        bytes.shrink_to_fit();
        SentBody(bytes)
    }

    /// Its bytes.
    pub fn bytes(&self) -> &[u8]
        ensures value { result.now ≡ self.now }
        ensures fits { length result.now ≤ most_bytes_of_body }
    {
        self.0.as_slice()
    }

    /// The body where it stands.
    pub fn as_ref(&self) -> BodyRef<'_>
        ensures { result ≡ self.now }
    {
        BodyRef(self.bytes())
    }
}

/// The bytes of a packet: at most 1,152, and room for as many. Contracts see it as its bytes.
#[derive(Drop)]
pub struct PacketBytes(Vec<u8>);

impl Model for PacketBytes {
    ghost use Rattle.std.specs.Prelude.{ℕ, List, ◌≤◌, length, vec_capacity};
    ghost use Rattle.am_base.specs.Most.{most_bytes_of_packet};

    ghost Value = { List ℕ };

    ghost view = { λ b. b.0.items };

    ghost invariant = { λ b. (length b.0.items ≤ most_bytes_of_packet) × (most_bytes_of_packet ≤ vec_capacity b.0) };
}

impl PacketBytes {
    /// No bytes yet. It is an error where there is no memory for those of any packet.
    pub fn new(alloc: Global) -> Result<PacketBytes, AllocError>
        ensures { IfOk result (λ b. b ≡ []) }
    {
        Ok(PacketBytes(Vec::with_capacity(alloc, MOST_PACKET)?))
    }

    /// The bytes.
    pub fn bytes(&self) -> &[u8]
        ensures value { result.now ≡ self.now }
        ensures fits { length result.now ≤ most_bytes_of_packet }
    {
        self.0.as_slice()
    }

    /// Takes all bytes out.
    pub fn clear(&mut self)
        ensures { self.new ≡ [] }
    {
        self.0.clear();
    }

    /// Adds bytes at the end.
    pub fn extend(&mut self, bytes: &[u8])
        requires { length self.old + length bytes.now ≤ most_bytes_of_packet }
        ensures { self.new ≡ self.old ++ bytes.now }
    {
        let _ = self.0.extend_from_slice(bytes);
    }

    /// The bytes alone, without the room after them.
    pub fn into_bytes(self) -> Vec<u8>
        ensures { result.items ≡ self }
    {
        let mut bytes = self.0;
        bytes.shrink_to_fit();
        bytes
    }
}
