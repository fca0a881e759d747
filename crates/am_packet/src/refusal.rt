ghost use Rattle.std.specs.Prelude.{◌≡◌};

use std::fmt;

/// Why bytes are no packet: the first cause, in this order.
#[derive(Clone, Copy, PartialEq, Eq)]
pub enum PacketRefusal {
    /// There are fewer than 12 bytes.
    Short,
    /// The first two bytes aren't `A` and `G`.
    BadMark,
    /// The third byte isn't 3, but this.
    BadVersion(u8),
    /// The fourth byte is no kind.
    BadKind(u8),
    /// The header says another number of bytes than there are.
    BadLength { said: u32, found: u32 },
    /// The field at this offset has a value that it can't have.
    BadField { at: u32 },
}

impl fmt::Debug for PacketRefusal {
    // Tells the number of its cause.
    fn fmt<W: fmt::Write>(&self, f: &mut fmt::Formatter<W>) -> fmt::Result {
        f.debug_tuple("PacketRefusal").field(&self.cause()).finish()
    }
}

impl PacketRefusal {
    ghost use Rattle.am_packet.specs.Reading.{refusal_number};

    /// The number of the cause, 1 to 6.
    pub fn cause(self) -> u8
        ensures value { result ≡ refusal_number self }
    {
        match self {
            PacketRefusal::Short => 1,
            PacketRefusal::BadMark => 2,
            PacketRefusal::BadVersion(_) => 3,
            PacketRefusal::BadKind(_) => 4,
            PacketRefusal::BadLength { .. } => 5,
            PacketRefusal::BadField { .. } => 6,
        }
    }
}
