ghost use Rattle.std.specs.Prelude.{◌≡◌};
ghost use Rattle.am_packet.specs.Kinds.{table, packet_kind_number, kind_at, is_total};

/// The most bytes of a Request and of a Spread: 24 before a body's.
const MOST_REQUEST: usize = 1_048;

/// The most bytes that the count in a packet can tell.
const MOST_COUNTED: usize = 65_535;

/// Who hears a packet. Nobody hears one of its own name.
#[derive(Clone, Copy)]
pub enum PacketGate {
    /// A member.
    Member,
    /// The sequencer, whatever view the packet tells.
    Leading,
    /// A member, of who began what the stamp tells.
    OfBeginner,
    /// The same, and a node that asks to join too.
    Early,
    /// Who acts in the packet's view.
    InView,
    /// The sequencer of the packet's view.
    AsSequencer,
    /// Who acts in the packet's view, of its sequencer.
    OfSequencer,
}

/// The kinds of packets.
#[derive(Clone, Copy)]
pub enum PacketKind {
    Request,
    Spread,
    Bcast,
    Order,
    Accept,
    Ack,
    Nack,
    Hold,
    JoinAsk,
    Welcome,
    LeaveAsk,
    Gone,
    Invite,
    Vote,
    Fetch,
    Piece,
    Result,
    HandOver,
}

/// What the table of kinds has of one.
#[derive(Drop)]
struct KindRow {
    number: u8,
    word: &'static str,
    least: usize,
    most: usize,
    gate: PacketGate,
}

/// A row of the table.
#[inline(always)]
fn row_with(number: u8, word: &'static str, least: usize, most: usize, gate: PacketGate) -> KindRow
    ensures number { result.number ≡ number }
    ensures word { result.word.now ≡ word.now }
    ensures least { result.least ≡ least }
    ensures most { result.most ≡ most }
    ensures gate { result.gate ≡ gate }
{
    KindRow {
        number,
        word,
        least,
        most,
        gate,
    }
}

impl PacketKind {
    /// The kind of a number, 1 to 18.
    #[tactic(auto, unfolding(crate::specs::Kinds::kind_at))]
    pub fn of_byte(byte: u8) -> Option<PacketKind>
        ensures { result ≡ kind_at byte }
    {
        match byte {
            1 => Some(PacketKind::Request),
            2 => Some(PacketKind::Spread),
            3 => Some(PacketKind::Bcast),
            4 => Some(PacketKind::Order),
            5 => Some(PacketKind::Accept),
            6 => Some(PacketKind::Ack),
            7 => Some(PacketKind::Nack),
            8 => Some(PacketKind::Hold),
            9 => Some(PacketKind::JoinAsk),
            10 => Some(PacketKind::Welcome),
            11 => Some(PacketKind::LeaveAsk),
            12 => Some(PacketKind::Gone),
            13 => Some(PacketKind::Invite),
            14 => Some(PacketKind::Vote),
            15 => Some(PacketKind::Fetch),
            16 => Some(PacketKind::Piece),
            17 => Some(PacketKind::Result),
            18 => Some(PacketKind::HandOver),
            _ => None,
        }
    }

    /// Its row in the table of kinds.
    #[inline(always)]
    fn row(self) -> KindRow
        ensures number { result.number ≡ (table self).number }
        ensures word { result.word.now ≡ (table self).word }
        ensures least { result.least ≡ (table self).least }
        ensures most { result.most ≡ (table self).most }
        ensures gate { result.gate ≡ (table self).gate }
    {
        match self {
            PacketKind::Request => row_with(
                1,
                "Request",
                24,
                MOST_REQUEST,
                PacketGate::AsSequencer,
            ),
            PacketKind::Spread => row_with(2, "Spread", 24, MOST_REQUEST, PacketGate::InView),
            PacketKind::Bcast => row_with(3, "Bcast", 25, MOST_COUNTED, PacketGate::OfSequencer),
            PacketKind::Order => row_with(4, "Order", 29, 29, PacketGate::OfSequencer),
            PacketKind::Accept => row_with(5, "Accept", 25, 25, PacketGate::OfSequencer),
            PacketKind::Ack => row_with(6, "Ack", 20, 20, PacketGate::AsSequencer),
            PacketKind::Nack => row_with(7, "Nack", 20, 20, PacketGate::AsSequencer),
            PacketKind::Hold => row_with(8, "Hold", 24, 24, PacketGate::OfSequencer),
            PacketKind::JoinAsk => row_with(9, "JoinAsk", 12, 12, PacketGate::Leading),
            PacketKind::Welcome => row_with(10, "Welcome", 238, 238, PacketGate::Early),
            PacketKind::LeaveAsk => row_with(11, "LeaveAsk", 20, 20, PacketGate::Leading),
            PacketKind::Gone => row_with(12, "Gone", 16, 16, PacketGate::Member),
            PacketKind::Invite => row_with(13, "Invite", 12, 12, PacketGate::Early),
            PacketKind::Vote => row_with(14, "Vote", 35, 35, PacketGate::Member),
            PacketKind::Fetch => row_with(15, "Fetch", 16, 16, PacketGate::Member),
            PacketKind::Piece => row_with(16, "Piece", 21, MOST_COUNTED, PacketGate::Member),
            PacketKind::Result => row_with(17, "Result", 31, 31, PacketGate::OfBeginner),
            PacketKind::HandOver => row_with(18, "HandOver", 12, 12, PacketGate::OfSequencer),
        }
    }

    /// Its number, 1 to 18.
    pub fn number(self) -> u8
        ensures { result ≡ packet_kind_number self }
    {
        self.row().number
    }

    /// Its name in texts.
    pub fn word(self) -> &'static str
        ensures { result.now ≡ (table self).word }
    {
        self.row().word
    }

    /// Who hears its packets.
    pub fn gate(self) -> PacketGate
        ensures { result ≡ (table self).gate }
    {
        self.row().gate
    }

    /// Whether a packet of this kind can have so many bytes.
    pub fn is_total(self, total: usize) -> bool
        ensures { result ≡ is_total self total }
    {
        let row = self.row();
        row.least <= total && total <= row.most
    }
}
