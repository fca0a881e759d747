use crate::name::Stamp;

/// What a list tells of a place's last name. All is 0 where nobody joined there. Numbers are at most `MOST_NUMBER`.
#[derive(Clone, Copy, Debug, Default)]
pub struct Row {
    /// The life, 1 to 16, or 0.
    pub life: u8,
    /// The number of its Join, 1 for a founder, or 0.
    pub joined: u32,
    /// The number of the Leave or View that ended its membership, or 0.
    pub left: u32,
    /// The request of its last Data, or 0.
    pub last: u32,
}

/// What a list up to some number tells: its last view, and a row for each place (docs/PROTOCOL.md, "The list").
#[derive(Clone, Copy, Debug)]
pub struct Image {
    /// The stamp of the last View, or round 0 and name 0.
    pub view: Stamp,
    /// The number of the last View, or 0.
    pub view_number: u32,
    /// The resilience of the last View, or 0.
    pub resilience: u8,
    /// The rows of places 0 to 15.
    pub rows: [Row; 16],
}

impl Default for Image {
    ghost use Rattle.std.specs.Prelude.{◌≡◌};
    ghost use Rattle.am_base.specs.Lists.{blank};

    ghost is_default = { λ image. image ≡ blank };

    fn default() -> Image {
        Image {
            view: Stamp::default(),
            view_number: 0,
            resilience: 0,
            rows: [Row::default(); 16],
        }
    }
}

/// What a member tells of itself.
#[derive(Clone, Copy, Debug, Default)]
pub struct Report {
    /// The number up to which it has stored the list.
    pub stored: u32,
    /// The number up to which its application has taken the list.
    pub taken: u32,
}

/// What a voter shows of its log.
#[derive(Clone, Copy, Debug, Default)]
pub struct Vote {
    /// The log's view.
    pub view: Stamp,
    /// The number of its last entry.
    pub top: u32,
    /// The number up to which the voter's application has taken it.
    pub taken: u32,
    /// Its members.
    pub members: crate::names::Names,
}
