use am_base::entry::GroupView;
use am_base::name::Name;

/// What an entry's text says, but for a body.
#[derive(Clone, Copy)]
pub enum Outline {
    /// A send of a member: its request number.
    Data { from: Name, req: u32 },
    /// A name becomes a member.
    Join(Name),
    /// A member goes.
    Leave(Name),
    /// A view begins.
    View(GroupView),
}
