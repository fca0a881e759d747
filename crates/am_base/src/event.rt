use crate::body::SentBody;
use crate::items::Items;
use crate::name::Name;

/// What a node is asked to do, or hears (docs/PROTOCOL.md, "Steps of a node").
#[derive(Drop)]
pub enum NodeEvent {
    /// Sends a body to the group.
    Send(SentBody),
    /// Asks what came of a send.
    Done(u32),
    /// Takes the next accepted entry.
    Take,
    /// Asks to join.
    Join,
    /// Asks how the node stands.
    State,
    /// Asks to leave.
    Leave,
    /// Begins a ballot for a view of at least so many members.
    Reset { least: u8, resilience: u8 },
    /// Asks how the ballot of a round stands.
    Ask(u32),
    /// Gives up a stopped name in the ballot.
    GiveUp(Name),
    /// Time passed.
    Tick,
    /// These bytes came. What spells no packet is refused.
    Hear(Items<u8>),
}
