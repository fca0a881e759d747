use crate::event::Act;
use am_base::founding::Founding;
use am_base::items::Items;
use am_base::name::Name;

/// The calls of one thread of a race, in their order, at one node.
#[derive(Drop)]
pub struct ThreadPlan {
    pub node: Name,
    pub calls: Items<Act>,
}

/// A race: how its group begins, the number from which its chooser starts, how many of a hundred choices lose a packet
/// and how many repeat the last one, how many turns a call has, and its threads (docs/PROTOCOL.md, "Races").
#[derive(Drop)]
pub struct RacePlan {
    pub founding: Founding,
    pub seed_number: u64,
    pub loss: u32,
    pub repeat: u32,
    pub turns: u32,
    pub threads: Items<ThreadPlan>,
}
