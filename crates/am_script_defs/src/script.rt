use am_base::founding::Founding;
use am_base::items::Items;
use am_group::event::Event;

/// What the script of a play says: how a group begins, any number of events, and whether it is settled after them.
#[derive(Drop)]
pub struct Script {
    pub founding: Founding,
    pub events: Items<Event>,
    pub settle: bool,
}
