use am_base::entry::Entry;
use am_base::name::Name;
use am_world::world::{World, WorldRefusal};

/// A counter that each member of a group keeps: all are given the same bodies in the same order, and so all count the same.
#[derive(Clone, Copy, PartialEq, Eq, Debug)]
pub struct Counter {
    pub node: Name,
    pub total: u32,
}

impl Counter {
    /// A counter of a node that was given nothing.
    pub fn new(node: Name) -> Counter {
        Counter { node, total: 0 }
    }

    /// Counts an entry that the node was given: a body of one byte adds it.
    pub fn count(&mut self, entry: &Entry) {
        if let Entry::Data { body, .. } = entry {
            if let [amount] = body.bytes() {
                self.total = self.total.saturating_add(u32::from(*amount));
            }
        }
    }

    /// Takes one entry and counts it; whether there was one.
    pub fn take(&mut self, world: &mut World) -> Result<bool, WorldRefusal> {
        let Some((_number, entry)) = world.take(self.node)? else {
            return Ok(false);
        };
        self.count(&entry);
        Ok(true)
    }
}
