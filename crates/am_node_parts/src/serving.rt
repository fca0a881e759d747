ghost use Rattle.std.specs.Prelude.{◌≡◌, ◌≤◌, ◌+◌, All, length, min};
ghost use Rattle.am_node_parts.specs.Prelude.{greatest_number, EntryIsInRange, CoreFrontsAreInOrder, top_of_log, node_of};
ghost use Rattle.am_model.specs.Emit.{entries_to_serve};
ghost use Rattle.am_node_parts.specs.Replies.{HasEntriesAbove};

use crate::parts::Parts;
use am_node_storage::log::Log;

/// The most entries that are sent at once.
const MOST_SERVED: u32 = 8;

impl Parts {
    /// The last number that is sent to who stored the list up to a number.
    pub fn last_served(&self, stored: u32) -> u32
        requires { stored ≤ top_of_log self.now.core.log }
        ensures value { result ≡ min (top_of_log self.now.core.log) (stored + 8) }
        ensures within { result ≤ greatest_number }
        ensures entries { All EntryIsInRange self.now.core.log.entries }
        ensures order { CoreFrontsAreInOrder self.now.core }
    {
        self.core.log.top().min(stored + MOST_SERVED)
    }

    /// How many entries stand above a number, of eight at most.
    pub fn count_above(&self, stored: u32) -> u32
        requires { HasEntriesAbove stored (node_of self.now) }
        ensures { result ≡ length (entries_to_serve (node_of self.now) stored) }
    {
        self.last_served(stored) - stored
    }
}
