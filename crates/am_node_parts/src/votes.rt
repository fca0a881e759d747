ghost use Rattle.std.specs.Prelude.{◌≡◌};
ghost use Rattle.am_node_parts.specs.Prelude.{VoteIsInRange, CoreFrontsAreInOrder, node_of};
ghost use Rattle.am_model.specs.Ballots.{own_vote};

use crate::parts::Parts;
use am_base::image::Vote;
use am_node_storage::log::Log;

impl Parts {
    /// What the node itself shows in a ballot.
    pub fn own_vote(&self) -> Vote
        ensures value { result ≡ own_vote (node_of self.now) }
        ensures within { VoteIsInRange result }
        ensures order { CoreFrontsAreInOrder self.now.core }
    {
        Vote {
            view: self.core.log.view(),
            top: self.core.log.top(),
            taken: self.core.taken,
            members: self.core.log.members_after(self.core.log.top()),
        }
    }
}
