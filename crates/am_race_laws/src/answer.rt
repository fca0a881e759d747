ghost use Rattle.std.specs.Prelude.{◌≡◌};
ghost use Rattle.am_race_laws.specs.Ran.{refusal_in};

use am_base::entry::Entry;
use am_base::name::Stamp;
use am_base::names::Names;
use am_shared_journal_defs::terms::WireRefusal;

/// What a blocking call answers.
#[derive(Drop, Debug)]
pub enum CallAnswer {
    /// The send stands in the list at this number.
    Sent { req: u32, number: u32 },
    /// The application was given this entry.
    Took { number: u32, entry: Entry },
    /// The node is a member from this number on.
    Joined { number: u32 },
    /// The node has left.
    Left,
    /// The view has this number and these members.
    Decided { number: u32, members: Names },
    /// The node has stopped by this call.
    StopDone,
    /// So many sends aren't collected, or aren't settled.
    Busy { queued: u8 },
    /// The node had stopped.
    Stopped,
    /// The node is no member.
    NotMember,
    /// The node is leaving.
    Leaving,
    /// The call used its turns, and the sequencer had no room for the send.
    PutOff { req: u32, base: u32, top: u32 },
    /// The view would have too few members.
    TooFew { got: u32, least: u32 },
    /// There is no room for the view.
    Crowded { base: u32, top: u32 },
    /// A greater stamp ended the ballot.
    Overtaken { by: Stamp },
    /// The coordinator isn't among the best vote's members.
    NotIn { best: Stamp },
    /// The call used its turns, and has no answer.
    Late { turns: u32 },
    /// The journal has 100,000 records.
    Spent,
    /// There was no memory.
    NoMemory,
}

impl CallAnswer {
    /// The refusal that it is, if it is one.
    pub fn as_refusal(&self) -> Option<WireRefusal>
        ensures { result ≡ refusal_in self.now }
    {
        match self {
            CallAnswer::NoMemory => Some(WireRefusal::NoMemory),
            CallAnswer::Spent => Some(WireRefusal::Spent),
            _ => None,
        }
    }
}
