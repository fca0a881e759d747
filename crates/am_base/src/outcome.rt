ghost use Rattle.std.specs.Prelude.{◌≡◌};

use crate::name::{Name, Stamp};
use crate::names::Names;
use crate::taken::TakenEntry;

/// What came of a call, a tick, a hearing, or of an event of the world (docs/PROTOCOL.md, "Outcomes").
#[derive(Drop)]
pub enum Outcome {
    /// The send has this request number.
    Queued { req: u32 },
    /// So many sends aren't collected, or aren't settled.
    Busy { queued: u8 },
    /// The send isn't settled yet.
    Pending { req: u32 },
    /// The send stands in the list at this number.
    Sent { req: u32, number: u32 },
    /// There is no such send, or no such ballot.
    Unknown,
    /// The application was given this entry.
    Took { number: u32, entry: TakenEntry },
    /// Nothing more is accepted.
    Empty,
    /// The ask went out.
    Asked,
    /// The node is a member from this number on.
    Joined { number: u32 },
    /// The node is leaving.
    Leaving,
    /// The node has left.
    Departed,
    /// The node, or the sender, is no member.
    Stranger,
    /// The node is no member.
    NotMember,
    /// The tick was done.
    Ticked,
    /// A tick had nothing to do.
    Idle,
    /// The sequencer has no room for the send.
    PutOff { req: u32, base: u32, top: u32 },
    /// The entry has this number.
    Numbered { number: u32 },
    /// The request is numbered already.
    Again,
    /// The request isn't the sender's next.
    Early { last: u32 },
    /// There is no room.
    Held { base: u32, top: u32 },
    /// The body is kept.
    Kept,
    /// The packet tells nothing new.
    Known,
    /// The entry is stored.
    Stored { number: u32 },
    /// An earlier entry is wanted first.
    Gap { want: u32 },
    /// The body of this send isn't there.
    NoBody { from: Name, req: u32 },
    /// What was asked for is trimmed, or the node can't follow.
    Behind,
    /// The packet doesn't fit what the node knows.
    Unfit,
    /// Accepted up to here.
    Advanced { acc: u32 },
    /// The report was taken.
    Noted,
    /// The sequencer accepted up to here.
    Accepted { acc: u32 },
    /// So many entries went out.
    Served { count: u32 },
    /// The joiner has this number.
    Welcomed { number: u32 },
    /// The leaver is let go; its Leave has this number.
    LetGo { number: u32 },
    /// The packet is not for the node as it is now.
    Elsewhere,
    /// The bytes are no packet, by this cause, 1 to 6.
    Refused { cause: u8 },
    /// The vote went out.
    Voted,
    /// The node has promised more.
    Newer { promise: Stamp },
    /// The node fetches from this number on.
    Catching { want: u32 },
    /// These names haven't voted.
    Waiting { names: Names },
    /// The coordinator fetches from this name.
    Fetching { from: Name, want: u32 },
    /// The view would have too few members.
    TooFew { got: u32, least: u32 },
    /// There is no room for the view.
    Crowded { base: u32, top: u32 },
    /// A greater stamp ended the ballot.
    Overtaken { by: Stamp },
    /// The coordinator isn't among the best vote's members.
    NotIn { best: Stamp },
    /// The view has this number and these members.
    Decided { number: u32, members: Names },
    /// The node has no unfinished ballot.
    NotCoordinator,
    /// The node stopped.
    Stopped,
    /// No such packet was sent.
    NoPacket,
    /// The packet isn't for this name.
    NotAddressed,
    /// The node had stopped.
    IsStopped,
    /// The name to be given up hasn't stopped.
    NotStopped,
    /// An earlier life of the place is a member.
    Occupied { name: Name },
    /// The current life runs.
    Running { life: u8 },
    /// The place had its last life.
    NoLife,
    /// The place's new life.
    Returned { life: u8 },
}

impl Outcome {
    ghost use Rattle.std.specs.Prelude.{false};
    ghost use Rattle.am_base.specs.Outcomes.{is_outcome_took};

    /// The same outcome. It takes no memory, so it is none that gives an entry.
    pub fn copy(&self) -> Outcome
        requires { is_outcome_took self.now ≡ false }
        ensures { result ≡ self.now }
    {
        match *self {
            Outcome::Queued { req } => Outcome::Queued { req },
            Outcome::Busy { queued } => Outcome::Busy { queued },
            Outcome::Pending { req } => Outcome::Pending { req },
            Outcome::Sent { req, number } => Outcome::Sent { req, number },
            Outcome::Unknown => Outcome::Unknown,
            Outcome::Took { .. } => unreachable!(),
            Outcome::Empty => Outcome::Empty,
            Outcome::Asked => Outcome::Asked,
            Outcome::Joined { number } => Outcome::Joined { number },
            Outcome::Leaving => Outcome::Leaving,
            Outcome::Departed => Outcome::Departed,
            Outcome::Stranger => Outcome::Stranger,
            Outcome::NotMember => Outcome::NotMember,
            Outcome::Ticked => Outcome::Ticked,
            Outcome::Idle => Outcome::Idle,
            Outcome::PutOff { req, base, top } => Outcome::PutOff { req, base, top },
            Outcome::Numbered { number } => Outcome::Numbered { number },
            Outcome::Again => Outcome::Again,
            Outcome::Early { last } => Outcome::Early { last },
            Outcome::Held { base, top } => Outcome::Held { base, top },
            Outcome::Kept => Outcome::Kept,
            Outcome::Known => Outcome::Known,
            Outcome::Stored { number } => Outcome::Stored { number },
            Outcome::Gap { want } => Outcome::Gap { want },
            Outcome::NoBody { from, req } => Outcome::NoBody { from, req },
            Outcome::Behind => Outcome::Behind,
            Outcome::Unfit => Outcome::Unfit,
            Outcome::Advanced { acc } => Outcome::Advanced { acc },
            Outcome::Noted => Outcome::Noted,
            Outcome::Accepted { acc } => Outcome::Accepted { acc },
            Outcome::Served { count } => Outcome::Served { count },
            Outcome::Welcomed { number } => Outcome::Welcomed { number },
            Outcome::LetGo { number } => Outcome::LetGo { number },
            Outcome::Elsewhere => Outcome::Elsewhere,
            Outcome::Refused { cause } => Outcome::Refused { cause },
            Outcome::Voted => Outcome::Voted,
            Outcome::Newer { promise } => Outcome::Newer { promise },
            Outcome::Catching { want } => Outcome::Catching { want },
            Outcome::Waiting { names } => Outcome::Waiting { names },
            Outcome::Fetching { from, want } => Outcome::Fetching { from, want },
            Outcome::TooFew { got, least } => Outcome::TooFew { got, least },
            Outcome::Crowded { base, top } => Outcome::Crowded { base, top },
            Outcome::Overtaken { by } => Outcome::Overtaken { by },
            Outcome::NotIn { best } => Outcome::NotIn { best },
            Outcome::Decided { number, members } => Outcome::Decided { number, members },
            Outcome::NotCoordinator => Outcome::NotCoordinator,
            Outcome::Stopped => Outcome::Stopped,
            Outcome::NoPacket => Outcome::NoPacket,
            Outcome::NotAddressed => Outcome::NotAddressed,
            Outcome::IsStopped => Outcome::IsStopped,
            Outcome::NotStopped => Outcome::NotStopped,
            Outcome::Occupied { name } => Outcome::Occupied { name },
            Outcome::Running { life } => Outcome::Running { life },
            Outcome::NoLife => Outcome::NoLife,
            Outcome::Returned { life } => Outcome::Returned { life },
        }
    }
}
