ghost use Rattle.std.specs.Prelude.{◌≡◌, true};
ghost use Rattle.am_model.specs.Node.{set_of_one_name};
ghost use Rattle.am_node_parts.specs.Replies.{reply_with_answer, reply_without_letters, reply_with_poll, reply_with_telling, reply_of_numbered_entry, reply_asking_names};

use crate::packets::only;
use am_base::entry::EntryRef;
use am_base::name::{Name, Stamp};
use am_base::names::Names;
use am_base::outcome::Outcome;

/// What a packet is to tell: all but the values that its sender has after the step.
#[derive(Drop)]
pub enum Note<'a> {
    /// A numbered entry.
    Bcast { number: u32, entry: EntryRef<'a> },
    /// The number of a send whose body was spread.
    Order { number: u32, from: Name, req: u32 },
    /// A report.
    Ack,
    /// A report that asks for what comes next.
    Nack,
    /// There is no room for a send.
    Hold { req: u32 },
    /// The sender would join.
    JoinAsk,
    /// A name is welcomed.
    Welcome(Name),
    /// The sender would leave.
    LeaveAsk,
    /// A ballot asks for a vote.
    Invite,
    /// What the sender shows in a ballot.
    Vote,
    /// Asks for what comes next in another view.
    Fetch,
    /// The sequencer leaves.
    HandOver,
}

/// How a send of the node's own goes out.
#[derive(Clone, Copy)]
pub enum OwnLetter {
    /// To the sequencer, to be numbered.
    Request,
    /// To everybody.
    Spread,
    /// With its number.
    Bcast { number: u32 },
}

/// Something that goes out once the step has ended.
#[derive(Drop)]
pub enum Telling<'a> {
    /// No letter.
    Nothing,
    /// A packet to names.
    Note { to: Names, note: Note<'a> },
    /// An Ack to a name where this is the view by then.
    AckIn { view: Stamp, to: Name },
    /// To a name the entries that stand above a number before the end of the step, eight at most, each in a Piece or a Bcast.
    Entries { to: Name, stored: u32, pieces: bool },
    /// To names, the send of the node's own that waits before the end of the step.
    Own { to: Names, letter: OwnLetter },
    /// Before the end of the step the last member numbers its Leave, which is accepted at once, and departs.
    Departs,
    /// The last View again, to the other members that haven't stored it, as long as it isn't trimmed.
    View,
    /// A Welcome to a name, where its Join's number is accepted by then.
    Welcome { number: u32, to: Name },
    /// A Gone to a leaver, where it may go by then.
    Gone { to: Name },
    /// Of a ballot: a Result where a view was decided, and, where so said, a Fetch where the answer is to fetch.
    Ballot { fetches: bool },
}

/// The answer of a step, or how it is made of what stands after it.
#[derive(Drop)]
pub enum StepAnswer {
    /// This answer.
    Is(Outcome),
    /// Advanced where the list is accepted further than up to here, else Known.
    Advanced { since: u32 },
    /// Accepted where the list is accepted further than up to here, else Noted.
    Accepted { since: u32 },
    /// LetGo with this number where a leaver may go, else Again.
    LetGo { to: Name, number: u32 },
}

/// What a row says, for the end of its step: the answer, and what goes out beside it, one thing after the other.
#[derive(Drop)]
pub struct Reply<'a> {
    /// The answer.
    pub answer: StepAnswer,
    /// What goes out first.
    pub first: Telling<'a>,
    /// What goes out after it.
    pub second: Telling<'a>,
    /// Whether the members are polled.
    pub polls: bool,
    /// Whether the step numbered an entry that goes out.
    pub numbers: bool,
}

/// A packet to one name.
pub fn note_to<'a>(name: Name, note: Note<'a>) -> Telling<'a>
    ensures { result ≡ Telling.Note (set_of_one_name name) note.entry }
{
    Telling::Note {
        to: only(name),
        note,
    }
}

/// An answer, and no letter.
pub fn quiet<'a>(outcome: Outcome) -> Reply<'a>
    ensures { result ≡ reply_without_letters outcome }
{
    saying(outcome, Telling::Nothing)
}

/// An answer, and the members are polled.
pub fn polling<'a>(outcome: Outcome) -> Reply<'a>
    ensures { result ≡ reply_with_poll outcome }
{
    quiet(outcome).polling()
}

/// An answer, and one thing that goes out.
pub fn saying<'a>(outcome: Outcome, first: Telling<'a>) -> Reply<'a>
    ensures { result ≡ reply_with_telling outcome first.entry }
{
    answering(StepAnswer::Is(outcome), first)
}

/// An answer that the end of the step may make, and one thing that goes out.
pub fn answering<'a>(answer: StepAnswer, first: Telling<'a>) -> Reply<'a>
    ensures { result ≡ reply_with_answer answer first.entry }
{
    Reply {
        answer,
        first,
        second: Telling::Nothing,
        polls: false,
        numbers: false,
    }
}

/// An entry that the step numbered, which goes to names: Numbered.
pub fn numbered<'a>(number: u32, to: Names, entry: EntryRef<'a>) -> Reply<'a>
    ensures { result ≡ reply_of_numbered_entry number to entry.entry }
{
    let note = Note::Bcast { number, entry };
    saying(Outcome::Numbered { number }, Telling::Note { to, note }).numbering()
}

/// What a ballot came to: an Invite to names, and after it what the answer asks for.
pub fn asking<'a>(outcome: Outcome, invited: Names, fetches: bool) -> Reply<'a>
    ensures { result ≡ reply_asking_names outcome invited fetches }
{
    let invite = Telling::Note {
        to: invited,
        note: Note::Invite,
    };
    saying(outcome, invite).and(Telling::Ballot { fetches })
}

impl<'a> Reply<'a> {
    /// The same, with something after what goes out.
    pub fn and(self, second: Telling<'a>) -> Reply<'a>
        ensures { result ≡ record self.entry { second = second.entry } }
    {
        Reply { second, ..self }
    }

    /// The same, and the members are polled.
    pub fn polling(self) -> Reply<'a>
        ensures { result ≡ record self.entry { polls = true } }
    {
        Reply {
            polls: true,
            ..self
        }
    }

    /// The same of a step that numbered an entry, which goes out.
    pub fn numbering(self) -> Reply<'a>
        ensures { result ≡ record self.entry { numbers = true } }
    {
        Reply {
            numbers: true,
            ..self
        }
    }
}
