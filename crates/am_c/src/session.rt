ghost use Rattle.std.specs.Prelude.{◌≡◌, ◌≢◌, ◌↔◌, ◌<◌, ◌++◌, ◌∷◌, [], ℕ, List, Option, None, Err, IsTrue, IfOk, IfErr, OnOk, OnErr, length};
ghost use Rattle.am_base.specs.Founding.{Rules};
ghost use Rattle.am_model.specs.Node.{Node};
ghost use Rattle.am_model.specs.Ends.{IsEndOf};
ghost use Rattle.am_node_lines.specs.Speakers.{speaking};
ghost use Rattle.am_c.specs.declared.session.SessionStage.TheVariants as stages;
ghost use Rattle.am_c.specs.Sessions.{AskedOfNode, kept, session_answer, answer_behind, made_of, MadeBy, SessionIsReady, IsWaiting, IsBehind, IsWritten, Told, FoundNoRoom, WaitsForOther};

use crate::numbers::{DONE, NO_MEMORY, NO_ROOM, OTHER};
use am_base::NoMemory;
use am_bytes::answer::answer;
use am_cli_words::node::NodeWords;
use am_node_lines::speaker::Speaker;
use std::alloc::Global;

/// In what form a node is asked, and answers.
#[derive(Clone, Copy, PartialEq, Eq, Debug)]
pub(crate) enum AskForm {
    /// By a line, in text.
    Line,
    /// By an event, in bytes.
    Event,
}

/// How a session stands between two calls.
#[derive(Clone, Copy, PartialEq, Eq, Debug)]
pub(crate) enum SessionStage {
    /// All that was asked has its answer.
    Ready,
    /// The last answer waits for room.
    Waits,
    /// There was no memory for an answer.
    Spent,
}

/// What a call came to.
#[derive(Clone, Copy, PartialEq, Eq, Debug)]
pub(crate) enum StepEnd {
    /// What it asks has its answer.
    Told,
    /// There was no memory, now or before.
    NoMemory,
    /// The room is too short for its answer, which waits.
    NoRoom,
    /// The answer to something else waits.
    Other,
}

impl StepEnd {
    ghost use Rattle.std.specs.Prelude.{◌≡◌};
    ghost use Rattle.am_c.specs.Numbers.{step_number};

    /// Its number.
    pub(crate) fn number(self) -> i32
        ensures { result ≡ step_number self }
    {
        match self {
            StepEnd::Told => DONE,
            StepEnd::NoMemory => NO_MEMORY,
            StepEnd::NoRoom => NO_ROOM,
            StepEnd::Other => OTHER,
        }
    }
}

/// The most bytes that are kept of a line or an event: one above the limit.
const MOST_KEPT: usize = 4097;

/// What is kept of a line or an event.
fn kept(asked: &[u8]) -> &[u8]
    ensures { result.now ≡ kept asked.entry.now }
{
    if MOST_KEPT < asked.len() {
        return &asked[..MOST_KEPT];
    }
    asked
}

/// A node with its last answer, and that whose answer waits for room.
#[derive(Drop)]
pub struct Session {
    speaker: Speaker,
    form: AskForm,
    asked: Vec<u8>,
    text: String,
    bytes: Vec<u8>,
    stage: SessionStage,
}

impl Session {
    /// A name's node before it is asked anything.
    pub(crate) fn new(alloc: Global, node: &NodeWords) -> Result<Session, NoMemory>
        ensures { IfOk result (λ s. IsBehind s node.now.founding node.now.name [] None) }
    {
        Ok(Session {
            speaker: Speaker::new(alloc, node.name, &node.founding)?,
            form: AskForm::Line,
            asked: Vec::new(alloc),
            text: String::new(alloc),
            bytes: Vec::new(alloc),
            stage: SessionStage::Ready,
        })
    }

    /// Makes the answer in a form to what is kept.
    fn make(&mut self, alloc: Global, form: AskForm, kept: &[u8]) -> Result<(), NoMemory>
        ensures made { OnOk result ((all : Node) → IsEndOf all (speaking self.old.speaker).node
            → MadeBy (made_of self.new) (speaking self.new.speaker).node
            (session_answer form (speaking self.old.speaker).rules all kept.now)) }
        ensures form { self.new.form ≡ form }
        ensures rules { (speaking self.new.speaker).rules ≡ (speaking self.old.speaker).rules }
        ensures asked { self.new.asked.items ≡ self.old.asked.items }
        ensures stage { self.new.stage ≡ self.old.stage }
    {
        self.form = form;
        match form {
            AskForm::Line => {
                self.text.clear();
                self.speaker.answer(alloc, kept, &mut self.text)
            }
            AskForm::Event => {
                self.bytes.clear();
                answer(&mut self.speaker, alloc, kept, &mut self.bytes)
            }
        }
    }

    /// Takes a line or an event: keeps it, and its answer.
    fn hold(&mut self, alloc: Global, form: AskForm, asked: &[u8]) -> Result<(), NoMemory>
        ensures waits { OnOk result ((rules : Rules) (name : ℕ) (before : List AskedOfNode)
            → SessionIsReady self.old rules name before
            → IsWaiting self.new rules name before (record { form = form; bytes = asked.now })) }
        ensures spent { OnErr result (self.new.stage ≡ stages.Spent) }
    {
        self.stage = SessionStage::Spent;
        let kept = kept(asked);
        self.asked.clear();
        self.asked.extend_from_slice(kept)?;
        self.make(alloc, form, kept)?;
        self.stage = SessionStage::Waits;
        Ok(())
    }

    /// Whether it is this whose answer waits.
    fn is_same(&self, form: AskForm, asked: &[u8]) -> bool
        ensures { IsTrue result ↔ ((self.now.form ≡ form) × (self.now.asked.items ≡ kept asked.now)) }
    {
        if self.form != form {
            return false;
        }
        self.asked.as_slice() == kept(asked)
    }

    /// Has the answer to what is asked: the one that waits, where it is that, or that of the node.
    fn have_answer(&mut self, alloc: Global, form: AskForm, asked: &[u8]) -> Result<(), StepEnd>
        ensures waits { OnOk result ((rules : Rules) (name : ℕ) (before : List AskedOfNode)
            (waiting : Option AskedOfNode) → IsBehind self.old rules name before waiting
            → IsWaiting self.new rules name before (record { form = form; bytes = asked.now })) }
        ensures spent { IfErr result (λ end. end ≡ StepEnd.NoMemory
            → self.new.stage ≡ stages.Spent) }
        ensures other { IfErr result (λ end. end ≡ StepEnd.Other
            → WaitsForOther self.old (record { form = form; bytes = asked.now })) }
        ensures same { IfErr result (λ end. end ≡ StepEnd.Other → self.new ≡ self.old) }
        ensures ends { IfErr result (λ end. end ≢ StepEnd.NoMemory → end ≡ StepEnd.Other) }
        ensures fails { self.old.stage ≡ stages.Spent → result ≡ Err StepEnd.NoMemory }
        ensures lasts { self.old.stage ≡ stages.Waits → result ≢ Err StepEnd.NoMemory }
    {
        match self.stage {
            SessionStage::Spent => Err(StepEnd::NoMemory),
            SessionStage::Waits => {
                if !self.is_same(form, asked) {
                    return Err(StepEnd::Other);
                }
                Ok(())
            }
            SessionStage::Ready => match self.hold(alloc, form, asked) {
                Ok(()) => Ok(()),
                Err(_) => Err(StepEnd::NoMemory),
            },
        }
    }

    /// The answer that was made last.
    fn made(&self) -> &[u8]
        ensures { result.now ≡ made_of self.now }
    {
        match self.form {
            AskForm::Line => self.text.as_bytes(),
            AskForm::Event => self.bytes.as_slice(),
        }
    }

    /// Tells the answer that waits, where the room is long enough, and how long it is.
    fn tell(&mut self, room: &mut [u8], said: &mut usize) -> StepEnd
        ensures told { result ≡ StepEnd.Told → (rules : Rules) (name : ℕ)
            (before : List AskedOfNode) (asked : AskedOfNode) → IsWaiting self.old rules name before asked
            → SessionIsReady self.new rules name (before ++ asked ∷ [])
            × IsWritten (answer_behind rules name before asked).text room.old room.new said.new }
        ensures no_room { result ≢ StepEnd.Told → result ≡ StepEnd.NoRoom }
        ensures same { result ≢ StepEnd.Told → self.new ≡ self.old }
        ensures unwritten { result ≢ StepEnd.Told → room.new ≡ room.old }
        ensures long { said.new ≡ length (made_of self.old) }
        ensures short { result ≢ StepEnd.Told → length room.old < said.new }
    {
        let answer = self.made();
        let n = answer.len();
        *said = n;
        if room.len() < n {
            return StepEnd::NoRoom;
        }
        room[..n].copy_from_slice(answer);
        self.stage = SessionStage::Ready;
        StepEnd::Told
    }

    /// Gives a line or an event its answer, at the head of the room, and says how long that is. Where the room is too short the answer
    /// waits: only how long it is is said, and it is told where the same comes again. Anything else is refused until then.
    pub(crate) fn step(
        &mut self,
        alloc: Global,
        form: AskForm,
        asked: &[u8],
        room: &mut [u8],
        said: &mut usize,
    ) -> StepEnd
        ensures told { result ≡ StepEnd.Told → Told self.old
            (record { form = form; bytes = asked.now }) self.new room.old room.new said.new }
        ensures no_room { result ≡ StepEnd.NoRoom → FoundNoRoom self.old
            (record { form = form; bytes = asked.now }) self.new room.old said.new }
        ensures other { result ≡ StepEnd.Other
            → WaitsForOther self.old (record { form = form; bytes = asked.now }) }
        ensures no_memory { result ≡ StepEnd.NoMemory → self.new.stage ≡ stages.Spent }
        ensures fails { self.old.stage ≡ stages.Spent → result ≡ StepEnd.NoMemory }
        ensures lasts { self.old.stage ≡ stages.Waits → result ≢ StepEnd.NoMemory }
        ensures same { result ≡ StepEnd.Other → self.new ≡ self.old }
        ensures unwritten { result ≢ StepEnd.Told → room.new ≡ room.old }
        ensures unsaid { result ≢ StepEnd.Told → result ≢ StepEnd.NoRoom → said.new ≡ said.old }
    {
        if let Err(end) = self.have_answer(alloc, form, asked) {
            return end;
        }
        self.tell(room, said)
    }
}
