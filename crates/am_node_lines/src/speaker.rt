ghost use Rattle.std.specs.Prelude.{◌≡◌, true, false, OnOk, OnErr, IfOk, IsErr, string_bytes};
ghost use Rattle.am_base.specs.Names.{has};
ghost use Rattle.am_model.specs.Node.{founder, stranger_node};
ghost use Rattle.am_model.specs.Nodes.{HasNumbersLeft};
ghost use Rattle.am_node.specs.Stands.{state_of};
ghost use Rattle.am_node_lines.specs.Answers.{is_addressed, is_info};

use crate::line::Line;
use crate::reading::read_line;
use crate::reply::LineReply;
use crate::telling::push_reply;
use am_base::NoMemory;
use am_base::event::NodeEvent;
use am_base::founding::Founding;
use am_base::items::Items;
use am_base::name::Name;
use am_base::names::Names;
use am_base::outcome::Outcome;
use am_node::founding::Room;
use am_node::node::Node;
use am_packet_writer::out_box::Rooms;
use std::alloc::Global;

/// A node that speaks lines. Contracts see it as its group's founding, its node, of which it keeps the end of the list, and
/// whether there was no memory for an answer. The node is large, so it stands apart, and no call has it on its stack.
#[derive(Drop)]
pub struct Speaker {
    founding: Founding,
    node: Box<Node>,
    rooms: Rooms,
    failed: bool,
}

/// Whether a name is in a set, or any life of its place is.
fn is_addressed(any: bool, to: Names, name: Name) -> bool
    ensures { result ≡ is_addressed any to name }
{
    if any {
        return 0 < to.life_at(name.place());
    }
    to.has(name)
}

/// Whether a line asks what the node knows.
fn is_info(line: &Line) -> bool
    ensures { result ≡ is_info line.now }
{
    match line {
        Line::Info => true,
        Line::Does(_) | Line::Hears { .. } | Line::Bad(_) => false,
    }
}

/// A founder's node, in a place apart. It is an error where there is no memory. This and `stranger_of` don't share a frame: a caller in C
/// has little stack (bindings/c/muoswyld.h).
#[inline(never)]
fn founder_of(alloc: Global, name: Name, founding: &Founding) -> Result<Box<Node>, NoMemory>
    requires { has founding.now.founders name ≡ true }
    ensures { IfOk result (λ n. state_of n.value ≡ founder founding.now name) }
{
    let room = Room::new(alloc, founding)?;
    Ok(Box::new(alloc, Node::founder_in(room, name))?)
}

/// The node of a name that no one has seen, in a place apart. It is an error where there is no memory.
#[inline(never)]
fn stranger_of(alloc: Global, name: Name, founding: &Founding) -> Result<Box<Node>, NoMemory>
    ensures { IfOk result (λ n. state_of n.value ≡ stranger_node founding.now name) }
{
    let room = Room::new(alloc, founding)?;
    Ok(Box::new(alloc, Node::stranger_in(room, name))?)
}

impl Speaker {
    ghost use Rattle.am_model.specs.Step.{step};
    ghost use Rattle.am_group_defs.specs.World.{first_node};
    ghost use Rattle.am_base.specs.declared.event.NodeEvent.TheVariants as does;
    ghost use Rattle.am_node_lines.specs.declared.line.Line.TheVariants as said;
    ghost use Rattle.am_node_lines.specs.Answers.{stepped, reply_by, reply_to, line_answer};
    ghost use Rattle.am_node_lines.specs.Speakers.{speaking, RepliesBy, HasFewLetters, AnswersBy};

    /// A name's node at its beginning: a founder where it is one of the founders, and else a name that nobody has seen. It is an
    /// error where there is no memory.
    pub fn new(alloc: Global, name: Name, founding: &Founding) -> Result<Speaker, NoMemory>
        ensures node { IfOk result (λ s. (speaking s).node ≡ first_node founding.now name) }
        ensures rules { IfOk result (λ s. (speaking s).rules ≡ founding.now) }
        ensures ready { IfOk result (λ s. (speaking s).failed ≡ false) }
    {
        let node = if founding.founders().has(name) {
            founder_of(alloc, name, founding)?
        } else {
            stranger_of(alloc, name, founding)?
        };
        Ok(Speaker {
            founding: *founding,
            node,
            rooms: Rooms::new(),
            failed: false,
        })
    }

    /// Its node.
    pub fn node(&self) -> &Node
        ensures { state_of result.now ≡ (speaking self.now).node }
    {
        &self.node
    }

    /// Does a step.
    fn step(&mut self, alloc: Global, event: &NodeEvent) -> Result<LineReply, NoMemory>
        requires { HasNumbersLeft (speaking self.old).node }
        ensures ok { IfOk result (λ reply. RepliesBy (λ m. stepped (step m event.now))
            (speaking self.old).node reply (speaking self.new).node) }
        ensures few { IfOk result HasFewLetters }
        ensures rules { (speaking self.new).rules ≡ (speaking self.old).rules }
        ensures flag { (speaking self.new).failed ≡ (speaking self.old).failed }
    {
        let node = &mut *self.node;
        let (outcome, letters) = node.act(alloc, event, &mut self.rooms)?;
        Ok(LineReply::Did { outcome, letters })
    }

    /// Hears bytes where the node is addressed.
    fn hear(
        &mut self,
        alloc: Global,
        any: bool,
        to: Names,
        bytes: Items<u8>,
    ) -> Result<LineReply, NoMemory>
        requires { HasNumbersLeft (speaking self.old).node }
        ensures ok { IfOk result (λ reply. RepliesBy (λ m. reply_by m (said.Hears any to bytes))
            (speaking self.old).node reply (speaking self.new).node) }
        ensures few { IfOk result HasFewLetters }
        ensures rules { (speaking self.new).rules ≡ (speaking self.old).rules }
        ensures flag { (speaking self.new).failed ≡ (speaking self.old).failed }
    {
        if is_addressed(any, to, self.node.name()) {
            return self.step(alloc, &NodeEvent::Hear(bytes));
        }
        Ok(LineReply::Did {
            outcome: Outcome::NotAddressed,
            letters: Items::new(alloc),
        })
    }

    /// Does what a line says where no number is used up.
    fn do_line(&mut self, alloc: Global, line: Line) -> Result<LineReply, NoMemory>
        requires { HasNumbersLeft (speaking self.old).node }
        ensures ok { IfOk result (λ reply. RepliesBy (λ m. reply_by m line)
            (speaking self.old).node reply (speaking self.new).node) }
        ensures few { IfOk result HasFewLetters }
        ensures rules { (speaking self.new).rules ≡ (speaking self.old).rules }
        ensures flag { (speaking self.new).failed ≡ (speaking self.old).failed }
    {
        match line {
            Line::Does(event) => self.step(alloc, &event),
            Line::Hears { any, to, bytes } => self.hear(alloc, any, to, bytes),
            Line::Info => Ok(LineReply::Info),
            Line::Bad(cause) => Ok(LineReply::Bad(cause)),
        }
    }

    /// Does what a line says: what comes of it is that which the protocol gives for the whole node. It is an error where there is no
    /// memory; the node may have changed then.
    pub fn reply(&mut self, alloc: Global, line: Line) -> Result<LineReply, NoMemory>
        ensures ok { IfOk result (λ reply. RepliesBy (λ m. reply_to m line)
            (speaking self.old).node reply (speaking self.new).node) }
        ensures few { IfOk result HasFewLetters }
        ensures rules { (speaking self.new).rules ≡ (speaking self.old).rules }
        ensures flag { (speaking self.new).failed ≡ (speaking self.old).failed }
    {
        if is_info(&line) {
            return Ok(LineReply::Info);
        }
        if !self.node.has_numbers_left() {
            return Ok(LineReply::Spent);
        }
        self.do_line(alloc, line)
    }

    /// Does what a line says, and adds the answer to it, without a newline: that which the protocol gives for the whole node. It is
    /// an error where there is no memory, and then from then on.
    pub fn answer(
        &mut self,
        alloc: Global,
        line: &[u8],
        answer: &mut String,
    ) -> Result<(), NoMemory>
        ensures ok { OnOk result (AnswersBy (λ m. line_answer (speaking self.old).rules m line.now)
            (speaking self.old).node (string_bytes answer.old) (speaking self.new).node (string_bytes answer.new)) }
        ensures rules { (speaking self.new).rules ≡ (speaking self.old).rules }
        ensures ready { OnOk result ((speaking self.new).failed ≡ false) }
        ensures err { OnErr result ((speaking self.new).failed ≡ true) }
        ensures fails { (speaking self.old).failed ≡ true → IsErr result }
    {
        if self.failed {
            return Err(NoMemory);
        }
        self.failed = true;
        let line = read_line(alloc, &self.founding, line)?;
        let reply = self.reply(alloc, line)?;
        push_reply(answer, &self.founding, &self.node, &reply)?;
        self.failed = false;
        Ok(())
    }
}
