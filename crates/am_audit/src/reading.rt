ghost use Rattle.std.specs.Prelude.{◌≡◌, ◌≤◌, OnOk, length};
ghost use Rattle.am_audit_defs.specs.Fields.{two_of, send_of, answer_fields_of, take_of, return_of};
ghost use Rattle.am_audit_defs.specs.Lines.{nothing_read, may_event, may_list, may_log, is_text_end, with_send, with_sent_answer, with_take, with_return, counted};
ghost use Rattle.am_audit_defs.specs.Lines.{with_event, add_event, add_entry, logged, add_log, add_end, add_void, add_line, finish_text};
ghost use Rattle.am_audit.specs.Views.{reading_told, Takes};

use crate::fault::LineFault;
use crate::fields::{answer, expect, outline, return_of, send, take, two};
use crate::line::{Piece, TextLine};
use crate::mark::mark_cut;
use am_audit_defs::line::{AnsweredSend, TextStage};
use am_base::NoMemory;
use am_base::name::Name;
use am_text_defs::fault::FieldFault;
use am_text_reader::name::name;
use am_text_reader::number::number;
use std::alloc::Global;

/// What was read of a text so far: its list, its logs, and its events that count.
#[derive(Drop)]
pub struct Lines<'a> {
    pub stage: TextStage,
    /// The byte of the name at each place.
    pub names: [u8; 16],
    pub events: u32,
    pub sends: Vec<TextLine<'a>>,
    pub answers: Vec<AnsweredSend>,
    pub takes: Vec<TextLine<'a>>,
    pub group: Vec<Piece<'a>>,
    pub logs: Vec<TextLine<'a>>,
    pub void_from: Option<u32>,
}

/// Whether an event may come.
fn may_event(stage: TextStage) -> bool
    ensures { result ≡ may_event stage }
{
    match stage {
        TextStage::Events => true,
        _ => false,
    }
}

/// Whether an entry of the group list may come.
fn may_list(stage: TextStage) -> bool
    ensures { result ≡ may_list stage }
{
    match stage {
        TextStage::Events | TextStage::List => true,
        _ => false,
    }
}

/// Whether a line of a log, or the last line, may come.
fn may_log(stage: TextStage) -> bool
    ensures { result ≡ may_log stage }
{
    match stage {
        TextStage::List | TextStage::Logs => true,
        _ => false,
    }
}

/// Whether the last line was read.
pub fn is_end(stage: TextStage) -> bool
    ensures { result ≡ is_text_end stage }
{
    match stage {
        TextStage::End => true,
        _ => false,
    }
}

impl<'a> Lines<'a> {
    /// Nothing yet.
    pub fn new(alloc: Global) -> Lines<'a>
        ensures { reading_told result ≡ nothing_read }
    {
        Lines {
            stage: TextStage::Events,
            names: [0, 1, 2, 3, 4, 5, 6, 7, 8, 9, 10, 11, 12, 13, 14, 15],
            events: 0,
            sends: Vec::new(alloc),
            answers: Vec::new(alloc),
            takes: Vec::new(alloc),
            group: Vec::new(alloc),
            logs: Vec::new(alloc),
            void_from: None,
        }
    }

    /// Keeps a send, where it is one.
    fn count_send(&mut self, rest: &'a [u8], outcome: &[u8]) -> Result<(), NoMemory>
        ensures { OnOk result (reading_told self.new
            ≡ with_send (reading_told self.old) (send_of rest.entry.now outcome.now)) }
    {
        if let Ok((place, number, text)) = send(rest, outcome) {
            let name = self.names[usize::from(place)];
            self.sends.push(TextLine { name, number, text })?;
        }
        Ok(())
    }

    /// Keeps an answer, where it is one.
    fn count_answer(&mut self, rest: &[u8], outcome: &[u8]) -> Result<(), NoMemory>
        ensures { OnOk result (reading_told self.new
            ≡ with_sent_answer (reading_told self.old) (answer_fields_of rest.now outcome.now)) }
    {
        if let Ok((place, req, number)) = answer(rest, outcome) {
            let name = Name::of_byte(self.names[usize::from(place)]);
            self.answers.push(AnsweredSend { name, req, number })?;
        }
        Ok(())
    }

    /// Keeps a take, where it is one.
    fn count_take(&mut self, rest: &[u8], outcome: &'a [u8]) -> Result<(), NoMemory>
        ensures { OnOk result (reading_told self.new
            ≡ with_take (reading_told self.old) (take_of rest.now outcome.entry.now)) }
    {
        if let Ok((place, number, text)) = take(rest, outcome) {
            let name = self.names[usize::from(place)];
            self.takes.push(TextLine { name, number, text })?;
        }
        Ok(())
    }

    /// Keeps a return, where it is one.
    fn count_return(&mut self, rest: &[u8], outcome: &[u8])
        ensures { reading_told self.new ≡ with_return (reading_told self.old) (return_of rest.now outcome.now) }
    {
        if let Ok((place, name)) = return_of(rest, outcome) {
            self.names[usize::from(place)] = name.get();
        }
    }

    /// Keeps what counts of an event: its act, and its outcome.
    #[tactic(auto, unfolding(am_audit_defs::specs::Lines::counted))]
    fn count(&mut self, act: &'a [u8], outcome: &'a [u8]) -> Result<(), NoMemory>
        ensures { OnOk result (reading_told self.new
            ≡ counted (reading_told self.old) (two_of act.entry.now) outcome.entry.now) }
    {
        let Ok((word, rest)) = two(act) else {
            return Ok(());
        };
        if word == b"send".as_slice() {
            return self.count_send(rest, outcome);
        }
        if word == b"done".as_slice() {
            return self.count_answer(rest, outcome);
        }
        if word == b"take".as_slice() {
            return self.count_take(rest, outcome);
        }
        if word == b"return".as_slice() {
            self.count_return(rest, outcome);
        }
        Ok(())
    }

    /// Takes an event's line: its number, and what stands after that.
    #[tactic(auto, unfolding(am_audit_defs::specs::Lines::add_event))]
    fn add_event(&mut self, number_text: &[u8], rest: &'a [u8]) -> Result<(), LineFault>
        ensures { Takes result (reading_told self.new)
            (add_event (reading_told self.old) number_text.now rest.entry.now) }
    {
        let number = number(number_text)?;
        if !may_event(self.stage) || u64::from(number) != u64::from(self.events) + 1 {
            return Err(LineFault::Field(FieldFault::Form));
        }
        let (act, behind) = mark_cut(rest, b':');
        let Some(behind) = behind else {
            return Err(LineFault::Field(FieldFault::Form));
        };
        let (outcome, _) = mark_cut(behind, b'|');
        self.events = number;
        self.count(act, outcome)?;
        Ok(())
    }

    /// Takes a line of the group list, after its word.
    #[tactic(auto, unfolding(am_audit_defs::specs::Lines::add_entry))]
    fn add_entry(&mut self, rest: &'a [u8]) -> Result<(), LineFault>
        ensures { Takes result (reading_told self.new) (add_entry (reading_told self.old) rest.entry.now) }
    {
        let (first, text) = two(rest)?;
        let number = number(first)?;
        if !may_list(self.stage) || u64::from(number) != self.group.len() as u64 + 1 {
            return Err(LineFault::Field(FieldFault::Form));
        }
        let _ = outline(text)?;
        self.group.push(Piece { text })?;
        self.stage = TextStage::List;
        Ok(())
    }

    /// Takes a log's line, after its name.
    #[tactic(auto, unfolding(am_audit_defs::specs::Lines::logged))]
    fn logged(&mut self, name: Name, rest: &'a [u8]) -> Result<(), LineFault>
        ensures { Takes result (reading_told self.new) (logged (reading_told self.old) name rest.entry.now) }
    {
        if rest == b"empty".as_slice() {
            self.stage = TextStage::Logs;
            return Ok(());
        }
        let (first, text) = two(rest)?;
        let number = number(first)?;
        let _ = outline(text)?;
        self.logs.push(TextLine {
            name: name.get(),
            number,
            text,
        })?;
        self.stage = TextStage::Logs;
        Ok(())
    }

    /// Takes a log's line, after its word.
    #[tactic(auto, unfolding(am_audit_defs::specs::Lines::add_log))]
    fn add_log(&mut self, rest: &'a [u8]) -> Result<(), LineFault>
        ensures { Takes result (reading_told self.new) (add_log (reading_told self.old) rest.entry.now) }
    {
        let (first, behind) = two(rest)?;
        let name = name(first)?;
        if !may_log(self.stage) {
            return Err(LineFault::Field(FieldFault::Form));
        }
        self.logged(name, behind)
    }

    /// Takes the last line.
    fn add_end(&mut self, void_from: Option<u32>) -> Result<(), LineFault>
        ensures { Takes result (reading_told self.new) (add_end (reading_told self.old) void_from) }
    {
        if !may_log(self.stage) {
            return Err(LineFault::Field(FieldFault::Form));
        }
        self.stage = TextStage::End;
        self.void_from = void_from;
        Ok(())
    }

    /// Takes the last line of a text that is void, after its first word.
    #[tactic(auto, unfolding(am_audit_defs::specs::Lines::add_void))]
    fn add_void(&mut self, rest: &[u8]) -> Result<(), LineFault>
        ensures { Takes result (reading_told self.new) (add_void (reading_told self.old) rest.now) }
    {
        let (word, last) = two(rest)?;
        expect(word, b"from".as_slice())?;
        let number = number(last)?;
        self.add_end(Some(number))
    }

    /// Takes one line more.
    #[tactic(auto, unfolding(am_audit_defs::specs::Lines::add_line))]
    pub fn add_line(&mut self, line: &'a [u8]) -> Result<(), LineFault>
        ensures { Takes result (reading_told self.new) (add_line (reading_told self.old) line.entry.now) }
    {
        if line == b"lawful".as_slice() {
            return self.add_end(None);
        }
        let (word, rest) = two(line)?;
        if word == b"group".as_slice() {
            return self.add_entry(rest);
        }
        if word == b"log".as_slice() {
            return self.add_log(rest);
        }
        if word == b"void".as_slice() {
            return self.add_void(rest);
        }
        self.add_event(word, rest)
    }
}
