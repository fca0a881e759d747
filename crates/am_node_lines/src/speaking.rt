ghost use Rattle.std.specs.Prelude.{◌≡◌, ℕ, ◌≤◌, ◌++◌, ◌∷◌, [], List, Option, length, false, IfOk, OnOk, vec_len, vec_capacity, string_bytes};
ghost use Rattle.std.specs.Io.KnownBytes.{Consumes};
ghost use Rattle.am_base.specs.Founding.{Rules};
ghost use Rattle.am_model.specs.Node.{Node};
ghost use Rattle.am_group_defs.specs.World.{first_node};
ghost use Rattle.am_node_lines.specs.Speakers.{speaking};
ghost use Rattle.am_node_lines.specs.Speaking.{IsTalking, LineIsAnswered, Talks, Spoke, reads_after, writes_after, refused_after};

use crate::ending::{SpokenEnd, TalkFault};
use crate::reading::MOST_LINE;
use crate::speaker::Speaker;
use am_base::NoMemory;
use am_base::founding::Founding;
use am_base::name::Name;
use am_io::outside::{ReadResult, Sink, Source};
use am_io::whole::write_all;
use std::alloc::Global;
use std::sync::Wait;

/// The most bytes that are read at once.
const CHUNK: usize = 16384;

/// A node with the line that it is given, which has room for one byte above its limit, and its answer.
#[derive(Drop)]
struct Talk {
    speaker: Speaker,
    line: Vec<u8>,
    answer: String,
    ghost room: { 4097 ≤ vec_capacity line },
    ghost within: { vec_len line ≤ 4097 },
}

impl Talk {
    /// A name's node before its first line.
    fn new(alloc: Global, name: Name, founding: &Founding) -> Result<Talk, NoMemory>
        ensures { (start : Option (List ℕ)) → IfOk result (λ talk. IsTalking founding.now
            (first_node founding.now name) start [] (speaking talk.speaker) talk.line.items start) }
    {
        Ok(Talk {
            speaker: Speaker::new(alloc, name, founding)?,
            line: Vec::with_capacity(alloc, MOST_LINE + 1)?,
            answer: String::new(alloc),
        })
    }

    /// The answer to the line, with a newline; and the next line begins.
    fn say(&mut self, alloc: Global) -> Result<(), NoMemory>
        ensures says { OnOk result (LineIsAnswered (speaking self.old.speaker) self.old.line.items
            (speaking self.new.speaker) (string_bytes self.new.answer)) }
        ensures same { (speaking self.new.speaker).rules ≡ (speaking self.old.speaker).rules }
        ensures ready { OnOk result ((speaking self.new.speaker).failed ≡ false) }
        ensures next { OnOk result (self.new.line.items ≡ []) }
    {
        self.answer.clear();
        self.speaker
            .answer(alloc, self.line.as_slice(), &mut self.answer)?;
        self.answer.push_str("\n")?;
        self.line.clear();
        Ok(())
    }

    /// Answers the line, where there is one, and the next one begins.
    fn end_line<K: Sink>(&mut self, alloc: Global, sink: &mut K) -> Result<(), TalkFault>
        ensures talks { (rules : Rules) (first : Node) (start : Option (List ℕ)) (given : List ℕ)
            → IsTalking rules first start given (speaking self.old.speaker) self.old.line.items
            (K.contents sink.old)
            → Talks rules first start (given ++ 10 ∷ []) result (speaking self.new.speaker)
            self.new.line.items (K.contents sink.new) }
        ensures counts { K.count sink.new ≡ refused_after result (K.count sink.old) }
    {
        if self.line.is_empty() {
            return Ok(());
        }
        match self.say(alloc) {
            Err(_) => Err(TalkFault::NoMemory),
            Ok(()) => match write_all(sink, self.answer.as_bytes()) {
                Ok(()) => Ok(()),
                Err(_) => Err(TalkFault::Write),
            },
        }
    }

    /// Takes a byte: the line ends, or has one byte more, up to one above its limit.
    fn take<K: Sink>(&mut self, alloc: Global, byte: u8, sink: &mut K) -> Result<(), TalkFault>
        ensures talks { (rules : Rules) (first : Node) (start : Option (List ℕ)) (given : List ℕ)
            → IsTalking rules first start given (speaking self.old.speaker) self.old.line.items
            (K.contents sink.old)
            → Talks rules first start (given ++ byte ∷ []) result (speaking self.new.speaker)
            self.new.line.items (K.contents sink.new) }
        ensures counts { K.count sink.new ≡ refused_after result (K.count sink.old) }
    {
        if byte == b'\n' {
            return self.end_line(alloc, sink);
        }
        if self.line.len() <= MOST_LINE {
            self.line.push_reserved(byte);
        }
        Ok(())
    }

    /// Takes bytes in turn.
    fn take_all<K: Sink>(
        &mut self,
        alloc: Global,
        bytes: &[u8],
        sink: &mut K,
    ) -> Result<(), TalkFault>
        ensures talks { (rules : Rules) (first : Node) (start : Option (List ℕ)) (given : List ℕ)
            → IsTalking rules first start given (speaking self.old.speaker) self.old.line.items
            (K.contents sink.old)
            → Talks rules first start (given ++ bytes.now) result (speaking self.new.speaker)
            self.new.line.items (K.contents sink.new) }
        ensures counts { K.count sink.new ≡ refused_after result (K.count sink.old) }
    {
        for byte in bytes {
            if let Err(fault) = self.take(alloc, *byte, sink) {
                return Err(fault);
            }
        }
        Ok(())
    }
}

/// A name's node answers the lines of a source to its end, each before more is read. Bytes after the last newline are a line
/// too, and an empty line is none. A line above its limit is passed over to its end.
pub fn speak<R: Wait, S: Source, K: Sink>(
    rt: &R,
    alloc: Global,
    name: Name,
    founding: &Founding,
    source: &mut S,
    sink: &mut K,
) -> SpokenEnd
    ensures spoke { Spoke founding.now name result (S.left source.old) (S.left source.new)
        (K.contents sink.old) (K.contents sink.new) }
    ensures reads { S.count source.new ≡ reads_after result (S.count source.old) }
    ensures writes { K.count sink.new ≡ writes_after result (K.count sink.old) }
{
    let Ok(mut talk) = Talk::new(alloc, name, founding) else {
        return SpokenEnd::NoMemory;
    };
    let mut chunk = [0u8; CHUNK];
    // It goes on as long as there are lines: whoever speaks to the node ends the source.
    'reads: for _ in rt.forever() {
        match source.read(&mut chunk) {
            ReadResult::End => {
                return match talk.end_line(alloc, sink) {
                    Ok(()) => SpokenEnd::Done,
                    Err(fault) => fault.end(),
                };
            }
            ReadResult::Failed => return SpokenEnd::ReadFault,
            ReadResult::Took(n) => {
                if let Err(fault) = talk.take_all(alloc, &chunk[..n], sink) {
                    return fault.end();
                }
            }
        }
    }
    unreachable!()
}
