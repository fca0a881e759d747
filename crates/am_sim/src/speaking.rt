ghost use Rattle.std.specs.Prelude.{◌≡◌};
ghost use Rattle.am_player.specs.Statuses.{source_reads_after, sink_writes_after};
ghost use Rattle.am_sim.specs.Speaking.{status_of, Spoken};

use am_cli_words::node::NodeWords;
use am_io::outside::{Sink, Source};
use am_node_lines::ending::SpokenEnd;
use am_node_lines::speaking::speak;
use am_player::status::ExitStatus;
use std::alloc::Global;
use std::sync::Wait;

/// The status of how a node's speaking ended.
fn status_of(end: SpokenEnd) -> ExitStatus
    ensures { result ≡ status_of end }
{
    match end {
        SpokenEnd::Done => ExitStatus::Done,
        SpokenEnd::ReadFault => ExitStatus::ReadFault,
        SpokenEnd::WriteFault => ExitStatus::WriteFault,
        SpokenEnd::NoMemory => ExitStatus::NoMemory,
    }
}

/// A node answers the lines of a source to its end. It stands apart, so that other words don't have the node on their stack.
#[inline(never)]
pub fn speak_node<R: Wait, S: Source, K: Sink>(
    rt: &R,
    alloc: Global,
    node: &NodeWords,
    source: &mut S,
    sink: &mut K,
) -> ExitStatus
    ensures spoken { Spoken node.now result (S.left source.old) (S.left source.new)
        (K.contents sink.old) (K.contents sink.new) }
    ensures reads { S.count source.new ≡ source_reads_after result (S.count source.old) }
    ensures writes { K.count sink.new ≡ sink_writes_after result (K.count sink.old) }
{
    let end = speak(rt, alloc, node.name, &node.founding, source, sink);
    status_of(end)
}
