ghost use Rattle.std.specs.Prelude.{◌≡◌};

use crate::outside::{ReadResult, Sink, Source, WriteResult};
use std::io::{Read, Write};

/// A reader of std's as a source, which tells of its bytes what the reader tells. Each error counts as a fault.
#[derive(Drop)]
pub struct StdSource<R: Read + Drop> {
    reader: R,
    faults: u64,
}

impl<R: Read + Drop> StdSource<R> {
    /// The source of a reader, with no fault so far.
    pub fn new(reader: R) -> StdSource<R>
        ensures left { ⟦<StdSource<R> as Source>⟧.left result ≡ R.remaining reader }
        ensures count { ⟦<StdSource<R> as Source>⟧.count result ≡ 0 }
    {
        StdSource { reader, faults: 0 }
    }
}

impl<R: Read + Drop> Source for StdSource<R> {
    ghost left = { λ s. R.remaining s.reader };

    ghost count = { λ s. s.faults };

    fn faults(&self) -> u64 {
        self.faults
    }

    fn read(&mut self, into: &mut [u8]) -> ReadResult {
        match self.reader.read(into) {
            Ok(0) => ReadResult::End,
            Ok(n) => ReadResult::Took(n),
            Err(_) => {
                self.faults = self.faults.saturating_add(1);
                ReadResult::Failed
            }
        }
    }
}

/// A writer of std's as a sink, which tells of its bytes what the writer tells. Each error counts as a fault, and so
/// does a write that takes no byte.
#[derive(Drop)]
pub struct StdSink<W: Write + Drop> {
    writer: W,
    faults: u64,
}

impl<W: Write + Drop> StdSink<W> {
    /// The sink of a writer, with no fault so far.
    pub fn new(writer: W) -> StdSink<W>
        ensures contents { ⟦<StdSink<W> as Sink>⟧.contents result ≡ W.contents writer }
        ensures count { ⟦<StdSink<W> as Sink>⟧.count result ≡ 0 }
    {
        StdSink { writer, faults: 0 }
    }
}

impl<W: Write + Drop> Sink for StdSink<W> {
    ghost contents = { λ s. W.contents s.writer };

    ghost count = { λ s. s.faults };

    fn faults(&self) -> u64 {
        self.faults
    }

    fn write(&mut self, piece: &[u8]) -> WriteResult {
        match self.writer.write(piece) {
            Ok(n) if 0 < n => WriteResult::Took(n),
            _ => {
                self.faults = self.faults.saturating_add(1);
                WriteResult::Failed
            }
        }
    }
}
