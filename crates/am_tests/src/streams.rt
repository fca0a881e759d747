use am_io::buffered::Buffered;
use am_io::outside::{Sink, Source};
use am_io::whole::{ReadRefusal, read_all, write_all};
use am_text_output::memory::{MemSink, MemSource};
use std::alloc::Global;
use std::test::*;

/// Five bytes, at most two a read: reads that fail, the limit, whether all is read (0), it was too long (1) or a read failed (2), and the
/// faults.
const READS: [(&[u64], u32, u8, u64); 5] = [
    (&[], 5, 0, 0),
    (&[9], 6, 0, 0),
    (&[], 4, 1, 0),
    (&[2], 5, 2, 1),
    (&[4], 5, 2, 1),
];

/// 250 bytes, at most 100 a write: writes that fail, the sink's size, how many bytes it takes, and the faults.
const WRITES: [(&[u64], usize, usize, u64); 4] = [
    (&[], 250, 250, 0),
    (&[2], 250, 100, 1),
    (&[4], 250, 250, 0),
    (&[], 249, 200, 1),
];

/// 400 pieces of 100 bytes and one of 20,000, through a room of 16,384: writes that fail, how many bytes the sink takes, and the faults.
const TEXTS: [(&[u64], usize, u64); 5] = [
    (&[], 60_000, 0),
    (&[1], 0, 1),
    (&[2], 16_300, 1),
    (&[4], 40_000, 1),
    (&[5], 60_000, 0),
];

/// What came of reading a source, as the table has it; 3 where there was no memory.
fn read_from(alloc: Global, source: &mut MemSource<'_>, limit: u32) -> u8 {
    match read_all(alloc, source, limit) {
        Ok(_bytes) => 0,
        Err(ReadRefusal::TooLong) => 1,
        Err(ReadRefusal::Fault) => 2,
        Err(ReadRefusal::NoMemory) => 3,
    }
}

#[test]
fn a_fault_ends_a_read(rt: HostRuntime) {
    for (fail, limit, wanted, faults) in &READS {
        let mut source = MemSource::new(b"abcde", fail, 2);
        assert!(rt; read_from(rt.alloc(), &mut source, *limit) == *wanted);
        assert!(rt; source.faults() == *faults);
    }
}

/// How many of 250 bytes a sink was told to have taken.
fn written_to(sink: &mut MemSink<'_>) -> u64 {
    match write_all(sink, &[7; 250]) {
        Ok(()) => 250,
        Err(fault) => fault.written,
    }
}

#[test]
fn a_fault_ends_a_write(rt: HostRuntime) -> Result<(), Fail> {
    for (fail, size, taken, faults) in &WRITES {
        let mut sink = MemSink::new(rt.alloc(), fail, 100, *size)?;
        assert!(rt; written_to(&mut sink) == *taken as u64);
        assert!(rt; sink.bytes().len() == *taken);
        assert!(rt; sink.faults() == *faults);
    }
    Ok(())
}

/// Whether pieces, the last of which is longer than the room, all go to the sink.
fn goes_through(sink: &mut MemSink<'_>) -> bool {
    let mut out = Buffered::new(sink);
    for _ in 0..400 {
        out.write(&[1; 100]);
    }
    out.write(&[2; 20_000]);
    out.finish().is_ok()
}

/// Whether bytes are those of the pieces, as many as there are.
fn are_of_pieces(bytes: &[u8]) -> bool {
    let (first, second) = bytes.split_at(bytes.len().min(40_000));
    first.iter().all(|byte| *byte == 1) && second.iter().all(|byte| *byte == 2)
}

#[test]
fn a_fault_ends_a_text(rt: HostRuntime) -> Result<(), Fail> {
    for (fail, taken, faults) in &TEXTS {
        let mut sink = MemSink::new(rt.alloc(), fail, 100_000, 60_000)?;
        assert!(rt; goes_through(&mut sink) == (*taken == 60_000));
        assert!(rt; sink.faults() == *faults);
        assert!(rt; sink.bytes().len() == *taken);
        assert!(rt; are_of_pieces(sink.bytes()));
    }
    Ok(())
}
