ghost use Rattle.std.specs.Prelude.{◌≡◌, ◌≢◌, ◌<◌, ◌≤◌, length, take, OnOk, IfOk, IfErr};
ghost use Rattle.std.specs.Io.KnownBytes.{Appends};
ghost use Rattle.am_io.specs.Outside.{ReadToEnd, GaveMore, GaveAtMost};
ghost use Rattle.am_io.specs.Faults.{faults_of_reading, faults_of_writing};

use crate::outside::{ReadResult, Sink, Source, WriteResult};
use std::alloc::Global;

/// The most bytes that are read at once.
const CHUNK: usize = 16384;

/// Why a source wasn't read to its end.
#[derive(Clone, Copy)]
pub enum ReadRefusal {
    /// A read failed.
    Fault,
    /// There are more bytes than the limit.
    TooLong,
    /// There was no memory.
    NoMemory,
}

/// A write failed.
#[derive(Clone, Copy)]
pub struct WriteFault {
    /// How many bytes had been appended.
    pub written: u64,
}

/// All that a source gives up to its end, at most `limit` bytes. TooLong comes exactly where it gave more, Fault where a
/// read failed, and then there is no other read. Memory is taken for what was given alone.
pub fn read_all<S: Source>(
    alloc: Global,
    source: &mut S,
    limit: u32,
) -> Result<Vec<u8>, ReadRefusal>
    ensures ok { IfOk result (λ bytes. ReadToEnd (S.left source.old)
        (S.left source.new) bytes.items) }
    ensures within { IfOk result (λ bytes. length bytes.items ≤ limit) }
    ensures too_long { IfErr result (λ e. e ≡ ReadRefusal.TooLong
        → GaveMore limit (S.left source.old) (S.left source.new)) }
    ensures else_within { IfErr result (λ e. e ≢ ReadRefusal.TooLong
        → GaveAtMost limit (S.left source.old) (S.left source.new)) }
    ensures memory { IfErr result (λ e. e ≡ ReadRefusal.NoMemory
        → GaveMore 0 (S.left source.old) (S.left source.new)) }
    ensures counts { S.count source.new ≡ faults_of_reading result (S.count source.old) }
{
    let mut bytes = Vec::new(alloc);
    let mut chunk = [0u8; CHUNK];
    loop {
        match source.read(&mut chunk) {
            ReadResult::End => return Ok(bytes),
            ReadResult::Failed => return Err(ReadRefusal::Fault),
            ReadResult::Took(n) => {
                if limit as usize - bytes.len() < n {
                    return Err(ReadRefusal::TooLong);
                }
                if bytes.extend_from_slice(&chunk[..n]).is_err() {
                    return Err(ReadRefusal::NoMemory);
                }
            }
        }
    }
}

/// Appends all bytes to a sink. Where a write failed, exactly the first `written` bytes were appended.
pub fn write_all<K: Sink>(sink: &mut K, bytes: &[u8]) -> Result<(), WriteFault>
    ensures ok { OnOk result (Appends (K.contents sink.old) (K.contents sink.new) bytes.now) }
    ensures part { IfErr result (λ e. Appends (K.contents sink.old) (K.contents sink.new)
        (take e.written bytes.now)) }
    ensures short { IfErr result (λ e. e.written < length bytes.now) }
    ensures counts { K.count sink.new ≡ faults_of_writing result (K.count sink.old) }
{
    let mut written = 0;
    while written < bytes.len() {
        match sink.write(&bytes[written..]) {
            WriteResult::Took(n) => written += n,
            WriteResult::Failed => {
                return Err(WriteFault {
                    written: written as u64,
                });
            }
        }
    }
    Ok(())
}
