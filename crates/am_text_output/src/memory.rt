ghost use Rattle.std.specs.Prelude.{◌≡◌, ◌⊎◌, ◌↔◌, ◌+◌, ◌++◌, ◌<◌, ◌≤◌, [], length, take, min, Some, IfOk, Contains};
ghost use Rattle.std.specs.Io.KnownBytes.{Consumes, Appends, Keeps};
ghost use Rattle.am_io.specs.Outside.{ReadToEnd, IfTook, OnEnd, OnFailed, IfPut, OnRefused, next, faults_after, refusals_after};
ghost use Rattle.am_text_output.specs.Memory.{Supply, Store, new_supply, new_store};

use am_io::outside::{ReadResult, Sink, Source, WriteResult};
use std::alloc::{AllocError, Global};
use std::marker::Model;

/// Copies the first so many bytes to the front of a place, and gives the others.
fn move_front<'a>(bytes: &'a [u8], into: &mut [u8], n: usize) -> &'a [u8]
    requires there { n ≤ length bytes.now }
    requires fits { n ≤ length into.old }
    ensures bytes { bytes.now ≡ take n into.new ++ result.now }
    ensures size { length into.new ≡ length into.old }
{
    let (first, rest) = bytes.split_at(n);
    into[..n].copy_from_slice(first);
    rest
}

/// Bytes in memory as a source without faults.
#[derive(Drop)]
pub struct PlainSource<'a> {
    bytes: &'a [u8],
}

impl<'a> PlainSource<'a> {
    /// The source of these bytes.
    pub fn new(bytes: &'a [u8]) -> PlainSource<'a>
        ensures { ⟦<PlainSource<'a> as Source>⟧.left result ≡ Some bytes.entry.now }
    {
        PlainSource { bytes }
    }
}

impl Source for PlainSource<'_> {
    ghost left = { λ s. Some s.bytes.now };

    ghost count = { λ _. 0 };

    fn faults(&self) -> u64 {
        0
    }

    fn read(&mut self, into: &mut [u8]) -> ReadResult {
        if self.bytes.is_empty() {
            return ReadResult::End;
        }
        let n = self.bytes.len().min(into.len());
        self.bytes = move_front(self.bytes, into, n);
        ReadResult::Took(n)
    }
}

/// Bytes in memory as a source. Reads with the numbers that are given, from 1, fail, and one read takes at most so many
/// bytes. Contracts see it as a `Supply`.
#[derive(Drop)]
pub struct MemSource<'a> {
    bytes: &'a [u8],
    fail: &'a [u64],
    most: usize,
    calls: u64,
    faults: u64,
}

impl<'a> Model for MemSource<'a> {
    ghost use Rattle.std.specs.Prelude.{◌<◌};
    ghost use Rattle.am_text_output.specs.Memory.{Supply};

    ghost Value = { Supply };

    ghost view = { λ s. record { left = s.bytes.now; fail = s.fail.now; most = s.most; calls = s.calls; faults = s.faults } };

    ghost invariant = { λ s. 0 < s.most };
}

impl<'a> MemSource<'a> {
    /// The source of these bytes, which fails the calls of these numbers and gives at most so many bytes at once.
    pub fn new(bytes: &'a [u8], fail: &'a [u64], most: usize) -> MemSource<'a>
        requires { 0 < most }
        ensures { result ≡ new_supply bytes.entry.now fail.entry.now most }
    {
        MemSource {
            bytes,
            fail,
            most,
            calls: 0,
            faults: 0,
        }
    }
}

impl Source for MemSource<'_> {
    ghost left = { λ s. Some s.left };

    ghost count = { λ s. s.faults };

    fn faults(&self) -> u64 {
        self.faults
    }

    fn read(&mut self, into: &mut [u8]) -> ReadResult
        requires { 0 < length into.old }
        ensures some { IfTook result (λ n. (0 < n) × (n ≤ length into.new)) }
        ensures took { IfTook result (λ n. Consumes (Some self.old.left) (Some self.new.left)
            (take n into.new)) }
        ensures end { OnEnd result (ReadToEnd (Some self.old.left) (Some self.new.left) []) }
        ensures untouched { OnFailed result (Keeps (Some self.old.left) (Some self.new.left)) }
        ensures counts { self.new.faults ≡ faults_after result self.old.faults }
        ensures amount { IfTook result (λ n. n
            ≡ min (min (length self.old.left) (length into.new)) self.old.most) }
        ensures fails { (result ≡ ReadResult.Failed) ↔ Contains self.old.fail (next self.old.calls) }
        ensures plan { self.new ≡ record self.old
            { left = self.new.left; calls = next self.old.calls; faults = self.new.faults } }
    {
        self.calls = self.calls.saturating_add(1);
        if self.fail.contains(&self.calls) {
            self.faults = self.faults.saturating_add(1);
            return ReadResult::Failed;
        }
        let n = self.bytes.len().min(into.len()).min(self.most);
        if n == 0 {
            return ReadResult::End;
        }
        self.bytes = move_front(self.bytes, into, n);
        ReadResult::Took(n)
    }
}

/// A sink in memory. Writes with the numbers that are given, from 1, fail, and so does one that would hold more than its
/// size; one write takes at most so many bytes. Contracts see it as a `Store`.
#[derive(Drop)]
pub struct MemSink<'a> {
    bytes: Vec<u8>,
    fail: &'a [u64],
    most: usize,
    size: usize,
    calls: u64,
    faults: u64,
}

impl<'a> Model for MemSink<'a> {
    ghost use Rattle.std.specs.Prelude.{◌<◌, ◌≤◌, length, vec_capacity};
    ghost use Rattle.am_text_output.specs.Memory.{Store};

    ghost Value = { Store };

    ghost view = { λ s. record { held = s.bytes.items; fail = s.fail.now; most = s.most; size = s.size; calls = s.calls; faults = s.faults } };

    ghost invariant = { λ s. (0 < s.most) × (length s.bytes.items ≤ s.size) × (s.size ≤ vec_capacity s.bytes) };
}

impl<'a> MemSink<'a> {
    /// An empty sink of a size, which fails the calls of these numbers and takes at most so many bytes at once.
    pub fn new(
        alloc: Global,
        fail: &'a [u64],
        most: usize,
        size: usize,
    ) -> Result<MemSink<'a>, AllocError>
        requires { 0 < most }
        ensures { IfOk result (λ s. s ≡ new_store fail.entry.now most size) }
    {
        let bytes = Vec::with_capacity(alloc, size)?;
        Ok(MemSink {
            bytes,
            fail,
            most,
            size,
            calls: 0,
            faults: 0,
        })
    }

    /// What it holds.
    pub fn bytes(&self) -> &[u8]
        ensures { result.now ≡ self.now.held }
    {
        self.bytes.as_slice()
    }
}

impl Sink for MemSink<'_> {
    ghost contents = { λ s. Some s.held };

    ghost count = { λ s. s.faults };

    fn faults(&self) -> u64 {
        self.faults
    }

    fn write(&mut self, piece: &[u8]) -> WriteResult
        requires { 0 < length piece.now }
        ensures some { IfPut result (λ n. (0 < n) × (n ≤ length piece.now)) }
        ensures took { IfPut result (λ n. Appends (Some self.old.held) (Some self.new.held)
            (take n piece.now)) }
        ensures untouched { OnRefused result (Keeps (Some self.old.held) (Some self.new.held)) }
        ensures counts { self.new.faults ≡ refusals_after result self.old.faults }
        ensures amount { IfPut result (λ n. n ≡ min (length piece.now) self.old.most) }
        ensures fails { (result ≡ WriteResult.Failed)
            ↔ (Contains self.old.fail (next self.old.calls)
            ⊎ (self.old.size < length self.old.held + min (length piece.now) self.old.most)) }
        ensures plan { self.new ≡ record self.old
            { held = self.new.held; calls = next self.old.calls; faults = self.new.faults } }
    {
        self.calls = self.calls.saturating_add(1);
        let n = piece.len().min(self.most);
        if self.fail.contains(&self.calls) || self.size - self.bytes.len() < n {
            self.faults = self.faults.saturating_add(1);
            return WriteResult::Failed;
        }
        self.bytes.extend_from_slice(&piece[..n]).unwrap();
        WriteResult::Took(n)
    }
}
