ghost use Rattle.std.specs.Prelude.{◌≡◌, ℕ, ◌<◌, ◌≤◌, [], List, Option, length, take};
ghost use Rattle.std.specs.Io.KnownBytes.{Consumes, Appends, Keeps};
ghost use Rattle.am_io.specs.Outside.{ReadToEnd, IfTook, OnEnd, OnFailed, IfPut, OnRefused, faults_after, refusals_after};

/// What a read gave.
#[derive(Clone, Copy)]
pub enum ReadResult {
    /// The next bytes, so many.
    Took(usize),
    /// Nothing is left.
    End,
    /// A fault; nothing was taken.
    Failed,
}

/// What a write did.
#[derive(Clone, Copy)]
pub enum WriteResult {
    /// It appended so many bytes of the piece's front.
    Took(usize),
    /// A fault; nothing was appended.
    Failed,
}

/// What gives bytes, and counts the reads that failed, up to the greatest count.
pub trait Source {
    // What is left, where it tells that.
    ghost left: { Self → Option (List ℕ) };

    // The count of faults.
    ghost count: { Self → ℕ };

    /// The count of faults.
    fn faults(&self) -> u64
        ensures { result ≡ count self.now };

    /// Reads the next bytes into the front of a place that isn't empty.
    fn read(&mut self, into: &mut [u8]) -> ReadResult
        requires { 0 < length into.old }
        ensures some { IfTook result (λ n. (0 < n) × (n ≤ length into.new)) }
        ensures took { IfTook result (λ n. Consumes (left self.old) (left self.new)
            (take n into.new)) }
        ensures end { OnEnd result (ReadToEnd (left self.old) (left self.new) []) }
        ensures untouched { OnFailed result (Keeps (left self.old) (left self.new)) }
        ensures counts { count self.new ≡ faults_after result (count self.old) };
}

/// What takes bytes, and counts the writes that failed, up to the greatest count.
pub trait Sink {
    // What it holds, where it tells that.
    ghost contents: { Self → Option (List ℕ) };

    // The count of faults.
    ghost count: { Self → ℕ };

    /// The count of faults.
    fn faults(&self) -> u64
        ensures { result ≡ count self.now };

    /// Appends the first bytes of a piece that isn't empty.
    fn write(&mut self, piece: &[u8]) -> WriteResult
        requires { 0 < length piece.now }
        ensures some { IfPut result (λ n. (0 < n) × (n ≤ length piece.now)) }
        ensures took { IfPut result (λ n. Appends (contents self.old) (contents self.new)
            (take n piece.now)) }
        ensures untouched { OnRefused result (Keeps (contents self.old) (contents self.new)) }
        ensures counts { count self.new ≡ refusals_after result (count self.old) };
}
