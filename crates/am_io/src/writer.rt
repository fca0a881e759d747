ghost use Rattle.std.specs.Prelude.{ℕ, List};
ghost use Rattle.std.specs.Fmt.{WritesInCalls};

/// What text is written to, some words after others. What can't take them all keeps that to itself, and says it at the end.
pub trait Writer {
    // That these words were written between the two.
    ghost writes: { Self → List ℕ → Self → Type 0 };

    /// Writes words after what stands there.
    fn write_words(&mut self, words: &str)
        ensures { writes self.old words.now self.new };

    /// The same, said as one of several writes.
    final fn put(&mut self, words: &str)
    where
        Self: Sized,
        ensures { WritesInCalls writes self.old words.now self.new }
    {
        self.write_words(words);
    }
}
