ghost use Rattle.std.specs.Prelude.{◌≡◌, false, OnOk};
ghost use Rattle.am_text_output.specs.Holding.{WritesText};

use am_base::NoMemory;
use am_io::writer::Writer;

/// A text in memory behind what writes to it. Where there is no memory for what is written, the text is let alone from then on.
#[derive(Drop)]
pub struct Held<'a> {
    text: &'a mut String,
    failed: bool,
}

impl<'a> Held<'a> {
    /// A text for which memory sufficed so far.
    pub fn new(text: &'a mut String) -> Held<'a>
        ensures named { result.text.ghost_name ≡ text.entry.ghost_name }
        ensures text { result.text.now ≡ text.old }
        ensures sound { result.failed ≡ false }
    {
        Held {
            text,
            failed: false,
        }
    }

    /// Whether memory sufficed for all that was written.
    pub fn finish(&self) -> Result<(), NoMemory>
        ensures { OnOk result (self.now.failed ≡ false) }
    {
        if self.failed {
            return Err(NoMemory);
        }
        Ok(())
    }
}

impl Writer for Held<'_> {
    ghost writes = { WritesText };

    fn write_words(&mut self, words: &str) {
        if self.failed {
            return;
        }
        if self.text.push_str(words).is_err() {
            self.failed = true;
        }
    }
}
