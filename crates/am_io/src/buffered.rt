ghost use Rattle.std.specs.Prelude.{◌≡◌, ◌⊎◌, [], true, false, OnOk, OnErr};
ghost use Rattle.am_io.specs.Buffers.{Goes, IsEmpty};

use crate::outside::Sink;
use crate::whole::write_all;
use crate::writer::Writer;
use arrayvec::ArrayVec;

/// How many bytes are held before they go to the sink.
const ROOM: usize = 16_384;

/// A write failed, and only a beginning of what was written went to the sink.
#[derive(Clone, Copy)]
pub struct Unwritten;

/// A sink behind a room. What is written goes to the sink in order, piece by piece, as the room fills, and the rest by `finish`, until a
/// write fails; from then on the sink is let alone. It takes no memory.
#[derive(Drop)]
pub struct Buffered<'a, K: Sink> {
    sink: &'a mut K,
    room: ArrayVec<u8, ROOM>,
    failed: bool,
}

impl<'a, K: Sink> Buffered<'a, K> {
    /// A sink behind an empty room.
    pub fn new(sink: &'a mut K) -> Buffered<'a, K>
        ensures named { result.sink.ghost_name ≡ sink.entry.ghost_name }
        ensures sink { result.sink.now ≡ sink.old }
        ensures empty { IsEmpty result }
    {
        Buffered {
            sink,
            room: ArrayVec::new(),
            failed: false,
        }
    }

    // Lets what the room holds go to the sink.
    fn flush(&mut self)
        ensures goes { Goes K.contents K.count self.old [] self.new }
        ensures empty { (self.new.failed ≡ true) ⊎ (self.new.room.items ≡ []) }
    {
        if self.failed {
            return;
        }
        match write_all(self.sink, self.room.as_slice()) {
            Ok(()) => self.room.clear(),
            Err(_) => self.failed = true,
        }
    }

    /// Lets what the room holds go to the sink, and says whether all that was written went there.
    pub fn finish(&mut self) -> Result<(), Unwritten>
        ensures goes { Goes K.contents K.count self.old [] self.new }
        ensures ok { OnOk result (IsEmpty self.new) }
        ensures err { OnErr result (self.new.failed ≡ true) }
    {
        self.flush();
        if self.failed {
            return Err(Unwritten);
        }
        Ok(())
    }

    // Lets bytes go to the sink at once, after what the room held and holds no more.
    fn pass(&mut self, bytes: &[u8])
        requires { (self.old.failed ≡ true) ⊎ (self.old.room.items ≡ []) }
        ensures { Goes K.contents K.count self.old bytes.now self.new }
    {
        if self.failed {
            return;
        }
        match write_all(self.sink, bytes) {
            Ok(()) => {}
            Err(_) => self.failed = true,
        }
    }

    // Holds bytes where there is room for them; whether there was.
    fn hold(&mut self, bytes: &[u8]) -> bool
        ensures held { result ≡ true → Goes K.contents K.count self.old bytes.now self.new }
        ensures kept { result ≡ false → self.new ≡ self.old }
    {
        match self.room.try_extend_from_slice(bytes) {
            Ok(()) => true,
            Err(_) => false,
        }
    }

    /// Writes bytes after those before.
    pub fn write(&mut self, bytes: &[u8])
        ensures { Goes K.contents K.count self.old bytes.now self.new }
    {
        if self.hold(bytes) {
            return;
        }
        self.flush();
        if self.hold(bytes) {
            return;
        }
        self.pass(bytes)
    }
}

impl<K: Sink> Writer for Buffered<'_, K> {
    ghost writes = { Goes K.contents K.count };

    fn write_words(&mut self, words: &str) {
        self.write(words.as_bytes());
    }
}
