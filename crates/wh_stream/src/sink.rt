//! What bytes are written to.
ghost use Rattle.std.specs.Prelude.{◌≡◌, ℕ, List, Option, OnOk};
ghost use Rattle.std.specs.Io.KnownBytes.{Appends};
ghost use Rattle.wh_stream.specs.Counting.{CountsFault};

use crate::CountedStream;
use std::io;
use std::io::Write;

/// What bytes are written to, with a count of the calls that failed.
pub trait Sink {
    /// The bytes that the sink holds, where they are known.
    ghost contents: { Self → Option (List ℕ) };

    /// How many calls have failed.
    ghost faults: { Self → ℕ };

    /// How many writes have gone out since it was last flushed.
    ghost unflushed: { Self → ℕ };

    /// Writes the bytes whole, and flushes them. Where it fails, nothing is said of how many went out.
    fn put(&mut self, bytes: &[u8]) -> io::Result<()>
        ensures bytes { OnOk result (Appends (contents self.old) (contents self.new) bytes.now) }
        ensures faults { CountsFault result (faults self.old) (faults self.new) }
        ensures flushed { OnOk result (unflushed self.new ≡ 0) };
}

impl<W: Write> Sink for CountedStream<W> {
    ghost contents = { λ s. W.contents s.inner };

    ghost faults = { λ s. s.faults.count };

    ghost unflushed = { λ s. s.unflushed.count };

    fn put(&mut self, bytes: &[u8]) -> io::Result<()> {
        self.write_once(bytes)?;
        self.flush_once()
    }
}
