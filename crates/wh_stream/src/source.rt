//! What bytes are read from.
ghost use Rattle.std.specs.Prelude.{ℕ, List, Option};
ghost use Rattle.std.specs.Io.{ReadsAtMost};
ghost use Rattle.std.specs.Io.KnownBytes.{ReadConsumes};
ghost use Rattle.wh_stream.specs.Counting.{CountsFault};

use crate::CountedStream;
use std::io;
use std::io::Read;

/// What bytes are read from, with a count of the reads that failed.
pub trait Source {
    /// The bytes that reads will give from here on, where they are known.
    ghost remaining: { Self → Option (List ℕ) };

    /// How many reads have failed.
    ghost faults: { Self → ℕ };

    /// Reads bytes to the front of the buffer and returns how many: none only at the end, or where the buffer has no room. A read that
    /// fails takes none.
    fn read(&mut self, buf: &mut [u8]) -> io::Result<usize>
        ensures bound { ReadsAtMost result buf.new }
        ensures bytes { ReadConsumes (remaining self.old) (remaining self.new) result buf.new }
        ensures faults { CountsFault result (faults self.old) (faults self.new) };
}

impl<R: Read> Source for CountedStream<R> {
    ghost remaining = { λ s. R.remaining s.inner };

    ghost faults = { λ s. s.faults.count };

    fn read(&mut self, buf: &mut [u8]) -> io::Result<usize> {
        self.read_once(buf)
    }
}
