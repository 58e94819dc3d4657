//! Readers and writers of std whose calls are counted, each by the one call that reaches it.
ghost use Rattle.std.specs.Prelude.{◌≡◌, ◌+◌, OnOk, MatchResult};
ghost use Rattle.std.specs.Io.{ReadsAtMost};
ghost use Rattle.std.specs.Io.KnownBytes.{Appends, Keeps, ReadConsumes};
ghost use Rattle.wh_stream.specs.Counting.{CountsFault};

use crate::count::Count;
use std::io;
use std::io::{Read, Write};

/// A reader or a writer, with how many of its calls have failed and how many writes were not flushed yet, which proofs alone see.
#[derive(Drop)]
pub struct CountedStream<T> {
    inner: T,
    faults: Count,
    unflushed: Count,
}

impl<T> CountedStream<T> {
    /// Takes this reader or writer, before its first call.
    pub fn new(inner: T) -> Self
        ensures { result.inner ≡ inner }
    {
        CountedStream {
            inner,
            faults: Count::none(),
            unflushed: Count::none(),
        }
    }

    /// Returns the reader or the writer.
    pub fn inner(&self) -> &T
        ensures { result.now ≡ self.now.inner }
    {
        &self.inner
    }
}

// No other file reaches the reader or the writer but by the three functions below, which call it once each and count that call.

impl<R: Read> CountedStream<R> {
    pub(crate) fn read_once(&mut self, buf: &mut [u8]) -> io::Result<usize>
        ensures bound { ReadsAtMost result buf.new }
        ensures bytes { ReadConsumes (R.remaining self.old.inner) (R.remaining self.new.inner) result buf.new }
        ensures faults { CountsFault result self.old.faults.count self.new.faults.count }
    {
        let result = self.inner.read(buf);
        if result.is_err() {
            self.faults = self.faults.and_one();
        }
        result
    }
}

impl<W: Write> CountedStream<W> {
    // `write_all` goes on after a short write and after an interruption.
    pub(crate) fn write_once(&mut self, bytes: &[u8]) -> io::Result<()>
        ensures bytes { OnOk result (Appends (W.contents self.old.inner) (W.contents self.new.inner) bytes.now) }
        ensures faults { CountsFault result self.old.faults.count self.new.faults.count }
        ensures unflushed { self.new.unflushed.count ≡ self.old.unflushed.count + 1 }
    {
        let result = self.inner.write_all(bytes);
        self.unflushed = self.unflushed.and_one();
        if result.is_err() {
            self.faults = self.faults.and_one();
        }
        result
    }

    pub(crate) fn flush_once(&mut self) -> io::Result<()>
        ensures bytes { Keeps (W.contents self.old.inner) (W.contents self.new.inner) }
        ensures faults { CountsFault result self.old.faults.count self.new.faults.count }
        ensures unflushed { MatchResult result (λ _. self.new.unflushed.count ≡ 0) (λ _. self.new.unflushed.count ≡ self.old.unflushed.count) }
    {
        let result = self.inner.flush();
        if result.is_err() {
            self.faults = self.faults.and_one();
        } else {
            self.unflushed = Count::none();
        }
        result
    }
}
