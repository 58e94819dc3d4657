//! Keeps a block of bytes that was read, of which some were taken.

ghost use Rattle.std.specs.Prelude.{◌≡◌, ◌≢◌, ◌≤◌, [], false, drop, length, IfOk, OnErr};
ghost use Rattle.std.specs.Io.KnownBytes.{Consumes, IsAtEnd, Keeps};
ghost use Rattle.wh_stream.specs.Counting.{CountsFault};

use std::alloc::{AllocError, Global};
use std::io;
use std::marker::Model;
use wh_stream::Source;

/// How many bytes one read asks for.
const BLOCK: usize = 1 << 16;

/// A block of a source, seen as those of its bytes that were not taken yet.
#[derive(Drop)]
pub(crate) struct Block {
    bytes: Vec<u8>,
    from: usize,
    to: usize,
}

impl Model for Block {
    ghost use Rattle.std.specs.Prelude.{List, ℕ, ◌≤◌, ◌<◌, ◌-◌, drop, take, vec_len};

    ghost Value = { List ℕ };

    ghost view = { λ b. take (b.to - b.from) (drop b.from b.bytes.items) };

    ghost invariant = { λ b. (0 < vec_len b.bytes) × (b.from ≤ b.to) × (b.to ≤ vec_len b.bytes) };
}

impl Block {
    /// Makes room for a block, before the first was read.
    pub(crate) fn new(alloc: Global) -> Result<Block, AllocError>
        ensures { IfOk result (λ block. block ≡ []) }
    {
        let bytes = vec![in alloc; 0u8; BLOCK]?;
        Ok(Block {
            bytes,
            from: 0,
            to: 0,
        })
    }

    /// Lends the bytes that were not taken yet.
    pub(crate) fn left(&self) -> &[u8]
        ensures { result.now ≡ self.now }
    {
        &self.bytes[self.from..self.to]
    }

    /// Takes so many bytes.
    pub(crate) fn take(&mut self, count: usize)
        requires { count ≤ length self.old }
        ensures { self.new ≡ drop count self.old }
    {
        self.from += count;
    }

    /// Reads the next block, where all bytes were taken, and tells whether it has any. At the end of the source it has none.
    pub(crate) fn refill<R: Source>(&mut self, source: &mut R) -> io::Result<bool>
        requires { self.old ≡ [] }
        ensures bytes { IfOk result (λ some. Consumes (R.remaining source.old) (R.remaining source.new) self.new) }
        ensures end { IfOk result (λ some. some ≡ false → (self.new ≡ []) × IsAtEnd (R.remaining source.new)) }
        ensures some { IfOk result (λ some. some ≢ false → self.new ≢ []) }
        ensures err { OnErr result ((self.new ≡ []) × Keeps (R.remaining source.old) (R.remaining source.new)) }
        ensures faults { CountsFault result (R.faults source.old) (R.faults source.new) }
    {
        self.from = 0;
        self.to = 0;
        let count = source.read(&mut self.bytes)?;
        self.to = count;
        Ok(count > 0)
    }
}
