//! A word of the input, as a fault tells it.
ghost use Rattle.std.specs.Prelude.{◌≡◌, ◌≢◌, [], IfOk, OnErr};

use std::alloc::{AllocError, Global};
use std::marker::Model;

/// A word of the input, whose bytes need not be UTF-8.
#[derive(Debug, Drop)]
pub struct Word {
    bytes: Vec<u8>,
}

impl Model for Word {
    ghost use Rattle.std.specs.Prelude.{List, ℕ};

    ghost Value = { List ℕ };

    ghost view = { λ w. w.bytes.items };
}

impl Word {
    /// Makes a word that is a copy of these bytes. An empty one takes no memory. Takes O(n) for n bytes.
    pub fn new(alloc: Global, bytes: &[u8]) -> Result<Word, AllocError>
        ensures word { IfOk result (λ word. word ≡ bytes.now) }
        ensures memory { OnErr result (bytes.now ≢ []) }
    {
        let mut copy = Vec::new(alloc);
        copy.extend_from_slice(bytes)?;
        Ok(Word { bytes: copy })
    }

    /// Takes these bytes as a word, with no copy.
    pub fn from_vec(bytes: Vec<u8>) -> Word
        ensures { result ≡ bytes.items }
    {
        Word { bytes }
    }

    /// Returns the bytes.
    pub fn as_slice(&self) -> &[u8]
        ensures { result.now ≡ self.now }
    {
        self.bytes.as_slice()
    }

    /// Gives the bytes back, with no copy.
    pub fn into_vec(self) -> Vec<u8>
        ensures { result.items ≡ self }
    {
        let Word { bytes } = self;
        bytes
    }
}
