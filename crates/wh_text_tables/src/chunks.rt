//! Keeps a text in chunks, so that it grows without a copy of what it has.

ghost use Rattle.std.specs.Prelude.{◌≡◌, ◌++◌, ℕ, List, [], OnOk, OnErr};
ghost use Rattle.wh_text_tables.specs.Chunks.{chunks_text};

use std::alloc::{AllocError, Global};
use std::marker::Model;
use std::mem;

/// A text of fewer bytes is copied to the chunk that is being written: many small texts then go out by one write.
const COPIED: usize = 8_192;

/// A text that is kept in chunks: what is appended to it is moved where it is large.
#[derive(Drop)]
pub struct ChunkedText {
    finished: Vec<Vec<u8>>,
    last: Vec<u8>,
}

impl Model for ChunkedText {
    ghost Value = { List ℕ };

    ghost view = { λ text. chunks_text text.finished.items ++ text.last.items };
}

/// The chunks of a text, in the order of its bytes.
#[derive(Clone, Copy)]
pub struct LentChunks<'t> {
    /// All chunks but the last.
    pub finished: &'t [Vec<u8>],
    /// The last chunk, which may be empty.
    pub last: &'t [u8],
}

impl<'t> LentChunks<'t> {
    /// Lends these bytes as one chunk.
    pub fn of(bytes: &'t [u8]) -> LentChunks<'t>
        ensures { chunks_text result.finished.now ++ result.last.now ≡ bytes.now }
    {
        LentChunks {
            finished: &[],
            last: bytes,
        }
    }
}

impl ChunkedText {
    /// Makes a text of no bytes.
    pub fn new(alloc: Global) -> ChunkedText
        ensures { result ≡ [] }
    {
        ChunkedText::of(Vec::new(alloc))
    }

    /// Makes a text of these bytes, in one chunk.
    pub fn of(text: Vec<u8>) -> ChunkedText
        ensures { result ≡ text.items }
    {
        ChunkedText {
            finished: Vec::new(*text.allocator()),
            last: text,
        }
    }

    /// Appends these bytes by a copy.
    /// Where memory is refused, nothing is appended.
    pub fn extend_from_slice(&mut self, bytes: &[u8]) -> Result<(), AllocError>
        ensures ok { OnOk result (self.new ≡ self.old ++ bytes.now) }
        ensures err { OnErr result (self.new ≡ self.old) }
    {
        self.last.extend_from_slice(bytes)
    }

    /// Appends a text, which is moved and not copied unless it is small.
    /// Where memory is refused, nothing is appended.
    pub fn append(&mut self, text: Vec<u8>) -> Result<(), AllocError>
        ensures ok { OnOk result (self.new ≡ self.old ++ text.items) }
        ensures err { OnErr result (self.new ≡ self.old) }
    {
        if text.len() < COPIED {
            return self.last.extend_from_slice(&text);
        }
        finish(&mut self.finished, &mut self.last)?;
        self.finished.push(text)?;
        Ok(())
    }

    /// Appends another text, whose chunks are moved.
    /// Where memory is refused, nothing is appended.
    pub fn append_chunks(&mut self, text: ChunkedText) -> Result<(), AllocError>
        ensures ok { OnOk result (self.new ≡ self.old ++ text) }
        ensures err { OnErr result (self.new ≡ self.old) }
    {
        let ChunkedText { mut finished, last } = text;
        if finished.is_empty() {
            return self.append(last);
        }
        finish(&mut self.finished, &mut self.last)?;
        self.finished.append(&mut finished)?;
        self.last = last;
        Ok(())
    }

    /// Lends the text's chunks.
    pub fn chunks(&self) -> LentChunks<'_>
        ensures { chunks_text result.finished.now ++ result.last.now ≡ self.now }
    {
        LentChunks {
            finished: &self.finished,
            last: &self.last,
        }
    }
}

/// Ends the chunk that is being written, and begins another. Where memory fails, it goes on.
fn finish(finished: &mut Vec<Vec<u8>>, last: &mut Vec<u8>) -> Result<(), AllocError>
    ensures ok { OnOk result ((chunks_text finished.new.items ≡ chunks_text finished.old.items ++ last.old.items) × (last.new.items ≡ [])) }
    ensures err { OnErr result ((finished.new.items ≡ finished.old.items) × (last.new.items ≡ last.old.items)) }
{
    if last.is_empty() {
        return Ok(());
    }
    let alloc = *last.allocator();
    let chunk = mem::replace(last, Vec::new(alloc));
    if let Err(kept) = finished.push(chunk) {
        *last = kept.value;
        return Err(AllocError);
    }
    Ok(())
}
