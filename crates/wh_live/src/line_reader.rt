//! Hands out the lines of a source, each as soon as its end was read.

ghost use Rattle.std.specs.Prelude.{◌≡◌, ◌≢◌, ◌<◌, ◌∷◌, ◌++◌, [], IfOk, IsErrOf, MatchOption, OnErr, option_map};
ghost use Rattle.std.specs.Io.KnownBytes.{Keeps, prepend_known};
ghost use Rattle.std.specs.List.{Contains};
ghost use Rattle.wh_live.specs.LinesRead.{FirstLines, HandsOut, IsOneLine};
ghost use Rattle.wh_live.specs.declared.line_reader.LineFault.TheVariants.{Memory};

use crate::block::Block;
use memchr::memchr;
use std::alloc::{AllocError, AllocFailed, Global};
use std::marker::Model;
use std::mem;
use wh_stream::Source;

/// Why no line was handed out.
#[derive(Debug, Drop, PartialEq, Eq)]
pub enum LineFault {
    /// The source answered an error, of any kind.
    Read,
    /// The line could not be stored.
    Memory,
}

impl From<AllocError> for LineFault {
    ghost from_gives = { λ _ e. e ≡ Memory };

    fn from(_error: AllocError) -> LineFault {
        LineFault::Memory
    }
}

impl<T: Drop> From<AllocFailed<T>> for LineFault {
    ghost from_gives = { λ _ e. e ≡ Memory };

    fn from(_error: AllocFailed<T>) -> LineFault {
        LineFault::Memory
    }
}

/// What hands out the lines of a source, seen as the bytes that were read of it and not handed out yet.
#[derive(Drop)]
pub struct LineReader {
    alloc: Global,
    begun: Vec<u8>,
    block: Block,
}

impl Model for LineReader {
    ghost use Rattle.std.specs.Prelude.{List, ℕ, ◌++◌};
    ghost use Rattle.wh_live.specs.LinesRead.{IsOneLine};

    ghost Value = { List ℕ };

    ghost view = { λ r. r.begun.items ++ r.block };

    ghost invariant = { λ r. IsOneLine r.begun.items };
}

/// Takes the next line from what has begun and the block, without its LF. Where it does not end there, all of the block has begun.
fn take_line(
    alloc: Global,
    begun: &mut Vec<u8>,
    block: &mut Block,
) -> Result<Option<Vec<u8>>, AllocError>
    requires { IsOneLine begun.old.items }
    ensures begun { IsOneLine begun.new.items }
    ensures ok { IfOk result (λ line. MatchOption line ((block.new ≡ []) × (begun.new.items ≡ begun.old.items ++ block.old))
        (λ own. IsOneLine own.items × (begun.old.items ++ block.old ≡ own.items ++ 10 ∷ (begun.new.items ++ block.new)))) }
    ensures err { OnErr result ((begun.new.items ≡ begun.old.items) × (block.new ≡ block.old)) }
{
    let left = block.left();
    match memchr(b'\n', left) {
        Some(place) => {
            begun.extend_from_slice(&left[..place])?;
            block.take(place + 1);
            Ok(Some(mem::replace(begun, Vec::new(alloc))))
        }
        None => {
            let count = left.len();
            begun.extend_from_slice(left)?;
            block.take(count);
            Ok(None)
        }
    }
}

/// Takes the last line, which no LF ends, if it has begun.
fn take_last(alloc: Global, begun: &mut Vec<u8>) -> Option<Vec<u8>>
    ensures begun { begun.new.items ≡ [] }
    ensures line { MatchOption result (begun.old.items ≡ []) (λ own. (own.items ≡ begun.old.items) × (own.items ≢ [])) }
{
    if begun.is_empty() {
        return None;
    }
    Some(mem::replace(begun, Vec::new(alloc)))
}

/// Reads on, where all of the block has begun, up to the end of the next line or of the source.
fn read_on<R: Source>(
    alloc: Global,
    begun: &mut Vec<u8>,
    block: &mut Block,
    source: &mut R,
) -> Result<Option<Vec<u8>>, LineFault>
    requires begun { IsOneLine begun.old.items }
    requires empty { block.old ≡ [] }
    ensures begun { IsOneLine begun.new.items }
    ensures ok { IfOk result (λ line. HandsOut (prepend_known begun.old.items (R.remaining source.old)) (option_map (λ own. own.items) line)
        (prepend_known (begun.new.items ++ block.new) (R.remaining source.new))) }
    ensures err { OnErr result (Keeps (prepend_known begun.old.items (R.remaining source.old)) (prepend_known (begun.new.items ++ block.new) (R.remaining source.new))) }
    ensures failed { IsErrOf result LineFault.Read → R.faults source.old < R.faults source.new }
    ensures faultless { ¬ (IsErrOf result LineFault.Read) → R.faults source.new ≡ R.faults source.old }
{
    for turn in 0..u64::MAX {
        match block.refill(source) {
            Ok(true) => {}
            Ok(false) => return Ok(take_last(alloc, begun)),
            Err(_) => return Err(LineFault::Read),
        }
        if let Some(line) = take_line(alloc, begun, block)? {
            return Ok(Some(line));
        }
    }
    unreachable!()
}

/// Takes the next line from what was read, and reads on only where it does not end there.
fn read_line<R: Source>(
    alloc: Global,
    begun: &mut Vec<u8>,
    block: &mut Block,
    source: &mut R,
) -> Result<Option<Vec<u8>>, LineFault>
    requires { IsOneLine begun.old.items }
    ensures begun { IsOneLine begun.new.items }
    ensures ok { IfOk result (λ line. HandsOut (prepend_known (begun.old.items ++ block.old) (R.remaining source.old)) (option_map (λ own. own.items) line)
        (prepend_known (begun.new.items ++ block.new) (R.remaining source.new))) }
    ensures err { OnErr result (Keeps (prepend_known (begun.old.items ++ block.old) (R.remaining source.old)) (prepend_known (begun.new.items ++ block.new) (R.remaining source.new))) }
    ensures at_hand { Contains (begun.old.items ++ block.old) 10 → source.new ≡ source.old }
    ensures failed { IsErrOf result LineFault.Read → R.faults source.old < R.faults source.new }
    ensures faultless { ¬ (IsErrOf result LineFault.Read) → R.faults source.new ≡ R.faults source.old }
{
    match take_line(alloc, begun, block)? {
        Some(line) => Ok(Some(line)),
        None => read_on(alloc, begun, block, source),
    }
}

impl LineReader {
    /// Begins before the first byte.
    pub fn new(alloc: Global) -> Result<LineReader, AllocError>
        ensures { IfOk result (λ reader. reader ≡ []) }
    {
        Ok(LineReader {
            alloc,
            begun: Vec::new(alloc),
            block: Block::new(alloc)?,
        })
    }

    /// Returns the next line, without its LF, or `None` where all bytes have been handed out. The last line may lack its LF. The source is
    /// read only where the line's end was not read yet, so a line that was written is handed out before the next one is waited for.
    ///
    /// Fails with Read exactly where a read failed, and for want of memory. No byte is lost then, so a later call goes on where this one
    /// began. Takes time for the line's bytes, and for those that are read.
    pub fn next_line<R: Source>(&mut self, source: &mut R) -> Result<Option<Vec<u8>>, LineFault>
        ensures ok { IfOk result (λ line. HandsOut (prepend_known self.old (R.remaining source.old)) (option_map (λ own. own.items) line) (prepend_known self.new (R.remaining source.new))) }
        ensures err { OnErr result (Keeps (prepend_known self.old (R.remaining source.old)) (prepend_known self.new (R.remaining source.new))) }
        ensures at_hand { Contains self.old 10 → source.new ≡ source.old }
        ensures failed { IsErrOf result LineFault.Read → R.faults source.old < R.faults source.new }
        ensures faultless { ¬ (IsErrOf result LineFault.Read) → R.faults source.new ≡ R.faults source.old }
    {
        read_line(self.alloc, &mut self.begun, &mut self.block, source)
    }
}

/// A law of the definitions: the lines that are handed out, one after another, are the lines of all bytes, however they were cut into reads.
pub fn first_lines_law()
    ensures { FirstLines }
{}
