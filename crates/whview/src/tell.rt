//! Writes the texts that the program answers with, each whole.

ghost use Rattle.std.specs.Prelude.{◌≡◌, ◌≢◌, ◌<◌, ◌↔◌, ◌++◌, ℕ, List, codes, OnOk};
ghost use Rattle.std.specs.Io.KnownBytes.{Appends};
ghost use Rattle.wh_stream.specs.Counting.{CountsFault};
ghost use Rattle.wh_text_tables.specs.Chunks.{chunks_text};
ghost use Rattle.whview.specs.CheckOutput.{line};
ghost use Rattle.whview.specs.Status.{status_number};
ghost use Rattle.whview.specs.Inner.Output.{IsTold};

use crate::answer::Answer;
use crate::status::Status;
use std::alloc::AllocError;
use std::io;
use wh_load::LentChunks;
use wh_stream::Sink;

/// What the program ends with where its sink fails.
pub(crate) const OUTPUT_FAILED: u8 = 5;

/// Writes chunks, one after another, up to the first at which the sink fails.
fn put_each<W: Sink>(out: &mut W, chunks: &[Vec<u8>]) -> io::Result<()>
    ensures bytes { OnOk result (Appends (W.contents out.old) (W.contents out.new) (chunks_text chunks.now)) }
    ensures faults { CountsFault result (W.faults out.old) (W.faults out.new) }
{
    for chunk in chunks {
        out.put(chunk)?;
    }
    Ok(())
}

/// Writes a text chunk by chunk. Where the sink fails nothing is said of how much went out.
fn put_text<W: Sink>(out: &mut W, text: LentChunks<'_>) -> io::Result<()>
    ensures bytes { OnOk result (Appends (W.contents out.old) (W.contents out.new) (chunks_text text.entry.finished.now ++ text.entry.last.now)) }
    ensures faults { CountsFault result (W.faults out.old) (W.faults out.new) }
{
    put_each(out, text.finished)?;
    out.put(text.last)
}

/// Writes a text whole: the number of the status, or 5 exactly where the sink fails. Then nothing is said of how much went out.
pub(crate) fn give<W: Sink>(out: &mut W, text: LentChunks<'_>, status: Status) -> u8
    ensures given { result ≢ 5 → (result ≡ status_number status) × Appends (W.contents out.old) (W.contents out.new) (chunks_text text.entry.finished.now ++ text.entry.last.now) }
    ensures failed { (result ≡ 5) ↔ (W.faults out.old < W.faults out.new) }
{
    match put_text(out, text) {
        Ok(()) => status.number(),
        Err(_) => OUTPUT_FAILED,
    }
}

/// Writes the answer where a word of the command line is not UTF-8, as for a first line that is not: `fault words`. Returns 2, or 5 where
/// the sink fails.
pub fn words_without_text<W: Sink>(out: &mut W) -> u8
    ensures told { result ≢ 5 → (result ≡ 2) × Appends (W.contents out.old) (W.contents out.new) (line (codes "fault words")) }
    ensures failed { (result ≡ 5) ↔ (W.faults out.old < W.faults out.new) }
{
    give(out, LentChunks::of(b"fault words\n"), Status::Words)
}

/// Writes the answer where memory was refused: `memory`. Returns 4, or 5 where the sink fails.
pub fn want_of_memory<W: Sink>(out: &mut W) -> u8
    ensures told { result ≢ 5 → (result ≡ 4) × Appends (W.contents out.old) (W.contents out.new) (line (codes "memory")) }
    ensures failed { (result ≡ 5) ↔ (W.faults out.old < W.faults out.new) }
{
    give(out, LentChunks::of(b"memory\n"), Status::Limit)
}

/// Writes an answer whole, or that memory was refused.
pub(crate) fn tell<W: Sink>(out: &mut W, answer: Result<Answer, AllocError>) -> u8
    ensures told { result ≢ 5 → (text : List ℕ) × Appends (W.contents out.old) (W.contents out.new) text × IsTold answer text result }
    ensures failed { (result ≡ 5) ↔ (W.faults out.old < W.faults out.new) }
{
    match answer {
        Ok(answer) => give(out, answer.text.chunks(), answer.status),
        Err(AllocError) => want_of_memory(out),
    }
}
