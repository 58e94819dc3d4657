//! Cuts a text into lines, and a line into its words.
ghost use Rattle.std.specs.Prelude.{◌≡◌, ◌<◌, ◌∷◌, length, map, IfOk};
ghost use Rattle.wh_text_lines.specs.Words.{is_word, lines_of, word_at, words_of};

use std::alloc::{AllocError, Global};
use wh_text::line::{self, is_blank};

/// Returns the first line without its LF, and the text below it.
pub(crate) fn first_line(text: &[u8]) -> (&[u8], &[u8])
    requires { 0 < length text.now }
    ensures lines { lines_of text.now ≡ result.0.now ∷ lines_of result.1.now }
    ensures shorter { length result.1.now < length text.now }
{
    let (whole, below) = line::first_line(text);
    (line::without_lf(whole), below)
}

/// Returns whether the piece between two blanks is a word: whether it has a byte.
fn is_word(piece: &[u8]) -> bool
    ensures { result ≡ is_word piece.now }
{
    !piece.is_empty()
}

/// Returns the words of a line, which spaces and tabs part. No other byte parts words, so a CR belongs to one.
pub fn words_of(alloc: Global, line: &[u8]) -> Result<Vec<&[u8]>, AllocError>
    ensures { IfOk result (λ words. map (λ word. word.now) words.items ≡ words_of line.now) }
{
    line.split(|byte| is_blank(*byte))
        .filter(|piece| is_word(*piece))
        .collect(alloc)
}

/// Returns the word at this place, from 0; empty where there is none.
pub(crate) fn word_at<'a>(words: &[&'a [u8]], place: usize) -> &'a [u8]
    ensures { result.now ≡ word_at (map (λ word. word.now) words.now) place }
{
    match words.get(place) {
        Some(word) => *word,
        None => b"",
    }
}
