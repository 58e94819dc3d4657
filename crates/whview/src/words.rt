//! Finds the words of the input's first line, where the program is given none.

ghost use Rattle.std.specs.Prelude.{◌≡◌, map, position, IfOk};
ghost use Rattle.std.specs.List.{list_any};
ghost use Rattle.std.specs.Str.Lines.{strip_carriage_return};
ghost use Rattle.whview.specs.FirstLine.{after_first_line, first_line_of, is_lf, names_input, names_most, words_in};

use std::alloc::{AllocError, Global};

const LF: u8 = b'\n';

const CR: u8 = b'\r';

/// Returns the words of a line: what stands between its spaces. A tab belongs to a word.
/// Fails for want of memory.
pub fn words_of_line<'a>(alloc: Global, line: &'a str) -> Result<Vec<&'a str>, AllocError>
    ensures { IfOk result (λ v. map (λ w. w.now) v.items ≡ words_in line.now) }
{
    line.split(' ')
        .filter(|word| !word.is_empty())
        .collect(alloc)
}

/// Returns the first line of an input, without its LF and one CR before that LF, and what follows that LF.
/// An input without an LF is all line, and a CR at its end stays.
pub fn first_line(input: &[u8]) -> (&[u8], &[u8])
    ensures line { result.0.now ≡ first_line_of input.now }
    ensures rest { result.1.now ≡ after_first_line input.now }
{
    match first_lf(input) {
        Some(end) => (without_cr(&input[..end]), &input[end + 1..]),
        None => (input, &[]),
    }
}

/// Where the first LF stands.
fn first_lf(input: &[u8]) -> Option<usize>
    ensures { result ≡ position is_lf input.now }
{
    input.iter().position(|b| *b == LF)
}

/// The line without the CR at its end.
fn without_cr(line: &[u8]) -> &[u8]
    ensures { result.now ≡ strip_carriage_return line.now }
{
    match line {
        [front @ .., CR] => front,
        _ => line,
    }
}

/// Tells whether one of the words is the option `--input`, which words from the input may not give.
pub fn refuses_input(words: &[&str]) -> bool
    ensures { result ≡ list_any (λ w. names_input w.now) words.now }
{
    words.iter().any(|word| is_input_option(word))
}

/// Whether the word is the option `--input`, with or without its file.
fn is_input_option(word: &str) -> bool
    ensures { result ≡ names_input word.now }
{
    word == "--input" || word.starts_with("--input=")
}

/// Tells whether one of the words is the option `--most`, which words from the input may not give.
pub fn refuses_most(words: &[&str]) -> bool
    ensures { result ≡ list_any (λ w. names_most w.now) words.now }
{
    words.iter().any(|word| is_most_option(word))
}

/// Whether the word is the option `--most`, with or without its number.
fn is_most_option(word: &str) -> bool
    ensures { result ≡ names_most word.now }
{
    word == "--most" || word.starts_with("--most=")
}
