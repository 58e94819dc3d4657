//! Reads the natural numbers that words write.
ghost use Rattle.std.specs.Prelude.{◌≡◌, ◌==◌, slice_index};
ghost use Rattle.wh_text_lines.specs.Natural.{natural, number_within};

use std::str;

/// Returns whether the word begins with a plus.
fn has_plus(word: &[u8]) -> bool
    ensures { result ≡ (slice_index word.now 0 == 43) }
{
    match word {
        [first, ..] => *first == b'+',
        _ => false,
    }
}

/// Returns the number that a word writes: one or more digits and nothing else, below 2^128.
pub(crate) fn natural(word: &[u8]) -> Option<u128>
    ensures { result ≡ natural word.now }
{
    // `parse` takes a plus, which no number has here.
    if has_plus(word) {
        return None;
    }
    match str::from_utf8(word) {
        Ok(text) => text.parse::<u128>().ok(),
        Err(_) => None,
    }
}

/// Returns the number that a word writes, where it is from `low` to `high`.
pub(crate) fn number_within(low: usize, high: usize, word: &[u8]) -> Option<usize>
    ensures { result ≡ number_within low high word.now }
{
    let number = usize::try_from(natural(word)?).ok()?;
    if low <= number && number <= high {
        Some(number)
    } else {
        None
    }
}
