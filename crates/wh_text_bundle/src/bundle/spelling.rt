//! How a heading is spelled, and how a fault names one that is spelled wrongly.
ghost use Rattle.std.specs.Prelude.{◌≡◌, ◌≤◌, length, option_copied, Some, None, if◌then◌else◌};
ghost use Rattle.std.specs.List.{prefix_len, position_or_len};
ghost use Rattle.std.specs.Str.{bytes_eq};
ghost use Rattle.wh_text.specs.Line.{is_blank};
ghost use Rattle.wh_text_bundle.specs.Heading.{heading_text, first_word, fault_word, name_after, single_heading, without_blank_end, word_of};

use super::heading::Heading;
use super::line::without_end;
use wh_text::line::is_blank;

/// Returns the heading, where the text is its word.
fn if_word<'a>(heading: Heading<'a>, text: &[u8]) -> Option<Heading<'a>>
    ensures { result ≡ (if bytes_eq text.now (word_of heading.entry) then Some heading.entry else None) }
{
    if text == heading.word() {
        Some(heading)
    } else {
        None
    }
}

/// Returns the heading that is a single word, where the text is one.
#[tactic(auto, using(crate::proofs::Fronts::or_cond))]
pub fn single_heading<'a>(text: &[u8]) -> Option<Heading<'a>>
    ensures { result ≡ single_heading text.now }
{
    if_word(Heading::Catalogue, text)
        .or(if_word(Heading::Sizes, text))
        .or(if_word(Heading::Strategy, text))
        .or(if_word(Heading::Plan, text))
        .or(if_word(Heading::Schedule, text))
        .or(if_word(Heading::Night, text))
}

/// Returns what stands after a word and a blank, where there is anything.
pub fn name_after<'a>(word: &[u8], text: &'a [u8]) -> Option<&'a [u8]>
    ensures { option_copied result ≡ name_after word.now text.now }
{
    let at = word.len() + 1;
    if text.starts_with(word) && at < text.len() && text[word.len()] == b' ' {
        Some(&text[at..])
    } else {
        None
    }
}

/// Returns the text without the blanks at its end.
pub fn without_blank_end(text: &[u8]) -> &[u8]
    ensures { result.now ≡ without_blank_end text.now }
{
    let mut end = text.len();
    while end > 0 && is_blank(text[end - 1]) {
        end -= 1;
    }
    &text[..end]
}

/// Returns the text of the heading in the line that opens a part.
pub fn heading_text(opening: &[u8]) -> &[u8]
    ensures { result.now ≡ heading_text opening.now }
{
    let content = without_end(opening);
    let text = if content.is_empty() {
        content
    } else {
        &content[1..]
    };
    without_blank_end(text)
}

/// Returns how many blanks the text begins with.
pub fn blanks_len(text: &[u8]) -> usize
    ensures within { result ≤ length text.now }
    ensures value { result ≡ prefix_len is_blank text.now }
{
    for (i, byte) in text.iter().enumerate() {
        if !is_blank(*byte) {
            return i;
        }
    }
    text.len()
}

/// Returns how many bytes stand before the first blank.
fn word_len(text: &[u8]) -> usize
    ensures within { result ≤ length text.now }
    ensures value { result ≡ position_or_len is_blank text.now }
{
    for (i, byte) in text.iter().enumerate() {
        if is_blank(*byte) {
            return i;
        }
    }
    text.len()
}

/// Returns the first word of the text, which may be empty.
fn first_word(text: &[u8]) -> &[u8]
    ensures { result.now ≡ first_word text.now }
{
    let rest = &text[blanks_len(text)..];
    &rest[..word_len(rest)]
}

/// Returns how a fault names the heading of this text.
pub fn fault_word(text: &[u8]) -> &[u8]
    ensures { result.now ≡ fault_word text.now }
{
    let word = first_word(text);
    if word.is_empty() { b"text" } else { word }
}
