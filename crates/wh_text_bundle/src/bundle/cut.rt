//! Cuts bytes into parts, each from a line that begins with one `@`.
ghost use Rattle.std.specs.Prelude.{◌≡◌, ◌+◌, ◌<◌, ◌≤◌, [], ◌∷◌, length, take, drop};
ghost use Rattle.wh_text_bundle.specs.Cut.{cut};
ghost use Rattle.wh_text_bundle.specs.RawPart.{shown};

use super::line::{opens_part, plain_len};
use wh_text::line::first_line;

/// A part as it stands.
#[derive(Clone, Copy)]
pub struct LentPart<'a> {
    /// The line that opens it.
    pub opening: &'a [u8],
    /// The bytes below that line.
    pub body: &'a [u8],
}

/// Returns the length of the bytes above the first part.
pub fn preface_len(text: &[u8]) -> usize
    ensures within { result ≤ length text.now }
    ensures preface { (cut text.now).preface ≡ take result text.now }
    ensures parts { cut (drop result text.now) ≡ record { preface = []; parts = (cut text.now).parts } }
{
    let mut at = 0;
    while at < text.len() {
        let (line, below) = first_line(&text[at..]);
        if opens_part(line) {
            return at;
        }
        at += line.len() + plain_len(below);
    }
    at
}

/// Returns the first part of a text that begins with one, and what stands below it.
pub fn first_part(text: &[u8]) -> (LentPart<'_>, &[u8])
    requires some { 0 < length text.now }
    requires begins { (cut text.now).preface ≡ [] }
    ensures shorter { length result.1.now < length text.now }
    ensures begins { (cut result.1.now).preface ≡ [] }
    ensures parts { (cut text.now).parts
        ≡ shown result.0 ∷ (cut result.1.now).parts }
{
    let (opening, below) = first_line(text);
    let (body, rest) = below.split_at(preface_len(below));
    (LentPart { opening, body }, rest)
}
