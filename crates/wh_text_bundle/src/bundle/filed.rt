//! Parts whose lines stand in a file of their own, as `@data NAME < PATH` says.
ghost use Rattle.std.specs.Prelude.{◌≡◌, ◌<◌, ◌≤◌, ℕ, List, ◌++◌, IsTrue, IfSome, MatchOption, OnErr, OnOk, option_map, None, length, take, drop};
ghost use Rattle.std.specs.List.{position_or_len};
ghost use Rattle.wh_text_bundle.specs.Files.{HasNoFiled, IsFirstFiled, IsReadAsItIs, all_escaped, body_of_file, ended, escaped, filed_part, has_rows, is_sign, named_file};
ghost use Rattle.wh_text_bundle.specs.RawPart.{shown};

use super::cut::{LentPart, first_part, preface_len};
use super::heading::{CHANGES, DATA};
use super::line::{is_blank_text, plain_len};
use super::spelling::{blanks_len, heading_text, name_after, without_blank_end};
use std::alloc::{AllocError, Global};
use wh_text::line::first_line;

/// A part whose lines stand in a file, and the bytes around it.
#[derive(Clone, Copy)]
pub struct FiledPart<'a> {
    /// The bytes above the part.
    pub above: &'a [u8],
    /// Its heading without the file: `data NAME` or `changes NAME`.
    pub heading: &'a [u8],
    /// The path of the file.
    pub path: &'a [u8],
    /// The bytes below the part.
    pub below: &'a [u8],
}

/// What a heading that names a file says.
#[derive(Clone, Copy)]
struct Named<'a> {
    heading: &'a [u8],
    path: &'a [u8],
}

/// Returns how many bytes stand before the first `<`.
fn sign_place(text: &[u8]) -> usize
    ensures within { result ≤ length text.now }
    ensures value { result ≡ position_or_len is_sign text.now }
{
    for (place, byte) in text.iter().enumerate() {
        if *byte == b'<' {
            return place;
        }
    }
    text.len()
}

/// Returns whether the heading is one of rows or of changes.
fn has_rows(heading: &[u8]) -> bool
    ensures { result ≡ has_rows heading.now }
{
    name_after(DATA, heading).is_some() || name_after(CHANGES, heading).is_some()
}

/// Returns the file that the text of a heading names, if it names one.
fn named_file(text: &[u8]) -> Option<Named<'_>>
    ensures { option_map (λ n. record { heading = n.heading.now; path = n.path.now }) result ≡ named_file text.now }
{
    let sign = sign_place(text);
    if sign == text.len() {
        return None;
    }
    let heading = without_blank_end(&text[..sign]);
    let behind = &text[sign + 1..];
    let path = &behind[blanks_len(behind)..];
    if path.is_empty() || !has_rows(heading) {
        return None;
    }
    Some(Named { heading, path })
}

/// Returns the file in which the lines of a part stand, if they do.
fn filed<'a>(part: &LentPart<'a>) -> Option<Named<'a>>
    ensures { option_map (λ n. record { heading = n.heading.now; path = n.path.now }) result ≡ filed_part (shown part.now) }
{
    if !is_blank_text(part.body) {
        return None;
    }
    named_file(heading_text(part.opening))
}

/// Returns the first part of a bundle's bytes whose lines stand in a file, and the bytes around it; none where no part's do. Takes O(n) for
/// the n bytes down to it.
pub fn first_filed(text: &[u8]) -> Option<FiledPart<'_>>
    ensures part { MatchOption result (HasNoFiled text.now) (λ p. IsFirstFiled text.now p.above.now p.heading.now p.path.now p.below.now) }
    ensures shorter { IfSome result (λ p. length p.below.now < length text.now) }
{
    let mut at = preface_len(text);
    while at < text.len() {
        let (part, below) = first_part(&text[at..]);
        if let Some(named) = filed(&part) {
            return Some(FiledPart {
                above: &text[..at],
                heading: named.heading,
                path: named.path,
                below,
            });
        }
        at += part.opening.len() + part.body.len();
    }
    None
}

/// Adds a line of a file as it stands in a part.
fn push_escaped(body: &mut Vec<u8>, line: &[u8]) -> Result<(), AllocError>
    ensures { OnOk result (body.new.items ≡ body.old.items ++ escaped line.now) }
{
    if line.starts_with(b"@") {
        body.push(b'@')?;
    }
    body.extend_from_slice(line)
}

/// Ends the last line of bytes, if it is not ended.
fn end_line(bytes: &mut Vec<u8>, start: usize) -> Result<(), AllocError>
    requires { start ≤ length bytes.old.items }
    ensures { OnOk result (bytes.new.items ≡ take start bytes.old.items ++ ended (drop start bytes.old.items)) }
{
    if bytes.len() > start && !bytes[start..].ends_with(b"\n") {
        bytes.push(b'\n')?;
    }
    Ok(())
}

/// Writes each line of a file anew, as it stands in a part.
fn rewrite(alloc: Global, bytes: &mut Vec<u8>, start: usize) -> Result<(), AllocError>
    requires { start ≤ length bytes.old.items }
    ensures { OnOk result (bytes.new.items ≡ take start bytes.old.items ++ all_escaped (drop start bytes.old.items)) }
{
    let file = bytes[start..].to_vec(alloc)?;
    bytes.truncate(start);
    let mut rest = file.as_slice();
    while !rest.is_empty() {
        let (line, below) = first_line(rest);
        push_escaped(bytes, line)?;
        rest = below;
    }
    Ok(())
}

/// Makes the bytes from a place on, which are those of a file, the lines of a part. After a refusal of memory they may be anything. Takes
/// O(n) for n bytes, and memory for them where a line begins with `@`.
pub fn lines_of_part(alloc: Global, bytes: &mut Vec<u8>, start: usize) -> Result<(), AllocError>
    requires { start ≤ length bytes.old.items }
    ensures { OnOk result (bytes.new.items ≡ take start bytes.old.items ++ body_of_file (drop start bytes.old.items)) }
{
    if plain_len(&bytes[start..]) < bytes.len() - start {
        rewrite(alloc, bytes, start)?;
    }
    end_line(bytes, start)
}

/// A law of the definitions: what is read of a part whose lines stand in a file is what the file holds, whatever that is.
pub fn files_are_read_as_they_are()
    ensures { (file : List ℕ) → IsReadAsItIs file }
{}
