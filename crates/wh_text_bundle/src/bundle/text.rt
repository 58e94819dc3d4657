//! The text that a part's bytes stand for, which is most often these bytes.
ghost use Rattle.std.specs.Prelude.{◌≡◌, ◌+◌, ◌<◌, ◌≤◌, ◌++◌, IsTrue, IfOk, OnOk, IsOkAnd, length, take, drop, false};
ghost use Rattle.std.specs.Cow.{cow_slice_items, IsBorrowedSlice};
ghost use Rattle.wh_text_bundle.specs.Text.{body_text, line_text};

use super::line::{has_cr, is_escaped, plain_len};
use std::alloc::{AllocError, Global};
use std::borrow::CowSlice;
use wh_text::line::first_line;

/// Returns whether the line stands for itself.
fn is_kept(line: &[u8], csv: bool) -> bool
    ensures kept { IsTrue result → line_text csv line.now ≡ line.now }
    ensures changed { result ≡ false → length (line_text csv line.now) < length line.now }
{
    !is_escaped(line) && (csv || !has_cr(line))
}

/// Returns the length of the lines above the first that begins with an `@`, in CSV alone, which may be long; else 0.
fn plain_csv_len(body: &[u8], csv: bool) -> usize
    ensures within { result ≤ length body.now }
    ensures text { body_text csv body.now ≡ take result body.now ++ body_text csv (drop result body.now) }
{
    if csv { plain_len(body) } else { 0 }
}

/// Returns the length of the lines above the first that does not stand for itself.
fn kept_len(body: &[u8], csv: bool) -> usize
    ensures within { result ≤ length body.now }
    ensures text { body_text csv body.now ≡ take result body.now ++ body_text csv (drop result body.now) }
    ensures changed { result < length body.now → length (body_text csv body.now) < length body.now }
{
    let mut at = 0;
    while at < body.len() {
        let (line, below) = first_line(&body[at..]);
        if !is_kept(line, csv) {
            return at;
        }
        at += line.len() + plain_csv_len(below, csv);
    }
    at
}

/// Adds what a line stands for.
fn push_line(text: &mut Vec<u8>, line: &[u8], csv: bool) -> Result<(), AllocError>
    ensures { OnOk result (text.new.items ≡ text.old.items ++ line_text csv line.now) }
{
    let line = if is_escaped(line) { &line[1..] } else { line };
    if !csv && has_cr(line) {
        text.extend_from_slice(&line[..line.len() - 2])?;
        text.push(b'\n')?;
    } else {
        text.extend_from_slice(line)?;
    }
    Ok(())
}

/// Builds the text of a body anew.
fn written(alloc: Global, body: &[u8], kept: usize, csv: bool) -> Result<Vec<u8>, AllocError>
    requires within { kept ≤ length body.now }
    requires text { body_text csv body.now ≡ take kept body.now ++ body_text csv (drop kept body.now) }
    ensures { IfOk result (λ text. text.items ≡ body_text csv body.now) }
{
    let mut text = Vec::with_capacity(alloc, body.len())?;
    text.extend_from_slice(&body[..kept])?;
    let mut rest = &body[kept..];
    while !rest.is_empty() {
        let (line, below) = first_line(rest);
        push_line(&mut text, line, csv)?;
        rest = below;
    }
    Ok(text)
}

/// Returns the text of a body, lent where it is the body itself.
pub fn body_text<'a>(
    alloc: Global,
    body: &'a [u8],
    csv: bool,
) -> Result<CowSlice<'a, u8>, AllocError>
    ensures text { IfOk result (λ text. cow_slice_items text ≡ body_text csv body.now) }
    ensures lent { body_text csv body.now ≡ body.now → IsOkAnd result IsBorrowedSlice }
{
    let kept = kept_len(body, csv);
    if kept == body.len() {
        return Ok(CowSlice::Borrowed(body));
    }
    let text = written(alloc, body, kept, csv)?;
    Ok(CowSlice::Owned(text))
}
