//! The lines of a bundle: those that open a part, and those that stand in one.
ghost use Rattle.std.specs.Prelude.{◌≡◌, ◌==◌, ◌||◌, ◌-◌, ◌<◌, ◌≤◌, ◌++◌, IsTrue, length, take, drop, slice_index};
ghost use Rattle.std.specs.List.{list_all};
ghost use Rattle.wh_text.specs.Line.{whole_lines};
ghost use Rattle.wh_text_bundle.specs.PartLine.{has_cr, without_end, is_blank_line, is_blank_text, is_escaped, is_plain, opens_part};

use memchr::memchr;
use wh_text::line::{first_line, is_blank, without_lf};

/// Returns whether the line ends in CR LF.
pub fn has_cr(line: &[u8]) -> bool
    ensures bound { IsTrue result → 2 ≤ length line.now }
    ensures value { result ≡ has_cr line.now }
{
    line.ends_with(b"\r\n")
}

/// Returns the line without its end: the LF, and a CR directly before it.
pub fn without_end(line: &[u8]) -> &[u8]
    ensures { result.now ≡ without_end line.now }
{
    if has_cr(line) {
        &line[..line.len() - 2]
    } else {
        without_lf(line)
    }
}

/// Returns whether the line has blanks alone before its end.
fn is_blank_line(line: &[u8]) -> bool
    ensures { result ≡ is_blank_line line.now }
{
    let content = without_end(line);
    content.iter().all(|byte| is_blank(*byte))
}

/// Returns whether each line has blanks alone.
pub fn is_blank_text(text: &[u8]) -> bool
    ensures { result ≡ is_blank_text text.now }
{
    let mut rest = text;
    while !rest.is_empty() {
        let (line, below) = first_line(rest);
        if !is_blank_line(line) {
            return false;
        }
        rest = below;
    }
    true
}

/// Returns whether the line begins with `
pub fn is_escaped(line: &[u8]) -> bool
    ensures { result ≡ is_escaped line.now }
{
    line.starts_with(b"@@")
}

/// Returns whether the line begins with one `@`.
pub fn opens_part(line: &[u8]) -> bool
    ensures { result ≡ opens_part line.now }
{
    line.starts_with(b"@") && !is_escaped(line)
}

/// Returns whether a line begins at the place.
fn begins_line(text: &[u8], place: usize) -> bool
    requires { place ≤ length text.now }
    ensures { result ≡ (place == 0 || slice_index text.now (place - 1) == 10) }
{
    place == 0 || text[place - 1] == b'\n'
}

/// Returns the length of the lines above the first that begins with an `@`. Most bytes have none, so it is they that are looked for.
pub fn plain_len(text: &[u8]) -> usize
    ensures within { result ≤ length text.now }
    ensures lines { whole_lines text.now ≡ whole_lines (take result text.now) ++ whole_lines (drop result text.now) }
    ensures plain { IsTrue (list_all is_plain (whole_lines (take result text.now))) }
    ensures marked { result < length text.now → IsTrue (slice_index text.now result == 64) }
{
    let mut at = 0;
    while let Some(gap) = memchr(b'@', &text[at..]) {
        let place = at + gap;
        if begins_line(text, place) {
            return place;
        }
        at = place + 1;
    }
    text.len()
}
