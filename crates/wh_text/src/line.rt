//! Cuts bytes into lines, each after its LF, as all texts have them.
ghost use Rattle.std.specs.Prelude.{◌≡◌, ◌+◌, ◌<◌, ◌≤◌, ◌∷◌, length, take, drop};
ghost use Rattle.wh_text.specs.Line.{whole_lines, without_lf, is_blank};

use memchr::memchr;

/// Returns the length of the first line, with its LF.
fn line_len(text: &[u8]) -> usize
    requires { 0 < length text.now }
    ensures some { 0 < result }
    ensures within { result ≤ length text.now }
    ensures lines { whole_lines text.now ≡ take result text.now ∷ whole_lines (drop result text.now) }
{
    match memchr(b'\n', text) {
        Some(place) => place + 1,
        None => text.len(),
    }
}

/// Cuts off the first line: returns it with its LF, and what stands below it. Takes O(n) for n bytes of that line.
pub fn first_line(text: &[u8]) -> (&[u8], &[u8])
    requires { 0 < length text.now }
    ensures some { 0 < length result.0.now }
    ensures shorter { length result.0.now + length result.1.now ≡ length text.now }
    ensures line { result.0.now ≡ take (length result.0.now) text.now }
    ensures below { result.1.now ≡ drop (length result.0.now) text.now }
    ensures lines { whole_lines text.now ≡ result.0.now ∷ whole_lines result.1.now }
{
    text.split_at(line_len(text))
}

/// Returns the line without the LF that ends it.
pub fn without_lf(line: &[u8]) -> &[u8]
    ensures { result.now ≡ without_lf line.now }
{
    if line.ends_with(b"\n") {
        &line[..line.len() - 1]
    } else {
        line
    }
}

/// Returns whether the byte is a blank: a space or a tab.
pub fn is_blank(byte: u8) -> bool
    ensures { result ≡ is_blank byte }
{
    byte == b' ' || byte == b'\t'
}
