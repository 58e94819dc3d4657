//! Finds where the text of a CSV part can be cut, so that its records are those of both sides.
//!
//! A line end outside of quotes ends a record. In a text without quotes each LF is one; in others the bytes are gone through as the `csv`
//! crate goes through them.

ghost use Rattle.std.specs.Prelude.{◌≡◌, ◌==◌, IfSome, get_or, true};
ghost use Rattle.csv.specs.Machine.{in_field, start_field, start_record, step};
ghost use Rattle.csv.specs.Reading.{default_config, is_bom, strip_bom};
ghost use Rattle.csv.specs.declared.parser.State.TheVariants.{StartRecord};
ghost use Rattle.wh_text_tables.specs.Inner.Cut.{EndsRecord, IsCut, state_of};

use memchr::memchr;

/// What the bytes gone through so far leave open.
#[derive(Clone, Copy)]
enum Standing {
    /// Nothing: a record begins.
    RecordStart,
    /// Nothing, behind a CR.
    AfterReturn,
    /// A field begins.
    FieldStart,
    /// A field without quotes, or what follows its quotes.
    Field,
    /// A field within its quotes.
    Quoted,
    /// A quote within quotes: they end here, or it stands for itself.
    Quote,
}

/// What a byte leaves open in a field outside of quotes.
fn in_field(byte: u8) -> Standing
    ensures { state_of result ≡ (in_field default_config byte).0 }
{
    match byte {
        b',' => Standing::FieldStart,
        b'\r' => Standing::AfterReturn,
        b'\n' => Standing::RecordStart,
        _ => Standing::Field,
    }
}

/// What it leaves open where a field begins.
fn start_field(byte: u8) -> Standing
    ensures { state_of result ≡ (start_field default_config byte).0 }
{
    match byte {
        b'"' => Standing::Quoted,
        _ => in_field(byte),
    }
}

/// What it leaves open where a record begins: an empty line is none.
fn start_record(byte: u8) -> Standing
    ensures { state_of result ≡ (start_record default_config byte).0 }
{
    match byte {
        b'\r' | b'\n' => Standing::RecordStart,
        _ => start_field(byte),
    }
}

impl Standing {
    /// Whether a record begins here.
    fn begins_record(self) -> bool
        ensures { result ≡ true → state_of self ≡ StartRecord }
    {
        match self {
            Standing::RecordStart => true,
            _ => false,
        }
    }

    /// What one byte more leaves open.
    fn after(self, byte: u8) -> Standing
        ensures { state_of result ≡ (step default_config (state_of self) byte).0 }
    {
        match self {
            Standing::RecordStart | Standing::AfterReturn => start_record(byte),
            Standing::FieldStart => start_field(byte),
            Standing::Field => in_field(byte),
            Standing::Quoted if byte == b'"' => Standing::Quote,
            Standing::Quote if byte != b'"' => in_field(byte),
            Standing::Quoted | Standing::Quote => Standing::Quoted,
        }
    }
}

/// The first end of a line from this place on, if no quote stands before it.
fn plain_end(text: &[u8], from: usize) -> Option<usize>
    ensures { IfSome result (λ place. EndsRecord text.now place) }
{
    if text.len() <= from {
        return None;
    }
    let line = memchr(b'\n', &text[from..])?;
    let end = from + line + 1;
    match memchr(b'"', &text[..end]) {
        Some(_) => None,
        None => Some(end),
    }
}

/// The first end of a record from this place on, where quotes are minded.
fn quoted_end(text: &[u8], from: usize) -> Option<usize>
    ensures { IfSome result (λ place. EndsRecord text.now place) }
{
    let mut standing = Standing::RecordStart;
    for place in 0..text.len() {
        standing = standing.after(text[place]);
        if from <= place && standing.begins_record() {
            return Some(place + 1);
        }
    }
    None
}

/// The first end of a record from this place on.
fn line_end(text: &[u8], from: usize) -> Option<usize>
    ensures { IfSome result (λ place. EndsRecord text.now place) }
{
    match plain_end(text, from) {
        Some(place) => Some(place),
        None => quoted_end(text, from),
    }
}

/// Whether the text begins as a byte order mark does.
fn begins_as_mark(text: &[u8]) -> bool
    ensures { result ≡ (get_or text.now 0 0 == 239) }
{
    match text.first() {
        Some(first) => *first == 0xEF,
        None => false,
    }
}

/// Whether these bytes are those of a byte order mark.
fn is_mark(first: u8, second: u8, third: u8) -> bool
    ensures { result ≡ is_bom first second third }
{
    first == 0xEF && second == 0xBB && third == 0xBF
}

/// Returns the text without a byte order mark at its start.
pub(crate) fn without_mark(text: &[u8]) -> &[u8]
    ensures { result.now ≡ strip_bom text.now }
{
    if text.len() < 3 {
        return text;
    }
    if is_mark(text[0], text[1], text[2]) {
        &text[3..]
    } else {
        text
    }
}

/// Finds a place behind this one where a record ends and the text can be cut. It is `None` where there is no such place, and at a byte
/// order
/// mark, which would be taken off.
pub(crate) fn record_end(text: &[u8], from: usize) -> Option<usize>
    ensures { IfSome result (λ place. IsCut text.now place) }
{
    if begins_as_mark(text) {
        return None;
    }
    let place = line_end(text, from)?;
    if begins_as_mark(&text[place..]) {
        return None;
    }
    Some(place)
}
