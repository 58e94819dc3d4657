//! Reads what one line asks for.

ghost use Rattle.std.specs.Prelude.{◌≡◌, ℕ, List, [], ◌∷◌, map, false, IfOk};
ghost use Rattle.wh_live.specs.Requests.{asked_by, behind_words, cells_in, event_request, is_asked, is_end, lone_request, page_after_request, page_request, request_of};

use std::alloc::{AllocError, Global};
use wh_text::Names;
use wh_text::line::is_blank;
use wh_text_lines::{ScheduledEvent, event_of, words_of};

/// The things that a line may ask for.
#[derive(Debug, Clone, Copy, PartialEq, Eq)]
pub enum Request {
    /// A night, whose parts stand in the lines below, down to the line `@end`.
    Night,
    /// An event, as a schedule writes it: the end of a night, or what a desk does.
    Event(ScheduledEvent),
    /// The first rows of a view.
    Page {
        /// The desk, in whose session they are read.
        desk: usize,
        /// The number of the view, or `None` where the name is no view's.
        view: Option<usize>,
        /// The most rows that are asked for.
        limit: usize,
    },
    /// The first rows of a view behind the row whose cells stand in the rest of the line.
    PageAfter {
        /// The desk, in whose session they are read.
        desk: usize,
        /// The number of the view, or `None` where the name is no view's.
        view: Option<usize>,
        /// The most rows that are asked for.
        limit: usize,
    },
    /// How many rows all tables have.
    Tables,
    /// What the open night changes.
    Changes,
    /// The end of all commands.
    Quit,
    /// A thing that is not known.
    Unknown,
}

/// Tells whether an event of a schedule is asked for by itself.
fn is_asked(event: &ScheduledEvent) -> bool
    ensures { result ≡ is_asked event.now }
{
    match event {
        ScheduledEvent::Commit
        | ScheduledEvent::GiveUp
        | ScheduledEvent::Open { .. }
        | ScheduledEvent::Read { .. }
        | ScheduledEvent::Close { .. } => true,
        _ => false,
    }
}

/// Returns what asks for an event, if there is one.
fn event_request(event: Option<ScheduledEvent>) -> Request
    ensures { result ≡ event_request event }
{
    match event {
        Some(event) => {
            if is_asked(&event) {
                Request::Event(event)
            } else {
                Request::Unknown
            }
        }
        None => Request::Unknown,
    }
}

/// Returns what asks for a page, where a read of the same desk, view and limit is known.
fn page_request(read: Option<ScheduledEvent>) -> Request
    ensures { result ≡ page_request read }
{
    match read {
        Some(ScheduledEvent::Read { desk, view, limit }) => Request::Page { desk, view, limit },
        _ => Request::Unknown,
    }
}

/// Returns what asks for a page behind a row, where a read of the same desk, view and limit is known.
fn page_after_request(read: Option<ScheduledEvent>) -> Request
    ensures { result ≡ page_after_request read }
{
    match read {
        Some(ScheduledEvent::Read { desk, view, limit }) => {
            Request::PageAfter { desk, view, limit }
        }
        _ => Request::Unknown,
    }
}

/// Returns what a word by itself asks for.
fn lone_request(names: &Names, word: &[u8]) -> Request
    ensures { result ≡ lone_request names.now word.now }
{
    if word == b"night".as_slice() {
        Request::Night
    } else if word == b"quit".as_slice() {
        Request::Quit
    } else if word == b"tables".as_slice() {
        Request::Tables
    } else if word == b"changes".as_slice() {
        Request::Changes
    } else {
        event_request(event_of(names, &[word]))
    }
}

/// Returns what four words ask for.
fn request_of_four(names: &Names, first: &[u8], desk: &[u8], view: &[u8], limit: &[u8]) -> Request
    ensures { result ≡ request_of names.now (first.now ∷ desk.now ∷ view.now ∷ limit.now ∷ []) }
{
    if first == b"page".as_slice() {
        page_request(event_of(names, &[b"read".as_slice(), desk, view, limit]))
    } else {
        event_request(event_of(names, &[first, desk, view, limit]))
    }
}

/// Returns what five words ask for, whatever follows them.
fn request_of_more(
    names: &Names,
    first: &[u8],
    desk: &[u8],
    view: &[u8],
    limit: &[u8],
    fifth: &[u8],
) -> Request
    ensures { (more : List (List ℕ)) → result ≡ request_of names.now (first.now ∷ desk.now ∷ view.now ∷ limit.now ∷ fifth.now ∷ more) }
{
    if first != b"page".as_slice() {
        return Request::Unknown;
    }
    if fifth != b"after".as_slice() {
        return Request::Unknown;
    }
    page_after_request(event_of(names, &[b"read".as_slice(), desk, view, limit]))
}

/// Returns what these words ask for, over views of these names: `night`, `quit`, `tables`, `changes`, `page D VIEW LIMIT`, `page D VIEW LIMIT after`
/// with whatever follows, or `commit`, `giveup`, `open D`, `read D VIEW LIMIT` and `close D`, as a schedule has them.
pub fn request_of(names: &Names, words: &[&[u8]]) -> Request
    ensures { result ≡ request_of names.now (map (λ word. word.now) words.now) }
{
    match words {
        [first] => lone_request(names, *first),
        [first, desk, view, limit] => request_of_four(names, *first, *desk, *view, *limit),
        [first, desk, view, limit, fifth, ..] => {
            request_of_more(names, *first, *desk, *view, *limit, *fifth)
        }
        _ => event_request(event_of(names, words)),
    }
}

/// Returns what a line asks for: nothing where it has no words. Memory is wanted for the list of its words.
pub(crate) fn asked_by(
    alloc: Global,
    names: &Names,
    line: &[u8],
) -> Result<Option<Request>, AllocError>
    ensures { IfOk result (λ asked. asked ≡ asked_by names.now line.now) }
{
    let words = words_of(alloc, line)?;
    if words.is_empty() {
        return Ok(None);
    }
    Ok(Some(request_of(names, &words)))
}

/// Tells whether the line ends the parts of a night.
pub(crate) fn is_end(line: &[u8]) -> bool
    ensures { result ≡ is_end line.now }
{
    line == b"@end".as_slice()
}

/// Returns what stands behind so many words of a line and the one blank that ends the last of them.
fn behind_words(line: &[u8], words: usize) -> &[u8]
    ensures { result.now ≡ behind_words words false line.now }
{
    let mut left = words;
    let mut begun = false;
    for place in 0..line.len() {
        if left == 0 {
            return &line[place..];
        }
        let blank = is_blank(line[place]);
        if blank && begun {
            left -= 1;
        }
        begun = !blank;
    }
    b""
}

/// Returns the cells that a line names behind `page D VIEW LIMIT after`.
pub(crate) fn cells_in(line: &[u8]) -> &[u8]
    ensures { result.now ≡ cells_in line.now }
{
    behind_words(line, 5)
}
