//! The events of a schedule, and how each is read from a line.
ghost use Rattle.std.specs.Prelude.{◌≡◌, map};
ghost use Rattle.wh_text_lines.specs.ScheduleLine.{event_of, lone_event, numbered_event, read_event};

use crate::natural::number_within;
use wh_text::Names;

/// The greatest number of a desk, a worker or a limit.
const MOST: usize = 1_000_000;

/// An event of a schedule. Desks and workers count from 0, and need not be there.
#[derive(Debug, Clone, Copy, PartialEq, Eq)]
pub enum ScheduledEvent {
    /// The next night opens.
    Begin,
    /// This worker draws the next job of the wave.
    Take {
        /// The worker.
        worker: usize,
    },
    /// This worker has finished its job.
    Done {
        /// The worker.
        worker: usize,
    },
    /// The next page of the Inst whose turn it is is put.
    Page,
    /// The new version becomes the current one.
    Commit,
    /// The night ends with the contents before it.
    GiveUp,
    /// This desk opens a session on the current version.
    Open {
        /// The desk.
        desk: usize,
    },
    /// This desk reads on in a view.
    Read {
        /// The desk.
        desk: usize,
        /// The number of the view, or `None` where the name is no view's.
        view: Option<usize>,
        /// The most rows that it asks for.
        limit: usize,
    },
    /// This desk ends its session.
    Close {
        /// The desk.
        desk: usize,
    },
}

/// Returns the event that this word says by itself.
fn lone_event(word: &[u8]) -> Option<ScheduledEvent>
    ensures { result ≡ lone_event word.now }
{
    if word == b"begin".as_slice() {
        Some(ScheduledEvent::Begin)
    } else if word == b"page".as_slice() {
        Some(ScheduledEvent::Page)
    } else if word == b"commit".as_slice() {
        Some(ScheduledEvent::Commit)
    } else if word == b"giveup".as_slice() {
        Some(ScheduledEvent::GiveUp)
    } else {
        None
    }
}

/// Returns the event of this word and this number.
fn numbered_event(word: &[u8], number: usize) -> Option<ScheduledEvent>
    ensures { result ≡ numbered_event word.now number }
{
    if word == b"take".as_slice() {
        Some(ScheduledEvent::Take { worker: number })
    } else if word == b"done".as_slice() {
        Some(ScheduledEvent::Done { worker: number })
    } else if word == b"open".as_slice() {
        Some(ScheduledEvent::Open { desk: number })
    } else if word == b"close".as_slice() {
        Some(ScheduledEvent::Close { desk: number })
    } else {
        None
    }
}

/// Returns the event `read D VIEW LIMIT`, of these words below the first.
fn read_event(names: &Names, desk: &[u8], view: &[u8], limit: &[u8]) -> Option<ScheduledEvent>
    ensures { result ≡ read_event names.now desk.now view.now limit.now }
{
    Some(ScheduledEvent::Read {
        desk: number_within(0, MOST, desk)?,
        view: names.position(view),
        limit: number_within(0, MOST, limit)?,
    })
}

/// Returns the event that a line of these words says over these views, or `None` where it says none.
pub fn event_of(names: &Names, words: &[&[u8]]) -> Option<ScheduledEvent>
    ensures { result ≡ event_of names.now (map (λ word. word.now) words.now) }
{
    match words {
        [first] => lone_event(*first),
        [first, number] => numbered_event(*first, number_within(0, MOST, *number)?),
        [first, desk, view, limit] if *first == b"read".as_slice() => {
            read_event(names, *desk, *view, *limit)
        }
        _ => None,
    }
}
