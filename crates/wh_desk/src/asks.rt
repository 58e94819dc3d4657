//! Names what a reader asks of its desk, and what it is answered.

use crate::chair::DeskFault;
use wh_store::Page;

/// The things that a reader asks of its desk. Views are numbered from 0; a page has 1 to 256 rows at most.
#[derive(Clone, Copy, Debug, PartialEq, Eq)]
pub enum Ask {
    /// A new session, of the current version.
    Open,
    /// The next page of this view, of at most so many rows. It begins behind the last row of the page before it, where that was of the same
    /// view and more rows follow, else with the first row.
    Page(usize, usize),
    /// Page after page of this view, of at most so many rows each, up to its last one. The pages are not kept.
    Rest(usize, usize),
    /// The end of the session.
    Close,
}

/// The answers that a reader gets.
#[derive(Drop)]
pub enum Answer {
    /// The session was opened, and is of this version.
    Session(u64),
    /// The page that was asked for.
    Page(Page),
    /// The number of rows that the pages up to the last one had together.
    Rows(usize),
    /// The session is closed.
    Closed,
    /// There is no answer; of a view that was to be read to its end, no further one.
    Refused(DeskFault),
}
