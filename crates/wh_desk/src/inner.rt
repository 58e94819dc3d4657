//! Holds what a writer has.

use crate::history::History;
use crate::kept::Publication;
use crate::steps::Raw;
use wh_store::Ended;

/// The two copies, the history, and what could not be handed over to the copies.
pub struct Inner {
    pub raw: Raw,
    pub history: History,
    pub held: Option<Publication>,
    /// The way in which the operation that waits, there or in the copies, ends the night; `None` where it does not.
    pub ends: Option<Ended>,
}
