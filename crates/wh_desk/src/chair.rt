//! Keeps what a desk has, and names why it has no answer.

use crate::history::Told;
use crate::steps::RawReader;

/// The place of a desk: a reader of the store, the list that was seen or told, and the version of the session that is open.
#[derive(Drop)]
pub struct Chair {
    pub reader: RawReader,
    pub front: Told,
    pub session: Option<u64>,
}

/// The reasons for which a desk has no answer. It is the first that holds of [`DeskFault::NoSession`] or [`DeskFault::SessionOpen`],
/// [`DeskFault::Away`], [`DeskFault::Expired`] and [`DeskFault::NoView`]. Memory may come at any point of a read.
#[derive(Clone, Copy, Debug, PartialEq, Eq)]
pub enum DeskFault {
    /// The desk has no session.
    NoSession,
    /// The desk has a session already.
    SessionOpen,
    /// The session's version can be read no more.
    Expired {
        /// The session's version.
        version: u64,
        /// The current version.
        current: u64,
        /// Whether a night is open.
        active: bool,
    },
    /// There is no view of this number.
    NoView,
    /// Memory was refused.
    Memory,
    /// The store gave the desk no entry, as after the writer ended.
    Away,
}
