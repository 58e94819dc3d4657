//! Names what can happen to a warehouse.

/// The events of a warehouse. Workers, desks and views are numbered from 0.
#[derive(Clone, Copy, Debug)]
pub enum Event {
    /// The next night begins.
    Begin,
    /// The worker draws a job of the wave.
    Take(usize),
    /// The worker has done the job that it drew.
    Done(usize),
    /// The next page of the change that is being installed is put.
    PageIn,
    /// The night ends by a new version.
    Commit,
    /// The night ends without one.
    GiveUp,
    /// The desk opens a session of the current version.
    Open(usize),
    /// The desk reads on in the view, at most so many rows.
    Read(usize, usize, usize),
    /// The desk closes its session.
    Close(usize),
}
