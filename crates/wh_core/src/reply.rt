//! Names what an event is answered.

ghost use Rattle.std.specs.Prelude.{◌≡◌};
ghost use Rattle.wh_core.specs.Replies.{cause_of};

use wh_maint::MaintFault;
use wh_store::Page as Rows;

/// The answer to an event. An event that is refused changes nothing.
#[derive(Drop)]
pub enum Reply {
    /// The night has begun.
    Begun,
    /// The worker has drawn the job of this number, from 0, of the wave.
    Job(usize),
    /// The job is done.
    Done,
    /// So many rows were put.
    Paged(usize),
    /// The night is over, and this is the current version.
    Version(u64),
    /// The session is of this version.
    Session(u64),
    /// The rows that the desk read, as a page.
    Page(Rows),
    /// The session is closed.
    Closed,
    /// The event was refused.
    Refused(Cause),
}

/// The reasons for which an event is refused.
#[derive(Clone, Copy, Debug, PartialEq, Eq)]
pub enum Cause {
    /// The desk has no session.
    NoSession,
    /// The desk has a session already.
    SessionOpen,
    /// The session's version, the first of these numbers, can be read no more; the second is the current one, and the flag
    /// says whether a night is open.
    Expired(u64, u64, bool),
    /// There is no view of this number.
    NoView,
    /// Memory was refused.
    Memory,
    /// There is no desk of this number.
    NoDesk,
    /// There is no worker of this number.
    NoWorker,
    /// The page is not of 1 to 256 rows.
    Limit,
    /// A night is open.
    NightOpen,
    /// No night is open; for a Begin, no night is left.
    NoNight,
    /// No page, or no commit, is in turn.
    NotReady,
    /// There is no job to draw.
    NoJob,
    /// The worker has a job already.
    Busy,
    /// The worker has no job.
    Idle,
    /// A number of rows leaves its range.
    Large,
    /// A formula has no value, or a sum leaves its range.
    Range,
    /// A base change takes away what is not there.
    Absent,
    /// The numbers of versions are used up.
    LastVersion,
}

/// Returns the cause that a fault of carrying out is answered by.
pub(crate) fn cause_of(fault: &MaintFault) -> Cause
    ensures { result ≡ cause_of fault.now }
{
    match fault {
        MaintFault::Large(_) => Cause::Large,
        MaintFault::Range(_) => Cause::Range,
        MaintFault::Memory => Cause::Memory,
        MaintFault::Absent(_, _) => Cause::Absent,
    }
}
