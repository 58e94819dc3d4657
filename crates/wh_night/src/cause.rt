//! Names why a night is refused.

ghost use Rattle.std.specs.Prelude.{◌≡◌};
ghost use Rattle.wh_night.specs.Causes.{cause_number, cause_of};

use wh_maint::{MaintFault, NamedRow};
use wh_store::PublishFault;

/// The reasons for which a night is refused.
#[derive(Drop)]
pub enum NightCause {
    /// Memory was refused.
    Memory,
    /// A count of this view would leave i64 or a sum i128, or there are too many combined rows.
    Large(usize),
    /// A value or a sum of this view leaves i64.
    Range(usize),
    /// The change of this base view takes more of the row than there is.
    Absent(usize, NamedRow),
    /// A night is open.
    NightOpen,
    /// The current version has the last number, 2^64 - 1.
    LastVersion,
    /// An operation is held, and has to go out first.
    Held,
}

impl NightCause {
    /// Returns the cause's number, from 1.
    pub fn number(&self) -> u8
        ensures { result ≡ cause_number self.now }
    {
        match self {
            NightCause::Memory => 1,
            NightCause::Large(_) => 2,
            NightCause::Range(_) => 3,
            NightCause::Absent(_, _) => 4,
            NightCause::NightOpen => 5,
            NightCause::LastVersion => 6,
            NightCause::Held => 7,
        }
    }

    /// Returns the cause that a fault of carrying out is.
    pub(crate) fn of(fault: MaintFault) -> NightCause
        ensures { result ≡ cause_of fault }
    {
        match fault {
            MaintFault::Memory => NightCause::Memory,
            MaintFault::Large(view) => NightCause::Large(view),
            MaintFault::Range(view) => NightCause::Range(view),
            MaintFault::Absent(view, row) => NightCause::Absent(view, row),
        }
    }
}
