//! Names why a view's rows were not computed.

ghost use Rattle.std.specs.Prelude.{◌≡◌};
ghost use Rattle.wh_maint.specs.Fault.{fault_number, fault_of};
ghost use Rattle.wh_maint.specs.Inner.Fault.{bag_fault_of};

use std::alloc::{AllocError, AllocFailed};
use std::marker::Model;
use wh_row::{BagFault, Row};

/// A row that a fault names.
#[derive(Drop)]
pub struct NamedRow {
    row: Row,
}

impl Model for NamedRow {
    ghost use Rattle.std.specs.Prelude.{List, ℤ};

    ghost Value = { List ℤ };

    ghost view = { λ r. r.row.items };
}

impl NamedRow {
    /// Makes the name of the row.
    pub fn new(row: Row) -> NamedRow
        ensures { result ≡ row.items }
    {
        NamedRow { row }
    }

    /// Returns the row's cells.
    pub fn cells(&self) -> &[i64]
        ensures { result.now ≡ self.now }
    {
        self.row.as_slice()
    }
}

/// The reasons for which a view's rows are not computed.
#[derive(Drop)]
pub enum MaintFault {
    /// A count of this view would leave i64 or a sum i128, or there are too many combined rows.
    Large(usize),
    /// A value or a sum of this view leaves i64.
    Range(usize),
    /// Memory was refused.
    Memory,
    /// A change of this view takes more of the row than there is.
    Absent(usize, NamedRow),
}

impl MaintFault {
    /// Returns the refusal's number, from 1, in the order of the variants.
    pub fn number(&self) -> u8
        ensures { result ≡ fault_number self.now }
    {
        match self {
            MaintFault::Large(_) => 1,
            MaintFault::Range(_) => 2,
            MaintFault::Memory => 3,
            MaintFault::Absent(_, _) => 4,
        }
    }

    /// Returns the fault of the view whose bag was not changed. It is no `From`, as a bag's fault does not tell the view.
    pub(crate) fn of_bag(fault: BagFault, view: usize) -> MaintFault
        ensures { result ≡ bag_fault_of view fault }
    {
        match fault {
            BagFault::Memory => MaintFault::Memory,
            BagFault::Large => MaintFault::Large(view),
        }
    }
}

impl From<AllocError> for MaintFault {
    ghost use Rattle.wh_maint.specs.declared.fault.MaintFault.TheVariants.{Memory};

    ghost from_gives = { λ _ fault. fault ≡ Memory };

    fn from(_error: AllocError) -> MaintFault {
        MaintFault::Memory
    }
}

/// Why combined rows were not added up.
#[derive(Clone, Copy)]
pub(crate) enum RowFault {
    /// Memory was refused.
    Memory,
    /// A combined row that passes has an expression without a value.
    Range,
}

impl From<AllocError> for RowFault {
    ghost use Rattle.wh_maint.specs.declared.fault.RowFault.TheVariants.{Memory};

    ghost from_gives = { λ _ fault. fault ≡ Memory };

    fn from(_error: AllocError) -> RowFault {
        RowFault::Memory
    }
}

impl<T: Drop> From<AllocFailed<T>> for RowFault {
    ghost use Rattle.wh_maint.specs.declared.fault.RowFault.TheVariants.{Memory};

    ghost from_gives = { λ _ fault. fault ≡ Memory };

    fn from(_error: AllocFailed<T>) -> RowFault {
        RowFault::Memory
    }
}

impl RowFault {
    /// Returns the fault of the view. It is no `From`, as this does not tell the view.
    pub(crate) fn of(self, view: usize) -> MaintFault
        ensures { result ≡ fault_of view self }
    {
        match self {
            RowFault::Memory => MaintFault::Memory,
            RowFault::Range => MaintFault::Range(view),
        }
    }
}
