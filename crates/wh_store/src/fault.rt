//! Names why a store refuses an operation.

ghost use Rattle.std.specs.Prelude.{◌≡◌};
ghost use Rattle.wh_store.specs.Refusals.{fault_number};

use std::alloc::{AllocError, AllocFailed};

/// The reasons for which an operation is refused: it is the first that holds, in this order. Memory may come at any point at which it is
/// taken. The store is as it was.
#[derive(Clone, Copy, Debug, PartialEq, Eq)]
pub enum StoreFault {
    /// A night begins where one is open.
    NightOpen,
    /// No night is open.
    NoNight,
    /// There is no view of this number.
    NoView,
    /// The rows to be written are not 1 to 256, rising, with counts of 0 and above.
    BadPage,
    /// The current version has the last number, 2^64 - 1.
    LastVersion,
    /// Memory was refused.
    Memory,
}

impl StoreFault {
    /// Returns the refusal's number, from 1, in the order of the variants.
    pub fn number(self) -> u8
        ensures { result ≡ fault_number self }
    {
        match self {
            StoreFault::NightOpen => 1,
            StoreFault::NoNight => 2,
            StoreFault::NoView => 3,
            StoreFault::BadPage => 4,
            StoreFault::LastVersion => 5,
            StoreFault::Memory => 6,
        }
    }
}

impl From<AllocError> for StoreFault {
    ghost use Rattle.wh_store.specs.declared.fault.StoreFault.TheVariants.{Memory};

    ghost from_gives = { λ _ fault. fault ≡ Memory };

    fn from(_error: AllocError) -> StoreFault {
        StoreFault::Memory
    }
}

impl<T: Drop> From<AllocFailed<T>> for StoreFault {
    ghost use Rattle.wh_store.specs.declared.fault.StoreFault.TheVariants.{Memory};

    ghost from_gives = { λ _ fault. fault ≡ Memory };

    fn from(_error: AllocFailed<T>) -> StoreFault {
        StoreFault::Memory
    }
}
