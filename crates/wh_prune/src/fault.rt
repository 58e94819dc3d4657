//! Why a search has no plan, with what it found until then.

ghost use Rattle.std.specs.Prelude.{◌≡◌};
ghost use Rattle.wh_prune.specs.Fault.{fault_number};

use std::alloc::{AllocError, AllocFailed};

/// Why a search has no plan.
#[derive(Debug, Clone, Copy, PartialEq, Eq)]
pub enum PruneFault {
    /// The budget was spent.
    Budget {
        /// How many nodes were opened: as many as the budget says.
        opened: u64,
        /// The least work of the one-way strategies that were found.
        best: u128,
    },
    /// Memory was refused.
    Memory,
}

impl PruneFault {
    /// Returns the refusal's number, from 1.
    pub fn number(&self) -> u8
        ensures { result ≡ fault_number self.now }
    {
        match self {
            PruneFault::Budget { .. } => 1,
            PruneFault::Memory => 2,
        }
    }
}

impl From<AllocError> for PruneFault {
    ghost use Rattle.wh_prune.specs.declared.fault.PruneFault.TheVariants.{Memory};

    ghost from_gives = { λ _ e. e ≡ Memory };

    fn from(_e: AllocError) -> PruneFault {
        PruneFault::Memory
    }
}

impl<T: Drop> From<AllocFailed<T>> for PruneFault {
    ghost use Rattle.wh_prune.specs.declared.fault.PruneFault.TheVariants.{Memory};

    ghost from_gives = { λ _ e. e ≡ Memory };

    fn from(_e: AllocFailed<T>) -> PruneFault {
        PruneFault::Memory
    }
}
