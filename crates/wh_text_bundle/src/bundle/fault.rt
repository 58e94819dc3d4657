//! Why a bundle is not read, and which nights are asked for.
ghost use Rattle.std.specs.Prelude.{◌≡◌};
ghost use Rattle.wh_text_bundle.specs.PartFault.{number_of_part_fault};
ghost use Rattle.wh_text_bundle.specs.declared.bundle.fault.PartFault.TheVariants.{Memory};

use std::alloc::{AllocError, AllocFailed};
use wh_text::Word;

/// What is read of the nights after the first.
#[derive(Clone, Copy, Debug, PartialEq, Eq)]
pub enum Nights {
    /// One night is read, and a further one is a fault.
    First,
    /// All are read, and a line that is not blank in a `@night` part is a fault.
    All,
    /// None is read, and any number of them may stand.
    Ignored,
}

/// Why a bundle is not read: the first fault from the top of its text.
#[derive(Debug, Drop)]
pub enum PartFault {
    /// A part is unknown, repeated or misplaced: the first word of its heading. It is `text` where the heading has none, and where a line
    /// above the first part is not blank.
    Part(Word),
    /// The list of parts or the word could not be stored.
    Memory,
}

impl PartFault {
    /// Returns the fault's number among the faults of an input.
    pub fn number(&self) -> u8
        ensures { result ≡ number_of_part_fault self.now }
    {
        match self {
            PartFault::Part(_) => 12,
            PartFault::Memory => 11,
        }
    }
}

impl From<AllocError> for PartFault {
    ghost from_gives = { λ _ e. e ≡ Memory };

    fn from(_error: AllocError) -> PartFault {
        PartFault::Memory
    }
}

impl<T: Drop> From<AllocFailed<T>> for PartFault {
    ghost from_gives = { λ _ e. e ≡ Memory };

    fn from(_error: AllocFailed<T>) -> PartFault {
        PartFault::Memory
    }
}
