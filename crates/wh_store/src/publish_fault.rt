//! Names why an operation is not published.

ghost use Rattle.std.specs.Prelude.{◌≡◌};
ghost use Rattle.wh_store.specs.Faults.{fault_number, fault_of};

use crate::fault::StoreFault;

/// The reasons for which an operation is not published: [`PublishFault::Held`] first, then the first of a store's reasons. Memory may come
/// at any point at which it is taken. Nothing is published.
#[derive(Clone, Copy, Debug, PartialEq, Eq)]
pub enum PublishFault {
    /// A night begins where one is open.
    NightOpen,
    /// No night is open.
    NoNight,
    /// There is no view of this number.
    NoView,
    /// The rows to be written are not 1 to 256, rising, with counts of 0 and above.
    BadPage,
    /// The current version has the last number, 2^64 - 1.
    LastVersion,
    /// An earlier operation is held, and has to go out first.
    Held,
    /// Memory was refused. Where `held` is true the operation waits, else it is dropped.
    Memory { held: bool },
}

impl PublishFault {
    /// Returns the refusal's number, from 1.
    pub fn number(self) -> u8
        ensures { result ≡ fault_number self }
    {
        match self {
            PublishFault::NightOpen => 1,
            PublishFault::NoNight => 2,
            PublishFault::NoView => 3,
            PublishFault::BadPage => 4,
            PublishFault::LastVersion => 5,
            PublishFault::Held => 6,
            PublishFault::Memory { held: _ } => 7,
        }
    }

    /// Makes a store's refusal the one that a writer answers.
    pub fn of_store(fault: StoreFault) -> PublishFault
        ensures { result ≡ fault_of fault }
    {
        match fault {
            StoreFault::NightOpen => PublishFault::NightOpen,
            StoreFault::NoNight => PublishFault::NoNight,
            StoreFault::NoView => PublishFault::NoView,
            StoreFault::BadPage => PublishFault::BadPage,
            StoreFault::LastVersion => PublishFault::LastVersion,
            StoreFault::Memory => PublishFault::Memory { held: false },
        }
    }
}
