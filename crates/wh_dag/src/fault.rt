//! What is wrong with a shape that is written by names, with what a message needs to say it.
ghost use Rattle.std.specs.Prelude.{◌≡◌};
ghost use Rattle.wh_dag.specs.Fault.{fault_number};

use crate::name::Name;
use std::alloc::{AllocError, AllocFailed};

/// Why a written shape was refused: its first fault. `view` is the number of the view at fault,
/// `name` that view's own name, and `child` the name of a child as it was written.
#[derive(Debug, Drop)]
pub enum ShapeFault {
    /// A view of a lower number has the same name.
    Duplicate { view: usize, name: Name },
    /// No view has the child's name.
    Unknown { view: usize, child: Name },
    /// The first view of the child's name is the view itself or a later one.
    Forward { view: usize, child: Name },
    /// The child's name stood earlier in the same list.
    Repeated { view: usize, child: Name },
    /// It is the 65th view, or it is over more than 6 views.
    TooMany { view: usize, name: Name },
    /// It is written as over other views, with none named.
    EmptyOver { view: usize, name: Name },
    /// An allocation was refused.
    Memory,
}

impl ShapeFault {
    /// Returns the refusal's number, from 1.
    pub fn number(&self) -> u8
        ensures { result ≡ fault_number self.now }
    {
        match self {
            ShapeFault::Duplicate { .. } => 1,
            ShapeFault::Unknown { .. } => 2,
            ShapeFault::Forward { .. } => 3,
            ShapeFault::Repeated { .. } => 4,
            ShapeFault::TooMany { .. } => 5,
            ShapeFault::EmptyOver { .. } => 6,
            ShapeFault::Memory => 7,
        }
    }
}

impl From<AllocError> for ShapeFault {
    ghost use Rattle.wh_dag.specs.declared.fault.ShapeFault.TheVariants.{Memory};

    ghost from_gives = { λ _ f. f ≡ Memory };

    fn from(_e: AllocError) -> ShapeFault {
        ShapeFault::Memory
    }
}

impl<T: Drop> From<AllocFailed<T>> for ShapeFault {
    ghost use Rattle.wh_dag.specs.declared.fault.ShapeFault.TheVariants.{Memory};

    ghost from_gives = { λ _ f. f ≡ Memory };

    fn from(_e: AllocFailed<T>) -> ShapeFault {
        ShapeFault::Memory
    }
}
