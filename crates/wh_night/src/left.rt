//! Tells what a refused night leaves.

use crate::NightCause;

/// The ways in which a refused night leaves what is published.
#[derive(Clone, Copy, Debug, PartialEq, Eq)]
pub enum Aftermath {
    /// Nothing was published.
    Untouched,
    /// A beginning of the night was published, and given up.
    GivenUp,
    /// A give-up was asked for, and refused for want of memory: it, or an operation before it, may be held, or the night is open still. It
    /// can be given up again.
    StillOpen,
}

/// The reason why a night was refused, and what it leaves.
#[derive(Drop)]
pub struct NightFault {
    /// The reason of the refusal.
    pub cause: NightCause,
    /// The state of what was published.
    pub left: Aftermath,
}
