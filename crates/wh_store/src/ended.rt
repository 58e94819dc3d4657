//! Tells how a night ended that was to be given up.

/// The ways in which a night ends that was to be given up.
#[derive(Clone, Copy, Debug, PartialEq, Eq)]
pub enum Ended {
    /// The night's commit was held, and went out.
    Committed,
    /// The night was given up.
    GivenUp,
    /// No night was open.
    NoneOpen,
}
