//! Says how long a search may go on.

ghost use Rattle.std.specs.Prelude.{◌≤◌, ◌<◌, ◌^◌};

/// The number of nodes that a search may open, 1 to 2^63 - 1.
#[derive(Clone, Copy)]
pub struct Budget {
    /// The number of nodes.
    pub nodes: u64,
    ghost least: { 1 ≤ nodes },
    ghost most: { nodes < 2 ^ 63 },
}
