//! Says how large a machine is.

/// The size of a machine: its desks and workers, the rows of its pages, and the versions that can be read.
#[derive(Clone, Copy, Debug)]
pub struct MachineOptions {
    /// The number of desks, 1 to 16.
    pub desks: usize,
    /// The number of workers, 1 to 16.
    pub workers: usize,
    /// The most rows of a view that one operation writes, 1 to 256.
    pub page_keys: usize,
    /// The number of last versions of which sessions can be read, 2 to 4, and of one less while a night is open.
    pub versions: usize,
}
