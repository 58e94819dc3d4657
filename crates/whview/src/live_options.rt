//! Says how large the machine of a warehouse that stays is.

ghost use Rattle.std.specs.Prelude.{◌≤◌};

/// The size of the machine of a warehouse that stays: its workers and desks, the versions that it keeps, and the rows that one of its
/// operations writes.
#[derive(Clone, Copy)]
pub struct LiveOptions {
    /// The number of workers, 1 to 16. As many threads open the warehouse.
    pub workers: usize,
    /// The number of desks, 1 to 16.
    pub desks: usize,
    /// The number of last versions of which sessions can be read, 2 to 4, and of one less while a night is open.
    pub versions: usize,
    /// The most rows of a view that one operation writes, 1 to 256.
    pub page_keys: usize,
    ghost some: { 1 ≤ workers },
    ghost few: { workers ≤ 16 },
    ghost some_desks: { 1 ≤ desks },
    ghost few_desks: { desks ≤ 16 },
    ghost some_versions: { 2 ≤ versions },
    ghost few_versions: { versions ≤ 4 },
    ghost least: { 1 ≤ page_keys },
    ghost most: { page_keys ≤ 256 },
}
