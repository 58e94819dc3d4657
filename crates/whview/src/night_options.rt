//! Says how a night is run, and what is printed of it.

ghost use Rattle.std.specs.Prelude.{◌≤◌};

/// The choice of what is printed of the derived views of a night that is carried out.
#[derive(Clone, Copy)]
pub enum Printed {
    /// The new table of each derived view.
    Tables,
    /// The change of each derived view: how often more a row counts than before, or with a sign how often less.
    Changes,
}

/// The way in which a night is run, and what is printed of it: its workers, the readers beside it, and the rows that one of its operations
/// writes.
#[derive(Clone, Copy)]
pub struct NightOptions {
    /// The number of workers that draw jobs, 1 to 16.
    pub workers: usize,
    /// The number of readers that go through the tables of before meanwhile, 0 to 16.
    pub readers: usize,
    /// The most rows of a view that one operation writes, 1 to 256.
    pub page_keys: usize,
    /// The tables or the changes that are printed of the derived views.
    pub print: Printed,
    ghost some: { 1 ≤ workers },
    ghost few: { workers ≤ 16 },
    ghost seats: { readers ≤ 16 },
    ghost least: { 1 ≤ page_keys },
    ghost most: { page_keys ≤ 256 },
}
