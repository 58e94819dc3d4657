//! Finite maps from rows to values, in rising order of the rows.
//!
//! The rows of a [`RowMap`] stand side by side in a few flat pieces. A piece has at most some hundred rows of one width, their cells in one
//! array and their values in another. A row is no object of its own, so rows are put in, looked up, walked through and copied without
//! following a pointer for each.
#![tactic(auto)]

mod bring;
mod bulk;
mod entries;
mod merge;
mod near;
mod piece;
mod pieces;

pub use entries::Entries;
pub use pieces::RowMap;

#[cfg(test)]
mod tests;
