//! Names what a writer does to a store.

ghost use Rattle.std.specs.Prelude.{◌≡◌, Option, None, option_map};
ghost use Rattle.wh_row.specs.Row.{Row as Cells};
ghost use Rattle.wh_row.specs.Stored.{plain};
ghost use Rattle.wh_store.specs.Pages.{count_no_less, is_page, is_row_after, rises_after};

use wh_row::Row;

/// The most rows that one operation writes.
pub const MAX_KEYS: usize = 256;

/// One operation of the writer.
#[derive(Drop)]
pub enum Op {
    /// A night begins: from here on the tables of the next version are written, beginning with those of the current one.
    Begin,
    /// Rows of this view get these counts in the next version: 1 to [`MAX_KEYS`] rows, rising, with counts of 0 and above; 0 for a row that
    /// leaves.
    Put(usize, Vec<(Row, i64)>),
    /// The night ends: what it wrote is the current version.
    Commit,
    /// The night ends: what it wrote is forgotten, and the next version has the tables of the one before.
    GiveUp,
}

/// Tells whether the row stands after this one, which every row does where there is none.
pub(crate) fn is_row_after(after: Option<&[i64]>, row: &[i64]) -> bool
    ensures { result ≡ is_row_after (option_map (λ before. before.now) after.entry) row.now }
{
    match after {
        Some(before) => before.cmp(row).is_lt(),
        None => true,
    }
}

/// Whether these rows rise.
fn rise(rows: &[(Row, i64)]) -> bool
    ensures { result ≡ rises_after None (plain rows.now) }
{
    let mut after: Option<&[i64]> = None;
    for (row, _) in rows {
        if !is_row_after(after, row.as_slice()) {
            return false;
        }
        after = Some(row.as_slice());
    }
    true
}

/// Whether no row's count is below zero.
fn count_no_less(rows: &[(Row, i64)]) -> bool
    ensures { result ≡ count_no_less (plain rows.now) }
{
    for (_, count) in rows {
        if *count < 0 {
            return false;
        }
    }
    true
}

/// Tells whether these are new counts that one operation may write.
pub(crate) fn is_page(rows: &[(Row, i64)]) -> bool
    ensures { result ≡ is_page (plain rows.now) }
{
    !rows.is_empty() && rows.len() <= MAX_KEYS && rise(rows) && count_no_less(rows)
}
