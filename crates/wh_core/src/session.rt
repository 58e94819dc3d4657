//! Keeps the session of a desk.

ghost use Rattle.std.specs.Prelude.{◌≡◌, ◌≢◌, [], option_map, IfOk, OnErr};
ghost use Rattle.wh_store.specs.Readers.{bookmark_after, goes_on};
ghost use Rattle.wh_core.specs.Standing.{bookmark_of};

use std::alloc::{AllocError, Global};
use wh_row::Row;
use wh_store::Page;

/// Where a desk goes on reading: in this view, after this row.
#[derive(Drop)]
pub(crate) struct Mark {
    view: usize,
    row: Row,
}

/// The version that a desk reads, and where it goes on.
#[derive(Drop)]
pub(crate) struct Seat {
    pub(crate) version: u64,
    pub(crate) mark: Option<Mark>,
}

/// Returns the row after which a read of the view goes on.
pub(crate) fn goes_on(view: usize, mark: &Option<Mark>) -> Option<&[i64]>
    ensures { option_map (λ row. row.now) result ≡ goes_on view (option_map bookmark_of mark.now) }
{
    match mark {
        Some(mark) if mark.view == view => Some(mark.row.as_slice()),
        _ => None,
    }
}

/// Returns the mark that a page of the view leaves. Memory is wanted for its last row alone.
pub(crate) fn mark_after(
    alloc: Global,
    view: usize,
    page: &Page,
) -> Result<Option<Mark>, AllocError>
    ensures mark { IfOk result (λ mark. option_map bookmark_of mark ≡ bookmark_after view page.now) }
    ensures memory { OnErr result (page.now.rows ≢ []) }
{
    if page.last {
        return Ok(None);
    }
    match page.rows.last() {
        Some((row, _)) => {
            let row = Row::from_slice(alloc, row)?;
            Ok(Some(Mark { view, row }))
        }
        None => Ok(None),
    }
}
