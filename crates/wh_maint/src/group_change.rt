//! Makes the change of one group of a summary: its new row, and its old one taken out.

ghost use Rattle.std.specs.Prelude.{◌≡◌, ◌≢◌, ℕ, suc, ◌<◌, ◌≤◌, ℤ, pos, negsuc, ◌+ℤ◌, ◌++◌, map, List, length, IsTrue, ◌↔◌, FitsSigned, IfOk, OnOk, OnErr, MatchOption, ◌||◌, cond, Bool, false};
ghost use Rattle.std.specs.List.{range_with_len};
ghost use mir.Syntax.{w64};
ghost use Rattle.wh_row.specs.Row.{is_row};
ghost use Rattle.wh_row.specs.Bag.{count as count_of};
ghost use Rattle.wh_row.specs.Weigh.{count_in, negated};
ghost use Rattle.wh_maint.specs.View.{Summed};
ghost use Rattle.wh_maint.specs.Comp.{bag_at, AreEmpty};
ghost use Rattle.wh_maint.specs.Summary.{group_of, is_nonzero};
ghost use Rattle.wh_maint.specs.Value.{NewCountsFit, ChangeHasValue};
ghost use Rattle.wh_maint.specs.Fit.{IsSummaryTable};
ghost use Rattle.wh_maint.specs.Inner.Finishing.{cell_before, cell_after, IsWide, AfterFits, row_after, row_before, made_row, IsOldRow, GroupCountFits, stands_within, with_group, AreMade};

use crate::fault::RowFault;
use crate::pending::Pending;
use wh_row::{Bag, BagFault, Row};

/// Returns the group of a summary's row.
pub(crate) fn group_in(row: &[i64], sums: usize) -> &[i64]
    requires { sums < length row.now }
    ensures { result.now ≡ group_of sums row.now }
{
    &row[..row.len() - (sums + 1)]
}

/// The group's row in a summary's table, if it has one. Rows of longer groups may start with the same cells.
fn old_row<'a>(table: &'a Bag, sums: usize, group: &[i64]) -> Option<&'a [i64]>
    requires { IsSummaryTable sums table.now }
    ensures { IsOldRow sums table.now group.now result }
{
    for (row, _) in table.rows_starting_with(group) {
        if group_in(row, sums).len() == group.len() {
            return Some(row);
        }
    }
    None
}

/// Tells whether the new count of a group fits i64.
pub(crate) fn count_fits(pending: &Pending, sums: usize, table: &Bag, group: &[i64]) -> bool
    requires columns { length pending.now.columns ≡ suc sums }
    requires fit { IsSummaryTable sums table.now }
    ensures { IsTrue result ↔ GroupCountFits sums table.now (bag_at pending.now.columns) group.now }
{
    let before = old_cell(sums, old_row(table, sums, group), 0);
    before.checked_add(pending.count(group)).is_some()
}

/// Adds the change of a group that stands in this column of the pending accumulators, unless it stands in an earlier one: then it has been
/// added.
pub(crate) fn add_group(
    pending: &Pending,
    sums: usize,
    table: &Bag,
    column: usize,
    group: &[i64],
    change: &mut Bag,
) -> Result<(), RowFault>
    requires columns { length pending.now.columns ≡ suc sums }
    requires fit { IsSummaryTable sums table.now }
    requires counts { NewCountsFit (Summed sums) table.now (bag_at pending.now.columns) }
    requires column { column < suc sums }
    requires stands { count_of (bag_at pending.now.columns column) group.now ≢ pos 0 }
    requires none { stands_within column (bag_at pending.now.columns) group.now ≡ false
        → (q : List ℤ) → group_of sums q ≡ group.now → count_of change.old q ≡ pos 0 }
    ensures made { OnOk result ((done : List ℤ → Bool) → done group.now ≡ stands_within column (bag_at pending.now.columns) group.now
        → AreMade sums table.now (bag_at pending.now.columns) done change.old → AreMade sums table.now (bag_at pending.now.columns) (with_group group.now done) change.new) }
    ensures range { result ≡ Err RowFault.Range → ¬ (ChangeHasValue (Summed sums) table.now (bag_at pending.now.columns)) }
    ensures memory { result ≡ Err RowFault.Memory → ¬ (AreEmpty pending.now.columns) }
{
    if stands_within(pending, column, group) {
        return Ok(());
    }
    let old = old_row(table, sums, group);
    add_change(pending, sums, old, group, change)
}

/// Whether the group stands in one of the first columns of the pending accumulators, so many.
fn stands_within(pending: &Pending, columns: usize, group: &[i64]) -> bool
    requires { columns ≤ length pending.now.columns }
    ensures { result ≡ stands_within columns (bag_at pending.now.columns) group.now }
{
    for column in 0..columns {
        if added(pending, column, group) != 0 {
            return true;
        }
    }
    false
}

/// Notes a group.
pub(crate) fn note(seen: &mut Bag, group: &[i64]) -> Result<(), RowFault>
    ensures noted { OnOk result ((g : List ℤ) → is_nonzero (count_of seen.new g) ≡ (is_row g group.now || is_nonzero (count_of seen.old g))) }
    ensures memory { OnErr result (result ≡ Err RowFault.Memory) }
{
    if seen.count(group) != 0 {
        return Ok(());
    }
    add_times(seen, group, 1)
}

/// Adds the group's new row, and takes its old row out.
fn add_change(
    pending: &Pending,
    sums: usize,
    old: Option<&[i64]>,
    group: &[i64],
    change: &mut Bag,
) -> Result<(), RowFault>
    requires columns { length pending.now.columns ≡ suc sums }
    requires wide { IsWide sums old }
    requires old { MatchOption old (Unit {0}) (λ row. group_of sums row.now ≡ group.now) }
    requires count { FitsSigned w64 (cell_after sums pending.now.columns old group.now 0) }
    requires none { (q : List ℤ) → group_of sums q ≡ group.now → count_of change.old q ≡ pos 0 }
    ensures change { OnOk result ((q : List ℤ) → count_of change.new q
        ≡ count_of change.old q +ℤ count_in (row_after sums pending.now.columns old.entry group.now ++ negated (row_before old.entry)) q) }
    ensures sums { OnOk result (AfterFits sums pending.now.columns old.entry group.now) }
    ensures range { result ≡ Err RowFault.Range → ¬ (AfterFits sums pending.now.columns old.entry group.now) }

    // Range comes before Memory.
    ensures memory { result ≡ Err RowFault.Memory → AfterFits sums pending.now.columns old.entry group.now }
{
    add_new(pending, sums, old, group, change)?;
    take_old(old, change)
}

/// Adds the group's new row.
fn add_new(
    pending: &Pending,
    sums: usize,
    old: Option<&[i64]>,
    group: &[i64],
    change: &mut Bag,
) -> Result<(), RowFault>
    requires columns { length pending.now.columns ≡ suc sums }
    requires wide { IsWide sums old }
    requires count { FitsSigned w64 (cell_after sums pending.now.columns old group.now 0) }
    requires none { (q : List ℤ) → group_of sums q ≡ group.now → count_of change.old q ≡ pos 0 }
    ensures change { OnOk result ((q : List ℤ) → count_of change.new q ≡ count_in (row_after sums pending.now.columns old.entry group.now) q +ℤ count_of change.old q) }
    ensures sums { OnOk result (AfterFits sums pending.now.columns old.entry group.now) }
    ensures range { result ≡ Err RowFault.Range → ¬ (AfterFits sums pending.now.columns old.entry group.now) }

    // Range comes before Memory.
    ensures memory { result ≡ Err RowFault.Memory → AfterFits sums pending.now.columns old.entry group.now }
{
    match new_row(pending, sums, old, group)? {
        Some(row) => add_times(change, row.as_slice(), 1),
        None => Ok(()),
    }
}

/// Takes the group's old row out, where it has one.
fn take_old(old: Option<&[i64]>, change: &mut Bag) -> Result<(), RowFault>
    requires { MatchOption old (Unit {0}) (λ row. FitsSigned w64 (count_of change.old row.now +ℤ negsuc 0)) }
    ensures change { OnOk result ((q : List ℤ) → count_of change.new q ≡ count_in (negated (row_before old.entry)) q +ℤ count_of change.old q) }
    ensures memory { OnErr result (result ≡ Err RowFault.Memory) }
{
    match old {
        Some(row) => add_times(change, row, -1),
        None => Ok(()),
    }
}

/// Adds to the count of a row, which stays within i64.
fn add_times(bag: &mut Bag, row: &[i64], times: i64) -> Result<(), RowFault>
    requires { FitsSigned w64 (count_of bag.old row.now +ℤ times) }
    ensures added { OnOk result ((q : List ℤ) → count_of bag.new q ≡ cond (is_row q row.now) times (pos 0) +ℤ count_of bag.old q) }
    ensures memory { OnErr result (result ≡ Err RowFault.Memory) }
{
    match bag.add(row, times) {
        Ok(()) => Ok(()),
        Err(BagFault::Memory) => Err(RowFault::Memory),
        Err(BagFault::Large) => unreachable!(),
    }
}

/// The group's new row: its cells, its count and its sums; none where its count is not positive.
fn new_row(
    pending: &Pending,
    sums: usize,
    old: Option<&[i64]>,
    group: &[i64],
) -> Result<Option<Row>, RowFault>
    requires columns { length pending.now.columns ≡ suc sums }
    requires wide { IsWide sums old }
    requires count { FitsSigned w64 (cell_after sums pending.now.columns old group.now 0) }
    ensures row { IfOk result (λ row. made_row row ≡ row_after sums pending.now.columns old.entry group.now) }
    ensures sums { OnOk result (AfterFits sums pending.now.columns old.entry group.now) }
    ensures range { result ≡ Err RowFault.Range → ¬ (AfterFits sums pending.now.columns old.entry group.now) }

    // Range comes before Memory.
    ensures memory { result ≡ Err RowFault.Memory → AfterFits sums pending.now.columns old.entry group.now }
{
    let Some(count) = new_cell(pending, sums, old, group, 0) else {
        unreachable!();
    };
    if count <= 0 {
        return Ok(None);
    }
    let row = with_cells(pending, sums, old, group, count)?;
    Ok(Some(row))
}

/// The group, its new count and its new sums. Where a sum leaves i64, that is the answer, also where memory is refused.
fn with_cells(
    pending: &Pending,
    sums: usize,
    old: Option<&[i64]>,
    group: &[i64],
    count: i64,
) -> Result<Row, RowFault>
    requires columns { length pending.now.columns ≡ suc sums }
    requires wide { IsWide sums old }
    requires count { count ≡ cell_after sums pending.now.columns old group.now 0 }
    ensures row { IfOk result (λ row. row.items ≡ group.now ++ map (cell_after sums pending.now.columns old.entry group.now) (range_with_len 0 (suc sums))) }
    ensures sums { OnOk result ((j : ℕ) → j < sums → FitsSigned w64 (cell_after sums pending.now.columns old.entry group.now (suc j))) }
    ensures range { (result ≡ Err RowFault.Range) ↔ ¬ ((j : ℕ) → j < sums → FitsSigned w64 (cell_after sums pending.now.columns old.entry group.now (suc j))) }
{
    let Ok(mut row) = Row::from_slice(pending.alloc(), group) else {
        return Err(first_fault(pending, sums, old, group));
    };
    let Ok(()) = row.push(count) else {
        return Err(first_fault(pending, sums, old, group));
    };
    for number in 0..sums {
        let Some(sum) = new_cell(pending, sums, old, group, number + 1) else {
            return Err(RowFault::Range);
        };
        let Ok(()) = row.push(sum) else {
            return Err(first_fault(pending, sums, old, group));
        };
    }
    Ok(row)
}

/// Why a group has no new row where memory was refused: one of its new sums leaves i64, or else it is that.
fn first_fault(pending: &Pending, sums: usize, old: Option<&[i64]>, group: &[i64]) -> RowFault
    requires columns { length pending.now.columns ≡ suc sums }
    requires wide { IsWide sums old }
    ensures { (result ≡ RowFault.Range) ↔ ¬ ((j : ℕ) → j < sums → FitsSigned w64 (cell_after sums pending.now.columns old.entry group.now (suc j))) }
{
    for number in 0..sums {
        let Some(_) = new_cell(pending, sums, old, group, number + 1) else {
            return RowFault::Range;
        };
    }
    RowFault::Memory
}

/// The group's new count, in column 0, or the new sum of a later column, where it fits i64.
fn new_cell(
    pending: &Pending,
    sums: usize,
    old: Option<&[i64]>,
    group: &[i64],
    column: usize,
) -> Option<i64>
    requires columns { length pending.now.columns ≡ suc sums }
    requires wide { IsWide sums old }
    requires column { column < suc sums }
    ensures { MatchOption result (¬ (FitsSigned w64 (cell_after sums pending.now.columns old.entry group.now column)))
        (λ cell. cell ≡ cell_after sums pending.now.columns old.entry group.now column) }
{
    let before = i128::from(old_cell(sums, old, column));
    let sum = added(pending, column, group).checked_add(before)?;
    i64::try_from(sum).ok()
}

/// Returns the cell of the group's old row, 0 where it has none.
pub(crate) fn old_cell(sums: usize, old: Option<&[i64]>, column: usize) -> i64
    requires wide { IsWide sums old }
    requires column { column < suc sums }
    ensures { result ≡ cell_before sums old.entry column }
{
    match old {
        Some(row) => row[row.len() - (sums + 1) + column],
        None => 0,
    }
}

/// What is pending of a group in a column.
fn added(pending: &Pending, column: usize, group: &[i64]) -> i128
    requires { column < length pending.now.columns }
    ensures { result ≡ count_of (bag_at pending.now.columns column) group.now }
{
    match column {
        0 => i128::from(pending.count(group)),
        _ => pending.sum(column - 1, group),
    }
}
