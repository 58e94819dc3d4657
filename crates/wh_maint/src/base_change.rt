//! Tests whether a table can take a change, so that a night is refused before it begins.

ghost use Rattle.std.specs.Prelude.{◌≡◌, ◌≢◌, ◌↔◌, ℤ, pos, negsuc, ◌+ℤ◌, ◌≤ℤ◌, List, IsTrue, OnOk, IfErr, MatchOption};
ghost use Rattle.wh_row.specs.Bag.{count as count_of, SumFits};
ghost use Rattle.wh_maint.specs.Fit.{IsAbsent, IsFirstAbsent};
ghost use Rattle.wh_maint.specs.Refused.{NoneAbsent, IsChangeFault};
ghost use Rattle.wh_maint.specs.Inner.Refused.{IsFirstAbsentIn};

use crate::fault::{MaintFault, NamedRow};
use std::alloc::Global;
use std::cmp::Ordering;
use wh_row::{Bag, Row};

/// Tests whether a base view's table can take the change: no count falls below zero, and none leaves i64.
/// Fails with Absent, which names the first row in rising order whose count would fall below zero. Where there is none, it fails with Large
/// where a count leaves i64. It wants memory for the named row alone.
/// Takes O(m w log n) time for m rows of a change to a table of n, of w cells.
pub fn changed(alloc: Global, view: usize, table: &Bag, delta: &Bag) -> Result<(), MaintFault>
    ensures none_absent { OnOk result (NoneAbsent table.now delta.now) }
    ensures fits { OnOk result (SumFits table.now delta.now) }
    ensures refused { IfErr result (IsChangeFault view table.now delta.now) }
{
    if let Some(row) = first_absent(table, delta) {
        let row = Row::from_slice(alloc, row)?;
        return Err(MaintFault::Absent(view, NamedRow::new(row)));
    }
    if !table.sums_fit(delta) {
        return Err(MaintFault::Large(view));
    }
    Ok(())
}

/// The first row, in rising order, that counts below zero in both bags together.
fn first_absent<'a>(table: &'a Bag, delta: &'a Bag) -> Option<&'a [i64]>
    ensures { MatchOption result (NoneAbsent table.now delta.now)
        (λ first. IsFirstAbsent table.now delta.now first.now) }
{
    match (absent_in(table, delta), absent_in(delta, table)) {
        (None, None) => None,
        (Some(first), None) => Some(first),
        (None, Some(second)) => Some(second),
        (Some(first), Some(second)) => match second.cmp(first) {
            Ordering::Less => Some(second),
            _ => Some(first),
        },
    }
}

/// The first row of `bag` that counts below zero in it, and in both bags together. The other bag is asked for such rows alone. A
/// bag that knows that it has none, as a table does, is not walked.
fn absent_in<'a>(bag: &'a Bag, other: &Bag) -> Option<&'a [i64]>
    ensures { MatchOption result
        ((row : List ℤ) → count_of bag.now row ≤ℤ negsuc 0 → ¬ (IsAbsent bag.now other.now row))
        (λ first. IsFirstAbsentIn bag.now other.now first.now) }
{
    if bag.is_table() {
        return None;
    }
    for (row, count) in bag.rows() {
        if is_short(count, other, row) {
            return Some(row);
        }
    }
    None
}

/// Whether a row's count is below zero, and stays so with the other bag's.
fn is_short(count: i64, other: &Bag, row: &[i64]) -> bool
    ensures { IsTrue result ↔ ((count ≤ℤ negsuc 0) × ((count +ℤ count_of other.now row.now) ≤ℤ negsuc 0)) }
{
    count < 0 && is_absent(count, other.count(row))
}

/// Whether counts are below zero together.
fn is_absent(count: i64, other: i64) -> bool
    ensures { IsTrue result ↔ ((count +ℤ other) ≤ℤ negsuc 0) }
{
    i128::from(count) + i128::from(other) < 0
}
