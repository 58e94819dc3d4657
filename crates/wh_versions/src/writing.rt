//! Writes to the rows of a view what a night does to them.

ghost use Rattle.std.specs.Prelude.{◌≡◌, ◌≢◌, [], ◌∷◌, ◌⊎◌, ◌≤ℤ◌, List, ℤ, pos, true, false, cond, ◌<◌, IfOk, OnOk, OnErr, Some, None};
ghost use Rattle.wh_pieces.specs.Pieces.{found};
ghost use Rattle.wh_pieces.specs.Row.{is_row};
ghost use Rattle.wh_row.specs.Stored.{plain};
ghost use Rattle.wh_versions.specs.Rows.{read, with_pair};
ghost use Rattle.wh_versions.specs.Tables.{HaveCounts, added, given_up, is_given, opening, pairs_in, written};
ghost use Rattle.wh_row.specs.Bag.{IsTable, written as written_out};
ghost use Rattle.wh_versions.specs.Inner.Tables.{AreAdded, AreSafe, IsNew, begun, for_touched, is_in};

use crate::row::VersionRow;
use std::alloc::{AllocError, Global};
use wh_pieces::RowMap;
use wh_row::{Bag, Row, a_bag_lists_its_rows};

/// Returns what a row counts in a version.
pub(crate) fn count_of<const N: usize>(
    rows: &RowMap<VersionRow<N>>,
    version: u64,
    row: &[i64],
) -> i64
    ensures { result ≡ read version (pairs_in (found row.now rows.now)) }
{
    match rows.get(row) {
        Some(pairs) => pairs.read(version),
        None => 0,
    }
}

/// A count in version 0 put to no pairs; none where it is below zero.
fn first_pair<const N: usize>(none: VersionRow<N>, count: i64) -> VersionRow<N>
    requires versions { 0 < N }
    requires none { none ≡ [] }
    ensures { pos 0 ≤ℤ count → result ≡ (0, count) ∷ [] }
{
    if count < 0 {
        return none;
    }
    none.with(0, count)
}

/// Returns the rows of a table, each with its count in version 0. They are copied piece by piece.
pub(crate) fn first_rows<const N: usize>(
    alloc: Global,
    table: &Bag,
) -> Result<RowMap<VersionRow<N>>, AllocError>
    requires versions { 0 < N }
    requires table { IsTable table.now }
    ensures { IfOk result (λ rows. rows ≡ opening (written_out table.now)) }
{
    a_bag_lists_its_rows();
    let none = VersionRow::none();
    table.map_counts(
        alloc,
        &move |count: i64| -> VersionRow<N>
            requires { (0 < N) × (none ≡ []) }
            ensures { pos 0 ≤ℤ count → result ≡ (0, count) ∷ [] }
        { first_pair(none, count) },
    )
}

/// Touches a row, and adds it with no pairs where it is not there.
fn add_row<const N: usize>(
    rows: &mut RowMap<VersionRow<N>>,
    touched: &mut RowMap<()>,
    row: &[i64],
) -> Result<(), AllocError>
    ensures ok { OnOk result ((q : List ℤ) → found q rows.new ≡ added (is_row q row.now) (found q rows.old)) }
    ensures here { OnOk result (is_in row.now touched.new ≡ true) }
    ensures err { OnErr result (rows.new ≡ rows.old) }
    ensures memory { OnErr result ((found row.now rows.old ≡ None) ⊎ (is_in row.now touched.old ≡ false)) }
    ensures more { (q : List ℤ) → is_in q touched.old ≡ true → is_in q touched.new ≡ true }
{
    let _ = touched.insert(row, ())?;
    let _ = rows.insert_or(
        row,
        VersionRow::none(),
        &move |old: VersionRow<N>| -> Option<VersionRow<N>>
            ensures { result ≡ Some old.entry }
        { Some(old) },
    )?;
    Ok(())
}

/// Touches these rows, and adds those that are not there with no pairs. Where memory is refused, some of them are added.
pub(crate) fn add_rows<const N: usize>(
    rows: &mut RowMap<VersionRow<N>>,
    touched: &mut RowMap<()>,
    given: &[(Row, i64)],
) -> Result<(), AllocError>
    ensures ok { OnOk result (AreAdded (plain given.now) rows.old rows.new touched.new) }
    ensures err { OnErr result (AreSafe (plain given.now) rows.old rows.new touched.new) }
    ensures memory { OnErr result (IsNew (plain given.now) rows.old touched.old) }
    ensures more { (q : List ℤ) → is_in q touched.old ≡ true → is_in q touched.new ≡ true }
{
    for (row, _) in given {
        add_row(rows, touched, row.as_slice())?;
    }
    Ok(())
}

/// Writes the count of a row that is there.
fn write_row<const N: usize>(
    rows: &mut RowMap<VersionRow<N>>,
    version: u64,
    row: &[i64],
    count: i64,
)
    requires there { found row.now rows.old ≢ None }
    requires count { pos 0 ≤ℤ count }
    ensures { (q : List ℤ) → found q rows.new ≡ cond (is_row q row.now) (Some (with_pair N version count (pairs_in (found q rows.old)))) (found q rows.old) }
{
    let Ok(_) = rows.insert_or(
        row,
        VersionRow::none(),
        &move |old: VersionRow<N>| -> Option<VersionRow<N>>
            requires { pos 0 ≤ℤ count }
            ensures { result ≡ Some (with_pair N version count old.entry) }
        { Some(old.with(version, count)) },
    ) else {
        unreachable!()
    };
}

/// Writes the counts of rows that are there.
pub(crate) fn write_rows<const N: usize>(
    rows: &mut RowMap<VersionRow<N>>,
    version: u64,
    given: &[(Row, i64)],
)
    requires there { (q : List ℤ) → is_given q (plain given.now) ≡ true → found q rows.old ≢ None }
    requires counts { HaveCounts (plain given.now) }
    ensures { (q : List ℤ) → found q rows.new ≡ written N version (plain given.now) q (found q rows.old) }
{
    for (row, count) in given {
        write_row(rows, version, row.as_slice(), *count);
    }
}

/// Takes away what a night that is given up wrote of a row.
fn take_back_row<const N: usize>(rows: &mut RowMap<VersionRow<N>>, version: u64, row: &[i64])
    ensures { (q : List ℤ) → found q rows.new ≡ cond (is_row q row.now) (given_up version (found q rows.old)) (found q rows.old) }
{
    let Some(old) = rows.get(row) else {
        return;
    };
    let Ok(_) = rows.insert(row, old.without(version)) else {
        unreachable!()
    };
}

/// Takes away what a night that is given up wrote of the rows that it touched.
pub(crate) fn take_back<const N: usize>(
    rows: &mut RowMap<VersionRow<N>>,
    touched: &RowMap<()>,
    version: u64,
)
    ensures { (q : List ℤ) → found q rows.new ≡ for_touched (given_up version) (found q touched.now) (found q rows.old) }
{
    for (row, _) in touched.entries() {
        take_back_row(rows, version, row);
    }
}

/// Drops a row if no session of the versions before a night that begins can read it.
fn drop_row<const N: usize>(rows: &mut RowMap<VersionRow<N>>, version: u64, row: &[i64])
    ensures { (q : List ℤ) → found q rows.new ≡ cond (is_row q row.now) (begun N version (found q rows.old)) (found q rows.old) }
{
    let Some(old) = rows.get(row) else {
        return;
    };
    if old.is_unread(version) {
        let _ = rows.remove(row);
    }
}

/// Drops those of a set's rows that no session of the versions before a night that begins can read.
pub(crate) fn drop_unread<const N: usize>(
    rows: &mut RowMap<VersionRow<N>>,
    touched: &RowMap<()>,
    version: u64,
)
    ensures { (q : List ℤ) → found q rows.new ≡ for_touched (begun N version) (found q touched.now) (found q rows.old) }
{
    for (row, _) in touched.entries() {
        drop_row(rows, version, row);
    }
}

/// Makes copies of these sets of rows, in their order.
pub(crate) fn copy_sets(alloc: Global, sets: &[RowMap<()>]) -> Result<Vec<RowMap<()>>, AllocError>
    ensures { IfOk result (λ copy. copy.items ≡ sets.now) }
{
    let mut copy = Vec::new(alloc);
    for set in sets {
        copy.push(set.copy(alloc)?)?;
    }
    Ok(copy)
}
