//! Rows of a view in nights that are committed or given up.

ghost use Rattle.std.specs.Prelude.{◌≡◌, IfOk};

use crate::VersionTable;
use std::alloc::Global;
use std::process::Abort;
use std::test::Fail;
use wh_row::{Bag, Row};

/// A row of one cell.
fn row_of(alloc: Global, cell: i64) -> Result<Row, Fail> {
    let mut row = Vec::new(alloc);
    row.push(cell)?;
    Ok(row)
}

/// A table of two versions in which one row counts twice, in its first night, which puts it to 0 and another to 1.
fn first_night(rt: &impl Abort, alloc: Global) -> Result<VersionTable<2>, Fail>
    ensures { IfOk result (λ table. table.night ≡ 1) }
{
    let mut bag = Bag::new(alloc);
    assert!(rt; bag.add(&[1], 2).is_ok());
    assert!(rt; bag.is_table());
    let mut table = VersionTable::new(alloc, &bag)?;
    table.begin();
    table.put(&[(row_of(alloc, 1)?, 0), (row_of(alloc, 2)?, 1)])?;
    Ok(table)
}

/// Asserts that a row has these pairs.
fn assert_pairs(rt: &impl Abort, table: &VersionTable<2>, row: &[i64], wanted: &[(u64, i64)]) {
    let Some(pairs) = table.slots(row) else {
        panic!(rt; "no such row")
    };
    for place in 0..wanted.len() {
        assert_eq!(rt; pairs.pair(place), Some(wanted[place]));
    }
    assert!(rt; pairs.pair(wanted.len()).is_none());
}

#[test]
fn a_night_is_read_in_its_version_alone(rt: HostRuntime) -> Result<(), Fail> {
    let mut table = first_night(&rt, rt.alloc())?;
    assert_pairs(&rt, &table, &[1], &[(1, 0), (0, 2)]);
    assert_pairs(&rt, &table, &[2], &[(1, 1)]);
    assert_eq!(rt; table.count(0, &[1]), 2);
    assert_eq!(rt; table.count(0, &[2]), 0);
    assert_eq!(rt; table.count(1, &[1]), 0);
    assert_eq!(rt; table.count(1, &[2]), 1);
    table.begin();
    assert!(rt; table.slots(&[1]).is_none());
    assert_pairs(&rt, &table, &[2], &[(1, 1)]);
    Ok(())
}

#[test]
fn a_night_that_is_given_up_leaves_what_there_was(rt: HostRuntime) -> Result<(), Fail> {
    let mut table = first_night(&rt, rt.alloc())?;
    table.give_up();
    assert_pairs(&rt, &table, &[1], &[(0, 2)]);
    assert_pairs(&rt, &table, &[2], &[]);
    assert_eq!(rt; table.count(1, &[1]), 2);
    table.begin();
    assert!(rt; table.slots(&[2]).is_none());
    assert_pairs(&rt, &table, &[1], &[(0, 2)]);
    Ok(())
}

/// Asserts that the page of one row after a row, or from the first on, has this row of one cell, counted once, and whether none follows.
fn assert_page(
    rt: &impl Abort,
    alloc: Global,
    table: &VersionTable<3>,
    version: u64,
    after: Option<&[i64]>,
    (cell, last): (i64, bool),
) -> Result<(), Fail> {
    let (rows, none_follows) = table.page(alloc, version, after, 1)?;
    assert_eq!(rt; rows.len(), 1);
    let (row, count) = rows.get(0);
    assert_eq!(rt; row, [cell].as_slice());
    assert_eq!(rt; count, 1);
    assert_eq!(rt; none_follows, last);
    Ok(())
}

#[test]
fn three_versions_are_read(rt: HostRuntime) -> Result<(), Fail> {
    let alloc = rt.alloc();
    let mut bag = Bag::new(alloc);
    assert!(rt; bag.add(&[1], 1).is_ok());
    assert!(rt; bag.is_table());
    let mut table: VersionTable<3> = VersionTable::new(alloc, &bag)?;
    table.begin();
    table.put(&[
        (row_of(alloc, 1)?, 0),
        (row_of(alloc, 2)?, 1),
        (row_of(alloc, 5)?, 1),
    ])?;
    table.begin();
    assert_eq!(rt; table.count(0, &[1]), 1);
    table.put(&[(row_of(alloc, 2)?, 0), (row_of(alloc, 3)?, 1)])?;
    table.begin();
    assert!(rt; table.slots(&[1]).is_none());
    assert_eq!(rt; table.count(1, &[2]), 1);
    table.put(&[(row_of(alloc, 3)?, 0), (row_of(alloc, 4)?, 1)])?;
    assert_page(&rt, alloc, &table, 1, None, (2, false))?;
    assert_page(&rt, alloc, &table, 1, Some(&[2]), (5, true))?;
    assert_page(&rt, alloc, &table, 2, None, (3, false))?;
    assert_page(&rt, alloc, &table, 3, None, (4, false))?;
    assert_page(&rt, alloc, &table, 3, Some(&[4]), (5, true))?;
    assert_eq!(rt; table.table(alloc, 3)?.len(), 2);
    table.give_up();
    assert_eq!(rt; table.count(1, &[2]), 1);
    assert_eq!(rt; table.count(3, &[3]), 1);
    assert_eq!(rt; table.count(3, &[4]), 0);
    Ok(())
}

#[test]
fn a_copy_goes_on_by_itself(rt: HostRuntime) -> Result<(), Fail> {
    let table = first_night(&rt, rt.alloc())?;
    let mut copy = table.copy(rt.alloc())?;
    copy.give_up();
    assert_pairs(&rt, &copy, &[1], &[(0, 2)]);
    assert_pairs(&rt, &table, &[1], &[(1, 0), (0, 2)]);
    copy.begin();
    assert!(rt; copy.slots(&[2]).is_none());
    assert_pairs(&rt, &table, &[2], &[(1, 1)]);
    Ok(())
}
