//! Drawn operations, done to a store and to one of whole tables: both show the same.

use crate::plain::Plain;
use std::alloc::Global;
use std::process::Abort;
use std::test::Fail;
use test_given::tables::bag;
use wh_row::{Bag, Records, Row};
use wh_store::{Op, Store};

/// How many rows of one cell there are.
const CELLS: i64 = 5;

/// Numbers that look drawn: the next one below a limit.
pub(crate) fn below(state: &mut u64, limit: u32) -> u32 {
    *state = state
        .wrapping_mul(0x5851_F42D_4C95_7F2D)
        .wrapping_add(0x1405_7B7E_F767_814F);
    let drawn = (*state >> 33) as u32;
    drawn.checked_rem(limit).unwrap_or(0)
}

/// A row of one cell.
fn row_of(alloc: Global, cell: i64) -> Result<Row, Fail> {
    let mut row = Vec::new(alloc);
    row.push(cell)?;
    Ok(row)
}

/// New counts of some rows of a view, of one at least.
fn drawn_put(alloc: Global, state: &mut u64) -> Result<Op, Fail> {
    let view = below(state, 2) as usize;
    let sure = i64::from(below(state, 5));
    let mut rows = Vec::new(alloc);
    for cell in 0..CELLS {
        if cell == sure || below(state, 3) == 0 {
            rows.push((row_of(alloc, cell)?, i64::from(below(state, 3))))?;
        }
    }
    Ok(Op::Put(view, rows))
}

/// An operation that may come.
fn drawn(alloc: Global, state: &mut u64, active: bool) -> Result<Op, Fail> {
    if !active {
        return Ok(Op::Begin);
    }
    match below(state, 5) {
        0 => Ok(Op::Commit),
        1 => Ok(Op::GiveUp),
        _ => drawn_put(alloc, state),
    }
}

/// Asserts that these are the same rows with the same counts.
pub(crate) fn assert_rows(rt: &impl Abort, found: &Records, wanted: &Records) {
    assert_eq!(rt; found.len(), wanted.len());
    for place in 0..wanted.len() {
        assert!(rt; place < found.len());
        let (row, count) = found.get(place);
        let (other, number) = wanted.get(place);
        assert_eq!(rt; row, other);
        assert_eq!(rt; count, number);
    }
}

/// Asserts that a store's page is that of the whole table.
fn assert_page(
    rt: &impl Abort,
    alloc: Global,
    store: &Store,
    place: (u64, usize, Option<&[i64]>, usize),
    table: &Bag,
) -> Result<(), Fail> {
    let (version, view, after, limit) = place;
    assert!(rt; store.unexpired(version) && view < store.views(version));
    assert!(rt; limit >= 1 && limit <= 256);
    let page = store.visible(version, view, after, limit)?;
    let all = match after {
        Some(row) => table.rows_after(row),
        None => table.rows(),
    };
    let (rows, mut rest) = all.cut(alloc, limit)?;
    assert_rows(rt, &page.rows, &rows);
    assert_eq!(rt; page.last, rest.next().is_none());
    Ok(())
}

/// Asserts that each page of a view is that of the whole table.
fn assert_pages(
    rt: &impl Abort,
    alloc: Global,
    store: &Store,
    version: u64,
    view: usize,
    table: &Bag,
) -> Result<(), Fail> {
    for limit in [1, 2, 256] {
        assert_page(rt, alloc, store, (version, view, None, limit), table)?;
        for cell in 0..CELLS {
            let after = [cell];
            let place = (version, view, Some(after.as_slice()), limit);
            assert_page(rt, alloc, store, place, table)?;
        }
    }
    Ok(())
}

/// Asserts that both show the same of every version.
fn assert_same(rt: &impl Abort, alloc: Global, store: &Store, plain: &Plain) -> Result<(), Fail> {
    assert_eq!(rt; store.number(), plain.number());
    assert_eq!(rt; store.is_active(), plain.is_active());
    for version in 0..plain.number() {
        assert_eq!(rt; store.unexpired(version), plain.tables(version).is_some());
    }
    for back in 0..4_u64 {
        let Some(version) = plain.number().checked_sub(back) else {
            continue;
        };
        let Some(tables) = plain.tables(version) else {
            continue;
        };
        for (view, table) in tables.iter().enumerate() {
            assert_pages(rt, alloc, store, version, view, table)?;
        }
    }
    Ok(())
}

/// Does drawn operations to both, and goes on with a copy now and then.
fn compare(rt: &impl Abort, alloc: Global, versions: usize, state: u64) -> Result<(), Fail> {
    let first = bag(alloc, &[(&[0], 1), (&[2], 2)])?;
    let second = Bag::new(alloc);
    assert!(rt; first.is_table() && second.is_table());
    assert!(rt; versions >= 2 && versions <= 4);
    let mut tables = Vec::new(alloc);
    tables.push(first.copy(alloc)?)?;
    tables.push(second.copy(alloc)?)?;
    let mut plain = Plain::new(alloc, tables, versions)?;
    let mut store = Store::new(alloc, &[first, second], versions)?;
    let mut state = state;
    for turn in 0..40_u64 {
        let op = drawn(alloc, &mut state, plain.is_active())?;
        store.apply(&op)?;
        plain.apply(rt, alloc, &op)?;
        if turn % 7 == 0 {
            store = store.copy(alloc)?;
        }
        assert_same(rt, alloc, &store, &plain)?;
    }
    Ok(())
}

#[test]
fn two_versions_are_those_of_whole_tables(rt: HostRuntime) -> Result<(), Fail> {
    compare(&rt, rt.alloc(), 2, 1)?;
    compare(&rt, rt.alloc(), 2, 2)
}

#[test]
fn three_versions_are_those_of_whole_tables(rt: HostRuntime) -> Result<(), Fail> {
    compare(&rt, rt.alloc(), 3, 3)?;
    compare(&rt, rt.alloc(), 3, 4)
}

#[test]
fn four_versions_are_those_of_whole_tables(rt: HostRuntime) -> Result<(), Fail> {
    compare(&rt, rt.alloc(), 4, 5)?;
    compare(&rt, rt.alloc(), 4, 6)
}
