// Versions of tables: the worked examples of nights that are read while they run, by the calls of the store.

use std::alloc::{AllocError, Global};
use std::process::Abort;
use std::test::Fail;
use test_given::tables::bag as bag_of;
use wh_row::Row;
use wh_store::{Op, Store, StoreFault};

/// A store of one view with these rows, which keeps so many versions.
fn store_keeping(
    rt: &impl Abort,
    alloc: Global,
    rows: &[(&[i64], i64)],
    versions: usize,
) -> Result<Store, Fail> {
    let table = bag_of(alloc, rows)?;
    assert!(rt; table.is_table() && versions >= 2 && versions <= 4);
    Ok(Store::new(alloc, &[table], versions)?)
}

/// A store of one view with these rows, which keeps two versions.
fn store_of(rt: &impl Abort, alloc: Global, rows: &[(&[i64], i64)]) -> Result<Store, Fail> {
    store_keeping(rt, alloc, rows, 2)
}

/// New counts of some rows of view 0.
fn put(alloc: Global, counts: &[(&[i64], i64)]) -> Result<Op, AllocError> {
    let mut rows = Vec::new(alloc);
    for (row, count) in counts {
        rows.push((Row::from_slice(alloc, row)?, *count))?;
    }
    Ok(Op::Put(0, rows))
}

/// Asserts that a row of view 0 has these pairs.
fn assert_slots(rt: &impl Abort, store: &Store, row: &[i64], wanted: &[(u64, i64)]) {
    let Some(pairs) = store.slots(0, row) else {
        panic!(rt; "no such row")
    };
    for place in 0..wanted.len() {
        let (number, count) = wanted[place];
        assert_eq!(rt; pairs.pair(place), Some((number, count)));
        assert_eq!(rt; pairs.read(number), count);
    }
    assert!(rt; pairs.pair(wanted.len()).is_none());
}

/// Asserts that a page has these rows of one column, each once, and whether it is the last.
fn assert_page(
    rt: &impl Abort,
    store: &Store,
    place: (u64, Option<&[i64]>, usize),
    wanted: &[i64],
    last: bool,
) -> Result<(), Fail> {
    let (version, after, limit) = place;
    assert!(rt;
        store.unexpired(version) && store.views(version) == 1 && limit >= 1 && limit <= 256
    );
    let page = store.visible(version, 0, after, limit)?;
    assert_eq!(rt; page.rows.len(), wanted.len());
    for (at, cell) in wanted.iter().enumerate() {
        let (row, count) = page.rows.get(at);
        assert_eq!(rt; row, [*cell].as_slice());
        assert_eq!(rt; count, 1);
    }
    assert_eq!(rt; page.last, last);
    Ok(())
}

/// A store of one view in which one row counts twice, in its first night, which put it to 0 and another to 1.
fn first_night(rt: &impl Abort, alloc: Global) -> Result<Store, Fail> {
    let mut store = store_of(rt, alloc, &[(&[1], 2)])?;
    store.apply(&Op::Begin)?;
    store.apply(&put(alloc, &[(&[1], 0), (&[2], 1)])?)?;
    assert_slots(rt, &store, &[1], &[(1, 0), (0, 2)]);
    assert_slots(rt, &store, &[2], &[(1, 1)]);
    Ok(store)
}

/// Asserts what a row of view 0 counts in a version that can be read, alone.
fn assert_alone(
    rt: &impl Abort,
    store: &Store,
    version: u64,
    row: &[i64],
    wanted: i64,
) -> Result<(), Fail> {
    assert!(rt; store.unexpired(version) && store.views(version) == 1);
    let page = store.visible(version, 0, None, 10)?;
    assert!(rt; page.rows.len() == 1 && page.last);
    let (only, count) = page.rows.get(0);
    assert_eq!(rt; only, row);
    assert_eq!(rt; count, wanted);
    Ok(())
}

#[test]
fn a_row_is_kept_while_a_session_reads_it(rt: HostRuntime) -> Result<(), Fail> {
    let mut store = first_night(&rt, rt.alloc())?;
    store.apply(&Op::Commit)?;
    assert_alone(&rt, &store, 0, &[1], 2)?;
    assert_alone(&rt, &store, 1, &[2], 1)?;
    assert_slots(&rt, &store, &[1], &[(1, 0), (0, 2)]);
    store.apply(&Op::Begin)?;
    assert!(rt; store.slots(0, &[1]).is_none() && store.slots(1, &[2]).is_none());
    assert_slots(&rt, &store, &[2], &[(1, 1)]);
    Ok(())
}

#[test]
fn a_row_of_a_night_that_is_given_up_goes(rt: HostRuntime) -> Result<(), Fail> {
    let mut store = first_night(&rt, rt.alloc())?;
    store.apply(&Op::GiveUp)?;
    assert_slots(&rt, &store, &[1], &[(0, 2)]);
    assert_slots(&rt, &store, &[2], &[]);
    assert_alone(&rt, &store, 0, &[1], 2)?;
    assert_alone(&rt, &store, 1, &[1], 2)?;
    store.apply(&Op::Begin)?;
    assert!(rt; store.slots(0, &[2]).is_none());
    assert_slots(&rt, &store, &[1], &[(0, 2)]);
    Ok(())
}

/// A store of one view that keeps so many versions, in its third night. One row counts 2 and, by these nights, 3, 4 and 5; the first put
/// another to 0.
fn third_night(rt: &impl Abort, alloc: Global, versions: usize) -> Result<Store, Fail> {
    let mut store = store_keeping(rt, alloc, &[(&[1], 2), (&[2], 1)], versions)?;
    store.apply(&Op::Begin)?;
    store.apply(&put(alloc, &[(&[1], 3), (&[2], 0)])?)?;
    store.apply(&Op::Commit)?;
    store.apply(&Op::Begin)?;
    store.apply(&put(alloc, &[(&[1], 4)])?)?;
    store.apply(&Op::Commit)?;
    assert_slots(rt, &store, &[1], &[(2, 4), (1, 3), (0, 2)]);
    assert_slots(rt, &store, &[2], &[(1, 0), (0, 1)]);
    store.apply(&Op::Begin)?;
    store.apply(&put(alloc, &[(&[1], 5)])?)?;
    Ok(store)
}

#[test]
fn of_three_versions_a_row_keeps_three_pairs(rt: HostRuntime) -> Result<(), Fail> {
    let mut store = third_night(&rt, rt.alloc(), 3)?;
    assert_slots(&rt, &store, &[1], &[(3, 5), (2, 4), (1, 3)]);
    assert!(rt; store.slots(0, &[2]).is_none() && !store.unexpired(0));
    assert_alone(&rt, &store, 1, &[1], 3)?;
    assert_alone(&rt, &store, 2, &[1], 4)?;
    store.apply(&Op::GiveUp)?;
    assert_slots(&rt, &store, &[1], &[(2, 4), (1, 3)]);
    assert_alone(&rt, &store, 3, &[1], 4)?;
    Ok(())
}

#[test]
fn of_four_versions_a_row_keeps_four_pairs(rt: HostRuntime) -> Result<(), Fail> {
    let mut store = third_night(&rt, rt.alloc(), 4)?;
    assert_slots(&rt, &store, &[1], &[(3, 5), (2, 4), (1, 3), (0, 2)]);
    assert_slots(&rt, &store, &[2], &[(1, 0), (0, 1)]);
    store.apply(&Op::Commit)?;
    assert!(rt; store.unexpired(0));
    assert_alone(&rt, &store, 1, &[1], 3)?;
    store.apply(&Op::Begin)?;
    assert!(rt; store.slots(0, &[2]).is_none() && !store.unexpired(0));
    store.apply(&put(rt.alloc(), &[(&[1], 6)])?)?;
    assert_slots(&rt, &store, &[1], &[(4, 6), (3, 5), (2, 4), (1, 3)]);
    Ok(())
}

#[test]
fn a_night_that_is_given_up_makes_the_version_before_again(rt: HostRuntime) -> Result<(), Fail> {
    let mut store = store_of(&rt, rt.alloc(), &[(&[1], 1)])?;
    store.apply(&Op::Begin)?;
    store.apply(&put(rt.alloc(), &[(&[1], 0), (&[2], 1)])?)?;
    assert_page(&rt, &store, (0, None, 10), &[1], true)?;
    store.apply(&Op::Commit)?;
    assert_eq!(rt; store.number(), 1);
    assert_page(&rt, &store, (0, None, 10), &[1], true)?;
    store.apply(&Op::Begin)?;
    assert!(rt; !store.unexpired(0));
    assert_eq!(rt; store.night_number(), Some(2));
    store.apply(&put(rt.alloc(), &[(&[2], 0), (&[3], 1)])?)?;
    store.apply(&Op::GiveUp)?;
    assert_eq!(rt; store.number(), 2);
    assert!(rt; !store.unexpired(0) && !store.is_active() && store.night_number().is_none());
    assert_page(&rt, &store, (1, None, 10), &[2], true)?;
    assert_page(&rt, &store.copy(rt.alloc())?, (2, None, 10), &[2], true)?;
    Ok(())
}

#[test]
fn pages_of_one_row_go_on_while_the_next_version_is_written(rt: HostRuntime) -> Result<(), Fail> {
    let mut store = store_of(&rt, rt.alloc(), &[(&[1], 1), (&[3], 1), (&[5], 1)])?;
    store.apply(&Op::Begin)?;
    assert_page(&rt, &store, (0, None, 1), &[1], false)?;
    store.apply(&put(rt.alloc(), &[(&[2], 1)])?)?;
    assert_page(&rt, &store, (0, Some(&[1]), 1), &[3], false)?;
    store.apply(&put(rt.alloc(), &[(&[3], 0)])?)?;
    assert_page(&rt, &store, (0, Some(&[3]), 1), &[5], true)?;
    store.apply(&put(rt.alloc(), &[(&[4], 1)])?)?;
    store.apply(&Op::Commit)?;
    assert_page(&rt, &store, (0, None, 10), &[1, 3, 5], true)?;
    assert_page(&rt, &store, (1, None, 10), &[1, 2, 4, 5], true)?;
    Ok(())
}

#[test]
fn the_first_reason_refuses_an_operation(rt: HostRuntime) -> Result<(), Fail> {
    let mut store = Store::new(rt.alloc(), &[], 2)?;
    assert_eq!(rt; store.apply(&Op::Commit), Err(StoreFault::NoNight));
    assert_eq!(rt;
        store.apply(&put(rt.alloc(), &[])?),
        Err(StoreFault::NoNight)
    );
    store.apply(&Op::Begin)?;
    assert_eq!(rt; store.apply(&Op::Begin), Err(StoreFault::NightOpen));
    assert_eq!(rt;
        store.apply(&put(rt.alloc(), &[])?),
        Err(StoreFault::NoView)
    );
    assert_eq!(rt; StoreFault::LastVersion.number(), 5);
    Ok(())
}

#[test]
fn rows_that_are_no_page_are_refused(rt: HostRuntime) -> Result<(), Fail> {
    let mut store = store_of(&rt, rt.alloc(), &[(&[1], 1)])?;
    store.apply(&Op::Begin)?;
    let none: &[(&[i64], i64)] = &[];
    for counts in [
        none,
        &[(&[2], 1), (&[2], 1)],
        &[(&[3], 1), (&[2], 1)],
        &[(&[2], -1)],
    ] {
        let bad = put(rt.alloc(), counts)?;
        assert_eq!(rt; store.refuses(&bad), Some(StoreFault::BadPage));
        assert_eq!(rt; store.apply(&bad), Err(StoreFault::BadPage));
    }
    store.apply(&put(rt.alloc(), &[(&[1], 0), (&[2], 3)])?)?;
    store.apply(&Op::Commit)?;
    assert!(rt; store.current_views() == 1);
    let table = store.table(0)?;
    assert_eq!(rt;
        (table.count(&[1]), table.count(&[2]), table.total()),
        (0, 3, 3)
    );
    Ok(())
}
