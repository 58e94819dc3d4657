//! Records in parts: their bag, or why there is none, is that of all of them in one.

use crate::drawn_nights::{assert_rows, below};
use std::alloc::Global;
use std::process::Abort;
use std::test::Fail;
use std::thread::Threads;
use wh_row::{Bag, Records};
use wh_threads::ThreadBudget;

/// Asserts that these are the same rows with the same counts.
fn assert_bag(rt: &impl Abort, found: &Bag, wanted: &Bag) {
    let mut rows = wanted.rows();
    for row in found.rows() {
        assert_eq!(rt; rows.next(), Some(row));
    }
    assert!(rt; rows.next().is_none());
    assert_eq!(rt; found.total(), wanted.total());
    assert_eq!(rt; found.is_table(), wanted.is_table());
}

/// Asserts that the parts make what all records in one make, whichever threads there are.
fn assert_parts<R: Abort + Threads + Sync>(
    rt: &R,
    alloc: Global,
    parts: &[Records],
) -> Result<(), Fail> {
    let mut all = Records::new(alloc);
    let mut singly = Records::new(alloc);
    for records in parts {
        all.extend(records)?;
        for place in 0..records.len() {
            let (row, count) = records.get(place);
            singly.push(row, count)?;
        }
    }
    assert_rows(rt, &all, &singly);
    let alone = ThreadBudget {
        rt,
        alloc,
        threads: 1,
    };
    let wanted = Bag::from_records(&alone, &all);
    for threads in 0..5 {
        let budget = ThreadBudget { rt, alloc, threads };
        match (Bag::from_parts(&budget, parts), &wanted) {
            (Ok(found), Ok(bag)) => assert_bag(rt, &found, bag),
            (Err(found), Err(fault)) => assert_eq!(rt; found, *fault),
            _ => assert!(rt; false),
        }
    }
    Ok(())
}

/// A count that may come: most are small.
fn drawn_count(state: &mut u64) -> i64 {
    match below(state, 60) {
        0 => 9223372036854775807,
        1 => -9223372036854775808,
        drawn => i64::from(drawn % 5) - 1,
    }
}

/// Records that may come in a part: where they rise, from this cell on, and some twice.
fn drawn_part(alloc: Global, state: &mut u64, first: i64, rising: bool) -> Result<Records, Fail> {
    let mut records = Records::new(alloc);
    let mut cell = first;
    for _ in 0..below(state, 6) {
        cell = match rising {
            true => cell.saturating_add(i64::from(below(state, 3))),
            false => i64::from(below(state, 6)),
        };
        let row = [cell, 0];
        let width = if below(state, 20) == 0 { 1 } else { 2 };
        records.push(&row[..width], drawn_count(state))?;
    }
    Ok(records)
}

/// Parts that may come: most often each rises, and is not below the part before.
fn drawn_parts(alloc: Global, state: &mut u64) -> Result<Vec<Records>, Fail> {
    let (rising, shuffled) = (below(state, 4) > 0, below(state, 6) == 0);
    let mut parts = Vec::new(alloc);
    for _ in 0..below(state, 5).saturating_add(1) {
        let first = match (parts.last(), shuffled) {
            (Some(part), false) => last_cell(part),
            _ => i64::from(below(state, 9)),
        };
        parts.push(drawn_part(alloc, state, first, rising)?)?;
    }
    Ok(parts)
}

#[test]
fn drawn_parts_make_what_all_records_make(rt: HostRuntime) -> Result<(), Fail> {
    let mut state = 12;
    for _ in 0..400 {
        let parts = drawn_parts(rt.alloc(), &mut state)?;
        assert_parts(&rt, rt.alloc(), &parts)?;
    }
    Ok(())
}

/// The first cell of the last record, from which the next part's rows may rise.
fn last_cell(records: &Records) -> i64 {
    match records.last() {
        Some(([cell, ..], _)) => *cell,
        _ => 0,
    }
}

/// How many records a part has, so that it is worth a thread.
const MANY: i64 = 11_000;

/// Records of rows (first, 5), (first + 1, 5) and so on.
fn rising_from(alloc: Global, first: i64) -> Result<Records, Fail> {
    let mut records = Records::new(alloc);
    for place in 0..MANY {
        records.push(&[first.saturating_add(place), 5], 1)?;
    }
    Ok(records)
}

#[test]
fn threads_make_bags_of_parts(rt: HostRuntime) -> Result<(), Fail> {
    let mut parts = Vec::new(rt.alloc());
    for part in [0, 1, 2, 3] {
        parts.push(rising_from(rt.alloc(), part * MANY)?)?;
    }
    assert_parts(&rt, rt.alloc(), &parts)?;

    // A row of the part before, and rows below all.
    parts.push(rising_from(rt.alloc(), 4 * MANY - 1)?)?;
    assert_parts(&rt, rt.alloc(), &parts)?;
    parts.push(rising_from(rt.alloc(), -MANY)?)?;
    assert_parts(&rt, rt.alloc(), &parts)?;

    // A count that leaves i64 in the last part, and a part whose rows fall.
    let mut last = rising_from(rt.alloc(), 6 * MANY)?;
    last.push(&[0, 5], 9223372036854775807)?;
    parts.push(last)?;
    assert_parts(&rt, rt.alloc(), &parts)
}
