// Maps whose pieces have two rows at most, against lists that are written out.

use crate::RowMap;
use std::alloc::{AllocError, Global};
use std::collections::BTreeMap;
use std::process::Abort;
use std::test::Fail;

/// The sum of two values, and none where it is zero or leaves i64.
fn added(value: i64, more: i64) -> Option<i64> {
    let sum = value.checked_add(more)?;
    if sum == 0 { None } else { Some(sum) }
}

/// A map of these entries, put in one after another.
fn map_of(alloc: Global, entries: &[(&[i64], i64)]) -> Result<RowMap<i64>, AllocError> {
    let mut map = RowMap::with_most(alloc, 2);
    for (row, value) in entries {
        map.insert(row, *value)?;
    }
    Ok(map)
}

/// Asserts that the map has these entries, in this order.
fn assert_lists(rt: &impl Abort, map: &RowMap<i64>, wanted: &[(&[i64], i64)]) {
    assert_eq!(rt; map.len(), wanted.len());
    let mut entries = map.entries();
    for (row, value) in wanted {
        assert_eq!(rt; entries.next(), Some((*row, *value)));
    }
    assert!(rt; entries.next().is_none());
}

#[test]
fn rows_rise_whatever_order_they_came_in(rt: HostRuntime) -> Result<(), Fail> {
    let entries: [(&[i64], i64); 7] = [
        (&[5], 50),
        (&[2], 20),
        (&[7], 70),
        (&[3], 30),
        (&[6], 60),
        (&[1], 10),
        (&[4], 40),
    ];
    let map = map_of(rt.alloc(), &entries)?;
    let rising: [(&[i64], i64); 7] = [
        (&[1], 10),
        (&[2], 20),
        (&[3], 30),
        (&[4], 40),
        (&[5], 50),
        (&[6], 60),
        (&[7], 70),
    ];
    assert_lists(&rt, &map, &rising);
    assert_lists(&rt, &map.copy(rt.alloc())?, &rising);
    assert_eq!(rt; map.get(&[6]), Some(60));
    assert!(rt; map.get(&[8]).is_none());
    Ok(())
}

#[test]
fn rows_of_other_widths_stand_between(rt: HostRuntime) -> Result<(), Fail> {
    let entries: [(&[i64], i64); 6] = [
        (&[2], 1),
        (&[1, 5], -1),
        (&[1, 6], 3),
        (&[], 4),
        (&[-3, 9], 2),
        (&[1], 7),
    ];
    let map = map_of(rt.alloc(), &entries)?;
    assert_lists(
        &rt,
        &map,
        &[
            (&[], 4),
            (&[-3, 9], 2),
            (&[1], 7),
            (&[1, 5], -1),
            (&[1, 6], 3),
            (&[2], 1),
        ],
    );
    Ok(())
}

#[test]
fn a_map_is_made_of_rows_that_rise(rt: HostRuntime) -> Result<(), Fail> {
    let alloc = rt.alloc();
    let mut map = RowMap::from_rising(alloc, 2, &[1, 5, 1, 6, 2, -3], &[10, 20, 30])?;
    assert_lists(&rt, &map, &[(&[1, 5], 10), (&[1, 6], 20), (&[2, -3], 30)]);
    assert!(&rt; map.insert(&[1], 7)?.is_none());
    assert_lists(
        &rt,
        &map,
        &[(&[1], 7), (&[1, 5], 10), (&[1, 6], 20), (&[2, -3], 30)],
    );
    let none = RowMap::<i64>::from_rising(alloc, 2, &[], &[])?;
    assert!(&rt; none.is_empty());
    Ok(())
}

#[test]
fn rows_have_one_width_or_not(rt: HostRuntime) -> Result<(), Fail> {
    let mut map = RowMap::with_most(rt.alloc(), 2);
    assert!(rt; map.has_width(2));
    assert!(rt; map.has_width(0));
    for first in 0..5_i64 {
        map.insert(&[first, 7], first)?;
    }
    assert!(rt; map.has_width(2));
    assert!(rt; !map.has_width(1));
    assert!(rt; !map.has_width(3));
    map.insert(&[9], 1)?;
    assert!(rt; !map.has_width(2));
    assert!(rt; !map.has_width(1));
    let _ = map.remove(&[9]);
    assert!(rt; map.has_width(2));
    Ok(())
}

#[test]
fn a_row_that_is_there_gets_another_value(rt: HostRuntime) -> Result<(), Fail> {
    let mut map = map_of(rt.alloc(), &[(&[1], 10), (&[2], 20), (&[3], 30)])?;
    assert_eq!(rt; map.insert(&[2], 21)?, Some(20));
    assert!(rt; map.insert(&[0], 5)?.is_none());
    assert_lists(&rt, &map, &[(&[0], 5), (&[1], 10), (&[2], 21), (&[3], 30)]);
    Ok(())
}

#[test]
fn rows_leave(rt: HostRuntime) -> Result<(), Fail> {
    let mut map = map_of(
        rt.alloc(),
        &[(&[1], 10), (&[2], 20), (&[3], 30), (&[4], 40)],
    )?;
    assert_eq!(rt; map.remove(&[3]), Some(30));
    assert!(rt; map.remove(&[3]).is_none());
    assert_lists(&rt, &map, &[(&[1], 10), (&[2], 20), (&[4], 40)]);
    for row in [1, 2, 4] {
        assert!(rt; map.remove(&[row]).is_some());
    }
    assert!(rt; map.is_empty());
    assert_lists(&rt, &map, &[]);
    Ok(())
}

#[test]
fn a_row_is_pushed_behind_no_rows(rt: HostRuntime) -> Result<(), Fail> {
    let mut map = RowMap::new(rt.alloc());
    map.push(&[7, -7], 70)?;
    assert_lists(&rt, &map, &[(&[7, -7], 70)]);
    Ok(())
}

#[test]
fn entries_begin_after_a_row(rt: HostRuntime) -> Result<(), Fail> {
    let map = map_of(
        rt.alloc(),
        &[(&[1], 1), (&[3], 3), (&[5], 5), (&[7], 7), (&[9], 9)],
    )?;
    for (after, first) in [(0, 1), (1, 3), (2, 3), (3, 5), (5, 7), (6, 7), (8, 9)] {
        let mut entries = map.entries_after(&[after]);
        assert!(rt; entries.next().is_some_and(|(_, value)| value == first));
    }
    assert!(rt; map.entries_after(&[9]).next().is_none());
    Ok(())
}

/// Asserts that the map's entries that are left after so many come in two parts, so many of them in the first.
fn assert_parts(
    rt: &impl Abort,
    map: &RowMap<i64>,
    passed: usize,
    (part, of): (usize, usize),
    first: usize,
) {
    let mut all = map.entries();
    let mut left = map.entries();
    for _ in 0..passed {
        all.pass();
        left.pass();
    }
    let (mut sooner, later) = left.split(part, of);
    for _ in 0..first {
        assert_eq!(rt; sooner.next(), all.next());
    }
    assert!(rt; sooner.next().is_none());
    for entry in later {
        assert_eq!(rt; all.next(), Some(entry));
    }
    assert!(rt; all.next().is_none());
}

#[test]
fn entries_come_in_two(rt: HostRuntime) -> Result<(), Fail> {
    let mut map = RowMap::with_most(rt.alloc(), 2);
    for number in 0..40 {
        map.insert(&[number], number)?;
    }
    for (passed, part, first) in [
        (0, (1, 2), 20),
        (1, (1, 2), 19),
        (0, (1, 4), 10),
        (0, (3, 4), 30),
        (0, (0, 4), 0),
        (1, (4, 4), 39),
        (0, (5, 4), 40),
        (0, (1, 0), 40),
        (0, (0, 0), 0),
        (40, (1, 2), 0),
        (0, (usize::MAX, 1), 40),
    ] {
        assert_parts(&rt, &map, passed, part, first);
    }
    Ok(())
}

#[test]
fn two_maps_are_one(rt: HostRuntime) -> Result<(), Fail> {
    let map = map_of(
        rt.alloc(),
        &[(&[1], 1), (&[3], 3), (&[4], 4), (&[6], 6), (&[9], 9)],
    )?;
    let more = map_of(
        rt.alloc(),
        &[
            (&[2], 2),
            (&[3], 7),
            (&[4], -4),
            (&[5], 5),
            (&[7], 7),
            (&[8], 8),
        ],
    )?;
    let both: [(&[i64], i64); 8] = [
        (&[1], 1),
        (&[2], 2),
        (&[3], 10),
        (&[5], 5),
        (&[6], 6),
        (&[7], 7),
        (&[8], 8),
        (&[9], 9),
    ];
    assert_lists(&rt, &map.merged(&more, added)?, &both);
    assert_lists(&rt, &more.merged(&map, added)?, &both);
    let mut brought = map.copy(rt.alloc())?;
    brought.merge(&more, added)?;
    assert_lists(&rt, &brought, &both);
    Ok(())
}

#[test]
fn a_map_and_no_rows_are_the_map(rt: HostRuntime) -> Result<(), Fail> {
    let entries: [(&[i64], i64); 3] = [(&[1], 1), (&[2, 7], 2), (&[3], 3)];
    let map = map_of(rt.alloc(), &entries)?;
    let none = map_of(rt.alloc(), &[])?;
    assert_lists(&rt, &map.merged(&none, added)?, &entries);
    assert_lists(&rt, &none.merged(&map, added)?, &entries);
    assert_lists(&rt, &none.merged(&none, added)?, &[]);
    Ok(())
}

/// The next number of a xorshift generator.
fn next(state: u64) -> u64 {
    let a = state ^ (state << 13);
    let b = a ^ (a >> 7);
    b ^ (b << 17)
}

#[test]
fn drawn_calls_leave_what_they_leave_in_an_ordered_map(rt: HostRuntime) -> Result<(), Fail> {
    let mut map = RowMap::with_most(rt.alloc(), 2);
    let mut plain = BTreeMap::new(rt.alloc());
    let mut state: u64 = 88172645463325252;
    for value in 0..600 {
        state = next(state);
        let key = (state % 50) as i64;
        let width = if key % 3 == 0 { 1 } else { 2 };
        let cells = [key, 7];
        let row = &cells[..width];
        if state % 7 < 2 {
            assert_eq!(rt; map.remove(row), plain.remove(&key));
        } else {
            let stood = plain.insert(key, value)?;
            assert_eq!(rt; map.insert(row, value)?, stood);
        }
    }
    assert_eq!(rt; map.len(), plain.len());
    let mut entries = map.entries();
    for (key, value) in &plain {
        let entry = entries.next();
        assert!(rt; entry.is_some_and(|(row, found)| row.first() == Some(key) && found == *value));
    }
    Ok(())
}

/// Rows that lie close together and far apart, in rising order.
const UNEVEN: [i64; 14] = [
    -9223372036854775808,
    -9223372036854775807,
    -7,
    0,
    1,
    2,
    3,
    4,
    100,
    101,
    1000000,
    4611686018427387904,
    9223372036854775806,
    9223372036854775807,
];

/// A map of such rows, in pieces of about `most`.
fn uneven(alloc: Global, most: usize) -> Result<RowMap<i64>, AllocError> {
    let mut map = RowMap::with_most(alloc, most);
    for cell in &UNEVEN {
        map.insert(&[*cell, 1], *cell)?;
    }
    Ok(map)
}

/// Asserts that each of them is found, and none beside it.
fn assert_uneven(rt: &impl Abort, map: &RowMap<i64>) {
    for cell in &UNEVEN {
        assert_eq!(rt; map.get(&[*cell, 1]), Some(*cell));
        assert!(rt; map.get(&[*cell, 0]).is_none());
        let mut entries = map.entries_from(&[*cell]);
        let first = entries.next();
        assert!(rt; first.is_some_and(|(_, found)| found == *cell));
    }
}

#[test]
fn rows_that_lie_unevenly_are_found(rt: HostRuntime) -> Result<(), Fail> {
    assert_uneven(&rt, &uneven(rt.alloc(), 4)?);
    assert_uneven(&rt, &uneven(rt.alloc(), 64)?);
    Ok(())
}

#[test]
fn each_second_number_is_found(rt: HostRuntime) -> Result<(), Fail> {
    let mut map = RowMap::new(rt.alloc());
    for number in 0..2000 {
        if number % 2 == 0 {
            map.insert(&[number], number)?;
        }
    }
    for number in 0..2000 {
        assert_eq!(rt; map.get(&[number]).is_some(), number % 2 == 0);
    }
    Ok(())
}
