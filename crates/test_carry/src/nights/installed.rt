// What tables become by their changes.

use std::alloc::Global;
use std::test::Fail;
use test_given::tables::bag;
use wh_maint::{MaintFault, changed, install};
use wh_row::Bag;

/// The number of what was refused, 0 for nothing.
fn refusal<T: Drop>(answer: Result<T, MaintFault>) -> u8 {
    match answer {
        Ok(_given) => 0,
        Err(fault) => fault.number(),
    }
}

/// The view and the first cell of the row that is absent, if one is.
fn absent(answer: Result<(), MaintFault>) -> Option<(usize, i64)> {
    match answer {
        Err(MaintFault::Absent(view, row)) => match row.cells() {
            [first, ..] => Some((view, *first)),
            _ => None,
        },
        Err(_other) => None,
        Ok(()) => None,
    }
}

/// How often the row counts in what is installed.
fn count_after(alloc: Global, table: &Bag, delta: &Bag, row: &[i64]) -> Option<i64> {
    match install(alloc, 0, table, delta) {
        Ok(new) => Some(new.count(row)),
        Err(_fault) => None,
    }
}

#[test]
fn a_row_that_is_not_there_is_absent(rt: HostRuntime) -> Result<(), Fail> {
    let table = bag(rt.alloc(), &[(&[1, 2], 1), (&[3, 4], 1)])?;
    let delta = bag(rt.alloc(), &[(&[3, 4], -1), (&[5, 5], -3), (&[9, 9], -1)])?;
    let told = absent(changed(rt.alloc(), 2, &table, &delta));
    assert!(&rt; told.is_some_and(|(view, first)| view == 2 && first == 5));
    Ok(())
}

#[test]
fn a_change_is_installed_or_too_large(rt: HostRuntime) -> Result<(), Fail> {
    let alloc = rt.alloc();
    let table = bag(alloc, &[(&[1], 1), (&[2], 9223372036854775807)])?;
    let delta = bag(alloc, &[(&[1], -1), (&[2], -1)])?;
    assert_eq!(&rt; refusal(changed(alloc, 0, &table, &delta)), 0);
    assert_eq!(&rt; count_after(alloc, &table, &delta, &[1]), Some(0));
    assert_eq!(&rt;
        count_after(alloc, &table, &delta, &[2]),
        Some(9223372036854775806)
    );
    let more = bag(alloc, &[(&[2], 1)])?;
    assert_eq!(&rt; refusal(install(alloc, 0, &table, &more)), 1);
    assert_eq!(&rt; refusal(changed(alloc, 0, &table, &more)), 1);
    Ok(())
}
