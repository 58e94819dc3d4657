// The contents of a base, from scratch.

use crate::nights::calls::contents_of;
use std::alloc::Global;
use std::process::Abort;
use std::test::Fail;
use std::thread::Threads;
use test_given::catalogs::{joined, summed};
use test_given::tables::{bag, two_bags};
use wh_maint::MaintFault;
use wh_row::Bag;

// The row that the base has of v is not looked at.
#[test]
fn a_view_is_opened_over_its_children(rt: HostRuntime) -> Result<(), Fail> {
    let alloc = rt.alloc();
    let catalog = joined(alloc)?;
    let mut base = two_bags(alloc, &[(&[1, 10], 2), (&[2, 11], 1)], &[(&[10, 5], 1)])?;
    base.push(bag(alloc, &[(&[9, 9], 1)])?)?;
    let tables = contents_of(&rt, alloc, &catalog, base)
        .ok()
        .expect(&rt, "contents");
    assert!(&rt; tables.len() == 3);
    assert_eq!(&rt; tables[0].count(&[1, 10]), 2);
    assert_eq!(&rt; (tables[2].total(), tables[2].count(&[1, 5])), (2, 2));
    Ok(())
}

/// The contents of a sum of this row of a, so often.
fn summed_up(
    rt: &(impl Threads + Abort + Sync),
    alloc: Global,
    row: &[i64],
    count: i64,
) -> Result<Result<Vec<Bag>, MaintFault>, Fail> {
    let catalog = summed(alloc)?;
    let base = two_bags(alloc, &[(row, count)], &[])?;
    Ok(contents_of(rt, alloc, &catalog, base))
}

#[test]
fn a_base_without_contents_is_refused(rt: HostRuntime) -> Result<(), Fail> {
    let alloc = rt.alloc();
    let sum = summed_up(&rt, alloc, &[1, i64::MAX], 2)?;
    assert!(&rt; matches!(sum, Err(MaintFault::Range(1))));
    let rows = summed_up(&rt, alloc, &[1, 1], 72057594037927937)?;
    assert!(&rt; matches!(rows, Err(MaintFault::Large(1))));
    Ok(())
}
