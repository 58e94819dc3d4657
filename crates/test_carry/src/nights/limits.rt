// Where counts leave their limits: what several Comps add, and a row of a Comp.

use crate::nights::calls::{comp_of, merge_into};
use std::alloc::Global;
use std::process::Abort;
use std::test::Fail;
use test_given::catalogs::kept;
use test_given::tables::two_bags;
use wh_maint::{MaintFault, Pending};

/// What a Comp adds that reads this many rows (3,9).
fn added(rt: &impl Abort, alloc: Global, count: i64) -> Result<Option<Pending>, Fail> {
    let tables = two_bags(alloc, &[], &[])?;
    let changes = two_bags(alloc, &[(&[3, 9], count)], &[])?;
    let catalog = kept(alloc)?;
    Ok(comp_of(rt, alloc, &catalog, (1, &[0]), &tables, &changes).ok())
}

// 128 times 2^56 is 2^63.
#[test]
fn a_count_of_two_comps_leaves_i64(rt: HostRuntime) -> Result<(), Fail> {
    let alloc = rt.alloc();
    let one = added(&rt, alloc, 72057594037927936)?.expect(&rt, "a comp");
    let all = added(&rt, alloc, 72057594037927936)?.expect(&rt, "a comp");
    grows_127_times_and_no_further(&rt, &one, all);
    Ok(())
}

/// What is pending takes the same Comp 126 times more, and then its count would leave i64.
fn grows_127_times_and_no_further(rt: &impl Abort, one: &Pending, all: Pending) {
    let mut all = all;
    for _time in 0..126 {
        assert!(rt; merge_into(rt, &mut all, one).is_ok());
    }
    assert!(rt; matches!(merge_into(rt, &mut all, one), Err(MaintFault::Large(1))));
    assert_eq!(rt; all.count(&[9]), 9151314442816847872);
}

#[test]
fn a_row_of_more_than_two_to_the_56_is_refused(rt: HostRuntime) -> Result<(), Fail> {
    assert!(&rt; added(&rt, rt.alloc(), 72057594037927937)?.is_none());
    Ok(())
}
