// Groups of a summary: their counts and sums at the limits, and what the calls on them ask.

use crate::nights::calls::{change_of, comp_of};
use crate::nights::catalogs::{Cell, Every, summed};
use crate::nights::tables::{bag, two_bags};
use std::alloc::{AllocError, Global};
use std::process::Abort;
use std::test::Fail;
use wh_dag::Catalog;
use wh_maint::{MaintFault, Pending, are_bags, are_sources, is_fit};
use wh_row::Bag;

/// The change of the summary, whose table is given, by a change of a. The table's rows may have several widths.
fn change(
    rt: &impl Abort,
    alloc: Global,
    table: &[(&[i64], i64)],
    of_a: &[(&[i64], i64)],
) -> Result<Result<Bag, MaintFault>, Fail> {
    let table = bag(alloc, table)?;
    let changes = two_bags(alloc, of_a, &[])?;
    let catalog = summed(alloc)?;
    let before = two_bags(alloc, &[], &[])?;
    Ok(change_of_sums(rt, alloc, &catalog, &before, &changes, &table))
}

/// The change of the summary with this table, where these are the tables before the changes.
fn change_of_sums(
    rt: &impl Abort,
    alloc: Global,
    catalog: &Catalog<Every, Cell>,
    tables: &[Bag],
    changes: &[Bag],
    table: &Bag,
) -> Result<Bag, MaintFault> {
    let pending = comp_of(rt, alloc, catalog, (1, &[0]), tables, changes)?;
    assert_eq!(rt; (pending.view(), pending.sums()), (1, 1));
    change_of(rt, alloc, catalog, 1, &pending, table)
}

#[test]
fn a_count_or_a_sum_leaves_i64(rt: HostRuntime) -> Result<(), Fail> {
    let alloc = rt.alloc();
    let more: [(&[i64], i64); 1] = [(&[1, 1], 1)];
    let both = change(&rt, alloc, &[(&[1, i64::MAX, i64::MAX], 1)], &more)?;
    assert!(&rt; matches!(both, Err(MaintFault::Large(1))));
    let sum = change(&rt, alloc, &[(&[1, 1, i64::MAX], 1)], &more)?;
    assert!(&rt; matches!(sum, Err(MaintFault::Range(1))));
    Ok(())
}

// The sums of a group that leaves are not looked at.
#[test]
fn a_group_that_leaves_has_no_sum(rt: HostRuntime) -> Result<(), Fail> {
    let alloc = rt.alloc();
    let left = change(&rt, alloc, &[(&[1, 1, i64::MIN], 1)], &[(&[1, 1], -1)])?;
    assert!(&rt; left.is_ok_and(|own| own.total() == 1 && own.count(&[1, 1, i64::MIN]) == -1));
    Ok(())
}

/// Whether these rows count so, and no other does.
fn is_change(change: &Bag, rows: &[(&[i64], i64)]) -> bool {
    for (row, count) in rows {
        if change.count(row) != *count {
            return false;
        }
    }
    change.len() == rows.len()
}

// A row leaves and another comes: the counts of both groups stay, and their sums do not.
#[test]
fn a_group_changes_in_its_sum_alone(rt: HostRuntime) -> Result<(), Fail> {
    let alloc = rt.alloc();
    let of_a: [(&[i64], i64); 4] = [(&[1, 2], -1), (&[1, 5], 1), (&[3, 1], 1), (&[3, 4], -1)];
    let both = change(&rt, alloc, &[(&[1, 2, 7], 1), (&[2, 1, 1], 1)], &of_a)?;
    assert!(&rt; both.is_ok_and(|own| is_change(&own, &[(&[1, 2, 7], -1), (&[1, 2, 10], 1)])));
    let large = change(&rt, alloc, &[(&[1, 2, i64::MAX], 1)], &of_a)?;
    assert!(&rt; matches!(large, Err(MaintFault::Range(1))));
    Ok(())
}

// Each of these rows starts with a 1: a row of the group that has no cells, one of a group of two cells, and that of the group 1.
#[test]
fn a_group_of_other_cells_stays(rt: HostRuntime) -> Result<(), Fail> {
    let alloc = rt.alloc();
    let others: [(&[i64], i64); 2] = [(&[1, 2], 1), (&[1, 1, 1, 5], 1)];
    let more: [(&[i64], i64); 1] = [(&[1, 3], 1)];
    let new = change(&rt, alloc, &others, &more)?;
    assert!(&rt; new.is_ok_and(|own| is_change(&own, &[(&[1, 1, 3], 1)])));
    let all: [(&[i64], i64); 3] = [others[0], others[1], (&[1, 2, 7], 1)];
    let both = change(&rt, alloc, &all, &more)?;
    assert!(&rt; both.is_ok_and(|own| is_change(&own, &[(&[1, 2, 7], -1), (&[1, 3, 10], 1)])));
    Ok(())
}

#[test]
fn tables_are_fit_or_not(rt: HostRuntime) -> Result<(), Fail> {
    let alloc = rt.alloc();
    let catalog = summed(alloc)?;
    for (rows, wanted) in &TABLES {
        let table = bag(alloc, rows)?;
        assert_eq!(&rt; is_fit_for_sums(&rt, alloc, &catalog, &table)?, *wanted);
    }
    Ok(())
}

static TABLES: [(&[(&[i64], i64)], bool); 6] = [
    (&[], true),
    (&[(&[1, 2, 0], 1), (&[2, 1, 0], 1)], true),
    (&[(&[1, 0, 0], 1)], false),
    (&[(&[1, 2, 0], 2)], false),
    (&[(&[1, 2, 0], 1), (&[1, 3, 0], 1)], false),
    (&[(&[3], 1)], false),
];

/// Whether the table is fit for the summary.
fn is_fit_for_sums(
    rt: &impl Abort,
    alloc: Global,
    catalog: &Catalog<Every, Cell>,
    table: &Bag,
) -> Result<bool, AllocError> {
    assert!(rt; catalog.shape().len() == 2 && !catalog.is_base(1));
    is_fit(alloc, catalog, 1, table)
}

#[test]
fn bags_sources_and_pendings_are_told_apart(rt: HostRuntime) -> Result<(), Fail> {
    let alloc = rt.alloc();
    let catalog = summed(alloc)?;
    tells_bags_apart(&rt, alloc, &catalog)?;
    tells_sources_apart(&rt, &catalog);
    for (view, sums, wanted) in [(1, 1, true), (1, 0, false), (0, 1, false)] {
        let pending = Pending::new(alloc, view, sums)?;
        assert_eq!(&rt; is_for_sums(&rt, &pending, &catalog), wanted);
    }
    Ok(())
}

/// Bags of another width, and too few of them, are none of the catalogue's.
fn tells_bags_apart(
    rt: &impl Abort,
    alloc: Global,
    catalog: &Catalog<Every, Cell>,
) -> Result<(), Fail> {
    let wide = two_bags(alloc, &[(&[1, 2], 1)], &[(&[1, 2], 1)])?;
    assert!(rt; !are_bags(catalog, &wide));
    assert!(rt; !are_bags(catalog, &[]));
    Ok(())
}

/// A Comp has a child as its source, and not none, one twice, or the view itself.
fn tells_sources_apart(rt: &impl Abort, catalog: &Catalog<Every, Cell>) {
    assert!(rt; catalog.shape().len() == 2 && !catalog.is_base(1));
    assert!(rt; are_sources(catalog, 1, &[0]));
    assert!(rt; !are_sources(catalog, 1, &[]));
    assert!(rt; !are_sources(catalog, 1, &[0, 0]));
    assert!(rt; !are_sources(catalog, 1, &[1]));
}

/// Whether what is pending is of the summary.
fn is_for_sums(rt: &impl Abort, pending: &Pending, catalog: &Catalog<Every, Cell>) -> bool {
    assert!(rt; catalog.shape().len() == 2 && !catalog.is_base(1));
    pending.is_for(catalog, 1)
}
