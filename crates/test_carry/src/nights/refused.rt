//! A Comp of two_table_night, any of whose calls for memory may be refused: what it was given is as it was, and the same call then
//! gives the night's contents.

use crate::nights::calls::comp_of;
use std::alloc::Global;
use std::process::Abort;
use std::test::Fail;
use test_given::catalogs::{Cell, Every, joined};
use test_given::tables::{bag, two_bags};
use wh_dag::Catalog;
use wh_maint::Pending;
use wh_row::Bag;

/// The number of want of memory.
const MEMORY: u8 = 3;

/// Whether these are the tables and the changes of before.
fn are_as_before(tables: &[Bag], changes: &[Bag]) -> bool {
    let ([a, b, v], [of_a, of_b, of_v]) = (tables, changes) else {
        return false;
    };
    let tables_are = a.count(&[1, 10]) == 1
        && a.count(&[2, 10]) == 1
        && a.total() == 2
        && b.count(&[10, 5]) == 1
        && b.total() == 1
        && v.count(&[1, 5]) == 1
        && v.count(&[2, 5]) == 1
        && v.total() == 2;
    tables_are
        && of_a.count(&[2, 10]) == -1
        && of_a.count(&[3, 10]) == 1
        && of_b.count(&[10, 5]) == -1
        && of_b.count(&[10, 6]) == 1
        && of_v.count(&[1, 5]) == 0
}

/// What the Comp of v from a and b adds. Where memory is refused, all is as before, and the call is made once more.
fn comp_again(
    rt: &impl Abort,
    alloc: Global,
    catalog: &Catalog<Every, Cell>,
    tables: &[Bag],
    changes: &[Bag],
) -> Result<Pending, Fail> {
    for _time in 0..2 {
        match comp_of(rt, alloc, catalog, (2, &[0, 1]), tables, changes) {
            Ok(added) => return Ok(added),
            Err(fault) => assert_eq!(rt; fault.number(), MEMORY),
        }
        assert!(rt; are_as_before(tables, changes));
    }
    Err(Fail::from("want of memory"))
}

#[test]
fn refused_allocation_in_comp(rt: HostRuntime) -> Result<(), Fail> {
    let alloc = rt.alloc();
    let catalog = joined(alloc)?;
    let mut tables = two_bags(alloc, &[(&[1, 10], 1), (&[2, 10], 1)], &[(&[10, 5], 1)])?;
    tables.push(bag(alloc, &[(&[1, 5], 1), (&[2, 5], 1)])?)?;
    let mut changes = two_bags(
        alloc,
        &[(&[2, 10], -1), (&[3, 10], 1)],
        &[(&[10, 5], -1), (&[10, 6], 1)],
    )?;
    changes.push(Bag::new(alloc))?;
    let added = comp_again(&rt, alloc, &catalog, &tables, &changes)?;
    assert!(rt; are_as_before(&tables, &changes));
    // v has (1,5) and (2,5), and in the end (1,6) and (3,6).
    assert_eq!(rt; (added.count(&[1, 5]), added.count(&[2, 5])), (-1, -1));
    assert_eq!(rt; (added.count(&[1, 6]), added.count(&[3, 6])), (1, 1));
    assert_eq!(rt; (added.count(&[2, 6]), added.count(&[3, 5])), (0, 0));
    Ok(())
}
