//! What a Comp adds, made first and kept later.

use crate::nights::calls::comp_of;
use std::alloc::Global;
use std::process::Abort;
use std::test::Fail;
use test_given::catalogs::{Cell, Every, joined};
use test_given::tables::{bag, two_bags};
use wh_carry::NightState;
use wh_dag::Catalog;
use wh_maint::{Pending, are_bags};
use wh_row::Bag;

/// The tables a (1,10) (2,10), b (10,5) and v (1,5) (2,5).
fn tables(alloc: Global) -> Result<Vec<Bag>, Fail> {
    let mut tables = two_bags(alloc, &[(&[1, 10], 1), (&[2, 10], 1)], &[(&[10, 5], 1)])?;
    tables.push(bag(alloc, &[(&[1, 5], 1), (&[2, 5], 1)])?)?;
    Ok(tables)
}

/// The change a -(2,10) +(3,10) alone.
fn changes(alloc: Global) -> Result<Vec<Bag>, Fail> {
    let mut changes = two_bags(alloc, &[(&[2, 10], -1), (&[3, 10], 1)], &[])?;
    changes.push(Bag::new(alloc))?;
    Ok(changes)
}

/// The state before the first expression.
fn first(
    rt: &impl Abort,
    alloc: Global,
    catalog: &Catalog<Every, Cell>,
) -> Result<NightState, Fail> {
    let tables = tables(alloc)?;
    let changes = changes(alloc)?;
    assert!(rt; are_bags(catalog, &tables));
    assert!(rt; are_bags(catalog, &changes));
    Ok(NightState::new(alloc, catalog, &tables, &changes)?)
}

/// What the Comp of v from a adds.
fn added(
    rt: &impl Abort,
    alloc: Global,
    catalog: &Catalog<Every, Cell>,
) -> Result<Option<Pending>, Fail> {
    let tables = tables(alloc)?;
    let changes = changes(alloc)?;
    match comp_of(rt, alloc, catalog, (2, &[0]), &tables, &changes) {
        Ok(added) => Ok(Some(added)),
        Err(_) => Ok(None),
    }
}

/// Whether what is pending counts (2,5) and (3,5) so often.
fn counts(pending: &Pending, of_two: i64, of_three: i64) -> bool {
    pending.count(&[2, 5]) == of_two && pending.count(&[3, 5]) == of_three
}

/// Whether the Comp's value, added in place and then once more beside, counts twice beside.
fn counts_twice(
    rt: &impl Abort,
    alloc: Global,
    catalog: &Catalog<Every, Cell>,
) -> Result<bool, Fail> {
    let mut state = first(rt, alloc, catalog)?;
    let Some(once) = added(rt, alloc, catalog)? else {
        return Ok(false);
    };
    assert!(rt; state.can_add(&once));
    if state.add(&once).is_err() {
        return Ok(false);
    }
    assert!(rt; state.can_add(&once));
    match state.with_added(once) {
        Ok(twice) => Ok(counts(&twice, -2, 2)),
        Err(_) => Ok(false),
    }
}

#[test]
fn a_comp_added_twice(rt: HostRuntime) -> Result<(), Fail> {
    let alloc = rt.alloc();
    let catalog = joined(alloc)?;
    assert!(rt; counts_twice(&rt, alloc, &catalog)?);
    Ok(())
}
