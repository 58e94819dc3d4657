//! Nights over two tables and the view that joins them.

use std::alloc::Global;
use std::test::Fail;
use test_given::catalogs::{joined, one_way};
use test_given::tables::{bag, two_bags};
use wh_carry::{Carried, CarryFault, are_fit, carry};
use wh_dag::Catalog;
use wh_formula::{RowTest, RowValue};
use wh_maint::are_bags;
use wh_row::Bag;
use wh_strategy::{Strategy, check};

/// The rows of a and of b, and these of v.
fn tables(alloc: Global, of_v: &[(&[i64], i64)]) -> Result<Vec<Bag>, Fail> {
    let mut tables = two_bags(alloc, &[(&[1, 10], 1), (&[2, 10], 1)], &[(&[10, 5], 1)])?;
    tables.push(bag(alloc, of_v)?)?;
    Ok(tables)
}

/// This change of a, that of b, and none of v.
fn changes(alloc: Global, of_a: &[(&[i64], i64)]) -> Result<Vec<Bag>, Fail> {
    let mut changes = two_bags(alloc, of_a, &[(&[10, 5], -1), (&[10, 6], 1)])?;
    changes.push(Bag::new(alloc))?;
    Ok(changes)
}

/// Carries the list out from these tables, with these changes. None where they are not what a night asks for.
pub(crate) fn carried<F: RowTest, G: RowValue>(
    alloc: Global,
    catalog: &Catalog<F, G>,
    tables: &[Bag],
    changes: &[Bag],
    list: Strategy,
) -> Result<Option<Result<Carried, CarryFault>>, Fail> {
    let Ok(correct) = check(alloc, catalog.shape(), list) else {
        return Ok(None);
    };
    if !are_bags(catalog, tables) || !are_bags(catalog, changes) {
        return Ok(None);
    }
    if !are_fit(alloc, catalog, tables)? {
        return Ok(None);
    }
    Ok(Some(carry(alloc, catalog, tables, changes, &correct)))
}

/// Carries the one-way strategy out from these opening rows of v, with this change of a, and b -(10,5) +(10,6).
fn night(
    alloc: Global,
    opening: &[(&[i64], i64)],
    change: &[(&[i64], i64)],
) -> Result<Option<Result<Carried, CarryFault>>, Fail> {
    let tables = tables(alloc, opening)?;
    let changes = changes(alloc, change)?;
    let list = one_way(alloc)?;
    let catalog = joined(alloc)?;
    carried(alloc, &catalog, &tables, &changes, list)
}

/// Whether the night was carried out with these rows of its steps, and v then has exactly these rows, once each.
fn ends_with(night: &Option<Result<Carried, CarryFault>>, steps: &[u128], rows: &[&[i64]]) -> bool {
    match night {
        Some(Ok(carried)) => {
            has_steps(carried, steps)
                && carried.tables.len() == 3
                && has_rows(&carried.tables[2], rows)
        }
        _ => false,
    }
}

/// Whether the report has a step for each of these numbers of rows, in their order.
fn has_steps(carried: &Carried, rows: &[u128]) -> bool {
    let steps = carried.report.steps.as_slice();
    if steps.len() != rows.len() {
        return false;
    }
    for place in 0..rows.len() {
        if place >= steps.len() || steps[place].1 != rows[place] {
            return false;
        }
    }
    true
}

/// Whether the table has just these rows, each of which counts once.
fn has_rows(table: &Bag, rows: &[&[i64]]) -> bool {
    for row in rows {
        if table.count(row) != 1 {
            return false;
        }
    }
    table.total() == rows.len() as u128
}

#[test]
fn two_table_night(rt: HostRuntime) -> Result<(), Fail> {
    let opening: [(&[i64], i64); 2] = [(&[1, 5], 1), (&[2, 5], 1)];
    let night = night(rt.alloc(), &opening, &[(&[2, 10], -1), (&[3, 10], 1)])?;
    assert!(rt; ends_with(&night, &[3, 2, 4, 2, 4], &[&[1, 6], &[3, 6]]));
    Ok(())
}

#[test]
fn stray_row(rt: HostRuntime) -> Result<(), Fail> {
    let opening: [(&[i64], i64); 3] = [(&[1, 5], 1), (&[2, 5], 1), (&[7, 7], 1)];
    let night = night(rt.alloc(), &opening, &[(&[2, 10], -1), (&[3, 10], 1)])?;
    assert!(rt; ends_with(&night, &[3, 2, 4, 2, 4], &[&[1, 6], &[3, 6], &[7, 7]]));
    Ok(())
}

#[test]
fn absent_row(rt: HostRuntime) -> Result<(), Fail> {
    let opening: [(&[i64], i64); 2] = [(&[1, 5], 1), (&[2, 5], 1)];
    let night = night(rt.alloc(), &opening, &[(&[9, 9], -1)])?;
    let refused = match &night {
        Some(Err(refused)) => refused.fault.number() == 4 && !refused.started,
        _ => false,
    };
    assert!(rt; refused);
    Ok(())
}
