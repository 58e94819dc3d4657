//! Nights that run while readers go through the tables of before.

use std::alloc::Global;
use std::sync::Wait;
use std::test::Fail;
use std::thread::Threads;
use test_given::catalogs::{joined, one_way};
use test_given::tables::{bag, two_bags};
use wh_carry::CarryFault;
use wh_maint::are_bags;
use wh_night::{Gate, NightRequest, NoWatch, Served, Watch, are_fit_for, serve_night};
use wh_row::Bag;
use wh_strategy::check;
use wh_threads::ThreadBudget;

/// The night over a(x,y) with (1,10) and (2,10), b(y,z) with (10,5) and v, which joins them, beside so many readers; a changes
/// so, and b by -(10,5) +(10,6). None where it is not what a night asks for.
pub(crate) fn served<W: Gate + Watch + Sync, R: Threads + Wait + Sync>(
    rt: &R,
    alloc: Global,
    change: &[(&[i64], i64)],
    readers: usize,
    watch: &W,
) -> Result<Option<Result<Served, CarryFault>>, Fail> {
    let mut tables = two_bags(alloc, &[(&[1, 10], 1), (&[2, 10], 1)], &[(&[10, 5], 1)])?;
    tables.push(bag(alloc, &[(&[1, 5], 1), (&[2, 5], 1)])?)?;
    let mut changes = two_bags(alloc, change, &[(&[10, 5], -1), (&[10, 6], 1)])?;
    changes.push(Bag::new(alloc))?;
    let catalog = joined(alloc)?;
    let Ok(correct) = check(alloc, catalog.shape(), one_way(alloc)?) else {
        return Ok(None);
    };
    if !correct.is_of(catalog.shape())
        || !are_bags(&catalog, &tables)
        || !are_bags(&catalog, &changes)
        || readers > 16
    {
        return Ok(None);
    }
    let Ok(true) = are_fit_for(alloc, &catalog, &tables, &changes, &correct) else {
        return Ok(None);
    };
    let budget = ThreadBudget {
        rt,
        alloc,
        threads: 1,
    };
    let asked = NightRequest {
        budget: &budget,
        catalog: &catalog,
        changes: &changes,
        correct: &correct,
        page_keys: 256,
        gate: watch,
    };
    Ok(Some(serve_night(&asked, tables, readers)))
}

/// Whether each of so many readers was given the five rows of before, and v then has (1,6) and (3,6).
pub(crate) fn is_served(answer: &Option<Result<Served, CarryFault>>, readers: usize) -> bool {
    let Some(Ok(served)) = answer else {
        return false;
    };
    for rows in served.rows.as_slice() {
        if *rows != 5 {
            return false;
        }
    }
    served.rows.len() == readers
        && served.report.version == 1
        && served.tables.len() == 3
        && served.tables[2].count(&[1, 6]) == 1
        && served.tables[2].count(&[3, 6]) == 1
        && served.tables[2].total() == 2
}

#[test]
fn night_with_readers(rt: HostRuntime) -> Result<(), Fail> {
    for readers in [0, 2, 16] {
        let change: [(&[i64], i64); 2] = [(&[2, 10], -1), (&[3, 10], 1)];
        let answer = served(&rt, rt.alloc(), &change, readers, &NoWatch)?;
        assert!(rt; is_served(&answer, readers));
    }
    Ok(())
}

#[test]
fn absent_row_with_readers(rt: HostRuntime) -> Result<(), Fail> {
    let answer = served(&rt, rt.alloc(), &[(&[9, 9], -1)], 2, &NoWatch)?;
    let refused = match &answer {
        Some(Err(fault)) => fault.fault.number() == 4 && !fault.started,
        _ => false,
    };
    assert!(rt; refused);
    Ok(())
}
