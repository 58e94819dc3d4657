//! Nights that are published: two tables and the view that joins them, over a writer.

ghost use Rattle.std.specs.Prelude.{◌≤◌};

use crate::nights::tested::tested_night;
use std::alloc::Global;
use std::sync::Wait;
use std::test::Fail;
use std::thread::Threads;
use test_given::catalogs::{Cell, Every, joined, one_way};
use test_given::tables::{bag, two_bags};
use wh_carry::{Report, are_fit};
use wh_dag::Catalog;
use wh_desk::{Writer, open_warehouse};
use wh_maint::are_bags;
use wh_night::{Aftermath, NightFault, NightRequest, NoGate};
use wh_row::Bag;
use wh_store::Store;
use wh_strategy::{Correct, check};
use wh_threads::ThreadBudget;

/// What a night answered, and the view's table after it, if it has one that nothing waits behind.
#[derive(Drop)]
pub(crate) struct Answer {
    pub(crate) night: Result<Report, NightFault>,
    pub(crate) table: Option<Bag>,
}

/// The table of view 2, where there is one and nothing is held.
pub(crate) fn table_of(writer: &Writer) -> Option<Bag> {
    if writer.held() || writer.views() <= 2 {
        return None;
    }
    writer.table(2).ok()
}

/// Carries the strategy out over a writer of these tables, and ends the writer. None where they are not what a night asks for.
fn over_writer<R: Threads + Wait + Sync>(
    budget: &ThreadBudget<'_, R>,
    catalog: &Catalog<Every, Cell>,
    tables: Vec<Bag>,
    changes: &[Bag],
    correct: &Correct,
) -> Result<Option<Answer>, Fail>
    requires { (1 ≤ budget.now.threads) × (budget.now.threads ≤ 16) }
{
    let alloc = budget.alloc;
    if !are_bags(catalog, &tables) || !are_fit(alloc, catalog, &tables)? {
        return Ok(None);
    }
    let store = Store::new(alloc, &tables, 2)?;
    let Ok((mut writer, _desks)) = open_warehouse(budget.rt, alloc, store, 1) else {
        return Ok(None);
    };
    let asked = NightRequest {
        budget,
        catalog,
        changes,
        correct,
        page_keys: 256,
        gate: &NoGate,
    };
    let night = tested_night(&mut writer, &asked);
    let table = table_of(&writer);
    writer.end(budget.rt);
    match night? {
        Some(night) => Ok(Some(Answer { night, table })),
        None => Ok(None),
    }
}

/// Carries the one-way strategy out from these opening rows of v, with this change of a, and b -(10,5) +(10,6), with one worker.
fn published<R: Threads + Wait + Sync>(
    rt: &R,
    alloc: Global,
    opening: &[(&[i64], i64)],
    change: &[(&[i64], i64)],
) -> Result<Option<Answer>, Fail> {
    published_by(rt, alloc, opening, change, 1)
}

/// The same with so many workers.
fn published_by<R: Threads + Wait + Sync>(
    rt: &R,
    alloc: Global,
    opening: &[(&[i64], i64)],
    change: &[(&[i64], i64)],
    workers: usize,
) -> Result<Option<Answer>, Fail>
    requires { (1 ≤ workers) × (workers ≤ 16) }
{
    let mut tables = two_bags(alloc, &[(&[1, 10], 1), (&[2, 10], 1)], &[(&[10, 5], 1)])?;
    tables.push(bag(alloc, opening)?)?;
    let mut changes = two_bags(alloc, change, &[(&[10, 5], -1), (&[10, 6], 1)])?;
    changes.push(Bag::new(alloc))?;
    let catalog = joined(alloc)?;
    let Ok(correct) = check(alloc, catalog.shape(), one_way(alloc)?) else {
        return Ok(None);
    };
    let budget = ThreadBudget {
        rt,
        alloc,
        threads: workers,
    };
    over_writer(&budget, &catalog, tables, &changes, &correct)
}

/// Whether the night has made version 1 with these rows of its steps, and v then has exactly these rows, once each.
pub(crate) fn ends_with(answer: &Option<Answer>, steps: &[u128], rows: &[&[i64]]) -> bool {
    match answer {
        Some(
            Answer {
                night: Ok(report),
                table: Some(table),
            },
        ) => report.version == 1 && has_steps(report, steps) && has_rows(table, rows),
        _ => false,
    }
}

fn has_steps(report: &Report, rows: &[u128]) -> bool {
    let steps = report.steps.as_slice();
    if steps.len() != rows.len() {
        return false;
    }
    for place in 0..rows.len() {
        if place >= steps.len() || steps[place].1 != rows[place] {
            return false;
        }
    }
    true
}

pub(crate) fn has_rows(table: &Bag, rows: &[&[i64]]) -> bool {
    for row in rows {
        if table.count(row) != 1 {
            return false;
        }
    }
    table.total() == rows.len() as u128
}

#[test]
fn two_table_night(rt: HostRuntime) -> Result<(), Fail> {
    let opening: [(&[i64], i64); 2] = [(&[1, 5], 1), (&[2, 5], 1)];
    let answer = published(&rt, rt.alloc(), &opening, &[(&[2, 10], -1), (&[3, 10], 1)])?;
    assert!(rt; ends_with(&answer, &[3, 2, 4, 2, 4], &[&[1, 6], &[3, 6]]));
    Ok(())
}

#[test]
fn workers_agree(rt: HostRuntime) -> Result<(), Fail> {
    let opening: [(&[i64], i64); 2] = [(&[1, 5], 1), (&[2, 5], 1)];
    let change: [(&[i64], i64); 2] = [(&[2, 10], -1), (&[3, 10], 1)];
    let one = published_by(&rt, rt.alloc(), &opening, &change, 1)?;
    let two = published_by(&rt, rt.alloc(), &opening, &change, 2)?;
    let sixteen = published_by(&rt, rt.alloc(), &opening, &change, 16)?;
    assert!(&rt; ends_with(&one, &[3, 2, 4, 2, 4], &[&[1, 6], &[3, 6]]));
    assert!(&rt; ends_with(&two, &[3, 2, 4, 2, 4], &[&[1, 6], &[3, 6]]));
    assert!(&rt; ends_with(&sixteen, &[3, 2, 4, 2, 4], &[&[1, 6], &[3, 6]]));
    Ok(())
}

#[test]
fn stray_row(rt: HostRuntime) -> Result<(), Fail> {
    let opening: [(&[i64], i64); 3] = [(&[1, 5], 1), (&[2, 5], 1), (&[7, 7], 1)];
    let answer = published(&rt, rt.alloc(), &opening, &[(&[2, 10], -1), (&[3, 10], 1)])?;
    assert!(rt; ends_with(&answer, &[3, 2, 4, 2, 4], &[&[1, 6], &[3, 6], &[7, 7]]));
    Ok(())
}

#[test]
fn absent_row(rt: HostRuntime) -> Result<(), Fail> {
    let opening: [(&[i64], i64); 2] = [(&[1, 5], 1), (&[2, 5], 1)];
    let answer = published(&rt, rt.alloc(), &opening, &[(&[9, 9], -1)])?;
    let refused = match &answer {
        Some(
            Answer {
                night: Err(fault),
                table: Some(table),
            },
        ) => {
            fault.cause.number() == 4
                && fault.left == Aftermath::Untouched
                && has_rows(table, &[&[1, 5], &[2, 5]])
        }
        _ => false,
    };
    assert!(rt; refused);
    Ok(())
}
