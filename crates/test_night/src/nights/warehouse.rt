//! Warehouses for nights of two tables and the view that joins them.

ghost use Rattle.std.specs.Prelude.{◌≡◌, [], IfOk, IfSome};
ghost use Rattle.std.specs.List.{All};
ghost use Rattle.wh_maint.specs.Asked.{AreBags};
ghost use Rattle.wh_maint.specs.Comp.{bag_at};
ghost use Rattle.wh_carry.specs.Fit.{AreFitFor};
ghost use Rattle.wh_store.specs.Windows.{Shows, current};
ghost use Rattle.wh_night.specs.Tonight.{newest_in};

use crate::nights::run::{Answer, table_of};
use std::alloc::Global;
use std::sync::Wait;
use std::test::Fail;
use std::thread::Threads;
use test_given::catalogs::{Cell, Every};
use test_given::tables::{bag, two_bags};
use wh_dag::Catalog;
use wh_desk::{Desk, Writer, open_warehouse};
use wh_maint::are_bags;
use wh_night::{Gate, NightRequest, are_fit_for, night};
use wh_row::Bag;
use wh_store::Store;
use wh_strategy::Correct;
use wh_threads::ThreadBudget;

/// Only the caller's thread.
pub(crate) fn one_thread<R: Threads + Sync>(rt: &R, alloc: Global) -> ThreadBudget<'_, R>
    ensures { result.threads ≡ 1 }
{
    ThreadBudget {
        rt,
        alloc,
        threads: 1,
    }
}

/// A store of these tables. None where they are not what this night asks for.
pub(crate) fn store_of(
    alloc: Global,
    catalog: &Catalog<Every, Cell>,
    tables: Vec<Bag>,
    changes: &[Bag],
    correct: &Correct,
) -> Result<Option<Store>, Fail>
    requires judged { correct.now.children ≡ catalog.now.views.children }
    requires changes { AreBags catalog.now changes.now }
    ensures new { IfOk result (λ made. IfSome made (λ store. Shows store (current store) [])) }
    ensures limit { IfOk result (λ made. IfSome made (λ store. store.limit ≡ 2)) }
    ensures bags { IfOk result (λ made. IfSome made (λ store. AreBags catalog.now (current store))) }
    ensures fit { IfOk result (λ made. IfSome made (λ store. AreFitFor catalog.now (bag_at changes.now) correct.now.list (bag_at (current store)))) }
{
    if !are_bags(catalog, &tables) {
        return Ok(None);
    }
    let Ok(true) = are_fit_for(alloc, catalog, &tables, changes, correct) else {
        return Ok(None);
    };
    Ok(Some(Store::new(alloc, &tables, 2)?))
}

/// A warehouse of these tables with two desks. None where they are not what this night asks for.
pub(crate) fn warehouse_of<R: Wait>(
    rt: &R,
    alloc: Global,
    catalog: &Catalog<Every, Cell>,
    tables: Vec<Bag>,
    changes: &[Bag],
    correct: &Correct,
) -> Result<Option<(Writer, Vec<Desk>)>, Fail>
    requires judged { correct.now.children ≡ catalog.now.views.children }
    requires changes { AreBags catalog.now changes.now }
    ensures bags { IfOk result (λ made. IfSome made (λ w. AreBags catalog.now (newest_in w.0.ledger))) }
    ensures fit { IfOk result (λ made. IfSome made (λ w. AreFitFor catalog.now (bag_at changes.now) correct.now.list (bag_at (newest_in w.0.ledger)))) }
    ensures same { IfOk result (λ made. IfSome made (λ w. All (λ d. d.book ≡ w.0.book) w.1.items)) }
{
    match store_of(alloc, catalog, tables, changes, correct)? {
        Some(store) => Ok(open_warehouse(rt, alloc, store, 2).ok()),
        None => Ok(None),
    }
}

/// Carries the strategy out over a writer of these tables, with this gate, and ends the writer. None where they are not what a night asks for.
pub(crate) fn night_at<R: Threads + Wait + Sync, T: Gate + Sync>(
    budget: &ThreadBudget<'_, R>,
    catalog: &Catalog<Every, Cell>,
    tables: Vec<Bag>,
    changes: &[Bag],
    correct: &Correct,
    gate: &T,
) -> Result<Option<Answer>, Fail>
    requires { budget.now.threads ≡ 1 }
{
    let rt = budget.rt;
    let alloc = budget.alloc;
    if !correct.is_of(catalog.shape()) || !are_bags(catalog, changes) {
        return Ok(None);
    }
    let Some((mut writer, _desks)) = warehouse_of(rt, alloc, catalog, tables, changes, correct)?
    else {
        return Ok(None);
    };
    let asked = NightRequest {
        budget,
        catalog,
        changes,
        correct,
        page_keys: 256,
        gate,
    };
    let night = night(&mut writer, &asked);
    let table = table_of(&writer);
    writer.end(rt);
    Ok(Some(Answer { night, table }))
}

/// The rows of a and b, and these of v.
pub(crate) fn opening(alloc: Global, of_v: &[(&[i64], i64)]) -> Result<Vec<Bag>, Fail> {
    let mut tables = two_bags(alloc, &[(&[1, 10], 1), (&[2, 10], 1)], &[(&[10, 5], 1)])?;
    tables.push(bag(alloc, of_v)?)?;
    Ok(tables)
}

/// This change of a, that of b, which is -(10,5) +(10,6), and none of v.
pub(crate) fn changes(alloc: Global, of_a: &[(&[i64], i64)]) -> Result<Vec<Bag>, Fail> {
    let mut changes = two_bags(alloc, of_a, &[(&[10, 5], -1), (&[10, 6], 1)])?;
    changes.push(Bag::new(alloc))?;
    Ok(changes)
}
