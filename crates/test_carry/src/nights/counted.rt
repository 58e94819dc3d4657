// How often a night calls the closures that a view stores: it computes from what changes, and never the view from scratch.
ghost use Rattle.std.specs.Prelude.{◌≡◌, ◌<◌, true, Some, pos, length, slice_index_or};

use crate::nights::carried::carried;
use crate::nights::indexed::{of_a, of_b, tables};
use std::alloc::Global;
use std::sync::atomic::{AtomicUsize, Ordering};
use std::test::Fail;
use test_given::catalogs::{catalog, one_way, over_two};
use wh_carry::{Carried, CarryFault};
use wh_dag::{Catalog, Output};
use wh_formula::{Combiner, Expr, Filter, Pred, RowTest, RowValue};
use wh_row::Bag;

/// Every row passes, and each is counted.
#[derive(Drop)]
struct CountedTest<'c> {
    calls: &'c AtomicUsize,
}

impl<'c> RowTest for CountedTest<'c> {
    ghost can_test = { λ _ _. Unit {0} };

    ghost tests = { λ _ _ answer. answer ≡ true };

    fn test(&self, _row: &[i64]) -> bool {
        self.calls.fetch_add(1, Ordering::SeqCst);
        true
    }
}

/// The cell at a place, and each call is counted.
#[derive(Drop)]
struct CountedCell<'c> {
    place: usize,
    calls: &'c AtomicUsize,
}

impl<'c> RowValue for CountedCell<'c> {
    ghost can_combine = { λ cell row. cell.place < length row };

    ghost combines = { λ cell row answer. answer ≡ Some (slice_index_or row cell.place (pos 0)) };

    fn number(&self, row: &[i64]) -> Option<i64> {
        self.calls.fetch_add(1, Ordering::SeqCst);
        Some(row[self.place])
    }
}

/// a(x,y) and b(y,z), and v, which keeps a.x and b.z where a.y = b.y, of closures that are counted.
fn counted<'c>(
    alloc: Global,
    calls: &'c AtomicUsize,
) -> Result<Catalog<CountedTest<'c>, CountedCell<'c>>, Fail> {
    let mut kept = Vec::new(alloc);
    kept.push(Combiner::new(Expr::column(0), 4, CountedCell { place: 0, calls }))?;
    kept.push(Combiner::new(Expr::column(3), 4, CountedCell { place: 3, calls }))?;
    let join = vec![in alloc; (1, 2)]?;
    let filter = Filter::new(Pred::always(), 4, CountedTest { calls });
    catalog(alloc, over_two(alloc)?, join, filter, Output::Keep(kept))
}

/// Four thousand rows of a, ten of b, and v, which joins them.
fn opened(alloc: Global) -> Result<Vec<Bag>, Fail> {
    let mut of_v = Bag::new(alloc);
    for k in 0..4000_i64 {
        of_v.add(&[k, k % 10 + 100], 1)?;
    }
    let mut opened = tables(alloc, of_a(alloc, 1)?, of_b(alloc)?)?;
    if opened.len() == 3 {
        opened[2] = of_v;
    }
    Ok(opened)
}

/// How many rows v has where the night was carried out.
fn rows_of_v(night: &Option<Result<Carried, CarryFault>>) -> Option<u128> {
    match night {
        Some(Ok(carried)) => match carried.tables.as_slice() {
            [_a, _b, v] => Some(v.total()),
            _ => None,
        },
        _ => None,
    }
}

/// How many rows v has after a night with this change of a. None where it is refused.
fn rows_after<F: RowTest, G: RowValue>(
    alloc: Global,
    catalog: &Catalog<F, G>,
    of_a: Bag,
) -> Result<Option<u128>, Fail> {
    let changes = tables(alloc, of_a, Bag::new(alloc))?;
    let opened = opened(alloc)?;
    let night = carried(alloc, catalog, &opened, &changes, one_way(alloc)?)?;
    Ok(rows_of_v(&night))
}

/// The same of a night that counts in `calls` how often it calls v's closures.
fn rows_counted(alloc: Global, calls: &AtomicUsize, of_a: Bag) -> Result<Option<u128>, Fail> {
    let catalog = counted(alloc, calls)?;
    rows_after(alloc, &catalog, of_a)
}

#[test]
fn a_night_without_changes_calls_no_closure(rt: HostRuntime) -> Result<(), Fail> {
    let alloc = rt.alloc();
    let calls = AtomicUsize::new(0);
    let rows = rows_counted(alloc, &calls, Bag::new(alloc))?;
    assert_eq!(&rt; rows, Some(4000));
    assert_eq!(&rt; calls.load(Ordering::SeqCst), 0);
    Ok(())
}

// A Comp that worked the view out over the tables of before and of after, and took the difference, would call them thousands of times.
#[test]
fn a_row_that_leaves_calls_few_closures(rt: HostRuntime) -> Result<(), Fail> {
    let alloc = rt.alloc();
    let calls = AtomicUsize::new(0);
    let mut of_a = Bag::new(alloc);
    of_a.add(&[0, 0], -1)?;
    let rows = rows_counted(alloc, &calls, of_a)?;
    assert_eq!(&rt; rows, Some(3999));
    let calls = calls.load(Ordering::SeqCst);
    assert!(&rt; calls >= 1 && calls <= 100);
    Ok(())
}
