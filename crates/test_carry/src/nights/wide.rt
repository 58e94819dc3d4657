// Four thousand rows joined with ten, or summed up, by one thread, by two, and by more.
ghost use Rattle.std.specs.Prelude.{◌≡◌};

use crate::nights::calls::{Asked, change_of, comp_of_threads, value_of_threads};
use crate::nights::indexed::{of_a, of_b, tables};
use std::alloc::Global;
use std::test::Fail;
use test_given::catalogs::{Cell, Every, catalog, joined, over_one, summed};
use wh_dag::{Catalog, Output};
use wh_formula::{Combiner, Expr, Filter, Pred};
use wh_row::Bag;

/// How many threads are asked for.
const THREADS: [usize; 5] = [1, 2, 3, 4, 16];

#[test]
fn threads_join_four_thousand_rows(rt: HostRuntime) -> Result<(), Fail> {
    let alloc = rt.alloc();
    let catalog = joined(alloc)?;
    let tables = tables(alloc, of_a(alloc, 1)?, of_b(alloc)?)?;
    for threads in &THREADS {
        let value = value_of_threads(&rt, *threads, alloc, &catalog, 2, &tables);
        let value = value.ok().expect(&rt, "a value");
        assert_eq!(&rt; value.total(), 4000);
        assert_eq!(&rt; value.len(), 4000);
        assert_eq!(&rt; value.count(&[0, 100]), 1);
        assert_eq!(&rt; value.count(&[1999, 109]), 1);
        assert_eq!(&rt; value.count(&[2000, 100]), 1);
        assert_eq!(&rt; value.count(&[3999, 109]), 1);
        assert_eq!(&rt; value.count(&[3999, 108]), 0);
    }
    Ok(())
}

#[test]
fn all_rows_of_a_leave_by_threads(rt: HostRuntime) -> Result<(), Fail> {
    let alloc = rt.alloc();
    let catalog = joined(alloc)?;
    let old = tables(alloc, of_a(alloc, 1)?, of_b(alloc)?)?;
    let changes = tables(alloc, of_a(alloc, -1)?, Bag::new(alloc))?;
    let asked = Asked {
        view: 2,
        sources: &[0],
        tables: &old,
        changes: &changes,
    };
    for threads in &THREADS {
        let pending = comp_of_threads(&rt, *threads, alloc, &catalog, &asked);
        let pending = pending.ok().expect(&rt, "a comp");
        let change = change_of(&rt, alloc, &catalog, 2, &pending, &Bag::new(alloc));
        let change = change.ok().expect(&rt, "a change");
        assert_eq!(&rt; change.total(), 4000);
        assert_eq!(&rt; change.count(&[0, 100]), -1);
        assert!(&rt; change.rows().all(|(_, count)| count == -1));
    }
    Ok(())
}

/// a(x,g), and v with the sum of a.x for each a.g.
fn summed_by_second(alloc: Global) -> Result<Catalog<Every, Cell>, Fail> {
    let mut sums = Vec::new(alloc);
    sums.push(Combiner::new(Expr::column(0), 2, Cell { place: 0 }))?;
    let group = vec![in alloc; 1]?;
    let filter = Filter::new(Pred::always(), 2, Every);
    let shape = over_one(alloc)?;
    let out = Output::Sums { group, sums };
    catalog(alloc, shape, Vec::new(alloc), filter, out)
}

/// These rows of a, and a view without rows.
fn with_view(alloc: Global, a: Bag) -> Result<Vec<Bag>, Fail> {
    let mut tables = Vec::new(alloc);
    tables.push(a)?;
    tables.push(Bag::new(alloc))?;
    Ok(tables)
}

/// a holds (k / 3, k) for k from 0 to 3999.
fn of_threes(alloc: Global) -> Result<Bag, Fail> {
    let mut rows = Bag::new(alloc);
    for k in 0..4000_i64 {
        rows.add(&[k / 3, k], 1)?;
    }
    Ok(rows)
}

// The groups of each part are above those of the part before.
#[test]
fn threads_sum_up_groups_that_rise(rt: HostRuntime) -> Result<(), Fail> {
    let alloc = rt.alloc();
    let catalog = summed(alloc)?;
    let tables = with_view(alloc, of_a(alloc, 1)?)?;
    for threads in &THREADS {
        let value = value_of_threads(&rt, *threads, alloc, &catalog, 1, &tables);
        let value = value.ok().expect(&rt, "a value");
        assert_eq!(&rt; value.total(), 4000);
        assert_eq!(&rt; value.count(&[0, 1, 0]), 1);
        assert_eq!(&rt; value.count(&[1999, 1, 9]), 1);
        assert_eq!(&rt; value.count(&[2000, 1, 0]), 1);
        assert_eq!(&rt; value.count(&[3999, 1, 9]), 1);
    }
    Ok(())
}

// Where rows are cut within a group, both parts have it.
#[test]
fn threads_sum_up_groups_that_are_cut(rt: HostRuntime) -> Result<(), Fail> {
    let alloc = rt.alloc();
    let catalog = summed(alloc)?;
    let tables = with_view(alloc, of_threes(alloc)?)?;
    for threads in &THREADS {
        let value = value_of_threads(&rt, *threads, alloc, &catalog, 1, &tables);
        let value = value.ok().expect(&rt, "a value");
        assert_eq!(&rt; value.total(), 1334);
        assert_eq!(&rt; value.count(&[0, 3, 3]), 1);
        assert_eq!(&rt; value.count(&[333, 3, 3000]), 1);
        assert_eq!(&rt; value.count(&[666, 3, 5997]), 1);
        assert_eq!(&rt; value.count(&[1000, 3, 9003]), 1);
        assert_eq!(&rt; value.count(&[1333, 1, 3999]), 1);
    }
    Ok(())
}

// Each part has all groups.
#[test]
fn threads_sum_up_groups_that_meet(rt: HostRuntime) -> Result<(), Fail> {
    let alloc = rt.alloc();
    let catalog = summed_by_second(alloc)?;
    let tables = with_view(alloc, of_a(alloc, 1)?)?;
    for threads in &THREADS {
        let value = value_of_threads(&rt, *threads, alloc, &catalog, 1, &tables);
        let value = value.ok().expect(&rt, "a value");
        assert_eq!(&rt; value.total(), 10);
        assert_eq!(&rt; value.count(&[0, 400, 798_000]), 1);
        assert_eq!(&rt; value.count(&[9, 400, 801_600]), 1);
    }
    Ok(())
}
