// Views of one level, opened by one thread and beside each other.

use crate::nights::calls::contents_of_threads;
use std::alloc::Global;
use std::process::Abort;
use std::test::Fail;
use std::thread::Threads;
use test_given::catalogs::{Cell, Every, second};
use test_given::shapes::shaped;
use test_given::tables::bag;
use wh_dag::{Catalog, Definition, Output};
use wh_formula::{Combiner, Expr, Filter, Pred};
use wh_maint::MaintFault;
use wh_row::Bag;

/// The first of two cells.
fn first(alloc: Global) -> Result<Vec<Combiner<Cell>>, Fail> {
    let mut cells = Vec::new(alloc);
    cells.push(Combiner::new(Expr::column(0), 2, Cell { place: 0 }))?;
    Ok(cells)
}

/// The one cell that there is.
fn only(alloc: Global) -> Result<Vec<Combiner<Cell>>, Fail> {
    let mut cells = Vec::new(alloc);
    cells.push(Combiner::new(Expr::column(0), 1, Cell { place: 0 }))?;
    Ok(cells)
}

/// A view of this output over all rows of this width.
fn all_rows(
    alloc: Global,
    width: usize,
    output: Output<Cell>,
) -> Result<Definition<Every, Cell>, Fail> {
    let join = Vec::new(alloc);
    let filter = Filter::new(Pred::always(), width, Every);
    if !Definition::fits(&join, &filter, &output) {
        return Err(Fail::new("a definition that does not fit"));
    }
    Ok(Definition::new(join, filter, output))
}

/// a(x,y); kept, which has a.y; by_x with the sum of a.y for each a.x, and by_y the other way round; and last, which has all of kept.
fn levels(alloc: Global) -> Result<Catalog<Every, Cell>, Fail> {
    let shape = shaped(
        alloc,
        &[
            ("a", "-"),
            ("kept", "a"),
            ("by_x", "a"),
            ("by_y", "a"),
            ("last", "kept"),
        ],
    )?;
    let widths = vec![in alloc; 2]?;
    let mut definitions = Vec::new(alloc);
    definitions.push(all_rows(alloc, 2, Output::Keep(second(alloc)?))?)?;
    let by_x = Output::Sums {
        group: vec![in alloc; 0]?,
        sums: second(alloc)?,
    };
    definitions.push(all_rows(alloc, 2, by_x)?)?;
    let by_y = Output::Sums {
        group: vec![in alloc; 1]?,
        sums: first(alloc)?,
    };
    definitions.push(all_rows(alloc, 2, by_y)?)?;
    definitions.push(all_rows(alloc, 1, Output::Keep(only(alloc)?))?)?;
    if !Catalog::fits(&shape, &widths, &definitions) {
        return Err(Fail::new("definitions that do not fit the shape"));
    }
    Ok(Catalog::new(alloc, shape, widths, definitions)?)
}

/// What stands in x of rows of a with 50 in y, so many that the views over a are worth a thread each.
const MORE: std::ops::Range<i64> = 1_000..2_000;

/// The contents of these views over these rows of a, and [`MORE`] of them, by so many threads.
fn opened(
    rt: &(impl Threads + Abort + Sync),
    threads: usize,
    alloc: Global,
    rows: &[(&[i64], i64)],
) -> Result<Result<Vec<Bag>, MaintFault>, Fail> {
    let catalog = levels(alloc)?;
    let mut a = bag(alloc, rows)?;
    for x in MORE {
        a.add(&[x, 50], 1)?;
    }
    let mut base = Vec::new(alloc);
    base.push(a)?;
    for _view in 1..5 {
        base.push(Bag::new(alloc))?;
    }
    Ok(contents_of_threads(rt, threads, alloc, &catalog, base))
}

/// How many threads are asked for.
const THREADS: [usize; 4] = [1, 2, 3, 4];

#[test]
fn each_view_of_a_level_has_its_own_contents(rt: HostRuntime) -> Result<(), Fail> {
    let alloc = rt.alloc();
    for threads in &THREADS {
        let tables = opened(&rt, *threads, alloc, &[(&[1, 10], 2), (&[2, 10], 1)])?;
        let tables = tables.ok().expect(&rt, "contents");
        assert!(&rt; tables.len() == 5);
        assert_eq!(&rt; tables[0].total(), 1_003);
        assert_eq!(&rt; (tables[1].total(), tables[1].count(&[10])), (1_003, 3));
        assert_eq!(&rt;
            (tables[2].total(), tables[2].count(&[1, 2, 20])),
            (1_002, 1)
        );
        assert_eq!(&rt;
            (
                tables[2].count(&[2, 1, 10]),
                tables[2].count(&[1_999, 1, 50])
            ),
            (1, 1)
        );
        assert_eq!(&rt; (tables[3].total(), tables[3].count(&[10, 3, 4])), (2, 1));
        assert_eq!(&rt; tables[3].count(&[50, 1_000, 1_499_500]), 1);
        assert_eq!(&rt; (tables[4].total(), tables[4].count(&[50])), (1_003, 1_000));
    }
    Ok(())
}

#[test]
fn the_first_refusal_of_a_level_is_answered(rt: HostRuntime) -> Result<(), Fail> {
    let alloc = rt.alloc();
    for threads in &THREADS {
        let both = opened(&rt, *threads, alloc, &[(&[i64::MAX, i64::MAX], 2)])?;
        assert!(&rt; matches!(both, Err(MaintFault::Range(2))));
        let last = opened(&rt, *threads, alloc, &[(&[i64::MAX, 1], 2)])?;
        assert!(&rt; matches!(last, Err(MaintFault::Range(3))));
    }
    Ok(())
}
