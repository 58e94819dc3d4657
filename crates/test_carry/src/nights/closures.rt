// The first Comp of two nights, over catalogues that are made of closures.
ghost use Rattle.std.specs.Prelude.{◌≡◌, length};
ghost use Rattle.wh_formula.specs.Expr.{Column};
ghost use Rattle.wh_formula.specs.Pred.{True};
ghost use Rattle.wh_formula.specs.Native.{CallableOnRows};
ghost use Rattle.wh_formula.specs.Filter.{AnswersPred};
ghost use Rattle.wh_formula.specs.Combiner.{AnswersExpr};

use crate::nights::calls::{change_of, comp_of, rows_of, value_of};
use std::alloc::Global;
use std::process::Abort;
use std::test::Fail;
use test_given::catalogs::{catalog, over_one, over_two};
use test_given::tables::bags;
use wh_dag::{Catalog, Output};
use wh_formula::{Combiner, Expr, Filter, Native, Pred, RowTest, RowValue};
use wh_maint::Pending;
use wh_row::Bag;

type Value = Box<dyn Fn(&[i64]) -> Option<i64> + Sync>;

/// v keeps a.x and b.z where a.y = b.y.
fn joins<F: RowTest + Drop, G: RowValue + Drop>(
    rt: &impl Abort,
    alloc: Global,
    every: F,
    x: G,
    z: G,
) -> Result<(), Fail>
    requires callable { CallableOnRows 4 (F.can_test every) }
    requires answers { AnswersPred True 4 (F.tests every) }
    requires callable_x { CallableOnRows 4 (G.can_combine x) }
    requires answers_x { AnswersExpr (Column 0) 4 (G.combines x) }
    requires callable_z { CallableOnRows 4 (G.can_combine z) }
    requires answers_z { AnswersExpr (Column 3) 4 (G.combines z) }
{
    let mut kept = Vec::new(alloc);
    kept.push(Combiner::new(Expr::column(0), 4, x))?;
    kept.push(Combiner::new(Expr::column(3), 4, z))?;
    let join = vec![in alloc; (1, 2)]?;
    let filter = Filter::new(Pred::always(), 4, every);
    let catalog = catalog(alloc, over_two(alloc)?, join, filter, Output::Keep(kept))?;
    joins_tables(rt, alloc, &catalog)
}

static TWO_TABLES: [&[(&[i64], i64)]; 3] = [&[(&[1, 10], 1), (&[2, 10], 1)], &[(&[10, 5], 1)], &[]];

static TWO_CHANGES: [&[(&[i64], i64)]; 3] = [
    &[(&[2, 10], -1), (&[3, 10], 1)],
    &[(&[10, 5], -1), (&[10, 6], 1)],
    &[],
];

/// The joined view of this catalogue has its value, the rows of its operands, and its Comp from both tables.
fn joins_tables<F: RowTest, G: RowValue>(
    rt: &impl Abort,
    alloc: Global,
    catalog: &Catalog<F, G>,
) -> Result<(), Fail> {
    let tables = bags(alloc, &TWO_TABLES)?;
    let changes = bags(alloc, &TWO_CHANGES)?;
    has_its_value(rt, alloc, catalog, &tables);
    assert_eq!(rt; rows_of(rt, catalog, 2, &[0], &tables, &changes), 3);
    assert_eq!(rt; rows_of(rt, catalog, 2, &[0, 1], &tables, &changes), 11);
    match comp_of(rt, alloc, catalog, (2, &[0, 1]), &tables, &changes) {
        Ok(all) => {
            assert_eq!(rt; all.counts().total(), 4);
            assert_eq!(rt; (all.count(&[1, 5]), all.count(&[1, 6])), (-1, 1));
            assert_eq!(rt; (all.count(&[2, 5]), all.count(&[3, 6])), (-1, 1));
        }
        Err(_fault) => assert!(rt; false, "refused"),
    }
    Ok(())
}

/// The joined view of this catalogue has its value.
fn has_its_value<F: RowTest, G: RowValue>(
    rt: &impl Abort,
    alloc: Global,
    catalog: &Catalog<F, G>,
    tables: &[Bag],
) {
    match value_of(rt, alloc, catalog, 2, tables) {
        Ok(own) => {
            assert_eq!(rt;
                (own.total(), own.count(&[1, 5]), own.count(&[2, 5])),
                (2, 1, 1)
            );
        }
        Err(_fault) => assert!(rt; false, "refused"),
    }
}

#[test]
fn two_tables_are_joined_by_closures(rt: HostRuntime) -> Result<(), Fail> {
    let alloc = rt.alloc();
    let x: Value = Box::new(
        alloc,
        |row: &[i64]| -> Option<i64>
            requires { length row.now ≡ 4 }
        { Some(row[0]) },
    )?;
    let z: Value = Box::new(
        alloc,
        |row: &[i64]| -> Option<i64>
            requires { length row.now ≡ 4 }
        { Some(row[3]) },
    )?;
    joins(
        &rt,
        alloc,
        Native(
            |_row: &[i64]| -> bool
                requires { length _row.now ≡ 4 }
            { true },
        ),
        Native(&*x),
        Native(&*z),
    )
}

/// The sums of a.x by a.g.
fn sums<F: RowTest + Drop, G: RowValue + Drop>(
    rt: &impl Abort,
    alloc: Global,
    every: F,
    x: G,
) -> Result<(), Fail>
    requires callable { CallableOnRows 2 (F.can_test every) }
    requires answers { AnswersPred True 2 (F.tests every) }
    requires callable_x { CallableOnRows 2 (G.can_combine x) }
    requires answers_x { AnswersExpr (Column 1) 2 (G.combines x) }
{
    let mut sums = Vec::new(alloc);
    sums.push(Combiner::new(Expr::column(1), 2, x))?;
    let group = vec![in alloc; 0]?;
    let filter = Filter::new(Pred::always(), 2, every);
    let out = Output::Sums { group, sums };
    let catalog = catalog(alloc, over_one(alloc)?, Vec::new(alloc), filter, out)?;
    sums_groups(rt, alloc, &catalog)
}

static A_SUMMARY: [&[(&[i64], i64)]; 2] = [
    &[(&[1, 5], 1), (&[2, 3], 1), (&[2, 4], 1)],
    &[(&[1, 1, 5], 1), (&[2, 2, 7], 1)],
];

static A_CHANGE: [&[(&[i64], i64)]; 2] = [&[(&[1, 5], -1), (&[2, 4], -1), (&[2, -3], 1)], &[]];

/// The summary of this catalogue has its Comp, and its change.
fn sums_groups<F: RowTest, G: RowValue>(
    rt: &impl Abort,
    alloc: Global,
    catalog: &Catalog<F, G>,
) -> Result<(), Fail> {
    let tables = bags(alloc, &A_SUMMARY)?;
    let changes = bags(alloc, &A_CHANGE)?;
    assert!(rt; tables.len() == 2);
    match comp_of(rt, alloc, catalog, (1, &[0]), &tables, &changes) {
        Ok(all) => {
            assert_eq!(rt; (all.count(&[1]), all.count(&[2])), (-1, 0));
            assert!(rt; all.sums() == 1);
            assert_eq!(rt; (all.sum(0, &[1]), all.sum(0, &[2])), (-5, -7));
            changes_groups(rt, alloc, catalog, &all, &tables[1]);
        }
        Err(_fault) => assert!(rt; false, "refused"),
    }
    Ok(())
}

/// The summary of this catalogue has its change, where this is pending.
fn changes_groups<F: RowTest, G: RowValue>(
    rt: &impl Abort,
    alloc: Global,
    catalog: &Catalog<F, G>,
    all: &Pending,
    table: &Bag,
) {
    match change_of(rt, alloc, catalog, 1, all, table) {
        Ok(own) => {
            assert_eq!(rt; own.total(), 3);
            assert_eq!(rt; (own.count(&[1, 1, 5]), own.count(&[2, 2, 7])), (-1, -1));
            assert_eq!(rt; own.count(&[2, 2, 0]), 1);
        }
        Err(_fault) => assert!(rt; false, "refused"),
    }
}

#[test]
fn a_summary_adds_up_by_closures(rt: HostRuntime) -> Result<(), Fail> {
    sums(
        &rt,
        rt.alloc(),
        Native(
            |_row: &[i64]| -> bool
                requires { length _row.now ≡ 2 }
            { true },
        ),
        Native(
            |row: &[i64]| -> Option<i64>
                requires { length row.now ≡ 2 }
            { Some(row[1]) },
        ),
    )
}
