// Closures that filters and combiners store: the one that is stored answers.
ghost use Rattle.std.specs.Prelude.{◌≡◌, length, pos};
ghost use Rattle.wh_formula.specs.Expr.{Add, Column, Number};
ghost use Rattle.wh_formula.specs.Pred.{Cmp};
ghost use Rattle.wh_formula.specs.Native.{CallableOnRows};
ghost use Rattle.wh_formula.specs.Filter.{AnswersPred};
ghost use Rattle.wh_formula.specs.Combiner.{AnswersExpr};
ghost use Rattle.wh_formula.specs.declared.comparison.Comparison.TheVariants.{Less, Greater};

use std::alloc::{AllocError, Global};
use std::process::Abort;
use std::sync::atomic::{AtomicUsize, Ordering};
use std::test::Fail;
use wh_formula::{Combiner, Comparison, Expr, Filter, Native, Pred, RowTest, RowValue};

/// Stores the closure as a filter for a positive first cell, and asks it three times.
fn ask_three_times<T: RowTest + Drop>(rt: &impl Abort, call: T)
    requires callable { CallableOnRows 1 (T.can_test call) }
    requires answers { AnswersPred (Cmp Greater (Column 0) (Number (pos 0))) 1 (T.tests call) }
{
    let positive = Pred::compare(Comparison::Greater, Expr::column(0), Expr::number(0));
    let filter = Filter::new(positive, 1, call);
    for (cell, wanted) in [(2, true), (0, false), (-2, false)] {
        assert_eq!(rt; filter.accepts(&[cell]), wanted);
    }
}

#[test]
fn accepts_calls_the_closure(rt: HostRuntime) {
    let calls = AtomicUsize::new(0);
    ask_three_times(
        &rt,
        Native(
            |row: &[i64]| -> bool
                requires { length row.now ≡ 1 }
            {
                calls.fetch_add(1, Ordering::SeqCst);
                row[0] > 0
            },
        ),
    );
    assert_eq!(rt; calls.load(Ordering::SeqCst), 3);
}

/// The sum of the two cells, twice by the closure.
fn combine_twice<V: RowValue + Drop>(
    rt: &impl Abort,
    alloc: Global,
    call: V,
) -> Result<(), AllocError>
    requires callable { CallableOnRows 2 (V.can_combine call) }
    requires answers { AnswersExpr (Add (Column 0) (Column 1)) 2 (V.combines call) }
{
    let sum = Expr::add(alloc, Expr::column(0), Expr::column(1))?;
    let combiner = Combiner::new(sum, 2, call);
    for (row, wanted) in [([7, -2], Some(5)), ([i64::MAX, 1], None)] {
        assert_eq!(rt; combiner.combine(&row), wanted);
    }
    Ok(())
}

#[test]
fn combine_calls_the_closure(rt: HostRuntime) -> Result<(), Fail> {
    let calls = AtomicUsize::new(0);
    combine_twice(
        &rt,
        rt.alloc(),
        Native(
            |row: &[i64]| -> Option<i64>
                requires { length row.now ≡ 2 }
            {
                calls.fetch_add(1, Ordering::SeqCst);
                row[0].checked_add(row[1])
            },
        ),
    )?;
    assert_eq!(rt; calls.load(Ordering::SeqCst), 2);
    Ok(())
}

type Answer = Box<dyn Fn(&[i64]) -> bool + Sync>;

/// So many filters of a list accept each row: one is for a first cell below 5, one for a second cell below 7.
fn accept<T: RowTest + Drop>(
    rt: &impl Abort,
    alloc: Global,
    first: T,
    second: T,
    rows: &[([i64; 2], usize)],
) -> Result<(), AllocError>
    requires callable_first { CallableOnRows 2 (T.can_test first) }
    requires answers_first { AnswersPred (Cmp Less (Column 0) (Number (pos 5))) 2 (T.tests first) }
    requires callable_second { CallableOnRows 2 (T.can_test second) }
    requires answers_second { AnswersPred (Cmp Less (Column 1) (Number (pos 7))) 2 (T.tests second) }
{
    let one = Pred::compare(Comparison::Less, Expr::column(0), Expr::number(5));
    let two = Pred::compare(Comparison::Less, Expr::column(1), Expr::number(7));
    let mut filters = Vec::new(alloc);
    filters.push(Filter::new(one, 2, first))?;
    filters.push(Filter::new(two, 2, second))?;
    for (row, wanted) in rows {
        assert_eq!(rt; accepting(&filters, row), *wanted);
    }
    Ok(())
}

/// How many of the filters accept the row.
fn accepting<T: RowTest>(filters: &[Filter<T>], row: &[i64]) -> usize {
    let mut count: usize = 0;
    for filter in filters {
        if filter.width() == row.len() && filter.accepts(row) {
            count = count.saturating_add(1);
        }
    }
    count
}

#[test]
fn filters_of_two_formulas_stand_in_one_list(rt: HostRuntime) -> Result<(), Fail> {
    let alloc = rt.alloc();
    let first: Answer = Box::new(
        alloc,
        |row: &[i64]| -> bool
            requires { length row.now ≡ 2 }
        { row[0] < 5 },
    )?;
    let second: Answer = Box::new(
        alloc,
        |row: &[i64]| -> bool
            requires { length row.now ≡ 2 }
        { row[1] < 7 },
    )?;
    let rows = [([1, 9], 1), ([1, 6], 2), ([5, 7], 0)];
    accept(&rt, alloc, Native(&*first), Native(&*second), &rows)?;
    Ok(())
}
