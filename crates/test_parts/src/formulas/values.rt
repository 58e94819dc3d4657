// Formulas at rows, each call with ample memory.
ghost use Rattle.std.specs.Prelude.{◌≡◌, IfOk, All};
ghost use Rattle.wh_formula.specs.Expr.{depth};
ghost use Rattle.wh_formula.specs.Pred as pred;

use std::alloc::{AllocError, Global};
use std::process::Abort;
use std::test::Fail;
use wh_formula::{Comparison, Expr, MAX_DEPTH, Pred};

// The square of the first is the last one within i64; that of the second is past it.
const LAST: i64 = 3037000499;

const NEXT: i64 = 3037000500;

/// The expression has this value, or none, over the row.
fn has_value(rt: &impl Abort, expr: &Expr, row: &[i64], value: Option<i64>) {
    assert!(rt; expr.fits(row.len()));
    assert_eq!(rt; expr.value(row), value);
}

/// The predicate gives this answer over the row.
fn answers(rt: &impl Abort, test: &Pred, row: &[i64], answer: bool) {
    assert!(rt; test.fits(row.len()));
    assert_eq!(rt; test.holds(row), answer);
}

/// The expression and a copy of it have this value, or none, over a row of this cell.
fn has_value_as_its_copy(
    rt: &impl Abort,
    alloc: Global,
    expr: &Expr,
    cell: i64,
    value: Option<i64>,
) -> Result<(), AllocError> {
    has_value(rt, expr, &[cell], value);
    has_value(rt, &expr.copy(alloc)?, &[cell], value);
    Ok(())
}

/// The first cell times itself.
fn square(alloc: Global) -> Result<Expr, AllocError>
    ensures { IfOk result (λ e. depth e ≡ 2) }
{
    Expr::mul(alloc, Expr::column(0), Expr::column(0))
}

#[test]
fn square_without_value(rt: HostRuntime) -> Result<(), Fail> {
    let square = square(rt.alloc())?;
    has_value_as_its_copy(&rt, rt.alloc(), &square, LAST, Some(9223372030926249001))?;
    has_value_as_its_copy(&rt, rt.alloc(), &square, NEXT, None)?;
    Ok(())
}

#[test]
fn square_without_value_is_not_positive(rt: HostRuntime) -> Result<(), Fail> {
    let positive = Pred::compare(Comparison::Greater, square(rt.alloc())?, Expr::number(0));
    answers_as_its_copy(&rt, rt.alloc(), &positive, LAST, true)?;
    answers_as_its_copy(&rt, rt.alloc(), &positive, NEXT, false)?;
    Ok(())
}

#[test]
fn not_positive_holds_where_the_square_has_no_value(rt: HostRuntime) -> Result<(), Fail> {
    let positive = Pred::compare(Comparison::Greater, square(rt.alloc())?, Expr::number(0));
    let negated = Pred::not(rt.alloc(), positive)?;
    answers_as_its_copy(&rt, rt.alloc(), &negated, LAST, false)?;
    answers_as_its_copy(&rt, rt.alloc(), &negated, NEXT, true)?;
    Ok(())
}

#[test]
fn a_sum_ends_at_the_end_of_i64(rt: HostRuntime) -> Result<(), Fail> {
    let sum = Expr::add(rt.alloc(), Expr::column(0), Expr::column(1))?;
    has_value(&rt, &sum, &[i64::MAX, -1], Some(9223372036854775806));
    has_value(&rt, &sum, &[i64::MAX, 1], None);
    Ok(())
}

#[test]
fn a_difference_ends_at_the_end_of_i64(rt: HostRuntime) -> Result<(), Fail> {
    let difference = Expr::sub(rt.alloc(), Expr::column(0), Expr::number(5))?;
    has_value(&rt, &difference, &[3], Some(-2));
    has_value(&rt, &difference, &[i64::MIN], None);
    Ok(())
}

#[test]
fn each_comparison_tells_less_equal_and_greater_apart(rt: HostRuntime) {
    let cases = [
        (Comparison::Equal, [false, true, false]),
        (Comparison::NotEqual, [true, false, true]),
        (Comparison::Less, [true, false, false]),
        (Comparison::LessOrEqual, [true, true, false]),
        (Comparison::Greater, [false, false, true]),
        (Comparison::GreaterOrEqual, [false, true, true]),
    ];
    for (op, [less, equal, greater]) in cases {
        let test = Pred::compare(op, Expr::column(0), Expr::number(5));
        answers(&rt, &test, &[-6], less);
        answers(&rt, &test, &[5], equal);
        answers(&rt, &test, &[6], greater);
    }
}

#[test]
fn all_of_none_holds_and_any_of_none_does_not(rt: HostRuntime) {
    answers(&rt, &Pred::all(Vec::new(rt.alloc())), &[], true);
    answers(&rt, &Pred::any(Vec::new(rt.alloc())), &[], false);
}

/// The first cell is on this side of the number.
fn beside(op: Comparison, number: i64) -> Pred
    ensures { pred.depth result ≡ 2 }
{
    Pred::compare(op, Expr::column(0), Expr::number(number))
}

/// These two comparisons as a list.
fn both(alloc: Global, first: Pred, second: Pred) -> Result<Vec<Pred>, AllocError>
    requires first { pred.depth first ≡ 2 }
    requires second { pred.depth second ≡ 2 }
    ensures { IfOk result (λ parts. All (λ p. pred.depth p ≡ 2) parts.items) }
{
    let mut parts = Vec::new(alloc);
    parts.push(first)?;
    parts.push(second)?;
    Ok(parts)
}

/// That the first cell is above 0, and that it is below 9.
fn between(alloc: Global) -> Result<Vec<Pred>, AllocError>
    ensures { IfOk result (λ parts. All (λ p. pred.depth p ≡ 2) parts.items) }
{
    both(
        alloc,
        beside(Comparison::Greater, 0),
        beside(Comparison::Less, 9),
    )
}

#[test]
fn all_asks_for_each_part(rt: HostRuntime) -> Result<(), Fail> {
    let all = Pred::all(between(rt.alloc())?);
    answers_as_its_copy(&rt, rt.alloc(), &all, 4, true)?;
    answers_as_its_copy(&rt, rt.alloc(), &all, 9, false)?;
    Ok(())
}

#[test]
fn any_asks_for_one_part(rt: HostRuntime) -> Result<(), Fail> {
    let any = Pred::any(between(rt.alloc())?);
    answers_as_its_copy(&rt, rt.alloc(), &any, 9, true)?;
    Ok(())
}

/// The predicate and a copy of it give this answer over a row of this cell.
fn answers_as_its_copy(
    rt: &impl Abort,
    alloc: Global,
    test: &Pred,
    cell: i64,
    answer: bool,
) -> Result<(), AllocError> {
    answers(rt, test, &[cell], answer);
    answers(rt, &test.copy(alloc)?, &[cell], answer);
    Ok(())
}

#[test]
fn a_test_grows_to_64_levels_and_no_further(rt: HostRuntime) -> Result<(), Fail> {
    let mut tower = Pred::always();
    for _ in 0..100 {
        if tower.depth() < MAX_DEPTH {
            tower = Pred::not(rt.alloc(), tower)?;
        }
    }
    assert_eq!(rt; tower.depth(), 64);
    // Under 63 times not.
    answers(&rt, &tower.copy(rt.alloc())?, &[], false);
    Ok(())
}

#[test]
fn an_expression_grows_to_64_levels_and_no_further(rt: HostRuntime) -> Result<(), Fail> {
    let mut sum = Expr::column(0);
    for _ in 0..100 {
        if sum.depth() < MAX_DEPTH {
            sum = Expr::add(rt.alloc(), sum, Expr::number(2))?;
        }
    }
    assert_eq!(rt; sum.depth(), 64);
    has_value(&rt, &sum.copy(rt.alloc())?, &[1], Some(127));
    Ok(())
}
