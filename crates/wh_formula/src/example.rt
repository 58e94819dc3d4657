//! An example: how a closure becomes a filter in a function that is not generic in its type.
ghost use Rattle.std.specs.Prelude.{◌≡◌, length, pos};
ghost use Rattle.wh_formula.specs.Expr.{Column, Number};
ghost use Rattle.wh_formula.specs.Pred.{Cmp, holds};
ghost use Rattle.wh_formula.specs.Native.{CallableOnRows};
ghost use Rattle.wh_formula.specs.Filter.{AnswersPred};
ghost use Rattle.wh_formula.specs.declared.comparison.Comparison.TheVariants.{Greater};

use crate::{Comparison, Expr, Filter, Native, Pred, RowTest};

// Makes and asks the filter where the closure's type is a parameter.
fn asked<T: RowTest + Drop>(call: T, row: &[i64]) -> bool
    requires width { length row.now ≡ 1 }
    requires callable { CallableOnRows 1 (T.can_test call) }
    requires answers { AnswersPred (Cmp Greater (Column 0) (Number (pos 0))) 1 (T.tests call) }
    ensures { result ≡ holds row.now (Cmp Greater (Column 0) (Number (pos 0))) }
{
    let positive = Pred::compare(Comparison::Greater, Expr::column(0), Expr::number(0));
    Filter::new(positive, 1, call).accepts(row)
}

/// Returns whether the only cell of the row is positive, by a stored closure.
pub fn is_positive(row: &[i64]) -> bool
    requires { length row.now ≡ 1 }
    ensures { result ≡ holds row.now (Cmp Greater (Column 0) (Number (pos 0))) }
{
    asked(
        Native(
            |row: &[i64]| -> bool
                requires { length row.now ≡ 1 }
            { row[0] > 0 },
        ),
        row,
    )
}
