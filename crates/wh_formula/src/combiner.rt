//! A stored closure that answers an expression, so that a row's number is made without walking through the expression's tree.
ghost use Rattle.std.specs.Prelude.{◌≡◌, length, IsTrue};
ghost use Rattle.wh_formula.specs.Expr.{fits, value};
ghost use Rattle.wh_formula.specs.Native.{CallableOnRows};
ghost use Rattle.wh_formula.specs.Combiner.{AnswersExpr};

use crate::expr::Expr;
use crate::row_value::RowValue;
use std::marker::Model;

/// A closure that answers an expression on each row of a width, kept beside that expression.
#[derive(Drop)]
pub struct Combiner<G: RowValue> {
    expr: Expr,
    width: usize,
    call: G,
}

impl<G: RowValue> Model for Combiner<G> {
    ghost use Rattle.std.specs.Prelude.{IsTrue};
    ghost use Rattle.wh_formula.specs.Expr.{fits};
    ghost use Rattle.wh_formula.specs.Native.{CallableOnRows};
    ghost use Rattle.wh_formula.specs.Combiner.{CombinerOf, AnswersExpr};
    ghost use Rattle.wh_formula.specs.Inner.Combiner.{combiner_code};

    ghost Value = { CombinerOf };

    ghost coded = { combiner_code };

    ghost view = { λ c. record { expr = c.expr; width = c.width } };

    ghost invariant = { λ c. IsTrue (fits c.width c.expr) × CallableOnRows c.width (G.can_combine c.call) × AnswersExpr c.expr c.width (G.combines c.call) };
}

impl<G: RowValue> Combiner<G> {
    /// Stores a closure that may be called on each row of that width and answers the expression there.
    pub fn new(expr: Expr, width: usize, call: G) -> Combiner<G>
        requires fits { IsTrue (fits width expr) }
        requires callable { CallableOnRows width (G.can_combine call) }
        requires answers { AnswersExpr expr width (G.combines call) }
        ensures expr { result.expr ≡ expr }
        ensures width { result.width ≡ width }
    {
        Combiner { expr, width, call }
    }

    /// Returns the expression's value at a row, by the closure alone; `None` where a sum, a difference or a product leaves `i64`.
    pub fn combine(&self, row: &[i64]) -> Option<i64>
        requires { length row.now ≡ self.now.width }
        ensures { result ≡ value row.now self.now.expr }
    {
        self.call.number(row)
    }

    /// Returns the expression that the closure answers. Each of its columns lies in a row of the width.
    pub fn expr(&self) -> &Expr
        ensures expr { result.now ≡ self.now.expr }
        ensures fits { IsTrue (fits self.now.width self.now.expr) }
    {
        &self.expr
    }

    /// Returns how many cells the rows have.
    pub fn width(&self) -> usize
        ensures { result ≡ self.now.width }
    {
        self.width
    }
}
