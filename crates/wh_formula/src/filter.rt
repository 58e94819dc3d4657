//! A stored closure that answers a test, so that a row is tested without walking through the test's tree.
ghost use Rattle.std.specs.Prelude.{◌≡◌, length, IsTrue};
ghost use Rattle.wh_formula.specs.Pred.{fits, holds};
ghost use Rattle.wh_formula.specs.Native.{CallableOnRows};
ghost use Rattle.wh_formula.specs.Filter.{AnswersPred};

use crate::pred::Pred;
use crate::row_test::RowTest;
use std::marker::Model;

/// A closure that answers a test on each row of a width, kept beside that test.
#[derive(Drop)]
pub struct Filter<F: RowTest> {
    pred: Pred,
    width: usize,
    call: F,
}

impl<F: RowTest> Model for Filter<F> {
    ghost use Rattle.std.specs.Prelude.{IsTrue};
    ghost use Rattle.wh_formula.specs.Pred.{fits};
    ghost use Rattle.wh_formula.specs.Native.{CallableOnRows};
    ghost use Rattle.wh_formula.specs.Filter.{FilterOf, AnswersPred};
    ghost use Rattle.wh_formula.specs.Inner.Filter.{filter_code};

    ghost Value = { FilterOf };

    ghost coded = { filter_code };

    ghost view = { λ f. record { pred = f.pred; width = f.width } };

    ghost invariant = { λ f. IsTrue (fits f.width f.pred) × CallableOnRows f.width (F.can_test f.call) × AnswersPred f.pred f.width (F.tests f.call) };
}

impl<F: RowTest> Filter<F> {
    /// Stores a closure that may be called on each row of that width and answers the test there.
    pub fn new(pred: Pred, width: usize, call: F) -> Filter<F>
        requires fits { IsTrue (fits width pred) }
        requires callable { CallableOnRows width (F.can_test call) }
        requires answers { AnswersPred pred width (F.tests call) }
        ensures pred { result.pred ≡ pred }
        ensures width { result.width ≡ width }
    {
        Filter { pred, width, call }
    }

    /// Returns whether a row passes, by the closure alone.
    pub fn accepts(&self, row: &[i64]) -> bool
        requires { length row.now ≡ self.now.width }
        ensures { result ≡ holds row.now self.now.pred }
    {
        self.call.test(row)
    }

    /// Returns the test that the closure answers. Each of its columns lies in a row of the width.
    pub fn pred(&self) -> &Pred
        ensures pred { result.now ≡ self.now.pred }
        ensures fits { IsTrue (fits self.now.width self.now.pred) }
    {
        &self.pred
    }

    /// Returns how many cells the rows have.
    pub fn width(&self) -> usize
        ensures { result ≡ self.now.width }
    {
        self.width
    }
}
