//! What is known of a closure that gives rows numbers.
//!
//! A struct's fact cannot speak of a bound on `Fn`, so it speaks of this trait. A `Combiner` is made and used in
//! functions that are generic in its closure's type.
ghost use Rattle.std.specs.Prelude.{◌≡◌, ℤ, List, Option};
ghost use Rattle.std.specs.Fn.{FnReturnsAt};

use crate::native::Native;

/// A number for each row, or none, that several threads may ask for.
pub trait RowValue: Sync {
    // The rows that it may be asked for, and what it may answer.
    ghost can_combine: { Self → List ℤ → Type 0 };

    ghost combines: { Self → List ℤ → Option ℤ → Type 0 };

    /// Returns the row's number, if it has one.
    fn number(&self, row: &[i64]) -> Option<i64>
        requires { can_combine self.now row.now }
        ensures { combines self.now row.now result };
}

impl<G: Fn(&[i64]) -> Option<i64> + Sync> RowValue for Native<G> {
    ghost can_combine = { λ g cells. (row : _) → row.now ≡ cells → G.pre g.0 row };

    ghost combines = { λ g cells answer. FnReturnsAt G.Fn g.0 cells answer };

    fn number(&self, row: &[i64]) -> Option<i64> {
        (self.0)(row)
    }
}
