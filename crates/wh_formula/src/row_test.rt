//! What is known of a closure that tests rows.
//!
//! A struct's fact cannot speak of a bound on `Fn`, so it speaks of this trait. A `Filter` is made and used in
//! functions that are generic in its closure's type.
ghost use Rattle.std.specs.Prelude.{◌≡◌, ℤ, List, Bool};
ghost use Rattle.std.specs.Fn.{FnReturnsAt};

use crate::native::Native;

/// A test of rows that several threads may ask.
pub trait RowTest: Sync {
    // The rows that it may be asked about, and what it may answer.
    ghost can_test: { Self → List ℤ → Type 0 };

    ghost tests: { Self → List ℤ → Bool → Type 0 };

    /// Returns whether the row passes.
    fn test(&self, row: &[i64]) -> bool
        requires { can_test self.now row.now }
        ensures { tests self.now row.now result };
}

impl<F: Fn(&[i64]) -> bool + Sync> RowTest for Native<F> {
    ghost can_test = { λ f cells. (row : _) → row.now ≡ cells → F.pre f.0 row };

    ghost tests = { λ f cells answer. FnReturnsAt F.Fn f.0 cells answer };

    fn test(&self, row: &[i64]) -> bool {
        (self.0)(row)
    }
}
