//! A count that only proofs read. It takes no bytes, and its calls do nothing when the program runs.
ghost use Rattle.std.specs.Prelude.{◌≡◌, ℕ, ◌+◌};
ghost use Rattle.std.specs.Borrow.{ftrue};

use std::marker::Model;

/// A count of calls, which only proofs read.
#[derive(Drop)]
pub struct Count {
    pub ghost count: { ℕ },
}

impl Model for Count {
    ghost also_owns = { λ _. ftrue };
}

impl Count {
    /// Makes the count before the first call: 0.
    pub fn none() -> Count
        ensures { result.count ≡ 0 }
    {
        Count {}
    }

    /// Returns the count and one more.
    pub fn and_one(&self) -> Count
        ensures { result.count ≡ self.now.count + 1 }
    {
        Count {}
    }
}
