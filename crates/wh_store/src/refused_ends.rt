//! Counts, for proofs alone, the give-ups that were refused. It takes no bytes, and its calls do nothing when the program runs.

ghost use Rattle.std.specs.Prelude.{◌≡◌, ℕ, ◌+◌};
ghost use Rattle.std.specs.Borrow.{ftrue};

use std::marker::Model;

/// The number of give-ups of a publisher that were refused.
#[derive(Drop)]
pub struct RefusedEnds {
    pub ghost count: { ℕ },
}

impl Model for RefusedEnds {
    ghost also_owns = { λ _. ftrue };
}

impl RefusedEnds {
    /// Makes the count before the first refusal: 0.
    pub fn none() -> RefusedEnds
        ensures { result.count ≡ 0 }
    {
        RefusedEnds {}
    }

    /// Returns the count with one refusal more.
    pub fn and_one(&self) -> RefusedEnds
        ensures { result.count ≡ self.now.count + 1 }
    {
        RefusedEnds {}
    }
}
