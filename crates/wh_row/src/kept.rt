//! What a bag keeps of its counts, so that its size and whether it is a table are known at once.

ghost use Rattle.std.specs.Prelude.{◌≡◌, ◌<◌, ◌≤◌, ◌+◌, ◌^◌, unsigned_abs};
ghost use Rattle.wh_row.specs.Inner.Kept.{one_below};

/// What is kept of a bag's counts, so that no row is walked through for it.
#[derive(Clone, Copy, Drop)]
pub(crate) struct Kept {
    /// The sum of the absolute counts.
    pub(crate) total: u128,
    /// How many rows count below zero.
    pub(crate) below: usize,
}

impl Kept {
    /// Returns what is kept of two bags together that have no row in common.
    pub(crate) fn and(self, other: Kept) -> Kept
        requires small { self.total + other.total < 2 ^ 128 }
        requires few { self.below + other.below < 2 ^ 64 }
        ensures total { result.total ≡ self.total + other.total }
        ensures below { result.below ≡ self.below + other.below }
    {
        Kept {
            total: self.total + other.total,
            below: self.below + other.below,
        }
    }

    /// Returns what is kept once a row that counted `before` counts `after`.
    pub(crate) fn changed(self, before: i64, after: i64) -> Kept
        requires total { unsigned_abs before ≤ self.total }
        requires below { one_below before ≤ self.below }
        requires small { self.total + unsigned_abs after < 2 ^ 128 }
        requires few { self.below + one_below after < 2 ^ 64 }
        ensures total { result.total + unsigned_abs before ≡ self.total + unsigned_abs after }
        ensures below { result.below + one_below before ≡ self.below + one_below after }
    {
        let total = self.total + u128::from(after.unsigned_abs());
        let below = self.below + one_if_below(after);
        Kept {
            total: total - u128::from(before.unsigned_abs()),
            below: below - one_if_below(before),
        }
    }
}

/// Returns 1 for a number below zero, else 0.
pub(crate) fn one_if_below(number: i64) -> usize
    ensures { result ≡ one_below number }
{
    if number < 0 { 1 } else { 0 }
}
