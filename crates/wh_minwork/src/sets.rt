//! Sets of views, a bit for each, so that all views are joined or met in one step.

ghost use Rattle.std.specs.Prelude.{◌≡◌, ◌<◌, ◌==◌, ◌&&◌, ◌||◌, ℕ, true, false, not, MatchOption, sum};
ghost use Rattle.wh_minwork.specs.Inner.Sets.{in_set, in_rows};

use wh_dag::MAX_VIEWS;

/// A set of views for each view.
pub(crate) type Rows = [u64; MAX_VIEWS];

/// Returns whether the view is in the set.
pub(crate) fn holds(set: u64, view: usize) -> bool
    requires { view < 64 }
    ensures { result ≡ in_set set view }
{
    set >> view & 1 == 1
}

/// Returns the set and this view.
pub(crate) fn with(set: u64, view: usize) -> u64
    requires { view < 64 }
    ensures { (w : ℕ) → in_set result w ≡ ((view == w) || in_set set w) }
{
    set | 1 << view
}

/// Returns the set but for this view.
pub(crate) fn without(set: u64, view: usize) -> u64
    requires { view < 64 }
    ensures rest { (w : ℕ) → in_set result w ≡ (not (view == w) && in_set set w) }
    ensures less { in_set set view ≡ true → result < set }
{
    set & !(1 << view)
}

/// Returns the views of both sets.
pub(crate) fn meet(set: u64, other: u64) -> u64
    ensures { (w : ℕ) → in_set result w ≡ (in_set set w && in_set other w) }
{
    set & other
}

/// Returns the views of either set.
pub(crate) fn join(set: u64, other: u64) -> u64
    ensures { (w : ℕ) → in_set result w ≡ (in_set set w || in_set other w) }
{
    set | other
}

/// Returns the lowest view of the set.
pub(crate) fn first(set: u64) -> Option<usize>
    ensures { MatchOption result ((w : ℕ) → in_set set w ≡ false) (λ v. (v < 64) × (in_set set v ≡ true)) }
{
    if set == 0 {
        None
    } else {
        Some(set.trailing_zeros() as usize)
    }
}

/// Makes the sets in which no view is.
pub(crate) fn none() -> Rows
    ensures { (a b : ℕ) → in_rows result a b ≡ false }
{
    [0; MAX_VIEWS]
}

/// Adds a view to the set of another one.
pub(crate) fn add(rows: &mut Rows, row: usize, view: usize)
    requires row { row < 64 }
    requires view { view < 64 }
    ensures { (a b : ℕ) → in_rows rows.new a b ≡ (((row == a) && (view == b)) || in_rows rows.old a b) }
{
    rows[row] = with(rows[row], view);
}

/// Takes a view out of the set of another one.
pub(crate) fn remove(rows: &mut Rows, row: usize, view: usize)
    requires row { row < 64 }
    requires view { view < 64 }
    ensures rest { (a b : ℕ) → in_rows rows.new a b ≡ (not ((row == a) && (view == b)) && in_rows rows.old a b) }
    ensures less { in_rows rows.old row view ≡ true → sum rows.new < sum rows.old }
{
    rows[row] = without(rows[row], view);
}
