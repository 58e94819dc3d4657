//! How large a shape and its views may be, which bounds what a night can cost.

ghost use Rattle.std.specs.Prelude.{◌≡◌, ◌≤◌, ◌*◌, ◌^◌};

/// The most views of a shape.
pub const MAX_VIEWS: usize = 64;

/// The most views that a view is over.
pub(crate) const MAX_CHILDREN: usize = 6;

/// The most columns of a view.
pub const MAX_COLUMNS: usize = 64;

/// Returns half of 2^n: in how many of the parts of n views that have a member one of them is. At most six views are parted.
pub fn half_power(n: usize) -> u128
    requires some { 1 ≤ n }
    requires few { n ≤ 6 }
    ensures value { 2 * result ≡ 2 ^ n }
    ensures some { 1 ≤ result }
    ensures small { result ≤ 32 }
{
    match n {
        1 => 1,
        2 => 2,
        3 => 4,
        4 => 8,
        5 => 16,
        _ => 32,
    }
}
