//! The desired order of two views, by which plans of least work go.

ghost use Rattle.std.specs.Prelude.{◌≡◌, ◌<◌, length};
ghost use Rattle.wh_strategy.specs.Sizes.{sizes_of};
ghost use Rattle.wh_cert.specs.Order.{comes_first};

use wh_strategy::Sizes;

/// Returns whether the first view comes before the second in the desired order. It goes by net growth, which is `post - pre` of what a view
/// counts as, ties by number.
#[tactic(auto, unfolding(crate::specs::Order::comes_first))]
pub fn comes_first(sizes: &Sizes, first: usize, second: usize) -> bool
    requires first { first < length sizes.now }
    requires second { second < length sizes.now }
    ensures { result ≡ comes_first (sizes_of sizes.now) first second }
{
    let (first_size, second_size) = (sizes.size(first), sizes.size(second));
    // Net growth can be below zero, so what is subtracted on one side is added on the other.
    let first_growth = first_size.post + second_size.pre;
    let second_growth = second_size.post + first_size.pre;
    first_growth < second_growth || (first_growth == second_growth && first < second)
}
