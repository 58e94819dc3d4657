//! The pair bound, which no correct strategy stays below, and what it becomes under decisions.

ghost use Rattle.std.specs.Prelude.{◌≡◌, ◌≢◌, ◌++◌, ◌∷◌, [], false, ◌+◌, ◌*◌, ◌^◌, ◌<◌, ◌≤◌, ℕ, List, length};
ghost use Rattle.std.specs.List.{All, sum_by};
ghost use Rattle.wh_dag.specs.Shape.{IsShape};
ghost use Rattle.wh_strategy.specs.declared.expression.Expression.{Expression};
ghost use Rattle.wh_strategy.specs.declared.sizes.SizeRow.{SizeRow};
ghost use Rattle.wh_strategy.specs.Prices.{Prices, prices_of};
ghost use Rattle.wh_strategy.specs.Rules.{IsCorrect};
ghost use Rattle.wh_strategy.specs.Sizes.{AreSizeRows, sizes_of};
ghost use Rattle.wh_strategy.specs.Work.{work_of};
ghost use Rattle.wh_strategy.specs.Sums.{sum_below};
ghost use Rattle.wh_cert.specs.Graph.{decides};
ghost use Rattle.wh_cert.specs.Bound.{in_order, pair_min, decided_value, rows_by, decided_bound_of, pair_bound_of};
ghost use Rattle.wh_cert.specs.Inner.Bound.{more_under};

use crate::decisions::Decisions;
use wh_dag::{ChildLists, Shape};
use wh_strategy::{Costs, Sizes};

fn changed_rows(sizes: &Sizes, view: usize) -> u128
    requires { view < length sizes.now }
    ensures value { result ≡ (sizes_of sizes.now view).change }
    ensures small { result ≤ 2 ^ 50 }
{
    sizes.size(view).change as u128
}

/// Returns what two views that have a common parent cost, in rows by weight, where the first of them is installed first.
fn in_order(sizes: &Sizes, first: usize, second: usize) -> u128
    requires first { first < length sizes.now }
    requires second { second < length sizes.now }
    ensures value { result ≡ in_order (sizes_of sizes.now) first second }
    ensures small { result ≤ 2 ^ 51 }
{
    sizes.size(second).pre as u128 + sizes.size(first).post as u128
}

/// Returns the minimum of two views that have a common parent, in rows by weight.
pub(crate) fn pair_min(sizes: &Sizes, first: usize, second: usize) -> u128
    requires first { first < length sizes.now }
    requires second { second < length sizes.now }
    ensures value { result ≡ pair_min (sizes_of sizes.now) first second }
    ensures small { result ≤ 2 ^ 51 }
{
    let kept = in_order(sizes, first, second);
    let turned = in_order(sizes, second, first);
    kept.min(turned)
}

/// Returns what two views that have a common parent cost, in rows by weight, by these decisions. That is the cost in the decided order, or
/// the minimum where neither order is decided.
fn decided_value(sizes: &Sizes, decided: &Decisions<'_>, first: usize, second: usize) -> u128
    requires first { first < length sizes.now }
    requires second { second < length sizes.now }
    ensures value { result ≡ decided_value (sizes_of sizes.now) decided.now first second }
    ensures small { result ≤ 2 ^ 51 }
{
    if decided.decides(first, second) {
        in_order(sizes, first, second)
    } else if decided.decides(second, first) {
        in_order(sizes, second, first)
    } else {
        pair_min(sizes, first, second)
    }
}

/// Returns the sum of the values of a view with each of these others.
fn values_with(sizes: &Sizes, decided: &Decisions<'_>, view: usize, others: &[usize]) -> u128
    requires view { view < length sizes.now }
    requires others { All (λ w. w < length sizes.now) others.now }
    requires few { length others.now ≤ 6 }
    ensures value { result ≡ sum_by (decided_value (sizes_of sizes.now) decided.now view) others.now }
    ensures small { result ≤ 2 ^ 54 }
{
    let mut total = 0;
    for other in others {
        total += decided_value(sizes, decided, view, *other);
    }
    total
}

/// Returns what the Comps of a view over these children read at least by these decisions.
#[tactic(auto, using(crate::proofs::PairSums::pairs_none, crate::proofs::PairSums::pairs_step))]
fn least_rows(sizes: &Sizes, decided: &Decisions<'_>, children: &[usize]) -> u128
    requires views { All (λ w. w < length sizes.now) children.now }
    requires few { length children.now ≤ 6 }
    ensures value { result ≡ rows_by (decided_value (sizes_of sizes.now) decided.now) (sizes_of sizes.now) children.now }
    ensures small { result ≤ 2 ^ 58 }
{
    let mut changes = 0;
    let mut values = 0;
    for (i, child) in children.iter().enumerate() {
        changes += changed_rows(sizes, *child);
        values += values_with(sizes, decided, *child, &children[i + 1..]);
    }
    changes + values
}

/// Returns the decided bound at these sizes and costs, in cost times rows by weight. It is the pair bound with each decided couple at the
/// value of its decision, the view that is installed first standing first. A couple that is decided both ways counts by the order in which
/// its parent names the two. Takes no memory: the decisions are looked up in a table on the stack, made first. Takes O(V C² + D) for V
/// views of at most C children each and D decisions.
pub fn decided_bound(shape: &Shape, sizes: &Sizes, costs: Costs, decided: &[(usize, usize)]) -> u128
    requires { length sizes.now ≡ length shape.now.children }
    ensures { result ≡ decided_bound_of shape.now.children (sizes_of sizes.now) (prices_of costs) decided.now }
{
    // Each pair asks twice, so going over all decisions each time would take most of the time.
    let decisions = Decisions::of(decided);
    let children = shape.child_lists();
    let mut rows = 0;
    let mut changes = 0;
    for view in 0..sizes.len() {
        rows += least_rows(sizes, &decisions, children.of(view));
        changes += changed_rows(sizes, view);
    }
    costs.comp as u128 * rows + costs.inst as u128 * changes
}

/// Returns `more` where the view is over both of these, else 0.
fn more_at(children: &ChildLists, view: usize, first: usize, second: usize, more: u128) -> u128
    ensures value { result ≡ more_under children.now first second more view }
    ensures small { result ≤ more }
{
    if children.is_over(view, first) && children.is_over(view, second) {
        more
    } else {
        0
    }
}

/// Returns what the Comps of all views that are over both of these read more at least, where each reads `more`.
fn more_rows(children: &ChildLists, first: usize, second: usize, more: u128) -> u128
    requires { more ≤ 2 ^ 52 }
    ensures value { result ≡ sum_below (more_under children.now first second more) (length children.now) }
    ensures small { result ≤ length children.now * 2 ^ 52 }
{
    let mut rows = 0;
    for view in 0..children.len() {
        rows += more_at(children, view, first, second, more);
    }
    rows
}

/// Returns the decided bound under one decision more, that the first view of `next` is installed before the second, from the bound without
/// it. Under each common parent the couple costs what it costs in this order, and no longer its minimum. Takes no memory. Takes O(V C) for
/// V views of at most C children each.
pub fn decided_bound_with(
    shape: &Shape,
    sizes: &Sizes,
    costs: Costs,
    decided: &[(usize, usize)],
    bound: u128,
    next: (usize, usize),
) -> u128
    requires same { length sizes.now ≡ length shape.now.children }
    requires bound { bound ≡ decided_bound_of shape.now.children (sizes_of sizes.now) (prices_of costs) decided.now }
    requires first { next.0 < length sizes.now }
    requires second { next.1 < length sizes.now }
    requires two { next.0 ≢ next.1 }
    requires open { decides decided.now next.0 next.1 ≡ false }
    requires open_too { decides decided.now next.1 next.0 ≡ false }
    ensures { result ≡ decided_bound_of shape.now.children (sizes_of sizes.now) (prices_of costs) (decided.now ++ (next.0, next.1) ∷ []) }
{
    let (first, second) = next;
    // The proof needs what was decided, and what the rows of sizes keep to.
    let (_decided, _views) = (decided, sizes.len());
    let more = in_order(sizes, first, second) - pair_min(sizes, first, second);
    bound + costs.comp as u128 * more_rows(shape.child_lists(), first, second, more)
}

/// Returns the pair bound by its definition: no couple is decided.
#[tactic(auto, unfolding(crate::specs::Graph::decides))]
fn bound_of(shape: &Shape, sizes: &Sizes, costs: Costs) -> u128
    requires { length sizes.now ≡ length shape.now.children }
    ensures value { result ≡ pair_bound_of shape.now.children (sizes_of sizes.now) (prices_of costs) }
    ensures shape { IsShape shape.now.children }
    ensures sizes { AreSizeRows sizes.now }
{
    // The proof needs what the lists of a shape and the rows of sizes keep to.
    let (_lists, _views) = (shape.child_lists(), sizes.len());
    decided_bound(shape, sizes, costs, &[])
}

/// Returns the pair bound at these sizes and costs, in cost times rows by weight. Every correct strategy of the shape, with Comps from any
/// number of views, costs at least as much. Takes no memory. Takes O(V C²) for V views of at most C children each.
pub fn pair_bound(shape: &Shape, sizes: &Sizes, costs: Costs) -> u128
    requires { length sizes.now ≡ length shape.now.children }
    ensures value { result ≡ pair_bound_of shape.now.children (sizes_of sizes.now) (prices_of costs) }
    ensures least { (list : List Expression) → IsCorrect shape.now.children list → result ≤ work_of shape.now.children (sizes_of sizes.now) (prices_of costs) list }
{
    bound_of(shape, sizes, costs)
}

/// A law of the definitions: over every shape, sizes and costs, every correct strategy costs at least the pair bound.
pub fn no_strategy_is_below_the_bound()
    ensures { (shape : List (List ℕ)) (rows : List SizeRow) (prices : Prices) (list : List Expression) → IsShape shape → AreSizeRows rows → IsCorrect shape list → pair_bound_of shape (sizes_of rows) prices ≤ work_of shape (sizes_of rows) prices list }
{}
