//! The work of a strategy: the terms of each Comp in closed form, so that none is gone through, and the rows of each Inst.

ghost use Rattle.std.specs.Prelude.{◌≡◌, ◌+◌, ◌*◌, ◌^◌, ◌<◌, ◌≤◌, ℕ, length, take, Some, true, slice_get};
ghost use Rattle.std.specs.List.{sum_by, All};
ghost use Rattle.wh_dag.specs.Shape.{has, Distinct, IsShape, children_of};
ghost use Rattle.wh_strategy.specs.Earlier.{TellsInstalled};
ghost use Rattle.wh_strategy.specs.Prices.{prices_of};
ghost use Rattle.wh_strategy.specs.Rules.{IsCorrect};
ghost use Rattle.wh_strategy.specs.Sizes.{sizes_of};
ghost use Rattle.wh_strategy.specs.Sums.{parts};
ghost use Rattle.wh_strategy.specs.Work.{state, term, cost_at, work_of};
ghost use Rattle.wh_strategy.specs.Inner.Work.{read_of};

use crate::correct::Correct;
use crate::costs::Costs;
use crate::earlier::Installed;
use crate::expression::Expression;
use crate::sizes::Sizes;
use wh_dag::{ChildLists, Shape, half_power, has_view};

#[tactic(auto, unfolding(crate::specs::Expression::is_new))]
fn state_rows(
    sizes: &Sizes,
    installed: &Installed,
    list: &[Expression],
    place: usize,
    view: usize,
) -> u64
    requires within { view < length sizes.now }
    requires there { place ≤ length list.now }
    requires told { TellsInstalled installed.now.flags (take place list.now) }
    ensures value { result ≡ state (sizes_of sizes.now) list.now place view }
    ensures small { result ≤ 2 ^ 50 }
{
    let size = sizes.size(view);
    if installed.has(&list[..place], view) {
        size.post
    } else {
        size.pre
    }
}

fn change_rows(sizes: &Sizes, view: usize) -> u64
    requires { view < length sizes.now }
    ensures value { result ≡ (sizes_of sizes.now view).change }
    ensures small { result ≤ 2 ^ 50 }
{
    sizes.size(view).change
}

/// Returns what all terms of a Comp from `sources` read of one child.
fn child_rows(change: u64, state: u64, sources: &[usize], child: usize) -> u128
    requires once { Distinct sources.now }
    requires some { 1 ≤ length sources.now }
    requires few { length sources.now ≤ 6 }
    requires small_change { change ≤ 2 ^ 50 }
    requires small_state { state ≤ 2 ^ 50 }
    ensures value { result ≡ read_of change state child sources.now }
    ensures small { result ≤ 2 ^ 56 }
{
    let half = half_power(sources.len());
    let (change, state) = (change as u128, state as u128);
    if has_view(sources, child) {
        half * (change + state) - state
    } else {
        2 * half * state - state
    }
}

/// Returns what a Comp of a view over `children` from `sources` reads at this place, over all its terms.
fn term_rows(
    sizes: &Sizes,
    installed: &Installed,
    list: &[Expression],
    place: usize,
    children: &[usize],
    sources: &[usize],
) -> u128
    requires there { place ≤ length list.now }
    requires told { TellsInstalled installed.now.flags (take place list.now) }
    requires views { (k : ℕ) (u : ℕ) → slice_get children.now k ≡ Some u → u < length sizes.now }
    requires few_children { length children.now ≤ 6 }
    requires once { Distinct sources.now }
    requires some { 1 ≤ length sources.now }
    requires few { length sources.now ≤ 6 }
    ensures value { result ≡ sum_by (term (sizes_of sizes.now) list.now place children.now) (parts sources.now) }
    ensures small { result ≤ 2 ^ 59 }
{
    let mut total = 0;
    for child in children {
        let change = change_rows(sizes, *child);
        let state = state_rows(sizes, installed, list, place, *child);
        total += child_rows(change, state, sources, *child);
    }
    total
}

/// Returns what the expression at this place costs.
fn place_cost(
    children: &ChildLists,
    sizes: &Sizes,
    costs: Costs,
    installed: &Installed,
    list: &[Expression],
    place: usize,
) -> u128
    requires rules { IsCorrect children.now list.now }
    requires same { length sizes.now ≡ length children.now }
    requires there { place < length list.now }
    requires told { TellsInstalled installed.now.flags (take place list.now) }
    ensures value { result ≡ cost_at children.now (sizes_of sizes.now) (prices_of costs) list.now place }
    ensures small { result ≤ 2 ^ 79 }
{
    match &list[place] {
        Expression::Comp(view, sources) => {
            let rows = term_rows(
                sizes,
                installed,
                list,
                place,
                children.of(*view),
                sources.as_slice(),
            );
            costs.comp as u128 * rows
        }
        Expression::Inst(view) => costs.inst as u128 * change_rows(sizes, *view) as u128,
    }
}

/// Returns the work of a correct strategy at these sizes and costs, in cost times rows by weight. Takes no memory. Takes O(V C²) for V
/// views of at most C children each.
#[tactic(auto, using(crate::proofs::SumsBelow::sums))]
pub fn work(shape: &Shape, sizes: &Sizes, costs: Costs, correct: &Correct) -> u128
    requires same { correct.now.children ≡ shape.now.children }
    requires sizes { length sizes.now ≡ length shape.now.children }
    ensures { result ≡ work_of shape.now.children (sizes_of sizes.now) (prices_of costs) correct.now.list }
{
    let children = shape.child_lists();
    let list = correct.strategy().as_slice();
    let mut installed = Installed::new();
    let mut total = 0;
    for (place, e) in list.iter().enumerate() {
        total += place_cost(children, sizes, costs, &installed, list, place);
        installed.note(e);
    }
    total
}
