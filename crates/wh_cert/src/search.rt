//! Judges a tree: each of its nodes below the decisions above it.

ghost use Rattle.std.specs.Prelude.{◌≡◌, ◌↔◌, IsTrue, MatchOption, length};
ghost use Rattle.wh_strategy.specs.Prices.{prices_of};
ghost use Rattle.wh_strategy.specs.Sizes.{sizes_of};
ghost use Rattle.wh_cert.specs.Search.{IsOpen, IsGood, IsAcceptedTree, IsFirstBad};
ghost use Rattle.wh_cert.specs.Tree.{tree_of};

use crate::bound::decided_bound;
use crate::cycle::is_cycle;
use crate::decisions::decides;
use crate::descent::Descent;
use crate::tree::{Tree, TreeNode};
use wh_dag::{ChildLists, Couple, Shape};
use wh_strategy::{Costs, Sizes};

fn is_open(children: &ChildLists, decided: &[(usize, usize)], couple: Couple) -> bool
    ensures { IsTrue result ↔ IsOpen children.now decided.now couple }
{
    couple.is_of(children)
        && !decides(decided, couple.lower, couple.higher)
        && !decides(decided, couple.higher, couple.lower)
}

/// Returns whether the node is good below these decisions, for a strategy of this work.
fn is_good(
    shape: &Shape,
    sizes: &Sizes,
    costs: Costs,
    work: u128,
    decided: &[(usize, usize)],
    node: &TreeNode,
) -> bool
    requires { length sizes.now ≡ length shape.now.children }
    ensures { IsTrue result ↔ IsGood shape.now.children (sizes_of sizes.now) (prices_of costs) work decided.now node.now }
{
    match node {
        TreeNode::Bound => work <= decided_bound(shape, sizes, costs, decided),
        TreeNode::Cycle(list) => is_cycle(shape.child_lists(), decided, list.as_slice()),
        TreeNode::Branch(couple) => is_open(shape.child_lists(), decided, *couple),
    }
}

/// Returns the first bad node of the tree in preorder, counted from 1, for a strategy of this work.
pub(crate) fn first_bad(
    shape: &Shape,
    sizes: &Sizes,
    costs: Costs,
    work: u128,
    tree: &Tree,
) -> Option<usize>
    requires { length sizes.now ≡ length shape.now.children }
    ensures { MatchOption result (IsAcceptedTree shape.now.children (sizes_of sizes.now) (prices_of costs) work (tree_of tree.now)) (λ place. IsFirstBad shape.now.children (sizes_of sizes.now) (prices_of costs) work (tree_of tree.now) place) }
{
    let mut above = Descent::new();
    for (i, node) in tree.as_slice().iter().enumerate() {
        if !is_good(shape, sizes, costs, work, above.as_slice(), node) {
            return Some(i + 1);
        }
        above.go_past(node);
    }
    None
}
