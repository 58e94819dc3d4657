//! Kinds of shapes, trees and uniform ones, for which a plan is found without a search.
ghost use Rattle.std.specs.Prelude.{◌≡◌, ◌<◌, ◌≤◌, ◌↔◌, ◌+◌, ◌||◌, ℕ, length, slice_index, All, IsTrue, true};
ghost use Rattle.wh_dag.specs.Shape.{Distinct, has};
ghost use Rattle.wh_dag.specs.Kinds.{IsTree, IsUniform};
ghost use Rattle.wh_dag.specs.Level.{level_of};
ghost use Rattle.wh_dag.specs.Inner.Taken.{AreFree, is_taken};

use crate::child_lists::ChildLists;
use crate::limits::MAX_VIEWS;

// Marks these views, up to the first that is marked already, and answers whether there is none.
fn take_all(taken: &mut [bool; MAX_VIEWS], own: &[usize]) -> bool
    requires views { All (λ u. u < 64) own.now }
    requires distinct { Distinct own.now }
    ensures free { IsTrue result ↔ AreFree taken.old own.now }
    ensures taken { IsTrue result → (u : ℕ) →
        is_taken taken.new u ≡ (is_taken taken.old u || has own.now u) }
{
    for child in own {
        if taken[*child] {
            return false;
        }
        taken[*child] = true;
    }
    true
}

/// Returns whether no view has two parents.
pub(crate) fn is_tree(shape: &ChildLists) -> bool
    ensures { IsTrue result ↔ IsTree shape.now }
{
    let mut taken = [false; MAX_VIEWS];
    for view in 0..shape.len() {
        if !take_all(&mut taken, shape.of(view)) {
            return false;
        }
    }
    true
}

// Whether a view of this level is one level above each of these children.
fn is_one_above(levels: &[usize], own: &[usize], level: usize) -> bool
    requires views { All (λ u. u < length levels.now) own.now }
    requires small { (v : ℕ) → v < length levels.now → slice_index levels.now v ≤ 64 }
    ensures { IsTrue result ↔ ((u : ℕ) → has own.now u ≡ true → level ≡ slice_index levels.now u + 1) }
{
    for child in own {
        if level != levels[*child] + 1 {
            return false;
        }
    }
    true
}

/// Returns whether each view is one level above each view that it is over, by these levels.
pub(crate) fn is_uniform(shape: &ChildLists, levels: &[usize]) -> bool
    requires len { length levels.now ≡ length shape.now }
    requires levels { (v : ℕ) → v < length shape.now → slice_index levels.now v ≡ level_of shape.now v }
    ensures { IsTrue result ↔ IsUniform shape.now }
{
    for view in 0..shape.len() {
        if !is_one_above(levels, shape.of(view), levels[view]) {
            return false;
        }
    }
    true
}
