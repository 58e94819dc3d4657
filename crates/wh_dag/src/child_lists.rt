//! Which views each view is over: what planning knows of a warehouse, without names and definitions.
ghost use Rattle.std.specs.Prelude.{◌≡◌, ◌<◌, ◌↔◌, ◌==◌, List, ℕ, length, IfOk, OnErr, IsTrue};
ghost use Rattle.wh_dag.specs.Shape.{IsShape, has, children_of};
ghost use Rattle.wh_dag.specs.Siblings.{have_parent};
ghost use Rattle.wh_dag.specs.Lists.{lists_of};

use crate::views::has_view;
use std::alloc::{AllocError, Global};
use std::marker::Model;

/// The child lists of a shape: for each view, by its number, the views that it is over, in the
/// order written. A base view has none.
#[derive(Debug, Drop)]
pub struct ChildLists {
    lists: Vec<Vec<usize>>,
}

impl Model for ChildLists {
    ghost Value = { List (List ℕ) };

    ghost view = { λ s. lists_of s.lists.items };

    ghost invariant = { λ s. IsShape (lists_of s.lists.items) };
}

impl ChildLists {
    pub(crate) fn from_lists(lists: Vec<Vec<usize>>) -> ChildLists
        requires { IsShape (lists_of lists.items) }
        ensures { result ≡ lists_of lists.items }
    {
        ChildLists { lists }
    }

    /// Returns how many views the shape has.
    pub fn len(&self) -> usize
        ensures len { result ≡ length self.now }
        ensures shape { IsShape self.now }
    {
        self.lists.len()
    }

    /// Returns whether the shape has no view.
    pub fn is_empty(&self) -> bool
        ensures { result ≡ (length self.now == 0) }
    {
        self.lists.is_empty()
    }

    /// Returns the views that this one is over, in the order written.
    #[tactic(auto, unfolding(crate::specs::Shape::children_of))]
    pub fn of(&self, view: usize) -> &[usize]
        requires { view < length self.now }
        ensures children { result.now ≡ children_of self.now view }
        ensures shape { IsShape self.now }
    {
        &self.lists[view]
    }

    /// Returns whether this view is over that one; a number that is no view's is over none. Takes O(C) for C children of the view.
    #[tactic(auto, unfolding(crate::specs::Shape::children_of, crate::specs::Shape::has))]
    pub fn is_over(&self, view: usize, child: usize) -> bool
        ensures { result ≡ has (children_of self.now view) child }
    {
        view < self.len() && has_view(self.of(view), child)
    }

    /// Returns whether a view is over both of these. Takes O(V C) for V views of at most C children each.
    pub fn have_parent(&self, first: usize, second: usize) -> bool
        ensures { result ≡ have_parent self.now first second }
    {
        any_over_both(&self.lists, first, second)
    }

    /// Makes a copy of the lists. Takes no memory where there is no view. Takes O(V C) for V views of at most C children each.
    pub fn copy(&self, alloc: Global) -> Result<ChildLists, AllocError>
        ensures copy { IfOk result (λ copy. copy ≡ self.now) }
        ensures memory { OnErr result (0 < length self.now) }
    {
        let lists = copied(alloc, &self.lists)?;
        Ok(ChildLists { lists })
    }

    /// Returns whether these are the lists of the same shape: each view over the same views in the same order. Takes O(V C) for V views of
    /// at most C children each.
    pub fn is_same(&self, other: &ChildLists) -> bool
        ensures { IsTrue result ↔ (self.now ≡ other.now) }
    {
        are_same(&self.lists, &other.lists)
    }
}

#[tactic(auto, unfolding(crate::specs::Siblings::have_parent))]
fn any_over_both(lists: &[Vec<usize>], first: usize, second: usize) -> bool
    ensures { result ≡ have_parent (lists_of lists.now) first second }
{
    lists
        .iter()
        .any(|own| has_view(own, first) && has_view(own, second))
}

fn copied(alloc: Global, lists: &[Vec<usize>]) -> Result<Vec<Vec<usize>>, AllocError>
    ensures copy { IfOk result (λ copy. lists_of copy.items ≡ lists_of lists.now) }
    ensures memory { OnErr result (0 < length lists.now) }
{
    let mut copy = Vec::new(alloc);
    for own in lists {
        copy.push(own.as_slice().to_vec(alloc)?)?;
    }
    Ok(copy)
}

fn are_same(lists: &[Vec<usize>], others: &[Vec<usize>]) -> bool
    ensures { IsTrue result ↔ (lists_of lists.now ≡ lists_of others.now) }
{
    lists == others
}
