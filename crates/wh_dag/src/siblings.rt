//! Views with a common parent, whose order of installation decides what a night costs.
ghost use Rattle.std.specs.Prelude.{◌≡◌, ◌≢◌, ◌<◌, ◌≤◌, ◌++◌, [], ℕ, List, IfOk, OnOk, OnErr, length, filter};
ghost use Rattle.wh_dag.specs.Shape.{IsShape};
ghost use Rattle.wh_dag.specs.Siblings.{is_sibling_pair, is_couple, triples_with, triples_of, pairs_with, sibling_pairs_of, couples_of};

use crate::child_lists::ChildLists;
use std::alloc::{AllocError, Global};

/// Two children of a view.
#[derive(Debug, Clone, Copy, PartialEq, Eq)]
pub struct SiblingPair {
    /// The view that is over both.
    pub parent: usize,
    /// The child of the lower number.
    pub lower: usize,
    /// The child of the higher number.
    pub higher: usize,
}

impl SiblingPair {
    /// Returns whether the parent is over both in this shape, the lower number being the lower one.
    pub fn is_of(self, shape: &ChildLists) -> bool
        ensures { result ≡ is_sibling_pair shape.now self }
    {
        self.lower < self.higher
            && shape.is_over(self.parent, self.lower)
            && shape.is_over(self.parent, self.higher)
    }
}

/// Two views that have a common parent, or several.
#[derive(Debug, Clone, Copy, PartialEq, Eq)]
pub struct Couple {
    /// The view of the lower number.
    pub lower: usize,
    /// The view of the higher number.
    pub higher: usize,
}

impl Couple {
    /// Returns whether a view of this shape is over both, the lower number being the lower one.
    pub fn is_of(self, shape: &ChildLists) -> bool
        ensures { result ≡ is_couple shape.now self }
    {
        self.lower < self.higher && shape.have_parent(self.lower, self.higher)
    }
}

/// Adds the sibling pairs of this parent whose lower view is this one.
fn add_with(
    pairs: &mut Vec<SiblingPair>,
    shape: &ChildLists,
    parent: usize,
    lower: usize,
) -> Result<(), AllocError>
    ensures added { OnOk result (pairs.new.items ≡ pairs.old.items ++ filter (is_sibling_pair shape.now) (triples_with parent lower (length shape.now))) }
    ensures memory { OnErr result (filter (is_sibling_pair shape.now) (triples_with parent lower (length shape.now)) ≢ []) }
{
    for higher in 0..shape.len() {
        let pair = SiblingPair {
            parent,
            lower,
            higher,
        };
        if pair.is_of(shape) {
            pairs.push(pair)?;
        }
    }
    Ok(())
}

/// Adds the sibling pairs of this parent.
fn add_of(pairs: &mut Vec<SiblingPair>, shape: &ChildLists, parent: usize) -> Result<(), AllocError>
    ensures added { OnOk result (pairs.new.items ≡ pairs.old.items ++ filter (is_sibling_pair shape.now) (triples_of parent (length shape.now))) }
    ensures memory { OnErr result (filter (is_sibling_pair shape.now) (triples_of parent (length shape.now)) ≢ []) }
{
    for lower in 0..shape.len() {
        if shape.is_over(parent, lower) {
            add_with(pairs, shape, parent, lower)?;
        }
    }
    Ok(())
}

/// Returns the sibling pairs of the shape, rising.
pub(crate) fn sibling_pairs(
    alloc: Global,
    shape: &ChildLists,
) -> Result<Vec<SiblingPair>, AllocError>
    ensures pairs { IfOk result (λ pairs. pairs.items ≡ sibling_pairs_of shape.now) }
    ensures memory { OnErr result (sibling_pairs_of shape.now ≢ []) }
{
    let mut pairs = Vec::new(alloc);
    for parent in 0..shape.len() {
        add_of(&mut pairs, shape, parent)?;
    }
    Ok(pairs)
}

/// Adds the couples whose lower view is this one.
fn add_couples_with(
    couples: &mut Vec<Couple>,
    shape: &ChildLists,
    lower: usize,
) -> Result<(), AllocError>
    ensures added { OnOk result (couples.new.items ≡ couples.old.items ++ filter (is_couple shape.now) (pairs_with lower (length shape.now))) }
    ensures memory { OnErr result (filter (is_couple shape.now) (pairs_with lower (length shape.now)) ≢ []) }
{
    for higher in 0..shape.len() {
        let couple = Couple { lower, higher };
        if couple.is_of(shape) {
            couples.push(couple)?;
        }
    }
    Ok(())
}

/// Returns the couples of the shape, each once, rising.
pub(crate) fn couples(alloc: Global, shape: &ChildLists) -> Result<Vec<Couple>, AllocError>
    ensures couples { IfOk result (λ couples. couples.items ≡ couples_of shape.now) }
    ensures memory { OnErr result (couples_of shape.now ≢ []) }
{
    let mut couples = Vec::new(alloc);
    for lower in 0..shape.len() {
        add_couples_with(&mut couples, shape, lower)?;
    }
    Ok(couples)
}

/// A law of the definitions: a shape has at most 960 couples. Each of its at most 64 views is over at most 6, of which 15 couples can be
/// made.
pub fn few_couples_law()
    ensures { (shape : List (List ℕ)) → IsShape shape → length (couples_of shape) ≤ 960 }
{}
