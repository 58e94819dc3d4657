//! Tests of a row, whose depth is bounded by their type.
ghost use Rattle.std.specs.Prelude.{◌≡◌, ◌<◌, ◌≤◌, length, IsTrue, IfOk, OnErr, All};
ghost use Rattle.wh_formula.specs.Expr as expr_tree;
ghost use Rattle.wh_formula.specs.Pred.{True, Cmp, AllOf, AnyOf, Not, HasParts, HaveSome, parts_of, depth, fits, holds, most_levels, all_hold, any_holds, all_fit};

use crate::comparison::Comparison;
use crate::expr::{Expr, MAX_DEPTH};
use std::alloc::{AllocError, Global};
use std::marker::Model;

/// A test of a row, made of comparisons of expressions.
#[cycle(pred)]
#[derive(Debug, Drop)]
pub struct Pred {
    node: PredNode,
}

#[cycle(pred)]
#[derive(Debug, Drop)]
enum PredNode {
    True,
    Cmp(Comparison, Expr, Expr),
    All(Vec<Pred>),
    Any(Vec<Pred>),
    Not(Box<Pred>),
}

impl Model for Pred {
    ghost use Rattle.std.specs.Prelude.{◌≤◌};
    ghost use Rattle.wh_formula.specs.Pred.{PredTree, depth};
    ghost use Rattle.wh_formula.specs.Inner.PredCode.{pred_code};

    ghost Value = { PredTree };

    ghost coded = { pred_code };

    ghost use Rattle.wh_formula.specs.PredNode.{tree_of};

    ghost view = { λ p. tree_of p.node };

    ghost invariant = { λ p. depth (tree_of p.node) ≤ 64 };

    ghost size = { depth };

    ghost use Rattle.wh_formula.specs.Inner.PredFalls.{deep_le-depth};

    ghost size_decreases = { λ p h. deep_le-depth p.node };
}

impl Pred {
    /// Makes the test that every row meets.
    pub fn always() -> Pred
        ensures { result ≡ True }
    {
        Pred {
            node: PredNode::True,
        }
    }

    /// Makes the test that compares the values of two expressions. A row where one of them has no value does not meet it.
    pub fn compare(op: Comparison, left: Expr, right: Expr) -> Pred
        requires left { expr_tree.depth left < MAX_DEPTH }
        requires right { expr_tree.depth right < MAX_DEPTH }
        ensures { result ≡ Cmp op left right }
    {
        Pred {
            node: PredNode::Cmp(op, left, right),
        }
    }

    /// Makes the test that holds where all parts hold, so also where there is none.
    pub fn all(parts: Vec<Pred>) -> Pred
        requires { All (λ p. depth p < MAX_DEPTH) parts.items }
        ensures { result ≡ AllOf (parts_of parts.items) }
    {
        Pred {
            node: PredNode::All(parts),
        }
    }

    /// Makes the test that holds where some part holds, so nowhere where there is none.
    pub fn any(parts: Vec<Pred>) -> Pred
        requires { All (λ p. depth p < MAX_DEPTH) parts.items }
        ensures { result ≡ AnyOf (parts_of parts.items) }
    {
        Pred {
            node: PredNode::Any(parts),
        }
    }

    /// Makes the test that holds where the part does not. Memory is wanted for the box of the part.
    pub fn not(alloc: Global, part: Pred) -> Result<Pred, AllocError>
        requires { depth part < MAX_DEPTH }
        ensures { IfOk result (λ p. p ≡ Not part) }
    {
        let part = Box::new(alloc, part)?;
        Ok(Pred {
            node: PredNode::Not(part),
        })
    }

    /// Returns how many levels the test has: one more than its deepest part or expression. Takes O(n) for n parts, those of its expressions
    /// included.
    #[cycle(pred_depth)]
    pub fn depth(&self) -> usize
        ensures value { result ≡ depth self.now }
        ensures within { result ≤ MAX_DEPTH }
    {
        match &self.node {
            PredNode::True => 1,
            PredNode::Cmp(_, left, right) => left.depth().max(right.depth()) + 1,
            PredNode::All(parts) | PredNode::Any(parts) => most_levels(parts) + 1,
            PredNode::Not(part) => part.depth() + 1,
        }
    }

    /// Returns whether each column lies in a row of that width. Takes O(n) for n parts, those of its expressions included.
    #[cycle(pred_fits)]
    pub fn fits(&self, width: usize) -> bool
        ensures { result ≡ fits width self.now }
    {
        match &self.node {
            PredNode::True => true,
            PredNode::Cmp(_, left, right) => left.fits(width) && right.fits(width),
            PredNode::All(parts) | PredNode::Any(parts) => all_fit(parts, width),
            PredNode::Not(part) => part.fits(width),
        }
    }

    /// Returns whether a row meets the test. Takes O(n) for n parts, those of its expressions included.
    #[cycle(pred_holds)]
    pub fn holds(&self, row: &[i64]) -> bool
        requires { IsTrue (fits (length row.now) self.now) }
        ensures { result ≡ holds row.now self.now }
    {
        match &self.node {
            PredNode::True => true,
            PredNode::Cmp(op, left, right) => op.compares_values(left.value(row), right.value(row)),
            PredNode::All(parts) => all_hold(parts, row),
            PredNode::Any(parts) => any_holds(parts, row),
            PredNode::Not(part) => !part.holds(row),
        }
    }

    /// Makes another test of the same form. It takes memory for the parts of tests and expressions alone. Takes O(n) for n parts, those of
    /// its expressions included.
    #[cycle(pred_copy)]
    pub fn copy(&self, alloc: Global) -> Result<Pred, AllocError>
        ensures copy { IfOk result (λ copy. copy ≡ self.now) }
        ensures memory { OnErr result (HasParts self.now) }
    {
        match &self.node {
            PredNode::True => Ok(Pred::always()),
            PredNode::Cmp(op, left, right) => {
                Ok(Pred::compare(*op, left.copy(alloc)?, right.copy(alloc)?))
            }
            PredNode::All(parts) => Ok(Pred::all(copies(alloc, parts)?)),
            PredNode::Any(parts) => Ok(Pred::any(copies(alloc, parts)?)),
            PredNode::Not(part) => Pred::not(alloc, part.copy(alloc)?),
        }
    }
}

#[cycle(pred_depth)]
fn most_levels(parts: &[Pred]) -> usize
    ensures value { result ≡ most_levels (parts_of parts.now) }
    ensures within { result ≤ MAX_DEPTH }
{
    let mut most = 0;
    for part in parts {
        most = part.depth().max(most);
    }
    most
}

#[cycle(pred_fits)]
fn all_fit(parts: &[Pred], width: usize) -> bool
    ensures { result ≡ all_fit width (parts_of parts.now) }
{
    for part in parts {
        if !part.fits(width) {
            return false;
        }
    }
    true
}

#[cycle(pred_holds)]
fn all_hold(parts: &[Pred], row: &[i64]) -> bool
    requires { IsTrue (all_fit (length row.now) (parts_of parts.now)) }
    ensures { result ≡ all_hold row.now (parts_of parts.now) }
{
    for part in parts {
        if !part.holds(row) {
            return false;
        }
    }
    true
}

#[cycle(pred_holds)]
fn any_holds(parts: &[Pred], row: &[i64]) -> bool
    requires { IsTrue (all_fit (length row.now) (parts_of parts.now)) }
    ensures { result ≡ any_holds row.now (parts_of parts.now) }
{
    for part in parts {
        if part.holds(row) {
            return true;
        }
    }
    false
}

#[cycle(pred_copy)]
fn copies(alloc: Global, parts: &[Pred]) -> Result<Vec<Pred>, AllocError>
    ensures copies { IfOk result (λ copies. copies.items ≡ parts.now) }
    ensures memory { OnErr result (HaveSome (parts_of parts.now)) }
{
    let mut copies = Vec::new(alloc);
    for part in parts {
        copies.push(part.copy(alloc)?)?;
    }
    Ok(copies)
}
