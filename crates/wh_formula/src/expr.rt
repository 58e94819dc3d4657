//! Expressions over the cells of a row, whose depth is bounded by their type.
ghost use Rattle.std.specs.Prelude.{◌≡◌, ◌<◌, ◌≤◌, length, IsTrue, IfOk, OnErr};
ghost use Rattle.wh_formula.specs.Expr.{Column, Number, Add, Sub, Mul, HasParts, depth, fits, value};

use std::alloc::{AllocError, Global};
use std::marker::Model;

/// The most levels that a formula has; one without parts has one level.
pub const MAX_DEPTH: usize = 64;

/// A whole number made of a row's cells and constants by sums, differences and products.
#[cycle(expr)]
#[derive(Debug, Drop)]
pub struct Expr {
    node: ExprNode,
}

#[cycle(expr)]
#[derive(Debug, Drop)]
enum ExprNode {
    Column(usize),
    Number(i64),
    Add(Box<Expr>, Box<Expr>),
    Sub(Box<Expr>, Box<Expr>),
    Mul(Box<Expr>, Box<Expr>),
}

impl Model for Expr {
    ghost use Rattle.std.specs.Prelude.{◌≤◌};
    ghost use Rattle.wh_formula.specs.Expr.{ExprTree, depth};
    ghost use Rattle.wh_formula.specs.Inner.ExprCode.{expr_code};

    ghost Value = { ExprTree };

    ghost coded = { expr_code };

    ghost use Rattle.wh_formula.specs.ExprNode.{tree_of};

    ghost view = { λ e. tree_of e.node };

    ghost invariant = { λ e. depth (tree_of e.node) ≤ 64 };

    ghost size = { depth };

    ghost use Rattle.wh_formula.specs.Inner.ExprFalls.{deep_le-depth};

    ghost size_decreases = { λ e h. deep_le-depth e.node };
}

impl Expr {
    /// Makes the expression that is the cell at a place of the row, from 0.
    pub fn column(place: usize) -> Expr
        ensures { result ≡ Column place }
    {
        Expr {
            node: ExprNode::Column(place),
        }
    }

    /// Makes the expression that is a constant.
    pub fn number(number: i64) -> Expr
        ensures { result ≡ Number number }
    {
        Expr {
            node: ExprNode::Number(number),
        }
    }

    /// Makes the sum of two expressions. Memory is wanted for the boxes of both.
    pub fn add(alloc: Global, left: Expr, right: Expr) -> Result<Expr, AllocError>
        requires left { depth left < MAX_DEPTH }
        requires right { depth right < MAX_DEPTH }
        ensures { IfOk result (λ sum. sum ≡ Add left right) }
    {
        let (left, right) = boxed(alloc, left, right)?;
        Ok(Expr {
            node: ExprNode::Add(left, right),
        })
    }

    /// Makes the difference of two expressions: the left one less the right one. Memory is wanted for the boxes of both.
    pub fn sub(alloc: Global, left: Expr, right: Expr) -> Result<Expr, AllocError>
        requires left { depth left < MAX_DEPTH }
        requires right { depth right < MAX_DEPTH }
        ensures { IfOk result (λ difference. difference ≡ Sub left right) }
    {
        let (left, right) = boxed(alloc, left, right)?;
        Ok(Expr {
            node: ExprNode::Sub(left, right),
        })
    }

    /// Makes the product of two expressions. Memory is wanted for the boxes of both.
    pub fn mul(alloc: Global, left: Expr, right: Expr) -> Result<Expr, AllocError>
        requires left { depth left < MAX_DEPTH }
        requires right { depth right < MAX_DEPTH }
        ensures { IfOk result (λ product. product ≡ Mul left right) }
    {
        let (left, right) = boxed(alloc, left, right)?;
        Ok(Expr {
            node: ExprNode::Mul(left, right),
        })
    }

    /// Returns how many levels the expression has: one more than its deepest part. Takes O(n) for n parts.
    pub fn depth(&self) -> usize
        ensures value { result ≡ depth self.now }
        ensures within { result ≤ MAX_DEPTH }
    {
        match &self.node {
            ExprNode::Column(_) | ExprNode::Number(_) => 1,
            ExprNode::Add(left, right) | ExprNode::Sub(left, right) | ExprNode::Mul(left, right) =>
                left.depth().max(right.depth()) + 1,
        }
    }

    /// Returns whether each column lies in a row of that width. Takes O(n) for n parts.
    pub fn fits(&self, width: usize) -> bool
        ensures { result ≡ fits width self.now }
    {
        match &self.node {
            ExprNode::Column(place) => *place < width,
            ExprNode::Number(_) => true,
            ExprNode::Add(left, right) | ExprNode::Sub(left, right) | ExprNode::Mul(left, right) =>
                left.fits(width) && right.fits(width),
        }
    }

    /// Returns the value at a row; `None` where a sum, a difference or a product leaves `i64`. Takes O(n) for n parts.
    pub fn value(&self, row: &[i64]) -> Option<i64>
        requires { IsTrue (fits (length row.now) self.now) }
        ensures { result ≡ value row.now self.now }
    {
        match &self.node {
            ExprNode::Column(place) => Some(row[*place]),
            ExprNode::Number(number) => Some(*number),
            ExprNode::Add(left, right) => left.value(row)?.checked_add(right.value(row)?),
            ExprNode::Sub(left, right) => left.value(row)?.checked_sub(right.value(row)?),
            ExprNode::Mul(left, right) => left.value(row)?.checked_mul(right.value(row)?),
        }
    }

    /// Makes another expression of the same form. A column and a constant take no memory. Takes O(n) for n parts.
    pub fn copy(&self, alloc: Global) -> Result<Expr, AllocError>
        ensures copy { IfOk result (λ copy. copy ≡ self.now) }
        ensures memory { OnErr result (HasParts self.now) }
    {
        match &self.node {
            ExprNode::Column(place) => Ok(Expr::column(*place)),
            ExprNode::Number(number) => Ok(Expr::number(*number)),
            ExprNode::Add(left, right) => Expr::add(alloc, left.copy(alloc)?, right.copy(alloc)?),
            ExprNode::Sub(left, right) => Expr::sub(alloc, left.copy(alloc)?, right.copy(alloc)?),
            ExprNode::Mul(left, right) => Expr::mul(alloc, left.copy(alloc)?, right.copy(alloc)?),
        }
    }
}

/// Puts both sides of an operation into boxes.
fn boxed(alloc: Global, left: Expr, right: Expr) -> Result<(Box<Expr>, Box<Expr>), AllocError>
    ensures { IfOk result (λ sides. (sides.0.value ≡ left) × (sides.1.value ≡ right)) }
{
    let left = Box::new(alloc, left)?;
    let right = Box::new(alloc, right)?;
    Ok((left, right))
}
