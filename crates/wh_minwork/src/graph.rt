//! The graph of decided couples, which is sorted into a strategy or has a cycle that forbids one.

ghost use Rattle.std.specs.Prelude.{◌≡◌, ◌<◌, length, IfOk, IfErr, OnErr};
ghost use Rattle.wh_dag.specs.Shape.{IsShape};

use crate::decided::Decided;
use crate::edge_sets::Edges;
use crate::node::expressions;
use crate::sort::{Sorting, sort};
use std::alloc::{AllocError, AllocFailed, Global};
use std::marker::Model;
use wh_dag::{ChildLists, Shape};
use wh_strategy::{Expression, Strategy};

/// Why a graph was not sorted.
#[derive(Debug, Drop)]
pub enum SortFault {
    /// A cycle of the graph: each expression has an edge to the next, and the last one to the first; none stands twice.
    /// Which cycle it is, of several, is left open.
    Cycle(Vec<Expression>),
    /// Memory was refused.
    Memory,
}

impl From<AllocError> for SortFault {
    ghost use Rattle.wh_minwork.specs.declared.graph.SortFault.TheVariants.{Memory};

    ghost from_gives = { λ _ e. e ≡ Memory };

    fn from(_e: AllocError) -> SortFault {
        SortFault::Memory
    }
}

impl<T: Drop> From<AllocFailed<T>> for SortFault {
    ghost use Rattle.wh_minwork.specs.declared.graph.SortFault.TheVariants.{Memory};

    ghost from_gives = { λ _ e. e ≡ Memory };

    fn from(_e: AllocFailed<T>) -> SortFault {
        SortFault::Memory
    }
}

/// The graph of a shape under decided couples. Its nodes are the one-way expressions, and an edge leads from one that
/// has to stand before another. No edge is stored: sets of views tell of them.
#[derive(Drop)]
pub struct Graph<'a> {
    children: &'a ChildLists,
    decided: &'a Decided,
}

impl<'a> Model for Graph<'a> {
    ghost use Rattle.wh_minwork.specs.Drawn.{Drawn};

    ghost Value = { Drawn };

    ghost view = { λ g. record { children = g.children.now; decided = g.decided.now } };
}

impl<'a> Graph<'a> {
    ghost use Rattle.wh_minwork.specs.Sorted.{IsSorted, IsAcyclic, IsUnsorted};

    /// Makes the graph of this shape where these couples are decided. A decision on two views without a common parent adds no edge. Takes
    /// no memory.
    pub fn of(shape: &'a Shape, decided: &'a Decided) -> Graph<'a>
        ensures children { result.children ≡ shape.now.children }
        ensures decided { result.decided ≡ decided.now }
        ensures shape { IsShape shape.now.children }
    {
        Graph {
            children: shape.child_lists(),
            decided,
        }
    }

    /// Sorts the nodes: each stands once, with each edge forward. Which such order it is, of several, is left open. Fails with a cycle
    /// where the graph has one, or for want of memory. Takes O(N²) for N nodes.
    pub fn sorted(&self, alloc: Global) -> Result<Strategy, SortFault>
        ensures sorted { IfOk result (IsSorted self.now.children self.now.decided) }
        ensures acyclic { IfOk result (λ _. IsAcyclic self.now.children self.now.decided) }
        ensures err { IfErr result (IsUnsorted self.now.children self.now.decided) }

        // Without a view there is no node: nothing is refused, and no memory is taken.
        ensures some { OnErr result (0 < length self.now.children) }
    {
        let edges = Edges::of(self.children, self.decided.as_slice());
        match sort(alloc, &edges)? {
            Sorting::Order(nodes) => Ok(Strategy::new(expressions(alloc, &nodes)?)),
            Sorting::Round(nodes) => Err(SortFault::Cycle(expressions(alloc, &nodes)?)),
        }
    }
}
