//! Sorts a graph: its nodes in an order, or a cycle that forbids one.

ghost use Rattle.std.specs.Prelude.{◌<◌, ℕ, List, length, IfOk, OnErr};
ghost use Rattle.wh_minwork.specs.Inner.Left.{AreEdges, AreSomeEdges};
ghost use Rattle.wh_minwork.specs.Inner.Sorting.{IsSorting};

use crate::cycle::cycle;
use crate::edge_sets::Edges;
use crate::node::Node;
use crate::ready::place_all;
use std::alloc::{AllocError, Global};

/// What a sort answers.
#[derive(Drop)]
pub(crate) enum Sorting {
    /// All nodes, each after those that lead to it.
    Order(Vec<Node>),
    /// A cycle, in which no node stands twice.
    Round(Vec<Node>),
}

/// Sorts the nodes that these edges are between. Where some cannot be placed, the cycle goes back from the smallest of them,
/// each time to the smallest that leads there. Takes O(N²) for N nodes.
pub(crate) fn sort(alloc: Global, edges: &Edges) -> Result<Sorting, AllocError>
    requires { AreSomeEdges edges.now.views edges.now.over edges.now.under edges.now.before }
    ensures sort { IfOk result (λ sort. (shape : List (List ℕ)) (decided : List (ℕ × ℕ)) → AreEdges edges.now.views edges.now.over edges.now.under edges.now.before shape decided → IsSorting shape decided sort) }
    ensures some { OnErr result ((shape : List (List ℕ)) (decided : List (ℕ × ℕ)) → AreEdges edges.now.views edges.now.over edges.now.under edges.now.before shape decided → 0 < length shape) }
{
    let (placed, rest) = place_all(alloc, edges)?;
    match rest.smallest() {
        Some(start) => Ok(Sorting::Round(cycle(alloc, edges, &rest, start)?)),
        None => Ok(Sorting::Order(placed)),
    }
}
