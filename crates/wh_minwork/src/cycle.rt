//! Finds a cycle of a graph that cannot be sorted, among the nodes that are left.

ghost use Rattle.std.specs.Prelude.{◌≡◌, ◌≢◌, ◌<◌, ◌≤◌, true, length, slice_index_or, All, IfOk, MatchOption};
ghost use Rattle.wh_minwork.specs.Inner.Left.{AreNodesLeft, AreTurned, IsLed, IsRound, IsWithin, is_left, is_node_by, leads_by};
ghost use Rattle.wh_minwork.specs.Inner.Nodes.{times};
ghost use Rattle.wh_minwork.specs.declared.node.Node.{Node};

use crate::edge_sets::{Edges, Rest};
use crate::node::Node;
use std::alloc::{AllocError, Global};

fn place_of(list: &[Node], node: Node) -> Option<usize>
    ensures { MatchOption result (All (λ e. e ≢ node) list.now) (λ i. (i < length list.now) × (slice_index_or list.now i node ≡ node)) }
{
    list.iter().position(|e| *e == node)
}

/// Returns the node that is left and leads to this one: the smallest.
fn back(edges: &Edges, stuck: &Rest, node: Node) -> Node
    requires within { IsWithin node }
    requires left { is_left stuck.now.comps stuck.now.insts node ≡ true }
    requires nodes { AreNodesLeft edges.now.views edges.now.over stuck.now.comps stuck.now.insts }
    requires turned { AreTurned stuck.now.comps stuck.now.reads }
    requires stuck { (y : Node) → is_left stuck.now.comps stuck.now.insts y ≡ true → IsLed edges.now.over edges.now.before stuck.now.comps stuck.now.insts y }
    ensures within { IsWithin result }
    ensures left { is_left stuck.now.comps stuck.now.insts result ≡ true }
    ensures leads { leads_by edges.now.over edges.now.before result node ≡ true }
{
    match stuck.leader(edges, node) {
        Some(before) => before,
        None => unreachable!(),
    }
}

/// Returns a cycle among the nodes that are left, each of which another one leads to. It goes from this one back, each time to the smallest
/// that leads there, until one is met again. The walk from there on, turned round, is the cycle.
pub(crate) fn cycle(
    alloc: Global,
    edges: &Edges,
    stuck: &Rest,
    start: Node,
) -> Result<Vec<Node>, AllocError>
    requires within { IsWithin start }
    requires left { is_left stuck.now.comps stuck.now.insts start ≡ true }
    requires nodes { AreNodesLeft edges.now.views edges.now.over stuck.now.comps stuck.now.insts }
    requires turned { AreTurned stuck.now.comps stuck.now.reads }
    requires stuck { (y : Node) → is_left stuck.now.comps stuck.now.insts y ≡ true → IsLed edges.now.over edges.now.before stuck.now.comps stuck.now.insts y }
    ensures round { IfOk result (λ walk. IsRound (leads_by edges.now.over edges.now.before) (is_node_by edges.now.over edges.now.views) walk.items) }
    ensures once { IfOk result (λ walk. (e : Node) → times e walk.items ≤ 1) }
{
    let mut fresh = *stuck;
    let mut walk = Vec::new(alloc);
    fresh.take(start);
    walk.push(start)?;
    let mut next = back(edges, stuck, start);
    while fresh.has(next) {
        fresh.take(next);
        walk.insert(0, next)?;
        next = back(edges, stuck, next);
    }
    match place_of(&walk, next) {
        Some(j) => walk.truncate(j + 1),
        None => unreachable!(),
    }
    Ok(walk)
}
