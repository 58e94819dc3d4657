//! Places nodes, each after those that lead to it, with hints at those that may be ready.

ghost use Rattle.std.specs.Prelude.{◌≡◌, ◌<◌, ◌⊎◌, ℕ, true, IfOk, MatchOption, OnErr};
ghost use Rattle.wh_minwork.specs.Inner.Left.{AreHints, AreNodesLeft, ArePlaced, AreTurned, IsFree, IsLed, IsWithin, is_hinted, is_left, is_node_by, leads_by};
ghost use Rattle.wh_minwork.specs.Inner.Sets.{in_set, in_rows};
ghost use Rattle.wh_minwork.specs.declared.node.Node.{Node};

use crate::edge_sets::{Edges, Rest};
use crate::node::Node;
use crate::sets::{first, holds, join, with, without};
use std::alloc::{AllocError, Global};

/// Where to look for a node that is ready: each node that is left and to which none leads that is left is among these.
#[derive(Drop)]
struct Hints {
    /// Views of which a Comp may be ready.
    comps: u64,
    /// Views whose Insts may be ready.
    insts: u64,
}

/// Returns the lowest view from which a Comp of this one is ready.
fn ready_source(rest: &Rest, edges: &Edges, v: usize) -> Option<usize>
    requires view { v < 64 }
    requires turned { AreTurned rest.now.comps rest.now.reads }
    requires nodes { AreNodesLeft edges.now.views edges.now.over rest.now.comps rest.now.insts }
    ensures { MatchOption result ((u : ℕ) → in_rows rest.now.comps v u ≡ true → IsLed edges.now.over edges.now.before rest.now.comps rest.now.insts (Node.Comp v u)) (λ u. (u < 64) × (in_rows rest.now.comps v u ≡ true) × IsFree edges.now.over edges.now.before rest.now.comps rest.now.insts (Node.Comp v u)) }
{
    let mut sources = rest.comps[v];
    while let Some(u) = first(sources) {
        if rest.leader(edges, Node::Comp(v, u)).is_none() {
            return Some(u);
        }
        sources = without(sources, u);
    }
    None
}

impl Hints {
    /// Returns the smallest Comp that is ready. A view of which none is goes out of the hints.
    fn ready_comp(&mut self, rest: &Rest, edges: &Edges) -> Option<Node>
        requires turned { AreTurned rest.now.comps rest.now.reads }
        requires nodes { AreNodesLeft edges.now.views edges.now.over rest.now.comps rest.now.insts }
        requires hints { AreHints edges.now.over edges.now.before rest.now.comps rest.now.insts self.old.comps self.old.insts }
        ensures hints { AreHints edges.now.over edges.now.before rest.now.comps rest.now.insts self.new.comps self.new.insts }
        ensures ready { MatchOption result ((v u : ℕ) → in_rows rest.now.comps v u ≡ true → IsLed edges.now.over edges.now.before rest.now.comps rest.now.insts (Node.Comp v u)) (λ y. IsWithin y × (is_left rest.now.comps rest.now.insts y ≡ true) × IsFree edges.now.over edges.now.before rest.now.comps rest.now.insts y) }
    {
        while let Some(v) = first(self.comps) {
            if let Some(u) = ready_source(rest, edges, v) {
                return Some(Node::Comp(v, u));
            }
            self.comps = without(self.comps, v);
        }
        None
    }

    /// Returns the smallest Inst that is ready. A view whose Inst is not goes out of the hints.
    fn ready_inst(&mut self, rest: &Rest, edges: &Edges) -> Option<Node>
        requires turned { AreTurned rest.now.comps rest.now.reads }
        requires nodes { AreNodesLeft edges.now.views edges.now.over rest.now.comps rest.now.insts }
        requires hints { AreHints edges.now.over edges.now.before rest.now.comps rest.now.insts self.old.comps self.old.insts }
        ensures hints { AreHints edges.now.over edges.now.before rest.now.comps rest.now.insts self.new.comps self.new.insts }
        ensures ready { MatchOption result ((w : ℕ) → in_set rest.now.insts w ≡ true → IsLed edges.now.over edges.now.before rest.now.comps rest.now.insts (Node.Inst w)) (λ y. IsWithin y × (is_left rest.now.comps rest.now.insts y ≡ true) × IsFree edges.now.over edges.now.before rest.now.comps rest.now.insts y) }
    {
        while let Some(w) = first(self.insts) {
            if holds(rest.insts, w) && rest.leader(edges, Node::Inst(w)).is_none() {
                return Some(Node::Inst(w));
            }
            self.insts = without(self.insts, w);
        }
        None
    }

    /// Returns the smallest node that is ready.
    fn next(&mut self, rest: &Rest, edges: &Edges) -> Option<Node>
        requires turned { AreTurned rest.now.comps rest.now.reads }
        requires nodes { AreNodesLeft edges.now.views edges.now.over rest.now.comps rest.now.insts }
        requires hints { AreHints edges.now.over edges.now.before rest.now.comps rest.now.insts self.old.comps self.old.insts }
        ensures hints { AreHints edges.now.over edges.now.before rest.now.comps rest.now.insts self.new.comps self.new.insts }
        ensures ready { MatchOption result ((y : Node) → is_left rest.now.comps rest.now.insts y ≡ true → IsLed edges.now.over edges.now.before rest.now.comps rest.now.insts y) (λ y. IsWithin y × (is_left rest.now.comps rest.now.insts y ≡ true) × IsFree edges.now.over edges.now.before rest.now.comps rest.now.insts y) }
    {
        if let Some(node) = self.ready_comp(rest, edges) {
            return Some(node);
        }
        match self.ready_inst(rest, edges) {
            Some(node) => Some(node),
            None => None,
        }
    }

    /// Returns the views of which a Comp may be ready, once one of this view was placed. Where that was the last one, all that are over the
    /// view are among them.
    fn comps_above(&self, rest: &Rest, edges: &Edges, v: usize) -> u64
        requires { v < 64 }
        ensures more { (a : ℕ) → in_set self.now.comps a ≡ true → in_set result a ≡ true }
        ensures done { ((x : ℕ) × (in_rows rest.now.comps v x ≡ true)) ⊎ ((a : ℕ) → in_rows edges.now.under v a ≡ true → in_set result a ≡ true) }
    {
        match first(rest.comps[v]) {
            Some(_) => self.comps,
            None => join(self.comps, edges.under[v]),
        }
    }

    /// Notes that the node was placed: what it leads to may be ready now.
    fn note(&mut self, rest: &Rest, edges: &Edges, node: Node)
        requires within { IsWithin node }
        requires turned { AreTurned edges.now.over edges.now.under }
        requires nodes { AreNodesLeft edges.now.views edges.now.over rest.now.comps rest.now.insts }
        requires hints { (y : Node) → is_left rest.now.comps rest.now.insts y ≡ true → (is_hinted self.old.comps self.old.insts y ≡ true) ⊎ (IsLed edges.now.over edges.now.before rest.now.comps rest.now.insts y ⊎ (leads_by edges.now.over edges.now.before node y ≡ true)) }
        ensures { AreHints edges.now.over edges.now.before rest.now.comps rest.now.insts self.new.comps self.new.insts }
    {
        match node {
            Node::Comp(v, u) => {
                self.comps = self.comps_above(rest, edges, v);
                self.insts = with(with(self.insts, v), u);
            }
            Node::Inst(u) => self.comps = join(self.comps, edges.under[u]),
        }
    }
}

/// Places the nodes that can be placed, each after those that lead to it, and returns those that are left too. The smallest node that is
/// ready goes first: a Comp before an Inst, then the lower target, then the lower source.
pub(crate) fn place_all(alloc: Global, edges: &Edges) -> Result<(Vec<Node>, Rest), AllocError>
    requires views { (v u : ℕ) → in_rows edges.now.over v u ≡ true → in_set edges.now.views v ≡ true }
    requires turned { AreTurned edges.now.over edges.now.under }
    ensures placed { IfOk result (λ r. ArePlaced edges.now.views edges.now.over edges.now.before r.1.comps r.1.insts r.0.items) }
    ensures turned { IfOk result (λ r. AreTurned r.1.comps r.1.reads) }
    ensures stuck { IfOk result (λ r. (y : Node) → is_left r.1.comps r.1.insts y ≡ true → IsLed edges.now.over edges.now.before r.1.comps r.1.insts y) }
    ensures memory { OnErr result ((y : Node) × (is_node_by edges.now.over edges.now.views y ≡ true)) }
{
    let mut rest = Rest::all(edges);
    let mut hints = Hints {
        comps: edges.views,
        insts: edges.views,
    };
    let mut placed = Vec::new(alloc);
    while let Some(node) = hints.next(&rest, edges) {
        rest.take(node);
        hints.note(&rest, edges, node);
        placed.push(node)?;
    }
    Ok((placed, rest))
}
