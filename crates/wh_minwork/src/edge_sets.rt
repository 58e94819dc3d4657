//! The edges of a graph as sets of views, so that none is stored and many are asked at once.

ghost use Rattle.std.specs.Prelude.{◌≡◌, ◌+◌, ◌<◌, ◌==◌, ◌&&◌, ℕ, true, false, not, MatchOption, sum};
ghost use Rattle.wh_cert.specs.Graph.{decides};
ghost use Rattle.wh_minwork.specs.Inner.Left.{AreEdges, AreTurned, IsWithin, is_left, is_node_by, leads_by};
ghost use Rattle.wh_minwork.specs.Inner.Nodes.{same_node};
ghost use Rattle.wh_minwork.specs.Inner.Sets.{in_set, in_rows};
ghost use Rattle.wh_minwork.specs.declared.node.Node.{Node};

use crate::node::Node;
use crate::sets::{Rows, add, first, holds, meet, none, remove, with, without};
use wh_dag::{ChildLists, MAX_VIEWS};

/// What the edges of a graph are told by.
#[derive(Drop)]
pub(crate) struct Edges {
    /// The views.
    pub(crate) views: u64,
    /// The views that each view is over.
    pub(crate) over: Rows,
    /// The views that are over each view.
    pub(crate) under: Rows,
    /// The views that are to be installed before each view.
    pub(crate) before: Rows,
}

/// The nodes that a sort has not placed yet.
#[derive(Clone, Copy)]
pub(crate) struct Rest {
    /// Of each view, those that its Comps that are left are from.
    pub(crate) comps: Rows,
    /// Of each view, those whose Comps from it are left.
    pub(crate) reads: Rows,
    /// The views whose Insts are left.
    pub(crate) insts: u64,
}

/// Makes the sets of the couples that are decided: of each view those that are to be installed before it.
fn before_of(decided: &[(usize, usize)]) -> Rows
    ensures { (u w : ℕ) → u < 64 → w < 64 → in_rows result w u ≡ decides decided.now u w }
{
    let mut before = none();
    for (u, w) in decided {
        if *u < MAX_VIEWS && *w < MAX_VIEWS {
            add(&mut before, *w, *u);
        }
    }
    before
}

impl Edges {
    /// Makes the sets of a shape's views, and of what is decided. A decision on what is no view of a shape is left out.
    pub(crate) fn of(children: &ChildLists, decided: &[(usize, usize)]) -> Edges
        ensures { AreEdges result.views result.over result.under result.before children.now decided.now }
    {
        let mut edges = Edges {
            views: 0,
            over: none(),
            under: none(),
            before: before_of(decided),
        };
        for v in 0..children.len() {
            edges.views = with(edges.views, v);
            for u in children.of(v) {
                add(&mut edges.over, v, *u);
                add(&mut edges.under, *u, v);
            }
        }
        edges
    }
}

impl Rest {
    /// Makes the sets with all nodes left.
    pub(crate) fn all(edges: &Edges) -> Rest
        ensures comps { result.comps ≡ edges.now.over }
        ensures reads { result.reads ≡ edges.now.under }
        ensures insts { result.insts ≡ edges.now.views }
    {
        Rest {
            comps: edges.over,
            reads: edges.under,
            insts: edges.views,
        }
    }

    /// Returns whether the node is left.
    pub(crate) fn has(&self, node: Node) -> bool
        requires { IsWithin node }
        ensures { result ≡ is_left self.now.comps self.now.insts node }
    {
        match node {
            Node::Comp(v, u) => holds(self.comps[v], u),
            Node::Inst(w) => holds(self.insts, w),
        }
    }

    /// Takes out the node, which is left no more.
    pub(crate) fn take(&mut self, node: Node)
        requires { IsWithin node }
        ensures left { (e : Node) → is_left self.new.comps self.new.insts e ≡ (not (same_node node e) && is_left self.old.comps self.old.insts e) }
        ensures turned { AreTurned self.old.comps self.old.reads → AreTurned self.new.comps self.new.reads }
        ensures less { is_left self.old.comps self.old.insts node ≡ true → sum self.new.comps + self.new.insts < sum self.old.comps + self.old.insts }
    {
        match node {
            Node::Comp(v, u) => {
                remove(&mut self.comps, v, u);
                remove(&mut self.reads, u, v);
            }
            Node::Inst(w) => self.insts = without(self.insts, w),
        }
    }

    /// Returns a node that is left and leads to this one: the smallest.
    pub(crate) fn leader(&self, edges: &Edges, node: Node) -> Option<Node>
        requires within { IsWithin node }
        requires node { is_node_by edges.now.over edges.now.views node ≡ true }
        requires turned { AreTurned self.now.comps self.now.reads }
        ensures { MatchOption result ((x : Node) → is_left self.now.comps self.now.insts x ≡ true → leads_by edges.now.over edges.now.before x node ≡ false) (λ x. IsWithin x × (is_left self.now.comps self.now.insts x ≡ true) × (leads_by edges.now.over edges.now.before x node ≡ true)) }
    {
        match node {
            Node::Comp(v, u) => match first(self.comps[u]) {
                Some(x) => Some(Node::Comp(u, x)),
                None => match first(meet(meet(edges.over[v], edges.before[u]), self.insts)) {
                    Some(w) => Some(Node::Inst(w)),
                    None => None,
                },
            },
            Node::Inst(w) => match first(self.comps[w]) {
                Some(x) => Some(Node::Comp(w, x)),
                None => match first(self.reads[w]) {
                    Some(v) => Some(Node::Comp(v, w)),
                    None => None,
                },
            },
        }
    }

    /// Returns the smallest node that is left.
    pub(crate) fn smallest(&self) -> Option<Node>
        ensures { MatchOption result ((x : Node) → is_left self.now.comps self.now.insts x ≡ false) (λ x. IsWithin x × (is_left self.now.comps self.now.insts x ≡ true)) }
    {
        for v in 0..MAX_VIEWS {
            if let Some(u) = first(self.comps[v]) {
                return Some(Node::Comp(v, u));
            }
        }
        match first(self.insts) {
            Some(w) => Some(Node::Inst(w)),
            None => None,
        }
    }
}
