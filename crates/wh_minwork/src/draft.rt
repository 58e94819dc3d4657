//! A graph whose couples are decided one after another, as a search goes down and up its tree of decisions.

ghost use Rattle.std.specs.Prelude.{◌≡◌, ◌≢◌, ◌<◌, ◌⊎◌, ◌==◌, ◌&&◌, ◌||◌, ◌++◌, ◌∷◌, ◌-◌, [], ℕ, true, false, length, take, IfOk, OnErr, MatchOption};
ghost use Rattle.wh_dag.specs.Shape.{IsShape};
ghost use Rattle.wh_dag.specs.Siblings.{IsCouple};
ghost use Rattle.wh_strategy.specs.Sizes.{sizes_of};
ghost use Rattle.wh_cert.specs.Graph.{decides, IsOrdered};
ghost use Rattle.wh_cert.specs.Search.{IsOpen};
ghost use Rattle.wh_minwork.specs.Decided.{AreDecisions};
ghost use Rattle.wh_minwork.specs.Draft.{completed, DecidesCouples, IsFound};
ghost use Rattle.wh_minwork.specs.Left.{AreOf};
ghost use Rattle.wh_minwork.specs.Inner.Left.{IsBetween, IsRound, IsRoundTo};
ghost use Rattle.wh_minwork.specs.Inner.Nodes.{is_node, leads};
ghost use Rattle.wh_minwork.specs.Inner.Sets.{in_set, in_rows};
ghost use Rattle.wh_minwork.specs.declared.node.Node.{Node};

use crate::decided::Decided;
use crate::edge_sets::Edges;
use crate::node::{Node, expressions};
use crate::sets::{Rows, add, holds, none, remove};
use crate::sort::{Sorting, sort};
use std::alloc::{AllocError, Global};
use std::marker::Model;
use wh_dag::{ChildLists, Couple, Shape};
use wh_strategy::{Sizes, Strategy};

/// The graph of a shape in which some couples are decided, and all others stand in the desired order. It is kept while
/// couples are decided and decisions are taken back: each time only the edges of that couple change.
#[derive(Drop)]
pub struct Draft<'a> {
    children: &'a ChildLists,
    /// All couples in the desired order.
    ordered: Decided,
    decided: Decided,
    /// The views that come before each view in the desired order and make a couple with it.
    desired: Rows,
    /// The views with which each view is decided.
    settled: Rows,
    edges: Edges,
}

impl<'a> Model for Draft<'a> {
    ghost use Rattle.wh_minwork.specs.Draft.{Drafted};
    ghost use Rattle.wh_minwork.specs.Inner.Draft.{AreDraftSets};

    ghost Value = { Drafted };

    ghost view = { λ d. record { children = d.children.now; ordered = d.ordered; decided = d.decided } };

    ghost invariant = { λ d. AreDraftSets d.edges.views d.edges.over d.edges.under d.edges.before d.desired d.settled d.children.now d.ordered d.decided };
}

/// What the graph of a draft is found to be.
#[derive(Drop)]
pub enum Found {
    /// It has no cycle: these are its nodes, each edge leading forward.
    Sorted(Strategy),
    /// It has a cycle whose couples are all decided.
    Cycle(Strategy),
    /// It has a cycle, and this is the first couple along it that is not decided.
    Open(Couple),
}

/// Returns the couple of two views.
fn couple_of(u: usize, w: usize) -> Couple
    requires { u ≢ w }
    ensures lower { result.lower < result.higher }
    ensures both { AreOf result u w }
{
    if u < w {
        Couple {
            lower: u,
            higher: w,
        }
    } else {
        Couple {
            lower: w,
            higher: u,
        }
    }
}

impl<'a> Draft<'a> {
    /// Makes the draft of a shape in which no couple is decided. Fails for want of memory alone, and never where there is no couple. Takes
    /// O(V² + V C²) for V views of at most C children each.
    pub fn new(alloc: Global, shape: &'a Shape, sizes: &Sizes) -> Result<Draft<'a>, AllocError>
        requires { length sizes.now ≡ length shape.now.children }
        ensures children { IfOk result (λ d. d.children ≡ shape.now.children) }
        ensures ordered { IfOk result (λ d. IsOrdered shape.now.children (sizes_of sizes.now) d.ordered) }
        ensures decided { IfOk result (λ d. d.decided ≡ []) }
        ensures err { OnErr result ((u : ℕ) × (w : ℕ) × IsCouple shape.now.children u w) }
    {
        let children = shape.child_lists();
        let ordered = Decided::by_desired_order(alloc, shape, sizes)?;
        let edges = Edges::of(children, ordered.as_slice());
        Ok(Draft {
            children,
            ordered,
            decided: Decided::new(alloc),
            desired: edges.before,
            settled: none(),
            edges,
        })
    }

    /// Returns the couples that are decided, in the order in which they were.
    pub fn decided(&self) -> &[(usize, usize)]
        ensures decided { result.now ≡ self.now.decided }
        ensures once { AreDecisions self.now.decided }
        ensures couples { DecidesCouples self.now.children self.now.decided }
    {
        self.decided.as_slice()
    }

    /// Decides that the first view is installed before the second. An error, for want of memory, leaves the decisions as they were.
    pub fn push(&mut self, first: usize, second: usize) -> Result<(), AllocError>
        requires couple { IsCouple self.old.children first second }
        requires open { decides self.old.decided first second ≡ false }
        requires open_too { decides self.old.decided second first ≡ false }
        ensures children { self.new.children ≡ self.old.children }
        ensures ordered { self.new.ordered ≡ self.old.ordered }
        ensures ok { IfOk result (λ _. self.new.decided ≡ self.old.decided ++ (first, second) ∷ []) }
        ensures err { OnErr result (self.new.decided ≡ self.old.decided) }
    {
        self.decided.push(first, second)?;
        add(&mut self.settled, first, second);
        add(&mut self.settled, second, first);
        remove(&mut self.edges.before, first, second);
        add(&mut self.edges.before, second, first);
        Ok(())
    }

    /// Returns the last decision.
    fn last(&self) -> (usize, usize)
        requires { 0 < length self.now.decided }
        ensures last { self.now.decided ≡ take (length self.now.decided - 1) self.now.decided ++ (result.0, result.1) ∷ [] }
        ensures first { result.0 < 64 }
        ensures second { result.1 < 64 }
    {
        let decided = self.decided.as_slice();
        decided[decided.len() - 1]
    }

    /// Takes the last decision back: its couple stands in the desired order again.
    pub fn pop(&mut self)
        requires { 0 < length self.old.decided }
        ensures children { self.new.children ≡ self.old.children }
        ensures ordered { self.new.ordered ≡ self.old.ordered }
        ensures decided { self.new.decided ≡ take (length self.old.decided - 1) self.old.decided }
    {
        let (first, second) = self.last();
        self.decided.truncate(self.decided.as_slice().len() - 1);
        remove(&mut self.settled, first, second);
        remove(&mut self.settled, second, first);
        if holds(self.desired[first], second) {
            remove(&mut self.edges.before, second, first);
            add(&mut self.edges.before, first, second);
        }
    }

    /// Sorts the graph, or says why it cannot be sorted. The cycle goes back from the smallest node that cannot be placed, each time to the
    /// smallest one that leads there. Fails for want of memory alone. Takes O(N²) for N nodes of the graph.
    pub fn next_branch(&self, alloc: Global) -> Result<Found, AllocError>
        ensures found { IfOk result (IsFound self.now.children self.now.ordered self.now.decided) }

        // Without a view there is no node, and no memory is taken.
        ensures some { OnErr result (0 < length self.now.children) }
    {
        match sort(alloc, &self.edges)? {
            Sorting::Order(nodes) => Ok(Found::Sorted(Strategy::new(expressions(alloc, &nodes)?))),
            Sorting::Round(cycle) => match self.first_open(&cycle) {
                Some(couple) => Ok(Found::Open(couple)),
                None => Ok(Found::Cycle(Strategy::new(expressions(alloc, &cycle)?))),
            },
        }
    }

    /// Returns the couple by which the Inst of the first view leads to a Comp from the last one, where it is not decided.
    fn open_couple(&self, u: usize, v: usize, w: usize) -> Option<Couple>
        requires { leads self.now.children (completed self.now.ordered self.now.decided) (Node.Inst u) (Node.Comp v w) ≡ true }
        ensures { MatchOption result (leads self.now.children self.now.decided (Node.Inst u) (Node.Comp v w) ≡ true) (λ couple. IsOpen self.now.children self.now.decided couple × AreOf couple u w) }
    {
        // The proof needs what the lists of a shape keep to.
        let (_views, _parent) = (self.children.len(), v);
        if holds(self.settled[u], w) {
            None
        } else {
            Some(couple_of(u, w))
        }
    }

    /// Returns the couple by which the first node leads to the other one, where it is not decided.
    fn open_between(&self, from: Node, to: Node) -> Option<Couple>
        requires { leads self.now.children (completed self.now.ordered self.now.decided) from to ≡ true }
        ensures { MatchOption result (leads self.now.children self.now.decided from to ≡ true) (λ couple. IsOpen self.now.children self.now.decided couple × IsBetween couple from to) }
    {
        match (from, to) {
            (Node::Inst(u), Node::Comp(v, w)) => self.open_couple(u, v, w),
            (Node::Inst(_), Node::Inst(_)) => None,
            (Node::Comp(_, _), _) => None,
        }
    }

    /// Returns the first couple along the cycle that is not decided.
    fn first_open(&self, cycle: &[Node]) -> Option<Couple>
        requires { IsRound (leads self.now.children (completed self.now.ordered self.now.decided)) (is_node self.now.children) cycle.now }
        ensures { MatchOption result (IsRound (leads self.now.children self.now.decided) (is_node self.now.children) cycle.now) (λ couple. IsOpen self.now.children self.now.decided couple × IsRoundTo (leads self.now.children self.now.decided) couple cycle.now) }
    {
        let [first, rest @ ..] = cycle else {
            return None;
        };
        let mut last = *first;
        for next in rest {
            if let Some(couple) = self.open_between(last, *next) {
                return Some(couple);
            }
            last = *next;
        }
        self.open_between(last, *first)
    }
}
