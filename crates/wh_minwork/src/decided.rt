//! Decisions: which view of a couple is installed first. A graph is drawn from them.

ghost use Rattle.std.specs.Prelude.{◌≡◌, ◌≢◌, ◌<◌, [], ◌∷◌, ◌++◌, ℕ, false, length, take, IfOk, OnErr};
ghost use Rattle.wh_dag.specs.Siblings.{IsCouple};
ghost use Rattle.wh_strategy.specs.Sizes.{sizes_of};
ghost use Rattle.wh_cert.specs.Graph.{decides, IsOrdered};
ghost use Rattle.wh_minwork.specs.Inner.Desired.{in_desired_order};
ghost use Rattle.wh_minwork.specs.Decided.{AreDecisions};

use std::alloc::{AllocError, Global};
use std::marker::Model;
use wh_cert::{Relation, comes_first};
use wh_dag::Shape;
use wh_strategy::Sizes;

/// Couples that are decided, by their numbers, the view that is installed first standing first. No couple is decided twice.
#[derive(Debug, Drop)]
pub struct Decided {
    couples: Vec<(usize, usize)>,
}

impl Model for Decided {
    ghost use Rattle.std.specs.Prelude.{List, ℕ};
    ghost use Rattle.wh_minwork.specs.Decided.{AreDecisions};

    ghost Value = { List (ℕ × ℕ) };

    ghost view = { λ d. d.couples.items };

    ghost invariant = { λ d. AreDecisions d.couples.items };
}

impl Decided {
    /// Makes a list without decisions. Takes no memory.
    pub fn new(alloc: Global) -> Decided
        ensures { result ≡ [] }
    {
        Decided {
            couples: Vec::new(alloc),
        }
    }

    /// Decides all couples of the shape by the desired order: the graph under these decisions is the ordered graph. Fails for want of
    /// memory alone, and never where there is no couple. Takes O(V² + V C²) for V views of at most C children each.
    pub fn by_desired_order(
        alloc: Global,
        shape: &Shape,
        sizes: &Sizes,
    ) -> Result<Decided, AllocError>
        requires { length sizes.now ≡ length shape.now.children }
        ensures ordered { IfOk result (IsOrdered shape.now.children (sizes_of sizes.now)) }
        ensures err { OnErr result ((u : ℕ) × (w : ℕ) × IsCouple shape.now.children u w) }
    {
        let siblings = Relation::of_siblings(shape.child_lists());
        let mut decided = Decided::new(alloc);
        for lower in 0..shape.len() {
            for higher in lower + 1..shape.len() {
                if siblings.has(lower, higher) {
                    decided.push_desired(sizes, lower, higher)?;
                }
            }
        }
        Ok(decided)
    }

    /// Returns the couples, in the order in which they were decided.
    pub fn as_slice(&self) -> &[(usize, usize)]
        ensures couples { result.now ≡ self.now }
        ensures once { AreDecisions self.now }
    {
        &self.couples
    }

    /// Returns whether it is decided that the first view is installed before the second. Takes O(n) for n decisions.
    #[tactic(auto, unfolding(wh_cert::specs::Graph::decides))]
    pub fn decides(&self, first: usize, second: usize) -> bool
        ensures { result ≡ decides self.now first second }
    {
        self.couples.iter().any(|c| c.0 == first && c.1 == second)
    }

    /// Decides that the first view is installed before the second. An error, for want of memory, leaves the decisions as they were.
    pub fn push(&mut self, first: usize, second: usize) -> Result<(), AllocError>
        requires two { first ≢ second }
        requires open { decides self.old first second ≡ false }
        requires open_too { decides self.old second first ≡ false }
        ensures ok { IfOk result (λ _. self.new ≡ self.old ++ (first, second) ∷ []) }
        ensures err { OnErr result (self.new ≡ self.old) }
    {
        self.couples.push((first, second))?;
        Ok(())
    }

    /// Keeps the first `length` decisions, and takes those after them back.
    pub fn truncate(&mut self, length: usize)
        ensures { self.new ≡ take length self.old }
    {
        self.couples.truncate(length);
    }

    /// Decides by the desired order which of the two is installed first.
    fn push_desired(&mut self, sizes: &Sizes, u: usize, w: usize) -> Result<(), AllocError>
        requires two { u ≢ w }
        requires u { u < length sizes.now }
        requires w { w < length sizes.now }
        requires open { decides self.old u w ≡ false }
        requires open_too { decides self.old w u ≡ false }
        ensures { IfOk result (λ _. self.new ≡ self.old ++ in_desired_order (sizes_of sizes.now) u w ∷ []) }
    {
        if comes_first(sizes, u, w) {
            self.push(u, w)
        } else {
            self.push(w, u)
        }
    }
}
