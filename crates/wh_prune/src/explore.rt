//! Explores a tree of decisions on the couples in preorder, only where it must.

ghost use Rattle.std.specs.Prelude.{◌≡◌, ◌+◌, ◌++◌, ◌∷◌, ◌^◌, ◌≤◌, ℕ, List, [], length, Err, IfOk, IfErr, OnOk, MatchOption};
ghost use Rattle.std.specs.Option.{option_map_or};
ghost use Rattle.wh_dag.specs.Shape.{IsShape};
ghost use Rattle.wh_dag.specs.Siblings.{couples_of};
ghost use Rattle.wh_strategy.specs.Prices.{prices_of};
ghost use Rattle.wh_strategy.specs.declared.sizes.Size.{Size};
ghost use Rattle.wh_strategy.specs.Sizes.{sizes_of};
ghost use Rattle.wh_cert.specs.Bound.{decided_bound_of};
ghost use Rattle.wh_cert.specs.Graph.{IsOrdered};
ghost use Rattle.wh_cert.specs.Search.{IsOpen};
ghost use Rattle.wh_cert.specs.declared.tree.TreeNode.{TreeNode};
ghost use Rattle.wh_minwork.specs.Decided.{AreDecisions};
ghost use Rattle.wh_minwork.specs.Draft.{DecidesCouples};
ghost use Rattle.wh_prune.specs.Branching.{IsOnCycle};
ghost use Rattle.wh_prune.specs.Inner.Searching.{AreLeft, DecidesLowerFirst, HasRun, IsExplored, IsHeld, IsStopped};
ghost use Rattle.wh_prune.specs.Opening.{below};
ghost use Rattle.wh_prune.specs.Spent.{BeginsWith};

use crate::fault::PruneFault;
use std::alloc::{AllocError, Global};
use wh_cert::{TreeNode, decided_bound, decided_bound_with};
use wh_dag::{Couple, Shape};
use wh_minwork::{Decided, Draft, Found, Graph, SortFault};
use wh_strategy::{Costs, Sizes, Strategy};

/// Where a search stands.
#[derive(Drop)]
pub(crate) struct Search<'a> {
    /// The least work of the one-way strategies that were found.
    pub(crate) best: u128,
    /// A strategy of this work.
    pub(crate) list: Strategy,
    /// The nodes that were opened, in preorder.
    pub(crate) nodes: Vec<TreeNode>,
    draft: Draft<'a>,
}

/// What a search goes by: the views, their sizes and what their rows cost, and how many nodes it may open.
#[derive(Drop)]
pub(crate) struct Task<'a> {
    pub(crate) shape: &'a Shape,
    pub(crate) sizes: &'a Sizes,
    pub(crate) costs: Costs,
    pub(crate) budget: u64,
}

/// Returns the decisions that install the lower number of each of the shape's couples first.
fn lowest(alloc: Global, shape: &Shape, couples: &[Couple]) -> Result<Decided, AllocError>
    requires { couples.now ≡ couples_of shape.now.children }
    ensures all { IfOk result (λ decided. AreLeft shape.now.children decided []) }
    ensures lower { IfOk result DecidesLowerFirst }
{
    let mut decided = Decided::new(alloc);
    for couple in couples {
        decided.push(couple.lower, couple.higher)?;
    }
    Ok(decided)
}

/// Returns the bounds under these decisions and one more on this couple: the lower number first, and the higher number first.
fn bounds_below(
    task: &Task<'_>,
    decided: &[(usize, usize)],
    bound: u128,
    couple: Couple,
) -> (u128, u128)
    requires same { length task.now.sizes.now ≡ length task.now.shape.now.children }
    requires bound { bound ≡ decided_bound_of task.now.shape.now.children (sizes_of task.now.sizes.now) (prices_of task.now.costs) decided.now }
    requires open { IsOpen task.now.shape.now.children decided.now couple }
    ensures lower { result.0 ≡ decided_bound_of task.now.shape.now.children (sizes_of task.now.sizes.now) (prices_of task.now.costs) (decided.now ++ (couple.lower, couple.higher) ∷ []) }
    ensures higher { result.1 ≡ decided_bound_of task.now.shape.now.children (sizes_of task.now.sizes.now) (prices_of task.now.costs) (decided.now ++ (couple.higher, couple.lower) ∷ []) }
{
    // The proof needs what the lists of a shape keep to.
    let _lists = task.shape.child_lists();
    let Task {
        shape,
        sizes,
        costs,
        ..
    } = task;
    let Couple { lower, higher } = couple;
    (
        decided_bound_with(shape, sizes, *costs, decided, bound, (lower, higher)),
        decided_bound_with(shape, sizes, *costs, decided, bound, (higher, lower)),
    )
}

impl<'a> Search<'a> {
    /// Begins a search with the strategy in which the lower number of each couple is installed first. No node is open yet.
    pub(crate) fn begin(
        alloc: Global,
        shape: &'a Shape,
        sizes: &Sizes,
        costs: Costs,
        couples: &[Couple],
    ) -> Result<Search<'a>, PruneFault>
        requires same { length sizes.now ≡ length shape.now.children }
        requires couples { couples.now ≡ couples_of shape.now.children }
        ensures held { IfOk result (λ s. IsHeld shape.now.children (sizes_of sizes.now) (prices_of costs) s.best s.list) }
        ensures begins { IfOk result (λ s. BeginsWith shape.now.children (sizes_of sizes.now) (prices_of costs) s.best) }
        ensures shape { OnOk result (IsShape shape.now.children) }
        ensures children { IfOk result (λ s. s.draft.children ≡ shape.now.children) }
        ensures ordered { IfOk result (λ s. IsOrdered shape.now.children (sizes_of sizes.now) s.draft.ordered) }
        ensures decided { IfOk result (λ s. s.draft.decided ≡ []) }
        ensures nodes { IfOk result (λ s. s.nodes.items ≡ []) }
        ensures err { IfErr result (λ fault. fault ≡ PruneFault.Memory) }
    {
        let lowest = lowest(alloc, shape, couples)?;
        match Graph::of(shape, &lowest).sorted(alloc) {
            Ok(list) => Ok(Search {
                best: decided_bound(shape, sizes, costs, lowest.as_slice()),
                list,
                nodes: Vec::new(alloc),
                draft: Draft::new(alloc, shape, sizes)?,
            }),
            Err(SortFault::Cycle(_)) => unreachable!(),
            Err(SortFault::Memory) => Err(PruneFault::Memory),
        }
    }

    /// Opens a node. Where its bound is no less than the best work, nothing below it is worth a look. Otherwise its graph is sorted, in
    /// which the couples that it leaves open stand in the desired order. That gives a better strategy, or a cycle of decided couples, or
    /// else the couple to decide next, with a branch for it.
    fn open(
        &mut self,
        alloc: Global,
        task: &Task<'_>,
        bound: u128,
    ) -> Result<Option<Couple>, AllocError>
        requires bound { bound ≡ decided_bound_of task.now.shape.now.children (sizes_of task.now.sizes.now) (prices_of task.now.costs) self.old.draft.decided }
        requires children { self.old.draft.children ≡ task.now.shape.now.children }
        requires ordered { IsOrdered task.now.shape.now.children (sizes_of task.now.sizes.now) self.old.draft.ordered }
        requires held { IsHeld task.now.shape.now.children (sizes_of task.now.sizes.now) (prices_of task.now.costs) self.old.best self.old.list }
        ensures held { IsHeld task.now.shape.now.children (sizes_of task.now.sizes.now) (prices_of task.now.costs) self.new.best self.new.list }
        ensures down { self.new.best ≤ self.old.best }
        ensures draft { self.new.draft ≡ self.old.draft }
        ensures nodes { IfOk result (λ _. length self.new.nodes.items ≡ length self.old.nodes.items + 1) }
        ensures explored { IfOk result (λ found. MatchOption found (IsExplored task.now.shape.now.children (sizes_of task.now.sizes.now) (prices_of task.now.costs) self.new.best 1 self.old.draft.decided self.old.nodes.items self.new.nodes.items) (λ couple. IsOpen task.now.shape.now.children self.old.draft.decided couple × (self.new.nodes.items ≡ self.old.nodes.items ++ TreeNode.Branch couple ∷ []) × (length self.old.draft.decided + 1 ≤ length (couples_of task.now.shape.now.children)) × IsOnCycle task.now.shape.now.children (sizes_of task.now.sizes.now) self.old.draft.decided couple)) }
        ensures run { IfOk result (λ found. HasRun task.now.shape.now.children (sizes_of task.now.sizes.now) (prices_of task.now.costs) self.old.draft.decided self.old.best self.new.best (option_map_or (λ couple. below self.old.draft.decided (TreeNode.Branch couple)) found []) self.old.nodes.items self.new.nodes.items) }
    {
        // The proof needs what the lists of a shape and the decisions of a draft keep to.
        let (_lists, _decided) = (task.shape.child_lists(), self.draft.decided());
        if self.best <= bound {
            self.nodes.push(TreeNode::Bound)?;
            return Ok(None);
        }
        match self.draft.next_branch(alloc)? {
            Found::Sorted(list) => {
                self.nodes.push(TreeNode::Bound)?;
                self.best = bound;
                self.list = list;
                Ok(None)
            }
            Found::Cycle(cycle) => {
                self.nodes.push(TreeNode::Cycle(cycle))?;
                Ok(None)
            }
            Found::Open(couple) => {
                self.nodes.push(TreeNode::Branch(couple))?;
                Ok(Some(couple))
            }
        }
    }

    /// Opens the nodes below these decisions, which leave `left` couples open. Stops where as many nodes as the budget says are open.
    pub(crate) fn explore(
        &mut self,
        alloc: Global,
        task: &Task<'_>,
        bound: u128,
        left: usize,
    ) -> Result<(), PruneFault>
        requires same { length task.now.sizes.now ≡ length task.now.shape.now.children }
        requires children { self.old.draft.children ≡ task.now.shape.now.children }
        requires ordered { IsOrdered task.now.shape.now.children (sizes_of task.now.sizes.now) self.old.draft.ordered }
        requires bound { bound ≡ decided_bound_of task.now.shape.now.children (sizes_of task.now.sizes.now) (prices_of task.now.costs) self.old.draft.decided }
        requires left { length self.old.draft.decided + left ≡ length (couples_of task.now.shape.now.children) }
        requires held { IsHeld task.now.shape.now.children (sizes_of task.now.sizes.now) (prices_of task.now.costs) self.old.best self.old.list }
        requires budget { length self.old.nodes.items ≤ task.now.budget }
        ensures held { IsHeld task.now.shape.now.children (sizes_of task.now.sizes.now) (prices_of task.now.costs) self.new.best self.new.list }
        ensures down { self.new.best ≤ self.old.best }
        ensures children { self.new.draft.children ≡ self.old.draft.children }
        ensures ordered { self.new.draft.ordered ≡ self.old.draft.ordered }
        ensures kept { IfOk result (λ _. self.new.draft.decided ≡ self.old.draft.decided) }
        ensures within { IfOk result (λ _. length self.new.nodes.items ≤ task.now.budget) }
        ensures nodes { IfOk result (λ _. length self.new.nodes.items + 1 ≤ length self.old.nodes.items + 2 ^ (left + 1)) }
        ensures explored { IfOk result (λ _. IsExplored task.now.shape.now.children (sizes_of task.now.sizes.now) (prices_of task.now.costs) self.new.best (left + 1) self.old.draft.decided self.old.nodes.items self.new.nodes.items) }
        ensures run { IfOk result (λ _. HasRun task.now.shape.now.children (sizes_of task.now.sizes.now) (prices_of task.now.costs) self.old.draft.decided self.old.best self.new.best [] self.old.nodes.items self.new.nodes.items) }
        ensures err { IfErr result (IsStopped task.now.shape.now.children (sizes_of task.now.sizes.now) (prices_of task.now.costs) task.now.budget (length self.old.nodes.items + 2 ^ (left + 1)) self.old.draft.decided self.old.best self.new.best self.old.nodes.items self.new.nodes.items) }

        // A budget that is spent is told before memory is wanted.
        ensures spent { task.now.budget ≤ length self.old.nodes.items → result ≡ Err (PruneFault.Budget task.now.budget self.old.best) }
    {
        let opened = self.nodes.len() as u64;
        if task.budget <= opened {
            return Err(PruneFault::Budget {
                opened,
                best: self.best,
            });
        }
        let Some(couple) = self.open(alloc, task, bound)? else {
            return Ok(());
        };
        let (lower, higher) = bounds_below(task, self.draft.decided(), bound, couple);
        self.draft.push(couple.lower, couple.higher)?;
        self.explore(alloc, task, lower, left - 1)?;
        self.draft.pop();
        self.draft.push(couple.higher, couple.lower)?;
        self.explore(alloc, task, higher, left - 1)?;
        self.draft.pop();
        Ok(())
    }
}
