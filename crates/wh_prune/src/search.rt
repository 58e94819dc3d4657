//! Searches for a least one-way strategy, with the tree that says why it is.

ghost use Rattle.std.specs.Prelude.{◌≡◌, ◌↔◌, ◌+◌, ◌≤◌, ℕ, List, [], length, IfOk, IfErr};
ghost use Rattle.wh_dag.specs.Shape.{IsShape};
ghost use Rattle.wh_dag.specs.Siblings.{couples_of};
ghost use Rattle.wh_strategy.specs.declared.expression.Expression.{Expression};
ghost use Rattle.wh_strategy.specs.Prices.{prices_of};
ghost use Rattle.wh_strategy.specs.Rules.{IsCorrect, IsOneWay};
ghost use Rattle.wh_strategy.specs.Sizes.{sizes_of};
ghost use Rattle.wh_strategy.specs.Work.{work_of};
ghost use Rattle.wh_cert.specs.Bound.{pair_bound_of};
ghost use Rattle.wh_cert.specs.Certificate.{IsJudged};
ghost use Rattle.wh_cert.specs.declared.certificate.Scope.{Scope};
ghost use Rattle.wh_prune.specs.Plan.{HasBranchesOnCycles, IsLeastPlan, IsSearchReason, IsWithinBudget, accepted_for};
ghost use Rattle.wh_prune.specs.Inner.Searching.{IsExplored};

use crate::explore::{Search, Task};
use crate::fault::PruneFault;
use std::alloc::{AllocError, Global};
use wh_cert::{Certificate, Planned, Scope, Tree, TreeNode, decided_bound, pair_bound};
use wh_dag::Shape;
use wh_minwork::pair_mins;
use wh_strategy::{CheckFault, Costs, Sizes, check};

/// Returns why no strategy costs less than this work. Where it is the pair bound, that is reason enough, and it holds for all strategies.
/// Else the tree of these nodes is, for the one-way ones.
fn reason(
    alloc: Global,
    shape: &Shape,
    sizes: &Sizes,
    costs: Costs,
    work: u128,
    nodes: Vec<TreeNode>,
) -> Result<(Scope, Certificate), AllocError>
    requires same { length sizes.now ≡ length shape.now.children }
    requires shape { IsShape shape.now.children }
    requires explored { IsExplored shape.now.children (sizes_of sizes.now) (prices_of costs) work (length (couples_of shape.now.children) + 1) [] [] nodes.items }
    ensures all { IfOk result (λ r. r.0 ≡ Scope.All ↔ work ≡ pair_bound_of shape.now.children (sizes_of sizes.now) (prices_of costs)) }
    ensures certified { IfOk result (λ r. IsJudged shape.now.children (sizes_of sizes.now) (prices_of costs) work r.1 (accepted_for r.0)) }
    ensures within { IfOk result (λ r. (budget : ℕ) → length nodes.items ≤ budget → IsWithinBudget budget r.1) }
    ensures branches { IfOk result (λ r. HasBranchesOnCycles shape.now.children (sizes_of sizes.now) r.1) }
    ensures least_of_all { IfOk result (λ r. r.0 ≡ Scope.All → (list : List Expression) → IsCorrect shape.now.children list → work ≤ work_of shape.now.children (sizes_of sizes.now) (prices_of costs) list) }
    ensures least_one_way { IfOk result (λ r. (list : List Expression) → IsCorrect shape.now.children list → IsOneWay list → work ≤ work_of shape.now.children (sizes_of sizes.now) (prices_of costs) list) }
{
    if work == pair_bound(shape, sizes, costs) {
        let lines = pair_mins(alloc, shape, sizes)?;
        return Ok((Scope::All, Certificate::Pairs(lines)));
    }
    match Tree::new(nodes) {
        Some(tree) => Ok((Scope::OneWay, Certificate::Search(tree))),
        None => unreachable!(),
    }
}

/// Plans a strategy of least work among the one-way ones, by opening at most `budget` nodes of a tree of decisions. Fails where the budget
/// was spent, or for want of memory. Takes O(V³ C + K N²) for V views of at most C children each, K nodes that are opened and N one-way
/// expressions.
pub fn prune(
    alloc: Global,
    shape: &Shape,
    sizes: &Sizes,
    costs: Costs,
    budget: u64,
) -> Result<Planned, PruneFault>
    requires same { length sizes.now ≡ length shape.now.children }
    ensures shape { IfOk result (λ p. p.correct.children ≡ shape.now.children) }
    ensures least { IfOk result (λ p. IsLeastPlan shape.now.children (sizes_of sizes.now) (prices_of costs) p.work p.scope p.correct.list p.certificate) }
    ensures within { IfOk result (λ p. IsWithinBudget budget p.certificate) }
    ensures err { IfErr result (IsSearchReason shape.now.children (sizes_of sizes.now) (prices_of costs) budget) }
{
    let couples = shape.couples(alloc)?;
    let mut search = Search::begin(alloc, shape, sizes, costs, &couples)?;
    let bound = decided_bound(shape, sizes, costs, &[]);
    let task = Task {
        shape,
        sizes,
        costs,
        budget,
    };
    search.explore(alloc, &task, bound, couples.len())?;
    let Search {
        best: work,
        list,
        nodes,
        ..
    } = search;
    let (scope, certificate) = reason(alloc, shape, sizes, costs, work, nodes)?;
    match check(alloc, shape, list) {
        Ok(correct) => Ok(Planned {
            correct,
            work,
            scope,
            certificate,
        }),
        Err(CheckFault::Broken { .. }) => unreachable!(),
        Err(CheckFault::Memory) => Err(PruneFault::Memory),
    }
}
