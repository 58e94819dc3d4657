//! Plans a night for every shape, by MinWork where that has a plan, else by a search.

ghost use Rattle.std.specs.Prelude.{◌≡◌, ◌<◌, ◌≤◌, ◌⊎◌, List, length, IfOk, IfErr, OnErr};
ghost use Rattle.wh_dag.specs.Kinds.{IsTree, IsUniform};
ghost use Rattle.wh_strategy.specs.declared.expression.Expression.{Expression};
ghost use Rattle.wh_strategy.specs.Prices.{prices_of};
ghost use Rattle.wh_strategy.specs.Rules.{IsCorrect, IsOneWay};
ghost use Rattle.wh_strategy.specs.Sizes.{sizes_of};
ghost use Rattle.wh_strategy.specs.Work.{work_of};
ghost use Rattle.wh_cert.specs.Certificate.{IsJudged};
ghost use Rattle.wh_cert.specs.declared.certificate.Scope.{Scope};
ghost use Rattle.wh_prune.specs.Plan.{GoesByOrder, IsLeastPlan, IsPlanReason, IsWithinBudget, accepted_for};

use crate::fault::PruneFault;
use crate::search::prune;
use std::alloc::Global;
use wh_cert::{Planned, Scope, Verdict, certify};
use wh_dag::Shape;
use wh_minwork::{MinFault, min_work};
use wh_strategy::{Costs, Sizes};

/// Returns the verdict that a certificate of this scope is to have.
fn accepted_for(scope: Scope) -> Verdict
    ensures { result ≡ accepted_for scope }
{
    match scope {
        Scope::All => Verdict::All,
        Scope::OneWay => Verdict::OneWay,
    }
}

/// Returns the plan itself, whose certificate is judged once more: what its verdict says is what is known of the plan.
fn certified(shape: &Shape, sizes: &Sizes, costs: Costs, planned: Planned) -> Planned
    requires same { length sizes.now ≡ length shape.now.children }
    requires shape { planned.correct.children ≡ shape.now.children }
    requires work { planned.work ≡ work_of shape.now.children (sizes_of sizes.now) (prices_of costs) planned.correct.list }
    requires certified { IsJudged shape.now.children (sizes_of sizes.now) (prices_of costs) planned.work planned.certificate (accepted_for planned.scope) }
    ensures itself { result ≡ planned }
    ensures least_of_all { planned.scope ≡ Scope.All → (list : List Expression) → IsCorrect shape.now.children list → planned.work ≤ work_of shape.now.children (sizes_of sizes.now) (prices_of costs) list }
    ensures least_one_way { (list : List Expression) → IsCorrect shape.now.children list → IsOneWay list → planned.work ≤ work_of shape.now.children (sizes_of sizes.now) (prices_of costs) list }
{
    let verdict = certify(shape, sizes, costs, &planned.correct, &planned.certificate);
    if verdict == accepted_for(planned.scope) {
        planned
    } else {
        unreachable!()
    }
}

/// Plans a strategy of least work. It is least among all correct strategies wherever the ordered graph has no cycle, or a one-way strategy
/// reaches the pair bound all the same. Otherwise it is least among those whose Comps are each from one view.
///
/// Fails where a search was needed and its budget was spent, or for want of memory. Of a tree or a uniform shape the answer is scope All,
/// or Memory, whatever the budget. Takes O(V² C²) for V views of at most C children each where the ordered graph has no cycle, and else
/// what `prune` and `certify` take too.
#[tactic(auto, using(crate::proofs::Exploring::all_within))]
pub fn plan(
    alloc: Global,
    shape: &Shape,
    sizes: &Sizes,
    costs: Costs,
    budget: u64,
) -> Result<Planned, PruneFault>
    requires same { length sizes.now ≡ length shape.now.children }
    ensures shape { IfOk result (λ p. p.correct.children ≡ shape.now.children) }
    ensures least { IfOk result (λ p. IsLeastPlan shape.now.children (sizes_of sizes.now) (prices_of costs) p.work p.scope p.correct.list p.certificate) }
    ensures by_order { IfOk result (λ p. GoesByOrder shape.now.children (sizes_of sizes.now) p.scope p.correct.list) }
    ensures within { IfOk result (λ p. IsWithinBudget budget p.certificate) }
    ensures err { IfErr result (IsPlanReason shape.now.children (sizes_of sizes.now) (prices_of costs) budget) }
    ensures never_spent { IfErr result (λ fault. (IsTree shape.now.children ⊎ IsUniform shape.now.children) → fault ≡ PruneFault.Memory) }

    // Without a view nothing is refused: the plan has no expression, and takes no memory.
    ensures some { OnErr result (0 < length shape.now.children) }
{
    match min_work(alloc, shape, sizes, costs) {
        Ok(planned) => Ok(certified(shape, sizes, costs, planned)),
        Err(MinFault::Cyclic(_)) => {
            let planned = prune(alloc, shape, sizes, costs, budget)?;
            Ok(certified(shape, sizes, costs, planned))
        }
        Err(MinFault::Memory) => Err(PruneFault::Memory),
    }
}
