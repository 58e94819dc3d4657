//! MinWork: a plan of least work without a search, where the ordered graph has no cycle.

ghost use Rattle.std.specs.Prelude.{◌≡◌, ◌<◌, ◌⊎◌, length, IfOk, IfErr, OnOk, OnErr, List, ℕ};
ghost use Rattle.wh_dag.specs.Kinds.{IsTree, IsUniform};
ghost use Rattle.wh_dag.specs.Shape.{IsShape};
ghost use Rattle.wh_strategy.specs.declared.expression.Expression.{Expression};
ghost use Rattle.wh_strategy.specs.Prices.{Prices, prices_of};
ghost use Rattle.wh_strategy.specs.Rules.{IsCorrect, IsOneWay};
ghost use Rattle.wh_strategy.specs.declared.sizes.Size.{Size};
ghost use Rattle.wh_strategy.specs.Sizes.{sizes_of};
ghost use Rattle.wh_strategy.specs.Work.{work_of};
ghost use Rattle.wh_cert.specs.Bound.{pair_bound_of, decided_bound_of};
ghost use Rattle.wh_cert.specs.Certificate.{IsJudged};
ghost use Rattle.wh_cert.specs.Graph.{DecidesAll};
ghost use Rattle.wh_cert.specs.declared.certificate.Scope.{Scope};
ghost use Rattle.wh_cert.specs.declared.certificate.Verdict.{Verdict};
ghost use Rattle.wh_minwork.specs.Plan.{IsSortedAsDesired, IsAcyclicAsDesired, IsMinReason};
ghost use Rattle.wh_minwork.specs.Sorted.{IsSorted, IsAcyclic};

use crate::decided::Decided;
use crate::graph::{Graph, SortFault};
use crate::lines::pair_mins;
use std::alloc::{AllocError, AllocFailed, Global};
use wh_cert::{Certificate, Planned, Scope};
use wh_dag::Shape;
use wh_strategy::{CheckFault, Costs, Expression, Sizes, Strategy, check, work};

/// Why MinWork has no plan.
#[derive(Debug, Drop)]
pub enum MinFault {
    /// A cycle of the ordered graph, as [`SortFault::Cycle`] gives it: no one-way strategy installs each couple in the
    /// desired order.
    Cyclic(Vec<Expression>),
    /// Memory was refused.
    Memory,
}

impl From<AllocError> for MinFault {
    ghost use Rattle.wh_minwork.specs.declared.minwork.MinFault.TheVariants.{Memory};

    ghost from_gives = { λ _ e. e ≡ Memory };

    fn from(_e: AllocError) -> MinFault {
        MinFault::Memory
    }
}

impl<T: Drop> From<AllocFailed<T>> for MinFault {
    ghost use Rattle.wh_minwork.specs.declared.minwork.MinFault.TheVariants.{Memory};

    ghost from_gives = { λ _ e. e ≡ Memory };

    fn from(_e: AllocFailed<T>) -> MinFault {
        MinFault::Memory
    }
}

/// Returns the nodes of the ordered graph, sorted.
fn ordered_strategy(alloc: Global, shape: &Shape, sizes: &Sizes) -> Result<Strategy, MinFault>
    requires { length sizes.now ≡ length shape.now.children }
    ensures sorted { IfOk result (IsSortedAsDesired shape.now.children (sizes_of sizes.now)) }
    ensures shape { OnOk result (IsShape shape.now.children) }
    ensures err { IfErr result (IsMinReason shape.now.children (sizes_of sizes.now)) }
    ensures never_cyclic { IfErr result (λ fault. (IsTree shape.now.children ⊎ IsUniform shape.now.children) → fault ≡ MinFault.Memory) }
    ensures some { OnErr result (0 < length shape.now.children) }
{
    let decided = Decided::by_desired_order(alloc, shape, sizes)?;
    match Graph::of(shape, &decided).sorted(alloc) {
        Ok(strategy) => Ok(strategy),
        Err(SortFault::Cycle(cycle)) => Err(MinFault::Cyclic(cycle)),
        Err(SortFault::Memory) => Err(MinFault::Memory),
    }
}

/// Plans a strategy of least work among all correct ones, from the ordered graph alone, wherever that has no cycle. So it does for each
/// tree and each uniform shape, whatever the sizes. The list is the order in which [`Graph::sorted`] places the nodes of that graph. Fails
/// with a cycle where the ordered graph has one, or for want of memory. Takes O(V² C²) for V views of at most C children each.
pub fn min_work(
    alloc: Global,
    shape: &Shape,
    sizes: &Sizes,
    costs: Costs,
) -> Result<Planned, MinFault>
    requires { length sizes.now ≡ length shape.now.children }
    ensures sorted { IfOk result (λ p. IsSortedAsDesired shape.now.children (sizes_of sizes.now) p.correct.list) }
    ensures acyclic { OnOk result (IsAcyclicAsDesired shape.now.children (sizes_of sizes.now)) }
    ensures shape { IfOk result (λ p. p.correct.children ≡ shape.now.children) }
    ensures one_way { IfOk result (λ p. IsOneWay p.correct.list) }
    ensures work { IfOk result (λ p. p.work ≡ work_of shape.now.children (sizes_of sizes.now) (prices_of costs) p.correct.list) }
    ensures least { IfOk result (λ p. p.work ≡ pair_bound_of shape.now.children (sizes_of sizes.now) (prices_of costs)) }
    ensures scope { IfOk result (λ p. p.scope ≡ Scope.All) }
    ensures accepted { IfOk result (λ p. IsJudged shape.now.children (sizes_of sizes.now) (prices_of costs) p.work p.certificate Verdict.All) }
    ensures err { IfErr result (IsMinReason shape.now.children (sizes_of sizes.now)) }
    ensures never_cyclic { IfErr result (λ fault. (IsTree shape.now.children ⊎ IsUniform shape.now.children) → fault ≡ MinFault.Memory) }

    // Without a view nothing is refused: the plan has no expression, and takes no memory.
    ensures some { OnErr result (0 < length shape.now.children) }
{
    let strategy = ordered_strategy(alloc, shape, sizes)?;
    match check(alloc, shape, strategy) {
        Ok(correct) => {
            let certificate = Certificate::Pairs(pair_mins(alloc, shape, sizes)?);
            Ok(Planned {
                work: work(shape, sizes, costs, &correct),
                correct,
                scope: Scope::All,
                certificate,
            })
        }
        Err(CheckFault::Broken { .. }) => unreachable!(),
        Err(CheckFault::Memory) => Err(MinFault::Memory),
    }
}

/// A law of the definitions: what is sorted by the graph of all couples is a correct one-way strategy. Where the couples are decided by the
/// desired order it costs exactly the pair bound, and otherwise what the decisions say. What can be sorted has no cycle.
pub fn sorted_is_a_strategy()
    ensures correct { (shape : List (List ℕ)) (decided : List (ℕ × ℕ)) (list : List Expression) → IsShape shape → DecidesAll shape decided → IsSorted shape decided list → IsCorrect shape list × IsOneWay list }
    ensures ordered { (shape : List (List ℕ)) (sizes : ℕ → Size) (prices : Prices) (list : List Expression) → IsShape shape → IsSortedAsDesired shape sizes list → work_of shape sizes prices list ≡ pair_bound_of shape sizes prices }
    ensures decided { (shape : List (List ℕ)) (sizes : ℕ → Size) (prices : Prices) (decided : List (ℕ × ℕ)) (list : List Expression) → IsShape shape → DecidesAll shape decided → IsSorted shape decided list → work_of shape sizes prices list ≡ decided_bound_of shape sizes prices decided }
    ensures acyclic { (shape : List (List ℕ)) (decided : List (ℕ × ℕ)) (list : List Expression) → IsSorted shape decided list → IsAcyclic shape decided }
{}
