//! States of which shapes the ordered graph has no cycle, whatever the sizes, so that a plan of them needs no search.

ghost use Rattle.std.specs.Prelude.{◌⊎◌, List, ℕ};
ghost use Rattle.wh_dag.specs.Kinds.{IsTree, IsUniform};
ghost use Rattle.wh_dag.specs.Shape.{IsShape};
ghost use Rattle.wh_strategy.specs.declared.sizes.Size.{Size};
ghost use Rattle.wh_minwork.specs.Plan.{IsAcyclicAsDesired};

/// A law of the definitions: where no view has two parents, or each view is one level above each view that it is over, the ordered graph
/// has no cycle. This is so whatever the sizes.
pub fn trees_and_uniform_shapes_are_acyclic()
    ensures { (shape : List (List ℕ)) (sizes : ℕ → Size) → IsShape shape → (IsTree shape ⊎ IsUniform shape) → IsAcyclicAsDesired shape sizes }
{}
