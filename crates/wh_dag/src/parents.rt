//! Finds the views over a view, which child lists do not name.
ghost use Rattle.std.specs.Prelude.{◌≡◌, ◌≢◌, [], IfOk, OnErr};
ghost use Rattle.wh_dag.specs.Parents.{parents_of};

use crate::child_lists::ChildLists;
use std::alloc::{AllocError, Global};

/// Returns the views over this one, rising.
#[tactic(auto, unfolding(crate::specs::Parents::parents_of))]
pub(crate) fn parents_of_view(
    alloc: Global,
    shape: &ChildLists,
    view: usize,
) -> Result<Vec<usize>, AllocError>
    ensures parents { IfOk result (λ parents. parents.items ≡ parents_of shape.now view) }
    ensures memory { OnErr result (parents_of shape.now view ≢ []) }
{
    let mut parents = Vec::new(alloc);
    for parent in 0..shape.len() {
        if shape.is_over(parent, view) {
            parents.push(parent)?;
        }
    }
    Ok(parents)
}
