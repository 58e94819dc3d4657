//! The level of each view, reckoned once: 0 for a base, else one more than its highest child's.
ghost use Rattle.std.specs.Prelude.{◌≡◌, ◌<◌, ◌≤◌, ℕ, length, map, slice_index, IfOk, OnErr, All, vec_len};
ghost use Rattle.wh_dag.specs.Level.{level_over, level_of};

use crate::child_lists::ChildLists;
use std::alloc::{AllocError, Global};

// The level of a view over these children, from the levels of the views before it.
fn level_above(levels: &[usize], own: &[usize]) -> usize
    requires lower { All (λ u. u < length levels.now) own.now }
    requires few { length levels.now ≤ 64 }
    requires small { (k : ℕ) → k < length levels.now → slice_index levels.now k ≤ k }
    ensures level { result ≡ level_over (map (slice_index levels.now) own.now) }
    ensures small { result ≤ length levels.now }
{
    let mut level = 0;
    for child in own {
        level = level.max(levels[*child] + 1);
    }
    level
}

/// Returns the level of each view. Fails for want of memory alone.
pub(crate) fn levels(alloc: Global, shape: &ChildLists) -> Result<Vec<usize>, AllocError>
    ensures len { IfOk result (λ levels. vec_len levels ≡ length shape.now) }
    ensures levels { IfOk result (λ levels. (v : ℕ) → v < length shape.now →
        slice_index levels.items v ≡ level_of shape.now v) }
    ensures memory { OnErr result (0 < length shape.now) }
{
    let mut levels = Vec::new(alloc);
    for view in 0..shape.len() {
        levels.push(level_above(&levels, shape.of(view)))?;
    }
    Ok(levels)
}
