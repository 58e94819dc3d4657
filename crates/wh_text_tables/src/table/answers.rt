//! Gathers what the threads answered.

ghost use Rattle.std.specs.Prelude.{◌≡◌, IfSome, Some, map};

use std::alloc::Global;

/// Returns what all answered, in their order; none where one answered nothing, or there is no memory for the list.
pub(crate) fn all_of<T: Drop>(alloc: Global, answers: Vec<Option<T>>) -> Option<Vec<T>>
    ensures { IfSome result (λ all. answers.items ≡ map Some all.items) }
{
    let mut all = Vec::new(alloc);
    for answer in answers {
        all.push(answer?).ok()?;
    }
    Some(all)
}
