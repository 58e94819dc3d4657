//! The wrapper that makes a closure a test of rows, or a number for each row.

/// A closure, as what a `Filter` or a `Combiner` stores.
#[derive(Drop)]
pub struct Native<F>(pub F);
