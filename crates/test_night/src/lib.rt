//! Tests of nights that are published, by public calls: over a warehouse, over tables that nobody reads, and over a publisher that refuses.
//!
//! They stand beside `test_carry`, so that they are proved at once with its tests.
#![tactic(auto)]

#[cfg(test)]
mod nights;
