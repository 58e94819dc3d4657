//! Formulas over the cells of a row, and stored closures that answer them.
//!
//! An `Expr` is a number and a `Pred` a test; contracts see each as its tree. It is at most `MAX_DEPTH` deep by its type, which bounds the
//! recursion of each call, copy and drop. A `Filter` keeps a closure that answers a test on each row of a width, and a `Combiner` one that
//! answers an expression. Callers rest on the closure's answer being the formula's. `example` shows how a caller stores a closure of its
//! own.
#![tactic(auto)]

mod combiner;
mod comparison;
pub mod example;
mod expr;
mod filter;
mod native;
mod pred;
mod row_test;
mod row_value;

pub use combiner::Combiner;
pub use comparison::Comparison;
pub use expr::{Expr, MAX_DEPTH};
pub use filter::Filter;
pub use native::Native;
pub use pred::Pred;
pub use row_test::RowTest;
pub use row_value::RowValue;
