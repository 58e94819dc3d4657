//! A plan for every shape: a strategy of least work with its certificate, by a search over the couples where the ordered graph
//! has a cycle.
#![tactic(auto)]

mod explore;
mod fault;
mod least;
mod search;

pub use fault::PruneFault;
pub use least::plan;
pub use search::prune;
