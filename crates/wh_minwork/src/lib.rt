//! MinWork: the order of least work, the graph that it gives, and a plan that no correct strategy undercuts.
#![tactic(auto)]

mod acyclic;
mod cycle;
mod decided;
mod desired;
mod draft;
mod edge_sets;
mod graph;
mod lines;
mod minwork;
mod node;
mod ready;
mod sets;
mod sort;

pub use acyclic::trees_and_uniform_shapes_are_acyclic;
pub use decided::Decided;
pub use desired::desired_order;
pub use draft::{Draft, Found};
pub use graph::{Graph, SortFault};
pub use lines::pair_mins;
pub use minwork::{MinFault, min_work, sorted_is_a_strategy};
