//! Certificates that no strategy of a night costs less.
//!
//! [`pair_bound`] is a number that no correct strategy stays below, whatever its Comps are from. A [`Certificate`] gives the reason why a
//! strategy is least, and [`certify`] judges it without trust in whoever wrote it. A [`Relation`] is a table between views, in which
//! decisions are looked up. Wherever rows are added up, each counts as often as it weighs.
#![tactic(auto)]

mod acceptance;
mod bound;
mod certificate;
mod cycle;
mod decisions;
mod descent;
mod lines;
mod order;
mod relation;
mod search;
mod tree;

pub use acceptance::{certify, no_one_way_strategy_is_below_a_tree, one_verdict};
pub use bound::{decided_bound, decided_bound_with, no_strategy_is_below_the_bound, pair_bound};
pub use certificate::{Certificate, PairMin, PairMins, Planned, Scope, Verdict};
pub use lines::right_line;
pub use order::comes_first;
pub use relation::Relation;
pub use tree::{MAX_DEPTH, Tree, TreeNode};
