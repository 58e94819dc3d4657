//! Has workers draw jobs: 1 to 16 threads do the jobs of a list, each once, and the results come in the order of the jobs.
//!
//! The numbers of jobs are drawn from one word in memory, the claim word, by a single atomic step each. [`run_jobs`] does the jobs and
//! brings each with its number. [`in_order`] puts what was brought in the order of the jobs, and [`results`] does both. [`do_jobs`] does
//! jobs that can be refused.
#![tactic(auto)]

mod claim;
mod jobs;
mod order;
mod work;

pub use jobs::{JobsFault, do_jobs, results};
pub use order::{OrderFault, in_order};
pub use work::{JobResult, run_jobs};
