//! Has workers do jobs, and brings the results in the order of the jobs, or the refusal of the lowest number.

ghost use Rattle.std.specs.Prelude.{◌≡◌, ℕ, ◌<◌, ◌≤◌, ◌^◌, IfOk, IfErr, OnErr, map, Ok};
ghost use Rattle.wh_workers.specs.Works.{AreResults, AreDone, IsLowestRefused};
ghost use Rattle.wh_workers.specs.Inner.Works.{IsLowest};

use crate::order::{OrderFault, in_order};
use crate::work::run_jobs;
use std::alloc::{AllocError, Global};
use std::thread::Threads;

/// The reasons why a list of jobs has no results.
#[derive(Drop)]
pub enum JobsFault<E> {
    /// Memory was refused for the results.
    Memory,
    /// The job of this number was refused with this, and none of a lower number was refused.
    Refused(usize, E),
}

/// Calls `f` with each number below `count`, once, and returns the results in the order of the numbers. The threads of 1 to 16 workers draw
/// the numbers, of which the caller's thread is one. A worker whose thread cannot be started draws in the caller's.
/// Fails for want of memory.
pub fn results<R: Threads + Sync, X: Send + Drop, F: Fn(usize) -> X + Sync>(
    rt: &R,
    alloc: Global,
    count: usize,
    workers: usize,
    f: &F,
) -> Result<Vec<X>, AllocError>
    requires callable { (i : ℕ) → i < count → F.pre f.now i }
    requires few { count < 2 ^ 63 }
    requires least { 1 ≤ workers }
    requires most { workers ≤ 16 }
    ensures { IfOk result (λ xs. AreResults F.Fn f.now count xs.items) }
{
    let brought = run_jobs(rt, alloc, count, workers, f)?;
    match in_order(alloc, count, brought) {
        Ok(results) => Ok(results),
        Err(OrderFault::Memory) => Err(AllocError),
        Err(OrderFault::NotOnce) => unreachable!(),
    }
}

/// What was answered of each, or the first refusal.
fn all_or_lowest<T: Drop, E: Drop>(
    alloc: Global,
    mut outcomes: Vec<Result<T, E>>,
) -> Result<Vec<T>, JobsFault<E>>
    ensures all { IfOk result (λ values. outcomes.items ≡ map Ok values.items) }
    ensures refused { IfErr result (IsLowest outcomes.items) }
{
    let mut values = Vec::new(alloc);
    outcomes.reverse();
    while let Some(outcome) = outcomes.pop() {
        let value = match outcome {
            Ok(value) => value,
            Err(refusal) => return Err(JobsFault::Refused(values.len(), refusal)),
        };
        let Ok(()) = values.push(value) else {
            return Err(JobsFault::Memory);
        };
    }
    Ok(values)
}

/// Does jobs that can be refused, each once, by the threads of 1 to 16 workers, and returns their results in the order of the jobs.
/// Fails with the refusal of the lowest number, whichever came first, since all jobs are done. Memory may be refused instead.
pub fn do_jobs<
    R: Threads + Sync,
    T: Send + Drop,
    E: Send + Drop,
    F: Fn(usize) -> Result<T, E> + Sync,
>(rt: &R, alloc: Global, count: usize, workers: usize, f: &F) -> Result<Vec<T>, JobsFault<E>>
    requires callable { (i : ℕ) → i < count → F.pre f.now i }
    requires few { count < 2 ^ 63 }
    requires least { 1 ≤ workers }
    requires most { workers ≤ 16 }
    ensures done { IfOk result (λ values. AreDone F.Fn f.now count values.items) }
    ensures refused { IfErr result (IsLowestRefused F.Fn f.now count) }
{
    let Ok(outcomes) = results(rt, alloc, count, workers, f) else {
        return Err(JobsFault::Memory);
    };
    all_or_lowest(alloc, outcomes)
}
