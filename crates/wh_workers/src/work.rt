//! Has workers, each in a thread, draw jobs and do them.

ghost use Rattle.std.specs.Prelude.{◌≡◌, ℕ, [], ◌+◌, ◌-◌, ◌^◌, ◌<◌, ◌≤◌, ◌++◌, length, IfOk, IfSome};
ghost use denote.Param.Send.{IsSync, IsSend};
ghost use Rattle.wh_workers.specs.Claims.{hand, Knows};
ghost use Rattle.wh_workers.specs.Works.{numbers, OneEach, AreGiven};

use crate::claim::{Claimer, Fair, Hand, Word, absorb, another, draw, settle};
use atomic_table::Table;
use std::alloc::{AllocError, Global};
use std::thread::{Threads, join};
use wh_threads::ThreadBudget;

/// The result of a job, with the job's number.
#[derive(Drop)]
pub struct JobResult<X> {
    /// The job's number.
    pub number: usize,
    /// The value that the job gave.
    pub value: X,
}

/// What workers did, and their seat.
#[derive(Drop)]
pub(crate) struct Worked<X> {
    seat: Claimer,
    brought: Vec<JobResult<X>>,
}

/// Draws jobs and does them until none is left. None where memory is refused.
fn draw_all<X: Drop, F: Fn(usize) -> X>(
    alloc: Global,
    word: &Word,
    mut seat: Claimer,
    count: usize,
    f: &F,
) -> Option<Worked<X>>
    requires callable { (i : ℕ) → i < count → F.pre f.now i }
    requires seat { Knows word.now.table_id word.now.key seat × (word.now.key ≡ count) }
    requires fresh { (0 < seat.me.0.parts) × (seat.me.0 ≡ hand count seat.me.0.parts seat.me.0.parts []) }
    ensures seat { IfSome result (λ w. Knows word.now.table_id word.now.key w.seat × (w.seat.me.0 ≡ hand count seat.me.0.parts (seat.me.0.parts - 1) (numbers w.brought.items))) }
    ensures given { IfSome result (λ w. AreGiven F.Fn f.now count w.brought.items) }
{
    let mut brought = Vec::new(alloc);
    for _ in 0..count + 1 {
        if brought.reserve(1).is_err() {
            return None;
        }
        let found = draw(word, &mut seat) as usize;
        if found >= count {
            return Some(Worked { seat, brought });
        }
        brought.push_reserved(JobResult {
            number: found,
            value: f(found),
        });
    }
    unreachable!()
}

/// What two parties of workers did together. None where memory is refused.
fn together<X: Drop>(word: &Word, own: Worked<X>, others: Worked<X>) -> Option<Worked<X>>
    requires own { Knows word.now.table_id word.now.key own.seat × (0 < own.seat.me.0.parts) × (own.seat.me.0.drawn ≡ numbers own.brought.items) }
    requires others { Knows word.now.table_id word.now.key others.seat × (0 < others.seat.me.0.parts) × (others.seat.me.0.drawn ≡ numbers others.brought.items) }
    ensures seat { IfSome result (λ w. Knows word.now.table_id word.now.key w.seat × (w.seat.me.0.parts ≡ own.seat.me.0.parts + others.seat.me.0.parts) × (w.seat.me.0.left ≡ own.seat.me.0.left + others.seat.me.0.left) × (w.seat.me.0.drawn ≡ numbers w.brought.items)) }
    ensures brought { IfSome result (λ w. w.brought.items ≡ own.brought.items ++ others.brought.items) }
{
    let Worked {
        mut seat,
        mut brought,
    } = own;
    let Worked {
        seat: other,
        brought: mut more,
    } = others;
    if brought.append(&mut more).is_err() {
        return None;
    }
    absorb(word, &mut seat, other);
    Some(Worked { seat, brought })
}

/// Does the jobs with a worker for each thread of the budget, of which the caller's is one. None where memory is refused. A worker whose thread
/// cannot be started draws in the caller's.
#[cycle(workers)]
fn work<R: Threads + Sync, X: Send + Drop, F: Fn(usize) -> X + Sync>(
    budget: &ThreadBudget<'_, R>,
    word: &Word,
    mut seat: Claimer,
    count: usize,
    f: &F,
) -> Option<Worked<X>>
    requires callable { (i : ℕ) → i < count → F.pre f.now i }
    requires seat { Knows word.now.table_id word.now.key seat × (word.now.key ≡ count) }
    requires fresh { (0 < budget.now.threads) × (budget.now.threads ≤ seat.me.0.parts) × (seat.me.0 ≡ hand count seat.me.0.parts seat.me.0.parts []) }
    ensures seat { IfSome result (λ w. Knows word.now.table_id word.now.key w.seat × (w.seat.me.0.parts ≡ seat.me.0.parts) × (w.seat.me.0.left < seat.me.0.parts) × (w.seat.me.0.drawn ≡ numbers w.brought.items)) }
    ensures given { IfSome result (λ w. AreGiven F.Fn f.now count w.brought.items) }
{
    let (rt, alloc, workers) = (budget.rt, budget.alloc, budget.threads);
    if workers == 1 {
        return draw_all(alloc, word, seat, count, f);
    }
    let mine = another(word, &mut seat);
    let rest = move || -> Option<Worked<X>>
        requires { IsSync R.row × IsSync F.row × IsSend X.row × (Knows word.now.table_id word.now.key mine × (word.now.key ≡ count) × (1 < workers) × (workers - 1 ≤ mine.me.0.parts) × (mine.me.0 ≡ hand count mine.me.0.parts mine.me.0.parts [])) × ((i : ℕ) → i < count → F.pre f.now i) }
        ensures seat { IfSome result (λ w. Knows word.entry.now.table_id word.entry.now.key w.seat × (w.seat.me.0.parts ≡ mine.me.0.parts) × (w.seat.me.0.left < mine.me.0.parts) × (w.seat.me.0.drawn ≡ numbers w.brought.items)) }
        ensures given { IfSome result (λ w. AreGiven F.Fn f.entry.now count w.brought.items) }
    {
        let rest = ThreadBudget {
            rt,
            alloc,
            threads: workers - 1,
        };
        work(&rest, word, mine, count, f)
    };
    let own = move || -> Option<Worked<X>>
        requires { Knows word.now.table_id word.now.key seat × (word.now.key ≡ count) × (seat.me.0 ≡ hand count 1 1 []) × ((i : ℕ) → i < count → F.pre f.now i) }
        ensures seat { IfSome result (λ w. Knows word.entry.now.table_id word.entry.now.key w.seat × (w.seat.me.0 ≡ hand count 1 0 (numbers w.brought.items))) }
        ensures given { IfSome result (λ w. AreGiven F.Fn f.entry.now count w.brought.items) }
    { draw_all(alloc, word, seat, count, f) };
    let (others, own) = join(rt, rest, own);
    together(word, own?, others?)
}

/// Does the jobs 0 to `count` - 1, each once, with 1 to 16 workers that draw them, of which the caller's thread is one. The results come in
/// no order.
/// Fails for want of memory, and only where there is a job and room for the results is refused.
pub fn run_jobs<R: Threads + Sync, X: Send + Drop, F: Fn(usize) -> X + Sync>(
    rt: &R,
    alloc: Global,
    count: usize,
    workers: usize,
    f: &F,
) -> Result<Vec<JobResult<X>>, AllocError>
    requires callable { (i : ℕ) → i < count → F.pre f.now i }
    requires few { count < 2 ^ 63 }
    requires least { 1 ≤ workers }
    requires most { workers ≤ 16 }
    ensures once { IfOk result (λ bs. OneEach count bs.items) }
    ensures given { IfOk result (λ bs. AreGiven F.Fn f.now count bs.items) }
{
    let about = count as u64;
    let (table, seat): (Table<(), Hand, u64, Fair, Global>, Claimer) = Table::of_words(
        alloc,
        &[0],
        &about,
    )?;
    // No more workers than jobs are of use.
    let budget = ThreadBudget {
        rt,
        alloc,
        threads: workers.min(count.max(1)),
    };
    let Some(worked) = work(&budget, &table.shared, seat, count, f) else {
        return Err(AllocError);
    };
    let Worked { mut seat, brought } = worked;
    settle(&table.shared, &mut seat);
    Ok(brought)
}
