//! Waves whose jobs are drawn by workers.

ghost use Rattle.std.specs.Prelude.{◌≡◌, ◌≤◌};

use std::alloc::Global;
use std::process::Abort;
use std::sync::atomic::{AtomicU64, Ordering};
use std::test::Fail;
use std::thread::Threads;
use test_given::catalogs::{Cell, Every, joined, second};
use test_given::shapes::shaped;
use test_given::tables::{bag, two_bags};
use wh_carry::{Job, NightState};
use wh_dag::{Catalog, Definition, Output};
use wh_formula::{Filter, Pred};
use wh_maint::{Pending, are_bags};
use wh_night::{Gate, NoGate, can_run_wave, run_wave};
use wh_row::Bag;
use wh_strategy::Sources;
use wh_threads::ThreadBudget;

/// Counts how often it is told of job 0, and of others.
#[derive(Drop)]
struct Counting {
    taken: AtomicU64,
    finished: AtomicU64,
    others: AtomicU64,
}

impl Counting {
    fn new() -> Counting {
        Counting {
            taken: AtomicU64::new(0),
            finished: AtomicU64::new(0),
            others: AtomicU64::new(0),
        }
    }

    /// Whether it was told once that job 0 was taken and once that it is done, and so often of others.
    fn has_told(&self, others: u64) -> bool {
        self.taken.load(Ordering::SeqCst) == 1
            && self.finished.load(Ordering::SeqCst) == 1
            && self.others.load(Ordering::SeqCst) == others
    }
}

impl Gate for Counting {
    fn taken(&self, job: usize) {
        let count = if job == 0 { &self.taken } else { &self.others };
        count.fetch_add(1, Ordering::SeqCst);
    }

    fn finished(&self, job: usize) {
        let count = if job == 0 {
            &self.finished
        } else {
            &self.others
        };
        count.fetch_add(1, Ordering::SeqCst);
    }
}

/// So many threads.
pub(crate) fn threads_of<R: Threads + Sync>(
    rt: &R,
    alloc: Global,
    threads: usize,
) -> ThreadBudget<'_, R>
    ensures { result.threads ≡ threads }
{
    ThreadBudget { rt, alloc, threads }
}

/// What these jobs add. None where they cannot be run, or are refused.
pub(crate) fn added<R: Threads + Sync, T: Gate + Sync>(
    budget: &ThreadBudget<'_, R>,
    catalog: &Catalog<Every, Cell>,
    jobs: &[Job],
    tables: &[Bag],
    changes: &[Bag],
    gate: &T,
) -> Result<Option<Vec<Pending>>, Fail>
    requires { (1 ≤ budget.now.threads) × (budget.now.threads ≤ 16) }
{
    if !are_bags(catalog, tables) || !are_bags(catalog, changes) {
        return Ok(None);
    }
    let state = NightState::new(budget.alloc, catalog, tables, changes)?;
    if !can_run_wave(catalog, jobs, &state) {
        return Ok(None);
    }
    Ok(run_wave(budget, catalog, jobs, &state, gate).ok())
}

/// comp of this view from this one
pub(crate) fn job(alloc: Global, view: usize, from: usize) -> Result<Job, Fail> {
    Ok(Job {
        view,
        from: Sources::new(vec![in alloc; from]?),
    })
}

#[test]
fn sixteen_workers_one_job(rt: HostRuntime) -> Result<(), Fail> {
    let alloc = rt.alloc();
    let catalog = joined(alloc)?;
    let mut tables = two_bags(alloc, &[(&[1, 10], 1), (&[2, 10], 1)], &[(&[10, 5], 1)])?;
    tables.push(Bag::new(alloc))?;
    let mut changes = two_bags(alloc, &[(&[2, 10], -1), (&[3, 10], 1)], &[])?;
    changes.push(Bag::new(alloc))?;
    let jobs = vec![in alloc; job(alloc, 2, 0)?]?;
    let gate = Counting::new();
    let budget = threads_of(&rt, alloc, 16);
    let added = added(&budget, &catalog, &jobs, &tables, &changes, &gate)?;
    let right = match &added {
        Some(added) => match added.as_slice() {
            [one] => one.count(&[2, 5]) == -1 && one.count(&[3, 5]) == 1,
            _ => false,
        },
        None => false,
    };
    assert!(&rt; right);
    assert!(&rt; gate.has_told(0));
    Ok(())
}

/// a(x,y), and twenty views over it, each of which keeps a.y.
fn twenty(rt: &impl Abort, alloc: Global) -> Result<Catalog<Every, Cell>, Fail> {
    let mut views: Vec<(&str, &str)> = Vec::new(alloc);
    views.push(("a", "-"))?;
    for name in [
        "b", "c", "d", "e", "f", "g", "h", "i", "j", "k", "l", "m", "n", "o", "p", "q", "r", "s",
        "t", "u",
    ] {
        views.push((name, "a"))?;
    }
    let shape = shaped(alloc, views.as_slice())?;
    let mut definitions = Vec::new(alloc);
    for _ in 0..20 {
        let filter = Filter::new(Pred::always(), 2, Every);
        let out = Output::Keep(second(alloc)?);
        let join = Vec::new(alloc);
        assert!(rt; Definition::fits(&join, &filter, &out));
        definitions.push(Definition::new(join, filter, out))?;
    }
    let widths = vec![in alloc; 2]?;
    assert!(rt; Catalog::fits(&shape, &widths, &definitions));
    Ok(Catalog::new(alloc, shape, widths, definitions)?)
}

/// A table for each of twenty-one views, of which the first has these rows.
fn first_of(alloc: Global, rows: &[(&[i64], i64)]) -> Result<Vec<Bag>, Fail> {
    let mut tables = Vec::new(alloc);
    tables.push(bag(alloc, rows)?)?;
    for _ in 0..20 {
        tables.push(Bag::new(alloc))?;
    }
    Ok(tables)
}

/// Whether these are of the views 1 to 20, each with the new row.
fn are_of_twenty(added: &[Pending]) -> bool {
    for place in 0..added.len() {
        let one = &added[place];
        if one.view() != place + 1 || one.count(&[7]) != 1 {
            return false;
        }
    }
    added.len() == 20
}

#[test]
fn a_thousand_waves_of_twenty_jobs(rt: HostRuntime) -> Result<(), Fail> {
    let alloc = rt.alloc();
    let catalog = twenty(&rt, alloc)?;
    let tables = first_of(alloc, &[(&[1, 5], 1)])?;
    let changes = first_of(alloc, &[(&[2, 7], 1)])?;
    let mut jobs = Vec::new(alloc);
    for view in 1..21 {
        jobs.push(job(alloc, view, 0)?)?;
    }
    let budget = threads_of(&rt, alloc, 16);
    for _ in 0..1000 {
        let gate = Counting::new();
        let added = added(&budget, &catalog, &jobs, &tables, &changes, &gate)?;
        let right = match &added {
            Some(added) => are_of_twenty(added),
            None => false,
        };
        assert!(&rt; right);
        assert!(&rt; gate.has_told(38));
    }
    Ok(())
}

#[test]
fn no_jobs_add_nothing(rt: HostRuntime) -> Result<(), Fail> {
    let alloc = rt.alloc();
    let catalog = twenty(&rt, alloc)?;
    let tables = first_of(alloc, &[])?;
    let budget = threads_of(&rt, alloc, 16);
    let added = added(&budget, &catalog, &[], &tables, &tables, &NoGate)?;
    assert!(&rt; added.is_some_and(|added| added.is_empty()));
    Ok(())
}
