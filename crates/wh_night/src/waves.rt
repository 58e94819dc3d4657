//! Carries waves out: the changes of their sources first, then what each job computes, and then all of it is added.

ghost use Rattle.std.specs.Prelude.{◌≡◌, ◌≢◌, ◌⊎◌, ◌+◌, ◌<◌, ◌≤◌, ◌++◌, ◌∷◌, [], ◌^◌, ℕ, List, true, length, map, OnOk, IfOk, IfErr, Err};
ghost use Rattle.std.specs.Thread.{IsSync};
ghost use Rattle.wh_dag.specs.Shape.{has, children_of};
ghost use Rattle.wh_dag.specs.Catalog.{definition_of, is_base};
ghost use Rattle.wh_strategy.specs.declared.expression.Expression.{Expression as Step};
ghost use Rattle.wh_maint.specs.Comp.{PendingOf, comp_columns};
ghost use Rattle.wh_maint.specs.Definition.{view_of};
ghost use Rattle.wh_maint.specs.Refused.{MergedFit, IsMergeFault};
ghost use Rattle.wh_maint.specs.declared.fault.MaintFault.TheVariants.{Memory};
ghost use Rattle.wh_carry.specs.Kept.{kept, AreKnown, HaveParts, CanFinish, IsExpressionOf};
ghost use Rattle.wh_carry.specs.Inner.Kept.{computed, rows_in};
ghost use Rattle.wh_carry.specs.Refused.{IsCompFaultIn};
ghost use Rattle.wh_carry.specs.Waves.{comp_of};
ghost use Rattle.wh_carry.specs.declared.stages.Stage.TheVariants as stage;
ghost use Rattle.wh_carry.specs.Inner.Reasons.{CanBeFinished};
ghost use Rattle.wh_carry.specs.Night.{state_at};
ghost use Rattle.wh_carry.specs.Standing.{IsStageIn, is_source};
ghost use Rattle.wh_carry.specs.Inner.Standing.{IsWaveAt, StandsAt};
ghost use Rattle.wh_night.specs.Refusals.{IsWaveFault};
ghost use Rattle.wh_night.specs.RefusedWaves.{IsRefusedWave};
ghost use Rattle.wh_night.specs.Inner.RefusedWaves.{IsAddedAt, IsRefusedAt};
ghost use Rattle.wh_night.specs.Underway.{IsAdded, AreAdded, SourcesAreKnown};
ghost use Rattle.wh_night.specs.Inner.Underway.{Given, night_given, HasCome, Reports, SourcesFinish};

use crate::gate::Gate;
use crate::means::{NightRequest, Progress};
use std::alloc::{AllocError, Global};
use std::thread::Threads;
use wh_carry::{Job, NightState};
use wh_dag::Catalog;
use wh_formula::{RowTest, RowValue};
use wh_maint::{MaintFault, Pending};
use wh_strategy::Expression;
use wh_threads::ThreadBudget;
use wh_workers::{JobsFault, do_jobs};

/// The views that these jobs are from.
fn sources_of(alloc: Global, jobs: &[Job]) -> Result<Vec<usize>, AllocError>
    ensures { IfOk result (λ views. (u : ℕ) → has views.items u ≡ is_source jobs.now u) }
{
    let mut views = Vec::new(alloc);
    for job in jobs {
        views.extend_from_slice(job.from.as_slice())?;
    }
    Ok(views)
}

/// Finishes the views that these jobs are from, by rising number. The first that is refused ends it.
fn finish_sources<F: RowTest, G: RowValue>(
    alloc: Global,
    catalog: &Catalog<F, G>,
    jobs: &[Job],
    state: &mut NightState,
) -> Result<(), MaintFault>
    requires parts { HaveParts catalog.now state.old }
    requires fit { CanFinish catalog.now (kept state.old) }
    requires jobs { IsStageIn catalog.now (stage.Wave jobs.now) }
    ensures parts { HaveParts catalog.now state.new }
    ensures fit { OnOk result (CanFinish catalog.now (kept state.new)) }
    ensures known { OnOk result (SourcesAreKnown (kept state.new) jobs.now) }
    ensures stands { OnOk result ((keys place : ℕ) (t : Given) → IsWaveAt catalog.now jobs.now (night_given catalog.now keys t) place → StandsAt (night_given catalog.now keys t) place (kept state.old)
        → StandsAt (night_given catalog.now keys t) place (kept state.new) × SourcesFinish (night_given catalog.now keys t) place jobs.now) }
    ensures refused { IfErr result (λ fault. (keys place : ℕ) (t : Given) → IsWaveAt catalog.now jobs.now (night_given catalog.now keys t) place → StandsAt (night_given catalog.now keys t) place (kept state.old)
        → (fault ≡ Memory) ⊎ IsWaveFault (night_given catalog.now keys t) place jobs.now fault) }
{
    let Ok(views) = sources_of(alloc, jobs) else {
        return Err(MaintFault::Memory);
    };
    state.finish(alloc, catalog, views.as_slice())
}

/// Computes what a job adds, by the threads of the budget, and tells the gate of it by its number.
fn added_by<F: RowTest, G: RowValue, T: Gate, R: Threads + Sync>(
    budget: &ThreadBudget<'_, R>,
    catalog: &Catalog<F, G>,
    number: usize,
    job: &Job,
    state: &NightState,
    gate: &T,
) -> Result<Pending, MaintFault>
    requires parts { HaveParts catalog.now state.now }
    requires job { IsExpressionOf catalog.now (comp_of job.now) }
    requires known { AreKnown (kept state.now) job.now.from }
    ensures added { IfOk result (IsAdded catalog.now (kept state.now) job.now) }
    ensures refused { IfErr result (IsCompFaultIn catalog.now (kept state.now) job.now.view job.now.from) }
{
    gate.taken(number);
    let added = state.compute_wide(budget, catalog, job.view, job.from.as_slice());
    gate.finished(number);
    added
}

/// Computes what the job of this number adds, by the threads of the budget.
fn added_at<F: RowTest, G: RowValue, T: Gate, R: Threads + Sync>(
    budget: &ThreadBudget<'_, R>,
    catalog: &Catalog<F, G>,
    jobs: &[Job],
    number: usize,
    state: &NightState,
    gate: &T,
) -> Result<Pending, MaintFault>
    requires parts { HaveParts catalog.now state.now }
    requires jobs { IsStageIn catalog.now (stage.Wave jobs.now) }
    requires known { SourcesAreKnown (kept state.now) jobs.now }
    requires there { number < length jobs.now }
    ensures added { IfOk result (IsAddedAt catalog.now (kept state.now) jobs.now number) }
    ensures refused { IfErr result (IsRefusedAt catalog.now (kept state.now) jobs.now number) }
{
    added_by(budget, catalog, number, &jobs[number], state, gate)
}

/// How many workers draw jobs, and how many threads do one: a job that is alone is done by all of them.
fn shared_out(jobs: usize, workers: usize) -> (usize, usize)
    requires { 1 ≤ workers }
    ensures least { 1 ≤ result.0 }
    ensures most { result.0 ≤ workers }
{
    if jobs == 1 {
        return (1, workers);
    }
    (workers, 1)
}

/// Computes what each job of a wave adds, over the tables and the changes of a night, where those of the jobs' sources are known. What the
/// jobs add comes in their order.
/// The jobs are drawn by as many workers as the budget has threads, 1 to 16, each in a thread, of which the caller's is one. The gate is
/// told of each job in the worker's thread. A wave of one job is drawn by the caller, and its rows are made by all threads of the budget.
/// Fails with the refusal of the lowest number, whichever came first, since all jobs are done. Memory may be refused instead. A wave of no
/// jobs is not refused.
pub fn run_wave<F: RowTest, G: RowValue, T: Gate + Sync, R: Threads + Sync>(
    budget: &ThreadBudget<'_, R>,
    catalog: &Catalog<F, G>,
    jobs: &[Job],
    state: &NightState,
    gate: &T,
) -> Result<Vec<Pending>, MaintFault>
    requires parts { HaveParts catalog.now state.now }
    requires jobs { IsStageIn catalog.now (stage.Wave jobs.now) }
    requires known { SourcesAreKnown (kept state.now) jobs.now }
    requires least { 1 ≤ budget.now.threads }
    requires most { budget.now.threads ≤ 16 }
    ensures added { IfOk result (λ added. AreAdded catalog.now (kept state.now) jobs.now added.items) }
    ensures refused { IfErr result (IsRefusedWave catalog.now (kept state.now) jobs.now) }
{
    let rt = budget.rt;
    let alloc = budget.alloc;
    if jobs.is_empty() {
        return Ok(Vec::new(alloc));
    }
    let (drawing, threads) = shared_out(jobs.len(), budget.threads);
    let each = ThreadBudget { rt, alloc, threads };
    let one = &each;
    let compute = move |number: usize| -> Result<Pending, MaintFault>
        requires { IsSync R.row × (number < length jobs.now) × IsStageIn catalog.now (stage.Wave jobs.now) × SourcesAreKnown (kept state.now) jobs.now × HaveParts catalog.now state.now }
        ensures added { IfOk result (IsAddedAt catalog.entry.now (kept state.entry.now) jobs.entry.now number) }
        ensures refused { IfErr result (IsRefusedAt catalog.entry.now (kept state.entry.now) jobs.entry.now number) }
    { added_at(one, catalog, jobs, number, state, gate) };
    match do_jobs(rt, alloc, jobs.len(), drawing, &compute) {
        Ok(added) => Ok(added),
        Err(JobsFault::Memory) => Err(MaintFault::Memory),
        Err(JobsFault::Refused(_, fault)) => Err(fault),
    }
}

/// Reports a job with the rows that it read.
fn report(
    alloc: Global,
    job: &Job,
    rows: u128,
    steps: &mut Vec<(Expression, u128)>,
) -> Result<(), AllocError>
    ensures { OnOk result (steps.new.items ≡ steps.old.items ++ (comp_of job.now, rows) ∷ []) }
{
    let from = job.from.copy(alloc)?;
    steps.push((Expression::Comp(job.view, from), rows))?;
    Ok(())
}

/// Adds what a job computed, and reports it.
fn add_one<F: RowTest, G: RowValue>(
    alloc: Global,
    catalog: &Catalog<F, G>,
    job: &Job,
    added: &Pending,
    state: &mut NightState,
    steps: &mut Vec<(Expression, u128)>,
) -> Result<(), MaintFault>
    requires parts { HaveParts catalog.now state.old }
    requires fit { CanFinish catalog.now (kept state.old) }
    requires job { IsExpressionOf catalog.now (comp_of job.now) }
    requires known { AreKnown (kept state.old) job.now.from }
    requires added { IsAdded catalog.now (kept state.old) job.now added.now }
    ensures parts { OnOk result (HaveParts catalog.now state.new) }
    ensures fit { OnOk result (CanFinish catalog.now (kept state.new)) }
    ensures done { OnOk result (kept state.new ≡ computed catalog.now job.now.view job.now.from (kept state.old)) }
    ensures fits { OnOk result (MergedFit ((kept state.old).pending job.now.view)
        (comp_columns (view_of (definition_of catalog.now job.now.view)) (children_of catalog.now.views.children job.now.view) job.now.from (kept state.old).tables (kept state.old).changes)) }
    ensures reported { OnOk result (Reports (rows_in catalog.now (comp_of job.now) (kept state.old)) (comp_of job.now) steps.old.items steps.new.items) }
    ensures refused { IfErr result (λ fault. (fault ≡ Memory) ⊎ IsMergeFault job.now.view ((kept state.old).pending job.now.view)
        (comp_columns (view_of (definition_of catalog.now job.now.view)) (children_of catalog.now.views.children job.now.view) job.now.from (kept state.old).tables (kept state.old).changes) fault) }
{
    let rows = state.operand_rows(catalog, job.view, job.from.as_slice());
    state.add(added)?;
    match report(alloc, job, rows, steps) {
        Ok(()) => Ok(()),
        Err(_) => Err(MaintFault::Memory),
    }
}

/// Adds what the jobs computed, in their order, and reports them. The first that is refused ends it.
fn add_all<F: RowTest, G: RowValue>(
    alloc: Global,
    catalog: &Catalog<F, G>,
    jobs: &[Job],
    added: &[Pending],
    state: &mut NightState,
    steps: &mut Vec<(Expression, u128)>,
) -> Result<(), MaintFault>
    requires parts { HaveParts catalog.now state.old }
    requires fit { CanFinish catalog.now (kept state.old) }
    requires jobs { IsStageIn catalog.now (stage.Wave jobs.now) }
    requires known { SourcesAreKnown (kept state.old) jobs.now }
    requires added { AreAdded catalog.now (kept state.old) jobs.now added.now }
    ensures parts { OnOk result (HaveParts catalog.now state.new) }
    ensures fit { OnOk result (CanFinish catalog.now (kept state.new)) }
    ensures goes { OnOk result ((keys place : ℕ) (t : Given) → IsWaveAt catalog.now jobs.now (night_given catalog.now keys t) place → HasCome (night_given catalog.now keys t) place (kept state.old) steps.old.items
        → HasCome (night_given catalog.now keys t) (place + length jobs.now) (kept state.new) steps.new.items) }
    ensures refused { IfErr result (λ fault. (keys place : ℕ) (t : Given) → IsWaveAt catalog.now jobs.now (night_given catalog.now keys t) place → HasCome (night_given catalog.now keys t) place (kept state.old) steps.old.items
        → SourcesFinish (night_given catalog.now keys t) place jobs.now → (fault ≡ Memory) ⊎ IsWaveFault (night_given catalog.now keys t) place jobs.now fault) }
{
    for number in 0..jobs.len() {
        add_one(alloc, catalog, &jobs[number], &added[number], state, steps)?;
    }
    Ok(())
}

/// Carries a wave out: finishes the views that its jobs are from, computes what the jobs add, and then adds it. The first
/// refusal ends it.
pub(crate) fn wave<F: RowTest, G: RowValue, T: Gate + Sync, R: Threads + Sync>(
    asked: &NightRequest<'_, F, G, T, R>,
    jobs: &[Job],
    progress: &mut Progress,
) -> Result<(), MaintFault>
    requires parts { HaveParts asked.now.catalog.now progress.old.state }
    requires fit { CanFinish asked.now.catalog.now (kept progress.old.state) }
    requires jobs { IsStageIn asked.now.catalog.now (stage.Wave jobs.now) }
    requires least { 1 ≤ asked.now.budget.now.threads }
    requires most { asked.now.budget.now.threads ≤ 16 }
    ensures parts { OnOk result (HaveParts asked.now.catalog.now progress.new.state) }
    ensures fit { OnOk result (CanFinish asked.now.catalog.now (kept progress.new.state)) }
    ensures goes { OnOk result ((keys place : ℕ) (t : Given) → IsWaveAt asked.now.catalog.now jobs.now (night_given asked.now.catalog.now keys t) place → HasCome (night_given asked.now.catalog.now keys t) place (kept progress.old.state) progress.old.steps.items
        → HasCome (night_given asked.now.catalog.now keys t) (place + length jobs.now) (kept progress.new.state) progress.new.steps.items) }
    ensures refused { IfErr result (λ fault. (keys place : ℕ) (t : Given) → IsWaveAt asked.now.catalog.now jobs.now (night_given asked.now.catalog.now keys t) place → HasCome (night_given asked.now.catalog.now keys t) place (kept progress.old.state) progress.old.steps.items
        → (fault ≡ Memory) ⊎ IsWaveFault (night_given asked.now.catalog.now keys t) place jobs.now fault) }
{
    let alloc = asked.budget.alloc;
    let catalog = asked.catalog;
    finish_sources(alloc, catalog, jobs, &mut progress.state)?;
    // It is for time alone, so where memory is refused the wave goes on without it.
    let workers = asked.budget.threads.min(jobs.len());
    let _ = progress.state.build_indexes(alloc, catalog, jobs, workers);
    let added = run_wave(asked.budget, catalog, jobs, &progress.state, asked.gate)?;
    add_all(
        alloc,
        catalog,
        jobs,
        added.as_slice(),
        &mut progress.state,
        &mut progress.steps,
    )
}
