//! Computes the jobs of a wave, and keeps what they add.

ghost use Rattle.std.specs.Prelude.{◌≡◌, ◌≢◌, ◌+◌, ◌<◌, ◌==◌, ◌&&◌, ℕ, List, cond, true, length, map, is_none, slice_get, option_map, Option, Some, None, OnOk, IfOk, MatchOption};
ghost use Rattle.std.specs.List.{list_all, list_any};
ghost use Rattle.wh_dag.specs.Shape.{has, children_of};
ghost use Rattle.wh_dag.specs.Catalog.{definition_of};
ghost use Rattle.wh_maint.specs.Comp.{comp_columns};
ghost use Rattle.wh_maint.specs.Definition.{view_of};
ghost use Rattle.wh_maint.specs.Refused.{MergedFit};
ghost use Rattle.wh_maint.specs.declared.fault.MaintFault.{MaintFault as Fault};
ghost use Rattle.wh_carry.specs.Kept.{Kept, kept, finished, AreKnown, HaveParts, CanFinish, IsExpressionOf};
ghost use Rattle.wh_carry.specs.Inner.Kept.{computed};
ghost use Rattle.wh_carry.specs.Refused.{CanBeComputed, CanBeFinishedIn, IsUnfinishedIn};
ghost use Rattle.wh_carry.specs.Inner.Refused.{IsAddFaultIn};
ghost use Rattle.wh_carry.specs.Waves.{comp_of};
ghost use Rattle.wh_carry.specs.declared.stages.Job.{Job as JobOf};
ghost use Rattle.wh_carry.specs.Night.{Night, state_at};
ghost use Rattle.wh_carry.specs.Course.{IsOutcome};
ghost use Rattle.wh_carry.specs.declared.wave.Refusal.{Refusal as RefusalOf};
ghost use Rattle.wh_carry.specs.Standing.{is_source};
ghost use Rattle.wh_carry.specs.Inner.Standing.{AreOutcomes, StandsAt, IsAmid, IsFirstOf, IsWaveAt, IsSourceOutcome, answer_of};

use crate::stages::Job;
use crate::state::NightState;
use std::alloc::{AllocError, Global};
use wh_dag::{Catalog, has_view};
use wh_formula::{RowTest, RowValue};
use wh_maint::MaintFault;

/// Why a part of a wave is refused, memory aside.
#[derive(Clone, Copy)]
enum Refusal {
    Large(usize),
    Range(usize),
}

/// The fault that it is.
fn answer_of(refusal: Refusal) -> MaintFault
    ensures { result ≡ answer_of refusal }
{
    match refusal {
        Refusal::Large(view) => MaintFault::Large(view),
        Refusal::Range(view) => MaintFault::Range(view),
    }
}

/// The refusal that a fault is; memory is none.
fn refusal_of(fault: MaintFault) -> Result<Option<Refusal>, AllocError>
    ensures some { IfOk result (λ refusal. refusal ≢ None) }
    ensures is { IfOk result (λ refusal. (r : RefusalOf) → refusal ≡ Some r → answer_of r ≡ fault) }
{
    match fault {
        MaintFault::Large(view) => Ok(Some(Refusal::Large(view))),
        MaintFault::Range(view) => Ok(Some(Refusal::Range(view))),
        _ => Err(AllocError),
    }
}

/// Whether one of these jobs is from the view.
fn is_source(jobs: &[Job], view: usize) -> bool
    ensures { result ≡ is_source jobs.now view }
{
    jobs.iter().any(|job| has_view(job.from.as_slice(), view))
}

/// Finishes a view, if it can be finished.
fn finish_source<F: RowTest, G: RowValue>(
    alloc: Global,
    catalog: &Catalog<F, G>,
    view: usize,
    state: &mut NightState,
) -> Result<Option<Refusal>, AllocError>
    requires parts { HaveParts catalog.now state.old }
    requires fit { CanFinish catalog.now (kept state.old) }
    requires view { view < length catalog.now.views.children }
    ensures parts { HaveParts catalog.now state.new }
    ensures done { IfOk result (λ refusal. refusal ≡ None → kept state.new ≡ finished catalog.now (λ u. view == u) (kept state.old)) }
    ensures passed { IfOk result (λ refusal. refusal ≡ None → CanBeFinishedIn catalog.now (kept state.old) view) }
    ensures stays { IfOk result (λ refusal. (r : RefusalOf) → refusal ≡ Some r → state.new ≡ state.old) }
    ensures refused { IfOk result (λ refusal. (r : RefusalOf) → refusal ≡ Some r → IsUnfinishedIn catalog.now (kept state.old) view (answer_of r)) }
{
    match state.finish_one(alloc, catalog, view) {
        Ok(()) => Ok(None),
        Err(fault) => refusal_of(fault),
    }
}

/// Finishes a view, if one of these jobs is from it and it can be finished.
fn finish_for<F: RowTest, G: RowValue>(
    alloc: Global,
    catalog: &Catalog<F, G>,
    jobs: &[Job],
    view: usize,
    state: &mut NightState,
) -> Result<Option<Refusal>, AllocError>
    requires parts { HaveParts catalog.now state.old }
    requires fit { CanFinish catalog.now (kept state.old) }
    requires view { view < length catalog.now.views.children }
    ensures parts { HaveParts catalog.now state.new }
    ensures fit { OnOk result (CanFinish catalog.now (kept state.new)) }
    ensures known { OnOk result ((u : ℕ) → (kept state.old).known u ≡ true → (kept state.new).known u ≡ true) }
    ensures stands { OnOk result ((n : Night) (place : ℕ) → IsWaveAt catalog.now jobs.now n place → StandsAt n place (kept state.old) → StandsAt n place (kept state.new)) }
    ensures outcome { IfOk result (λ refusal. (n : Night) (place : ℕ) → IsWaveAt catalog.now jobs.now n place → StandsAt n place (kept state.old)
        → is_source jobs.now view ≡ true → IsSourceOutcome n place (kept state.new) view refusal) }
    ensures source { IfOk result (λ refusal. is_source jobs.now view ≡ true → refusal ≡ None → (kept state.new).known view ≡ true) }
{
    if !is_source(jobs, view) {
        return Ok(None);
    }
    let refusal = finish_source(alloc, catalog, view, state)?;
    Ok(refusal)
}

/// Finishes the views that these jobs are from, by rising number, and answers for each view why it cannot be, if it cannot.
fn finish_sources<F: RowTest, G: RowValue>(
    alloc: Global,
    catalog: &Catalog<F, G>,
    jobs: &[Job],
    state: &mut NightState,
) -> Result<Vec<Option<Refusal>>, AllocError>
    requires parts { HaveParts catalog.now state.old }
    requires fit { CanFinish catalog.now (kept state.old) }
    ensures parts { OnOk result (HaveParts catalog.now state.new) }
    ensures fit { OnOk result (CanFinish catalog.now (kept state.new)) }
    ensures each { IfOk result (λ refusals. length refusals.items ≡ length catalog.now.views.children) }
    ensures stands { OnOk result ((n : Night) (place : ℕ) → IsWaveAt catalog.now jobs.now n place → StandsAt n place (kept state.old) → StandsAt n place (kept state.new)) }
    ensures outcomes { IfOk result (λ refusals. (n : Night) (place : ℕ) → IsWaveAt catalog.now jobs.now n place → StandsAt n place (kept state.old)
        → (u : ℕ) (refusal : Option RefusalOf) → is_source jobs.now u ≡ true → slice_get refusals.items u ≡ Some refusal → IsSourceOutcome n place (kept state.new) u refusal) }
    ensures sources { IfOk result (λ refusals. (u : ℕ) → is_source jobs.now u ≡ true → slice_get refusals.items u ≡ Some None → (kept state.new).known u ≡ true) }
{
    let mut refusals = Vec::new(alloc);
    for view in 0..catalog.shape().len() {
        let refusal = finish_for(alloc, catalog, jobs, view, state)?;
        refusals.push(refusal)?;
    }
    Ok(refusals)
}

/// The refusal of the first of these views, by rising number, that has one.
fn first_of(refusals: &[Option<Refusal>], views: &[usize]) -> Option<Refusal>
    ensures none { result ≡ None → (u : ℕ) (r : Option RefusalOf) → has views.now u ≡ true → slice_get refusals.now u ≡ Some r → r ≡ None }
    ensures some { (r : RefusalOf) → result ≡ Some r → IsFirstOf refusals.now views.now r }
{
    for view in 0..refusals.len() {
        if let Some(refusal) = refusal_at(refusals, views, view) {
            return Some(refusal);
        }
    }
    None
}

/// The refusal of this view, if it is one of these.
fn refusal_at(refusals: &[Option<Refusal>], views: &[usize], view: usize) -> Option<Refusal>
    requires { view < length refusals.now }
    ensures none { result ≡ None → (r : Option RefusalOf) → has views.now view ≡ true → slice_get refusals.now view ≡ Some r → r ≡ None }
    ensures among { (r : RefusalOf) → result ≡ Some r → has views.now view ≡ true }
    ensures some { (r : RefusalOf) → result ≡ Some r → slice_get refusals.now view ≡ Some (Some r) }
{
    if has_view(views, view) {
        refusals[view]
    } else {
        None
    }
}

/// Tries a job whose sources are known: computes what it adds, and adds it where `keeps` is set. A refusal changes nothing.
fn tried<F: RowTest, G: RowValue>(
    alloc: Global,
    catalog: &Catalog<F, G>,
    job: &Job,
    state: &mut NightState,
    keeps: bool,
) -> Result<Option<Refusal>, AllocError>
    requires parts { HaveParts catalog.now state.old }
    requires job { IsExpressionOf catalog.now (comp_of job.now) }
    requires known { AreKnown (kept state.old) job.now.from }
    ensures parts { HaveParts catalog.now state.new }
    ensures computed { IfOk result (λ refusal. refusal ≡ None
        → CanBeComputed (view_of (definition_of catalog.now job.now.view)) (children_of catalog.now.views.children job.now.view) job.now.from (kept state.old).tables (kept state.old).changes) }
    ensures fits { IfOk result (λ refusal. refusal ≡ None → MergedFit ((kept state.old).pending job.now.view)
        (comp_columns (view_of (definition_of catalog.now job.now.view)) (children_of catalog.now.views.children job.now.view) job.now.from (kept state.old).tables (kept state.old).changes)) }
    ensures keeps { IfOk result (λ refusal. refusal ≡ None → kept state.new ≡ cond keeps (computed catalog.now job.now.view job.now.from (kept state.old)) (kept state.old)) }
    ensures stays { IfOk result (λ refusal. (r : RefusalOf) → refusal ≡ Some r → state.new ≡ state.old) }
    ensures refused { IfOk result (λ refusal. (r : RefusalOf) → refusal ≡ Some r → IsAddFaultIn catalog.now (kept state.old) job.now.view job.now.from (answer_of r)) }
{
    let added = match state.compute(alloc, catalog, job.view, job.from.as_slice()) {
        Ok(added) => added,
        Err(fault) => return refusal_of(fault),
    };
    let sum = match state.with_added(added) {
        Ok(sum) => sum,
        Err(fault) => return refusal_of(fault),
    };
    if keeps {
        state.set_pending(sum);
    }
    Ok(None)
}

/// Carries a wave out, and answers for each job why it is refused, if it is. Each is judged by itself, as if the others
/// were not there. Where one is refused, what is kept is of no use.
pub(crate) fn wave_of<F: RowTest, G: RowValue>(
    alloc: Global,
    catalog: &Catalog<F, G>,
    jobs: &[Job],
    state: &mut NightState,
) -> Result<Vec<Option<MaintFault>>, AllocError>
    requires parts { HaveParts catalog.now state.old }
    requires fit { CanFinish catalog.now (kept state.old) }
    requires jobs { (j : ℕ) (job : JobOf) → slice_get jobs.now j ≡ Some job → IsExpressionOf catalog.now (comp_of job) }
    ensures parts { OnOk result (HaveParts catalog.now state.new) }
    ensures fit { OnOk result (CanFinish catalog.now (kept state.new)) }
    ensures each { IfOk result (λ outcomes. length outcomes.items ≡ length jobs.now) }
    ensures outcomes { IfOk result (λ outcomes. (n : Night) (place : ℕ) → IsWaveAt catalog.now jobs.now n place → StandsAt n place (kept state.old)
        → (j : ℕ) (outcome : Option Fault) → slice_get outcomes.items j ≡ Some outcome → IsOutcome n (place + j) outcome) }
    ensures stands { IfOk result (λ outcomes. (n : Night) (place : ℕ) → IsWaveAt catalog.now jobs.now n place → StandsAt n place (kept state.old)
        → list_all is_none outcomes.items ≡ true → StandsAt n (place + length jobs.now) (kept state.new)) }
{
    let refusals = finish_sources(alloc, catalog, jobs, state)?;
    let mut outcomes = Vec::new(alloc);
    let mut clean = true;
    for job in jobs {
        let refusal = job_of(alloc, catalog, refusals.as_slice(), job, state, clean)?;
        clean = stays_clean(clean, &refusal);
        outcomes.push(outcome_of(refusal))?;
    }
    Ok(outcomes)
}

/// Judges a job: by the first of its sources that is refused, else by what it adds, which is added where `keeps` is set.
fn job_of<F: RowTest, G: RowValue>(
    alloc: Global,
    catalog: &Catalog<F, G>,
    refusals: &[Option<Refusal>],
    job: &Job,
    state: &mut NightState,
    keeps: bool,
) -> Result<Option<Refusal>, AllocError>
    requires parts { HaveParts catalog.now state.old }
    requires fit { CanFinish catalog.now (kept state.old) }
    requires job { IsExpressionOf catalog.now (comp_of job.now) }
    requires each { length refusals.now ≡ length catalog.now.views.children }
    requires known { (u : ℕ) → has job.now.from u ≡ true → slice_get refusals.now u ≡ Some None → (kept state.old).known u ≡ true }
    ensures parts { HaveParts catalog.now state.new }
    ensures fit { OnOk result (CanFinish catalog.now (kept state.new)) }
    ensures known { OnOk result ((kept state.new).known ≡ (kept state.old).known) }
    ensures outcome { IfOk result (λ refusal. (n : Night) (place : ℕ) (jobs : List JobOf) (j : ℕ) (first : Kept) → IsWaveAt catalog.now jobs n place → slice_get jobs j ≡ Some job.now
        → StandsAt n place first → AreOutcomes n place first job.now.from refusals.now → IsAmid n place jobs j keeps (kept state.old) → IsOutcome n (place + j) (option_map answer_of refusal)) }
    ensures amid { IfOk result (λ refusal. (n : Night) (place : ℕ) (jobs : List JobOf) (j : ℕ) (first : Kept) → IsWaveAt catalog.now jobs n place → slice_get jobs j ≡ Some job.now
        → StandsAt n place first → IsAmid n place jobs j keeps (kept state.old) → IsAmid n place jobs (j + 1) (keeps && is_none refusal) (kept state.new)) }
{
    if let Some(refusal) = first_of(refusals, job.from.as_slice()) {
        return Ok(Some(refusal));
    }
    let refusal = tried(alloc, catalog, job, state, keeps)?;
    Ok(refusal)
}

fn stays_clean(clean: bool, refusal: &Option<Refusal>) -> bool
    ensures { result ≡ clean && is_none refusal.now }
{
    clean && refusal.is_none()
}

fn outcome_of(refusal: Option<Refusal>) -> Option<MaintFault>
    ensures { result ≡ option_map answer_of refusal }
{
    match refusal {
        Some(refusal) => Some(answer_of(refusal)),
        None => None,
    }
}
