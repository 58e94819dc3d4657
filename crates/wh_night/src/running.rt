//! Runs a night over whatever publishes.

ghost use Rattle.std.specs.Prelude.{◌≡◌, ◌≢◌, ◌⊎◌, ◌≤◌, ◌++◌, ◌∷◌, [], ℕ, List, None, Some, Err, length, slice_get, OnOk, OnErr, IfOk, IfErr, MatchOption, MatchResult};
ghost use Rattle.wh_maint.specs.Asked.{AreBags};
ghost use Rattle.wh_maint.specs.Comp.{bag_at};
ghost use Rattle.wh_maint.specs.declared.fault.MaintFault.{MaintFault as MaintFaultOf};
ghost use Rattle.wh_maint.specs.declared.fault.MaintFault.TheVariants.{Memory};
ghost use Rattle.wh_store.specs.Operations.{Commits, Opens};
ghost use Rattle.wh_store.specs.Versions.{number};
ghost use Rattle.wh_store.specs.Faults.{publish_refusal};
ghost use Rattle.wh_store.specs.Ledgers.{Ledger, versions_in};
ghost use Rattle.wh_carry.specs.Fit.{AreFitFor};
ghost use Rattle.wh_carry.specs.Kept.{kept, HaveParts, CanFinish};
ghost use Rattle.wh_carry.specs.Refused.{ArePassedBelow};
ghost use Rattle.wh_carry.specs.Steps.{AreSteps};
ghost use Rattle.wh_carry.specs.Waves.{stages_of};
ghost use Rattle.wh_carry.specs.declared.stages.Stage.{Stage as StageOf};
ghost use Rattle.wh_carry.specs.Night.{Night, AreAllowed};
ghost use Rattle.wh_carry.specs.Standing.{IsStageIn};
ghost use Rattle.wh_night.specs.Causes.{CannotBegin, cause_of};
ghost use Rattle.wh_night.specs.declared.left.Aftermath.TheVariants.{Untouched};
ghost use Rattle.wh_night.specs.Refusals.{IsRefused};
ghost use Rattle.wh_night.specs.Tonight.{CountsEnd, IsDone, IsSound, Leaves, TellsEnd, goes_out, made_by, newest_in, tonight};
ghost use Rattle.wh_night.specs.Published.{IsPublished};
ghost use Rattle.wh_night.specs.Inner.Underway.{CanStart, Given, HasCome, IsPut, IsRefusedLater, IsStopped, WaitsToCommit, night_given};

use crate::gate::Gate;
use crate::means::{NightRequest, Progress};
use crate::opening::{current_tables, not_ready};
use crate::pages::Pages;
use crate::stages::through;
use crate::{Aftermath, NightCause, NightFault};
use std::sync::Wait;
use std::thread::Threads;
use wh_carry::{Carried, NightState, Report, Stage, base_changes, waves};
use wh_formula::{RowTest, RowValue};
use wh_maint::MaintFault;
use wh_row::Bag;
use wh_store::{Op, Publish, PublishFault};
use wh_strategy::Expression;

/// What a night leaves that published nothing.
fn untouched(cause: NightCause) -> NightFault
    ensures { result ≡ record { cause = cause; left = Untouched } }
{
    NightFault {
        cause,
        left: Aftermath::Untouched,
    }
}

/// Gives the night up that has begun, or that waits to begin, for this cause, and answers what is left: it is open still only where that
/// was refused.
fn give_up_for<P: Publish, R: Wait>(rt: &R, writer: &mut P, cause: NightCause) -> NightFault
    ensures home { P.home writer.new ≡ P.home writer.old }
    ensures ends { CountsEnd result.left (P.refused_ends writer.old) (P.refused_ends writer.new) }
    ensures cause { result.cause ≡ cause }
    ensures started { result.left ≢ Untouched }
    ensures leaves { (n : Night) (l : Ledger) (fault : MaintFaultOf) → cause ≡ cause_of fault → AreAllowed n → IsStopped n l fault (P.kept writer.old)
        → Leaves n result.cause l result.left (P.kept writer.new) }
{
    let left = match writer.give_up(rt) {
        Ok(_) => Aftermath::GivenUp,
        Err(_) => Aftermath::StillOpen,
    };
    NightFault { cause, left }
}

/// Gives the night up for a fault of carrying out.
fn given_up<P: Publish, R: Wait>(rt: &R, writer: &mut P, fault: MaintFault) -> NightFault
    ensures home { P.home writer.new ≡ P.home writer.old }
    ensures ends { CountsEnd result.left (P.refused_ends writer.old) (P.refused_ends writer.new) }
    ensures cause { result.cause ≡ cause_of fault }
    ensures started { result.left ≢ Untouched }
    ensures leaves { (n : Night) (l : Ledger) → AreAllowed n → IsStopped n l fault (P.kept writer.old) → Leaves n result.cause l result.left (P.kept writer.new) }
{
    give_up_for(rt, writer, NightCause::of(fault))
}

/// Begins a night.
fn begin<P: Publish, R: Wait>(rt: &R, writer: &mut P) -> Result<(), NightFault>
    requires { publish_refusal (P.kept writer.old) Opens ≡ None }
    ensures home { P.home writer.new ≡ P.home writer.old }
    ensures ends { TellsEnd result (P.refused_ends writer.old) (P.refused_ends writer.new) }
    ensures ok { OnOk result (P.kept writer.new ≡ goes_out (P.kept writer.old) (Opens ∷ []) None) }
    ensures cause { IfErr result (λ f. f.cause ≡ cause_of Memory) }
    ensures leaves { IfErr result (λ f. (n : Night) → AreAllowed n → Leaves n f.cause (P.kept writer.old) f.left (P.kept writer.new)) }
{
    match writer.publish(rt, Op::Begin) {
        Ok(()) => Ok(()),
        Err(PublishFault::Memory { held: true }) => Err(given_up(rt, writer, MaintFault::Memory)),
        Err(PublishFault::Memory { held: false }) => Err(untouched(NightCause::Memory)),
        Err(_) => unreachable!(),
    }
}

/// Tells of a night whose commit has gone out.
fn told<P: Publish>(writer: &P, steps: Vec<(Expression, u128)>) -> Report
    ensures version { result.version ≡ number (versions_in (P.kept writer.now).of (P.kept writer.now).list) }
    ensures steps { result.steps.items ≡ steps.items }
{
    Report {
        version: writer.current(),
        steps,
    }
}

/// Publishes the commit that is held, and tells of the night.
fn commit_held<P: Publish, R: Wait>(
    rt: &R,
    writer: &mut P,
    steps: Vec<(Expression, u128)>,
) -> Result<Report, NightFault>
    ensures home { P.home writer.new ≡ P.home writer.old }
    ensures ends { TellsEnd result (P.refused_ends writer.old) (P.refused_ends writer.new) }
    ensures version { IfOk result (λ r. r.version ≡ number (versions_in (P.kept writer.new).of (P.kept writer.new).list)) }
    ensures steps { IfOk result (λ r. r.steps.items ≡ steps.items) }
    ensures done { OnOk result ((n : Night) (l : Ledger) → WaitsToCommit n l (P.kept writer.old) → IsDone n l (P.kept writer.new)) }
    ensures cause { IfErr result (λ f. f.cause ≡ cause_of Memory) }
    ensures leaves { IfErr result (λ f. (n : Night) (l : Ledger) → AreAllowed n → WaitsToCommit n l (P.kept writer.old) → Leaves n f.cause l f.left (P.kept writer.new)) }
{
    match writer.give_up(rt) {
        Ok(_) => Ok(told(writer, steps)),
        Err(_) => Err(NightFault {
            cause: NightCause::Memory,
            left: Aftermath::StillOpen,
        }),
    }
}

/// Publishes the commit, and tells of the night.
fn commit<P: Publish, R: Wait>(
    rt: &R,
    writer: &mut P,
    steps: Vec<(Expression, u128)>,
) -> Result<Report, NightFault>
    requires { publish_refusal (P.kept writer.old) Commits ≡ None }
    ensures home { P.home writer.new ≡ P.home writer.old }
    ensures ends { TellsEnd result (P.refused_ends writer.old) (P.refused_ends writer.new) }
    ensures version { IfOk result (λ r. r.version ≡ number (versions_in (P.kept writer.new).of (P.kept writer.new).list)) }
    ensures steps { IfOk result (λ r. r.steps.items ≡ steps.items) }
    ensures done { OnOk result ((n : Night) (l : Ledger) → IsPut n l (P.kept writer.old) → IsDone n l (P.kept writer.new)) }
    ensures cause { IfErr result (λ f. f.cause ≡ cause_of Memory) }
    ensures leaves { IfErr result (λ f. (n : Night) (l : Ledger) → AreAllowed n → IsPut n l (P.kept writer.old) → Leaves n f.cause l f.left (P.kept writer.new)) }
{
    match writer.publish(rt, Op::Commit) {
        Ok(()) => Ok(told(writer, steps)),
        Err(PublishFault::Memory { held: true }) => commit_held(rt, writer, steps),
        Err(PublishFault::Memory { held: false }) => {
            Err(given_up(rt, writer, MaintFault::Memory))
        }
        Err(_) => unreachable!(),
    }
}

/// Publishes a night whose stages these are.
fn run<P: Publish, F: RowTest, G: RowValue, T: Gate + Sync, R: Threads + Wait + Sync>(
    writer: &mut P,
    asked: &NightRequest<'_, F, G, T, R>,
    stages: &[Stage],
    progress: Progress,
) -> Result<Carried, NightFault>
    requires free { publish_refusal (P.kept writer.old) Opens ≡ None }
    requires parts { HaveParts asked.now.catalog.now progress.state }
    requires fit { CanFinish asked.now.catalog.now (kept progress.state) }
    requires stages { (i : ℕ) (stage : StageOf) → slice_get stages.now i ≡ Some stage → IsStageIn asked.now.catalog.now stage }
    requires begins { CanStart asked.now.catalog.now asked.now.page_keys stages.now (kept progress.state) progress.steps.items (P.kept writer.old) }
    requires some { 1 ≤ asked.now.page_keys }
    requires few { asked.now.page_keys ≤ 256 }
    requires least { 1 ≤ asked.now.budget.now.threads }
    requires most { asked.now.budget.now.threads ≤ 16 }
    ensures home { P.home writer.new ≡ P.home writer.old }
    ensures ends { TellsEnd result (P.refused_ends writer.old) (P.refused_ends writer.new) }
    ensures version { IfOk result (λ c. c.report.version ≡ number (versions_in (P.kept writer.new).of (P.kept writer.new).list)) }
    ensures bags { IfOk result (λ c. AreBags asked.now.catalog.now c.tables.items) }
    ensures done { IfOk result (λ c. (t : Given) → t.before ≡ Some (P.kept writer.old) → stages.now ≡ stages_of t.list → HasCome (night_given asked.now.catalog.now asked.now.page_keys t) 0 (kept progress.state) progress.steps.items
        → IsDone (night_given asked.now.catalog.now asked.now.page_keys t) (P.kept writer.old) (P.kept writer.new)
        × ArePassedBelow asked.now.catalog.now t.list t.tables t.changes (length t.list)
        × AreSteps asked.now.catalog.now.views.children t.list t.tables (made_by (night_given asked.now.catalog.now asked.now.page_keys t)) c.report.steps.items
        × ((v : ℕ) → bag_at c.tables.items v ≡ made_by (night_given asked.now.catalog.now asked.now.page_keys t) v)) }
    ensures refused { IfErr result (λ f. (t : Given) → t.before ≡ Some (P.kept writer.old) → stages.now ≡ stages_of t.list → HasCome (night_given asked.now.catalog.now asked.now.page_keys t) 0 (kept progress.state) progress.steps.items
        → AreAllowed (night_given asked.now.catalog.now asked.now.page_keys t)
        → Leaves (night_given asked.now.catalog.now asked.now.page_keys t) f.cause (P.kept writer.old) f.left (P.kept writer.new) × IsRefusedLater (night_given asked.now.catalog.now asked.now.page_keys t) f) }
{
    let rt = asked.budget.rt;
    begin(rt, writer)?;
    let mut progress = progress;
    let pages = Pages {
        rt,
        alloc: asked.budget.alloc,
        keys: asked.page_keys,
    };
    if let Err(fault) = through(&pages, writer, asked, stages, &mut progress) {
        return Err(given_up(rt, writer, fault));
    }
    let Progress { state, steps } = progress;
    let report = commit(rt, writer, steps)?;
    Ok(Carried {
        tables: state.into_tables(),
        report,
    })
}

/// Carries a night out over what is published, wave by wave, from the tables of the current version: one bag a view, fit for the night. The
/// contents of a base are so for every night, and [`crate::are_fit_for`] tests it. There is a change for each view; those of derived views
/// are not read. The strategy was judged over this catalogue's shape (`is_of` tests it). Readers go on meanwhile.
///
/// [`Publish::views`] says how many views are published, and [`current_tables`] hands out their tables to be tested. The contents of a base
/// are fit without a test: `opening_contents` gives them, and from them `carry` and each night.
///
/// First Held, NightOpen and LastVersion are tested, then the base changes, view by view: Absent, then Large. Then the night begins. Before
/// a wave the derived views that its jobs are from are finished, by rising number. Its jobs are computed, and then added to what is
/// pending, in the order of the strategy. At the Inst of a derived view that is not finished, it is; then its new counts go out,
/// `page_keys` rows at a time.
///
/// Fails with the first refusal, and gives up a night that has begun; [`Aftermath`] tells what is left. Memory may be refused at any point.
pub fn night<P: Publish, F: RowTest, G: RowValue, T: Gate + Sync, R: Threads + Wait + Sync>(
    writer: &mut P,
    asked: &NightRequest<'_, F, G, T, R>,
) -> Result<Report, NightFault>
    requires judged { asked.now.correct.now.children ≡ asked.now.catalog.now.views.children }
    requires tables { AreBags asked.now.catalog.now (newest_in (P.kept writer.old)) }
    requires changes { AreBags asked.now.catalog.now asked.now.changes.now }
    requires fit { AreFitFor asked.now.catalog.now (bag_at asked.now.changes.now) asked.now.correct.now.list (bag_at (newest_in (P.kept writer.old))) }
    requires one { 1 ≤ asked.now.budget.now.threads }
    requires sixteen { asked.now.budget.now.threads ≤ 16 }
    requires least { 1 ≤ asked.now.page_keys }
    requires most { asked.now.page_keys ≤ 256 }
    ensures home { P.home writer.new ≡ P.home writer.old }
    ensures ends { TellsEnd result (P.refused_ends writer.old) (P.refused_ends writer.new) }
    ensures published { IfOk result (λ r. IsPublished asked.now.catalog.now asked.now.correct.now.list (P.kept writer.old) asked.now.changes.now asked.now.page_keys r (P.kept writer.new)) }
    ensures leaves { IfErr result (λ f. Leaves (tonight asked.now.catalog.now asked.now.correct.now.list (P.kept writer.old) asked.now.changes.now asked.now.page_keys) f.cause (P.kept writer.old) f.left (P.kept writer.new)) }
    ensures newest { OnErr result (newest_in (P.kept writer.new) ≡ newest_in (P.kept writer.old)) }
    ensures sound { IsSound asked.now.catalog.now (P.kept writer.old) → IsSound asked.now.catalog.now (P.kept writer.new) }
    ensures refused { MatchOption (publish_refusal (P.kept writer.old) Opens)
        (IfErr result (IsRefused (tonight asked.now.catalog.now asked.now.correct.now.list (P.kept writer.old) asked.now.changes.now asked.now.page_keys)))
        (λ fault. CannotBegin fault result) }
{
    if let Some(cause) = not_ready(writer) {
        return Err(untouched(cause));
    }
    let views = asked.catalog.shape().len();
    let Ok(tables) = current_tables(asked.budget.alloc, writer, views) else {
        return Err(untouched(NightCause::Memory));
    };
    let carried = night_from(writer, asked, tables)?;
    Ok(carried.report)
}

/// Carries a night out over what is published, wave by wave, from these tables, which are those of the current version. Whoever has them
/// need not copy them out of what is published. They are changed where they lie, and returned as they stand after the night, with its
/// report.
/// It asks for what [`night`] asks, and fails as this does.
pub fn night_from<P: Publish, F: RowTest, G: RowValue, T: Gate + Sync, R: Threads + Wait + Sync>(
    writer: &mut P,
    asked: &NightRequest<'_, F, G, T, R>,
    tables: Vec<Bag>,
) -> Result<Carried, NightFault>
    requires judged { asked.now.correct.now.children ≡ asked.now.catalog.now.views.children }
    requires tables { AreBags asked.now.catalog.now (newest_in (P.kept writer.old)) }
    requires current { tables.items ≡ newest_in (P.kept writer.old) }
    requires changes { AreBags asked.now.catalog.now asked.now.changes.now }
    requires fit { AreFitFor asked.now.catalog.now (bag_at asked.now.changes.now) asked.now.correct.now.list (bag_at (newest_in (P.kept writer.old))) }
    requires one { 1 ≤ asked.now.budget.now.threads }
    requires sixteen { asked.now.budget.now.threads ≤ 16 }
    requires least { 1 ≤ asked.now.page_keys }
    requires most { asked.now.page_keys ≤ 256 }
    ensures home { P.home writer.new ≡ P.home writer.old }
    ensures ends { TellsEnd result (P.refused_ends writer.old) (P.refused_ends writer.new) }
    ensures published { IfOk result (λ c. IsPublished asked.now.catalog.now asked.now.correct.now.list (P.kept writer.old) asked.now.changes.now asked.now.page_keys c.report (P.kept writer.new)) }
    ensures tables { IfOk result (λ c. c.tables.items ≡ newest_in (P.kept writer.new)) }
    ensures leaves { IfErr result (λ f. Leaves (tonight asked.now.catalog.now asked.now.correct.now.list (P.kept writer.old) asked.now.changes.now asked.now.page_keys) f.cause (P.kept writer.old) f.left (P.kept writer.new)) }
    ensures newest { OnErr result (newest_in (P.kept writer.new) ≡ newest_in (P.kept writer.old)) }
    ensures sound { IsSound asked.now.catalog.now (P.kept writer.old) → IsSound asked.now.catalog.now (P.kept writer.new) }
    ensures refused { MatchOption (publish_refusal (P.kept writer.old) Opens)
        (IfErr result (IsRefused (tonight asked.now.catalog.now asked.now.correct.now.list (P.kept writer.old) asked.now.changes.now asked.now.page_keys)))
        (λ fault. CannotBegin fault result) }
{
    if let Some(cause) = not_ready(writer) {
        return Err(untouched(cause));
    }
    let alloc = asked.budget.alloc;
    if let Err(fault) = base_changes(alloc, asked.catalog, &tables, asked.changes) {
        return Err(untouched(NightCause::of(fault)));
    }
    // Makes known that the list is correct.
    let _ = asked.correct.strategy();
    let Ok(state) = NightState::over(alloc, asked.catalog, tables, asked.changes) else {
        return Err(untouched(NightCause::Memory));
    };
    let Ok(stages) = waves(alloc, asked.correct) else {
        return Err(untouched(NightCause::Memory));
    };
    let progress = Progress {
        state,
        steps: Vec::new(alloc),
    };
    let answer = run(writer, asked, stages.as_slice(), progress);
    // Makes known that the published list is well formed.
    let _ = writer.current();
    answer
}
