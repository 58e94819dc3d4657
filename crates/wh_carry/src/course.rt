//! Computes what becomes of a night, part by part, before any of it is shown.

ghost use Rattle.std.specs.Prelude.{◌≡◌, ◌≤◌, ◌++◌, ◌∷◌, ◌<◌, ℕ, List, Some, true, false, cond, is_none, length, slice_get, OnOk, IfOk};
ghost use Rattle.std.specs.List.{list_all};
ghost use Rattle.wh_maint.specs.Asked.{AreBags};
ghost use Rattle.wh_maint.specs.Comp.{bag_at};
ghost use Rattle.wh_carry.specs.Fit.{AreFitTables};
ghost use Rattle.wh_carry.specs.Kept.{kept, HaveParts as AreKeptParts, CanFinish};
ghost use Rattle.wh_carry.specs.Waves.{stages_of};
ghost use Rattle.wh_carry.specs.declared.stages.Stage.{Stage as StageOf};
ghost use Rattle.wh_carry.specs.declared.stages.Stage.TheVariants as stage;
ghost use Rattle.wh_carry.specs.Night.{Night};
ghost use Rattle.wh_carry.specs.Legs.{legs_of};
ghost use Rattle.wh_carry.specs.Course.{AreParts, IsEnd, HasRefusal};
ghost use Rattle.wh_carry.specs.Stages.{place_behind};
ghost use Rattle.wh_carry.specs.Standing.{IsStageIn};
ghost use Rattle.wh_carry.specs.Inner.Standing.{GoesPast, StandsAt};

use crate::inst::inst_of;
use crate::stages::{Job, Stage, waves};
use crate::state::NightState;
use crate::wave::wave_of;
use std::alloc::{AllocError, Global};
use wh_dag::Catalog;
use wh_formula::{RowTest, RowValue};
use wh_maint::MaintFault;
use wh_row::Bag;
use wh_store::Op;
use wh_strategy::Correct;

/// A part of a night that is over before the next one begins.
#[derive(Drop)]
pub enum Part {
    /// A wave, with the reason why each of its jobs is refused, if it is.
    Wave(Vec<Option<MaintFault>>),
    /// The operation that puts a page of new counts.
    Page(Op),
}

/// The course of a night, as far as one can come in it.
#[derive(Drop)]
pub struct Course {
    /// The parts, up to the first wave with a refused job.
    pub parts: Vec<Part>,
    /// The reason why the night cannot go on after the last part, if it cannot.
    pub stop: Option<MaintFault>,
}

/// Computes what becomes of a night from its first expression on, and the tables that the whole night ends with. There are no tables where
/// some expression is refused. The tables given are changed in place, and none is copied.
///
/// Base changes are taken as they are: [`base_changes`](crate::base_changes) tells before whether they are allowed. There is a table and a
/// change for each view; the changes of derived views are not read. The strategy was judged over this catalogue's shape (`is_of` tests it),
/// each table is fit, as the contents of a base are, and a page has 1 to 256 rows.
///
/// Fails for want of memory alone.
pub fn course_of<F: RowTest, G: RowValue>(
    alloc: Global,
    catalog: &Catalog<F, G>,
    tables: Vec<Bag>,
    changes: &[Bag],
    correct: &Correct,
    keys: usize,
) -> Result<(Course, Option<Vec<Bag>>), AllocError>
    requires judged { correct.now.children ≡ catalog.now.views.children }
    requires tables { AreBags catalog.now tables.items }
    requires changes { AreBags catalog.now changes.now }
    requires fit { AreFitTables catalog.now tables.items }
    requires least { 1 ≤ keys }
    requires most { keys ≤ 256 }
    ensures parts { IfOk result (λ made. AreParts
        (record { catalog = catalog.now; list = correct.now.list; tables = bag_at tables.items; changes = bag_at changes.now; keys = keys }) 0
        (legs_of (record { catalog = catalog.now; list = correct.now.list; tables = bag_at tables.items; changes = bag_at changes.now; keys = keys }))
        made.0.parts.items made.0.stop) }
    ensures ends { IfOk result (λ made. IsEnd (record { catalog = catalog.now; list = correct.now.list; tables = bag_at tables.items; changes = bag_at changes.now; keys = keys }) made.1) }
{
    // Makes known that the list is correct.
    let _ = correct.strategy();
    let mut state = NightState::over(alloc, catalog, tables, changes)?;
    let stages = waves(alloc, correct)?;
    let (course, ended) = through(alloc, catalog, stages.as_slice(), keys, &mut state)?;
    if !ended {
        return Ok((course, None));
    }
    Ok((course, Some(state.into_tables())))
}

/// Goes through the stages of a night, as far as one can come, and answers whether one comes to its end.
fn through<F: RowTest, G: RowValue>(
    alloc: Global,
    catalog: &Catalog<F, G>,
    stages: &[Stage],
    keys: usize,
    state: &mut NightState,
) -> Result<(Course, bool), AllocError>
    requires parts { AreKeptParts catalog.now state.old }
    requires fit { CanFinish catalog.now (kept state.old) }
    requires some { 1 ≤ keys }
    requires stages { (i : ℕ) (stage : StageOf) → slice_get stages.now i ≡ Some stage → IsStageIn catalog.now stage }
    ensures kept { OnOk result (AreKeptParts catalog.now state.new) }
    ensures parts { IfOk result (λ made. (n : Night) → n.catalog ≡ catalog.now → n.keys ≡ keys → stages.now ≡ stages_of n.list → StandsAt n 0 (kept state.old)
        → AreParts n 0 (legs_of n) made.0.parts.items made.0.stop) }
    ensures ends { IfOk result (λ made. (n : Night) → n.catalog ≡ catalog.now → n.keys ≡ keys → stages.now ≡ stages_of n.list → StandsAt n 0 (kept state.old)
        → cond made.1 (StandsAt n (place_behind stages.now) (kept state.new)) (HasRefusal n)) }
{
    let mut course = Course {
        parts: Vec::new(alloc),
        stop: None,
    };
    for stage in stages {
        if !stage_of(alloc, catalog, stage, keys, state, &mut course)? {
            return Ok((course, false));
        }
    }
    Ok((course, true))
}

/// Carries a stage out, and answers whether one can go on after it.
fn stage_of<F: RowTest, G: RowValue>(
    alloc: Global,
    catalog: &Catalog<F, G>,
    stage: &Stage,
    keys: usize,
    state: &mut NightState,
    course: &mut Course,
) -> Result<bool, AllocError>
    requires parts { AreKeptParts catalog.now state.old }
    requires fit { CanFinish catalog.now (kept state.old) }
    requires some { 1 ≤ keys }
    requires stage { IsStageIn catalog.now stage.now }
    ensures parts { OnOk result (AreKeptParts catalog.now state.new) }
    ensures fit { OnOk result (CanFinish catalog.now (kept state.new)) }
    ensures goes { IfOk result (λ goes. (n : Night) (before after : List StageOf) → n.catalog ≡ catalog.now → n.keys ≡ keys → stages_of n.list ≡ before ++ stage.now ∷ after → StandsAt n (place_behind before) (kept state.old)
        → GoesPast n before stage.now after goes (kept state.old) (kept state.new) course.old course.new) }
{
    match stage {
        Stage::Wave(jobs) => {
            let goes = wave_part(alloc, catalog, jobs.as_slice(), state, course)?;
            Ok(goes)
        }
        Stage::Inst(view) => {
            let goes = inst_part(alloc, catalog, *view, keys, state, course)?;
            Ok(goes)
        }
    }
}

fn wave_part<F: RowTest, G: RowValue>(
    alloc: Global,
    catalog: &Catalog<F, G>,
    jobs: &[Job],
    state: &mut NightState,
    course: &mut Course,
) -> Result<bool, AllocError>
    requires parts { AreKeptParts catalog.now state.old }
    requires fit { CanFinish catalog.now (kept state.old) }
    requires jobs { IsStageIn catalog.now (stage.Wave jobs.now) }
    ensures parts { OnOk result (AreKeptParts catalog.now state.new) }
    ensures fit { OnOk result (CanFinish catalog.now (kept state.new)) }
    ensures goes { IfOk result (λ goes. (n : Night) (before after : List StageOf) → n.catalog ≡ catalog.now → stages_of n.list ≡ before ++ stage.Wave jobs.now ∷ after → StandsAt n (place_behind before) (kept state.old)
        → GoesPast n before (stage.Wave jobs.now) after goes (kept state.old) (kept state.new) course.old course.new) }
{
    let outcomes = wave_of(alloc, catalog, jobs, state)?;
    let goes = none_refused(outcomes.as_slice());
    course.parts.push(Part::Wave(outcomes))?;
    Ok(goes)
}

fn inst_part<F: RowTest, G: RowValue>(
    alloc: Global,
    catalog: &Catalog<F, G>,
    view: usize,
    keys: usize,
    state: &mut NightState,
    course: &mut Course,
) -> Result<bool, AllocError>
    requires parts { AreKeptParts catalog.now state.old }
    requires fit { CanFinish catalog.now (kept state.old) }
    requires some { 1 ≤ keys }
    requires view { view < length catalog.now.views.children }
    ensures parts { OnOk result (AreKeptParts catalog.now state.new) }
    ensures fit { OnOk result (CanFinish catalog.now (kept state.new)) }
    ensures goes { IfOk result (λ goes. (n : Night) (before after : List StageOf) → n.catalog ≡ catalog.now → n.keys ≡ keys → stages_of n.list ≡ before ++ stage.Inst view ∷ after → StandsAt n (place_behind before) (kept state.old)
        → GoesPast n before (stage.Inst view) after goes (kept state.old) (kept state.new) course.old course.new) }
{
    match inst_of(alloc, catalog, view, keys, state, &mut course.parts)? {
        None => Ok(true),
        Some(fault) => {
            course.stop = Some(fault);
            Ok(false)
        }
    }
}

/// Whether no job is refused.
fn none_refused(outcomes: &[Option<MaintFault>]) -> bool
    ensures { result ≡ list_all is_none outcomes.now }
{
    outcomes.iter().all(|outcome| outcome.is_none())
}
