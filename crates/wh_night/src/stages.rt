//! Goes through a night's stages, one after another: what each carries out, and what goes out of it.

ghost use Rattle.std.specs.Prelude.{◌≡◌, ◌≤◌, ◌++◌, ◌∷◌, [], ℕ, List, Some, length, slice_get, OnOk, IfErr, IfSome};
ghost use Rattle.wh_carry.specs.Kept.{kept, HaveParts, CanFinish};
ghost use Rattle.wh_carry.specs.Waves.{stages_of};
ghost use Rattle.wh_carry.specs.declared.stages.Stage.{Stage as StageOf};
ghost use Rattle.wh_carry.specs.Stages.{place_behind};
ghost use Rattle.wh_carry.specs.Standing.{IsStageIn};
ghost use Rattle.wh_night.specs.Inner.Underway.{CanPublish, Given, HasBegun, IsAt, IsHalted, night_given};

use crate::gate::Gate;
use crate::insts::inst;
use crate::means::{NightRequest, Progress};
use crate::outlet::Outlet;
use crate::waves::wave;
use std::thread::Threads;
use wh_carry::Stage;
use wh_formula::{RowTest, RowValue};
use wh_maint::MaintFault;

/// Carries a stage out, and reports its expressions.
fn stage_of<W, O: Outlet<W>, F: RowTest, G: RowValue, T: Gate + Sync, R: Threads + Sync>(
    outlet: &O,
    writer: &mut W,
    asked: &NightRequest<'_, F, G, T, R>,
    stage: &Stage,
    progress: &mut Progress,
) -> Result<(), MaintFault>
    requires parts { HaveParts asked.now.catalog.now progress.old.state }
    requires fit { CanFinish asked.now.catalog.now (kept progress.old.state) }
    requires stage { IsStageIn asked.now.catalog.now stage.now }
    requires publishes { IfSome (O.kept writer.old) (CanPublish asked.now.catalog.now stage.now (kept progress.old.state)) }
    requires some { 1 ≤ O.keys outlet.now }
    requires few { O.keys outlet.now ≤ 256 }
    requires least { 1 ≤ asked.now.budget.now.threads }
    requires most { asked.now.budget.now.threads ≤ 16 }
    ensures home { O.home writer.new ≡ O.home writer.old }
    ensures parts { OnOk result (HaveParts asked.now.catalog.now progress.new.state) }
    ensures fit { OnOk result (CanFinish asked.now.catalog.now (kept progress.new.state)) }
    ensures goes { OnOk result ((t : Given) (before after : List StageOf) → stages_of t.list ≡ before ++ stage.now ∷ after
        → IsAt (night_given asked.now.catalog.now (O.keys outlet.now) t) t.before (place_behind before) (kept progress.old.state) progress.old.steps.items (O.kept writer.old)
        → IsAt (night_given asked.now.catalog.now (O.keys outlet.now) t) t.before (place_behind (before ++ stage.now ∷ [])) (kept progress.new.state) progress.new.steps.items (O.kept writer.new)) }
    ensures stops { IfErr result (λ fault. (t : Given) (before after : List StageOf) → stages_of t.list ≡ before ++ stage.now ∷ after
        → IsAt (night_given asked.now.catalog.now (O.keys outlet.now) t) t.before (place_behind before) (kept progress.old.state) progress.old.steps.items (O.kept writer.old)
        → IsHalted (night_given asked.now.catalog.now (O.keys outlet.now) t) t.before fault (O.kept writer.new)) }
{
    match stage {
        Stage::Wave(jobs) => wave(asked, jobs.as_slice(), progress),
        Stage::Inst(view) => inst(outlet, writer, asked, *view, progress),
    }
}

/// Carries the stages out, one after another, and reports their expressions. The first refusal ends it.
pub(crate) fn through<W, O: Outlet<W>, F: RowTest, G: RowValue, T: Gate + Sync, R: Threads + Sync>(
    outlet: &O,
    writer: &mut W,
    asked: &NightRequest<'_, F, G, T, R>,
    stages: &[Stage],
    progress: &mut Progress,
) -> Result<(), MaintFault>
    requires parts { HaveParts asked.now.catalog.now progress.old.state }
    requires fit { CanFinish asked.now.catalog.now (kept progress.old.state) }
    requires stages { (i : ℕ) (stage : StageOf) → slice_get stages.now i ≡ Some stage → IsStageIn asked.now.catalog.now stage }
    requires begun { HasBegun asked.now.catalog.now (O.keys outlet.now) stages.now (kept progress.old.state) progress.old.steps.items (O.kept writer.old) }
    requires some { 1 ≤ O.keys outlet.now }
    requires few { O.keys outlet.now ≤ 256 }
    requires least { 1 ≤ asked.now.budget.now.threads }
    requires most { asked.now.budget.now.threads ≤ 16 }
    ensures home { O.home writer.new ≡ O.home writer.old }
    ensures parts { OnOk result (HaveParts asked.now.catalog.now progress.new.state) }
    ensures goes { OnOk result ((t : Given) → stages.now ≡ stages_of t.list
        → IsAt (night_given asked.now.catalog.now (O.keys outlet.now) t) t.before 0 (kept progress.old.state) progress.old.steps.items (O.kept writer.old)
        → IsAt (night_given asked.now.catalog.now (O.keys outlet.now) t) t.before (length t.list) (kept progress.new.state) progress.new.steps.items (O.kept writer.new)) }
    ensures stops { IfErr result (λ fault. (t : Given) → stages.now ≡ stages_of t.list
        → IsAt (night_given asked.now.catalog.now (O.keys outlet.now) t) t.before 0 (kept progress.old.state) progress.old.steps.items (O.kept writer.old)
        → IsHalted (night_given asked.now.catalog.now (O.keys outlet.now) t) t.before fault (O.kept writer.new)) }
{
    for stage in stages {
        stage_of(outlet, writer, asked, stage, progress)?;
    }
    Ok(())
}
