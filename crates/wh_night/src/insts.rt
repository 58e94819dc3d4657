//! Installs views: a view's change is added to its table, and its new counts are handed to the night's outlet.

ghost use Rattle.std.specs.Prelude.{◌≡◌, ◌≤◌, ◌<◌, ◌==◌, length, OnOk, IfErr, IfSome};
ghost use Rattle.wh_strategy.specs.declared.expression.Expression.TheVariants.{Inst};
ghost use Rattle.wh_carry.specs.Kept.{kept, finished, installed, HaveParts, CanFinish};
ghost use Rattle.wh_carry.specs.Inner.Kept.{rows_in};
ghost use Rattle.wh_carry.specs.Inner.Refused.{IsPassedIn, IsStepFaultIn};
ghost use Rattle.wh_carry.specs.declared.stages.Stage.TheVariants as stage;
ghost use Rattle.wh_night.specs.Inner.Underway.{CanPublish, IsInstStopped, Reports, behind, puts_in};

use crate::gate::Gate;
use crate::means::{NightRequest, Progress};
use crate::outlet::Outlet;
use std::thread::Threads;
use wh_formula::{RowTest, RowValue};
use wh_maint::MaintFault;
use wh_strategy::Expression;

/// Carries an Inst out and reports it.
fn install<F: RowTest, G: RowValue, T: Gate, R: Threads + Sync>(
    asked: &NightRequest<'_, F, G, T, R>,
    view: usize,
    progress: &mut Progress,
) -> Result<(), MaintFault>
    requires parts { HaveParts asked.now.catalog.now progress.old.state }
    requires fit { CanFinish asked.now.catalog.now (kept progress.old.state) }
    requires view { view < length asked.now.catalog.now.views.children }
    ensures parts { OnOk result (HaveParts asked.now.catalog.now progress.new.state) }
    ensures fit { OnOk result (CanFinish asked.now.catalog.now (kept progress.new.state)) }
    ensures done { OnOk result (kept progress.new.state ≡ installed view (finished asked.now.catalog.now (λ u. view == u) (kept progress.old.state))) }
    ensures passed { OnOk result (IsPassedIn asked.now.catalog.now (kept progress.old.state) (Inst view)) }
    ensures reported { OnOk result (Reports (rows_in asked.now.catalog.now (Inst view) (kept progress.old.state)) (Inst view) progress.old.steps.items progress.new.steps.items) }
    ensures refused { IfErr result (IsStepFaultIn asked.now.catalog.now (kept progress.old.state) (Inst view)) }
{
    progress
        .state
        .finish_one(asked.budget.alloc, asked.catalog, view)?;
    let rows = progress.state.change(view).total();
    progress.state.install(view)?;
    let Ok(()) = progress.steps.push((Expression::Inst(view), rows)) else {
        return Err(MaintFault::Memory);
    };
    Ok(())
}

/// Carries an Inst out and reports it, and hands the new counts on.
pub(crate) fn inst<W, O: Outlet<W>, F: RowTest, G: RowValue, T: Gate, R: Threads + Sync>(
    outlet: &O,
    writer: &mut W,
    asked: &NightRequest<'_, F, G, T, R>,
    view: usize,
    progress: &mut Progress,
) -> Result<(), MaintFault>
    requires parts { HaveParts asked.now.catalog.now progress.old.state }
    requires fit { CanFinish asked.now.catalog.now (kept progress.old.state) }
    requires view { view < length asked.now.catalog.now.views.children }
    requires publishes { IfSome (O.kept writer.old) (CanPublish asked.now.catalog.now (stage.Inst view) (kept progress.old.state)) }
    requires some { 1 ≤ O.keys outlet.now }
    requires few { O.keys outlet.now ≤ 256 }
    ensures home { O.home writer.new ≡ O.home writer.old }
    ensures parts { OnOk result (HaveParts asked.now.catalog.now progress.new.state) }
    ensures fit { OnOk result (CanFinish asked.now.catalog.now (kept progress.new.state)) }
    ensures done { OnOk result (kept progress.new.state ≡ installed view (finished asked.now.catalog.now (λ u. view == u) (kept progress.old.state))) }
    ensures passed { OnOk result (IsPassedIn asked.now.catalog.now (kept progress.old.state) (Inst view)) }
    ensures reported { OnOk result (Reports (rows_in asked.now.catalog.now (Inst view) (kept progress.old.state)) (Inst view) progress.old.steps.items progress.new.steps.items) }
    ensures out { OnOk result (O.kept writer.new ≡ behind (O.kept writer.old) (puts_in asked.now.catalog.now (O.keys outlet.now) view (kept progress.old.state))) }
    ensures err { IfErr result (λ fault. IsInstStopped asked.now.catalog.now (O.keys outlet.now) view (kept progress.old.state) fault (O.kept writer.old) (O.kept writer.new)) }
{
    install(asked, view, progress)?;
    let state = &progress.state;
    match outlet.put(writer, view, state.table(view), state.change(view)) {
        Ok(()) => Ok(()),
        Err(_) => Err(MaintFault::Memory),
    }
}
