//! Carries a night out that nobody reads beside, wave by wave over tables of its own, and publishes nothing.

ghost use Rattle.std.specs.Prelude.{◌≡◌, ◌⊎◌, ◌≤◌, ◌++◌, ◌∷◌, [], ℕ, List, Some, false, length, slice_get, OnOk, IfOk, IfErr};
ghost use Rattle.wh_maint.specs.Asked.{AreBags};
ghost use Rattle.wh_maint.specs.declared.fault.MaintFault.TheVariants.{Memory};
ghost use Rattle.wh_carry.specs.CarriedOut.{IsNightCarried};
ghost use Rattle.wh_carry.specs.Kept.{kept, HaveParts, CanFinish};
ghost use Rattle.wh_carry.specs.Waves.{stages_of};
ghost use Rattle.wh_carry.specs.declared.stages.Stage.{Stage as StageOf};
ghost use Rattle.wh_carry.specs.Stages.{place_behind};
ghost use Rattle.wh_carry.specs.Standing.{IsStageIn};
ghost use Rattle.wh_carry.specs.Fit.{AreFitTables};
ghost use Rattle.wh_night.specs.Refusals.{IsFirstStageFault, IsRefusedSo, left_of};
ghost use Rattle.wh_carry.specs.Night.{night_over};
ghost use Rattle.wh_night.specs.Inner.Underway.{Given, HasCome, night_given};

use crate::gate::Gate;
use crate::means::{NightRequest, Progress};
use crate::outlet::Nowhere;
use crate::stages::through;
use std::thread::Threads;
use wh_carry::{Carried, CarryFault, NightState, Report, base_changes, waves};
use wh_formula::{RowTest, RowValue};
use wh_maint::MaintFault;
use wh_row::Bag;

/// Want of memory, before the first expression.
fn want_of_memory() -> CarryFault
    ensures { result ≡ record { fault = Memory; started = false } }
{
    CarryFault {
        fault: MaintFault::Memory,
        started: false,
    }
}

/// What a night has made that is over.
fn carried(progress: Progress) -> Carried
    ensures tables { result.tables.items ≡ progress.state.tables }
    ensures version { result.report.version ≡ 1 }
    ensures steps { result.report.steps.items ≡ progress.steps.items }
{
    let Progress { state, steps } = progress;
    Carried {
        tables: state.into_tables(),
        report: Report { version: 1, steps },
    }
}

/// Carries a night out that nobody reads beside, wave by wave, from these tables: one bag a view, each fit, as the contents of a base are
/// (`are_fit` tests it). There is a change for each view; those of derived views are not read. The strategy was judged over this
/// catalogue's shape (`is_of` tests it). The tables are changed where they lie, and none is copied. The report has version 1.
///
/// Fails with the first refusal: of the base changes, view by view, Absent, then Large; then of the waves and the Insts, as
/// [`crate::night`] refuses them. The jobs of a wave are drawn by 1 to 16 workers. Memory may be refused at any point. A refusal leaves no
/// tables.
pub fn night_alone<F: RowTest, G: RowValue, T: Gate + Sync, R: Threads + Sync>(
    asked: &NightRequest<'_, F, G, T, R>,
    tables: Vec<Bag>,
) -> Result<Carried, CarryFault>
    requires judged { asked.now.correct.now.children ≡ asked.now.catalog.now.views.children }
    requires tables { AreBags asked.now.catalog.now tables.items }
    requires changes { AreBags asked.now.catalog.now asked.now.changes.now }
    requires fit { AreFitTables asked.now.catalog.now tables.items }
    requires one { 1 ≤ asked.now.budget.now.threads }
    requires sixteen { asked.now.budget.now.threads ≤ 16 }
    ensures carried { IfOk result (λ c. IsNightCarried asked.now.catalog.now asked.now.correct.now.list tables.items asked.now.changes.now c.tables.items c.report) }
    ensures refused { IfErr result (λ f. (f.fault ≡ Memory)
        ⊎ ((keys : ℕ) → IsRefusedSo (night_over asked.now.catalog.now asked.now.correct.now.list tables.items asked.now.changes.now keys) (left_of f.started) f.fault)) }
{
    let alloc = asked.budget.alloc;
    if let Err(fault) = base_changes(alloc, asked.catalog, &tables, asked.changes) {
        return Err(CarryFault {
            fault,
            started: false,
        });
    }
    // Makes known that the list is correct.
    let _ = asked.correct.strategy();
    let Ok(state) = NightState::over(alloc, asked.catalog, tables, asked.changes) else {
        return Err(want_of_memory());
    };
    let Ok(stages) = waves(alloc, asked.correct) else {
        return Err(want_of_memory());
    };
    let mut progress = Progress {
        state,
        steps: Vec::new(alloc),
    };
    match through(&Nowhere, &mut (), asked, stages.as_slice(), &mut progress) {
        Ok(()) => Ok(carried(progress)),
        Err(fault) => Err(CarryFault {
            fault,
            started: true,
        }),
    }
}
