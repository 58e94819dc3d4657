//! Tests what is asked of the jobs of a wave, and of the tables of a night.

ghost use Rattle.std.specs.Prelude.{◌≡◌, ◌⊎◌, ◌↔◌, ◌<◌, false, length, IfOk, IfErr, IsTrue};
ghost use Rattle.wh_maint.specs.Asked.{AreBags};
ghost use Rattle.wh_maint.specs.Comp.{bag_at};
ghost use Rattle.wh_maint.specs.declared.fault.MaintFault.TheVariants.{Memory};
ghost use Rattle.wh_carry.specs.Fit.{AreFitFor, AreFitTables};
ghost use Rattle.wh_carry.specs.Kept.{kept, AreKnown, HaveParts};
ghost use Rattle.wh_carry.specs.Refused.{AreAllowedBelow, IsListFault};
ghost use Rattle.wh_carry.specs.declared.stages.Stage.TheVariants as stage;
ghost use Rattle.wh_carry.specs.Standing.{IsStageIn};
ghost use Rattle.wh_night.specs.Inner.RefusedWaves.{IsReady};
ghost use Rattle.wh_night.specs.Underway.{SourcesAreKnown};

use std::alloc::Global;
use wh_carry::{Job, NightState, are_fit, carry};
use wh_dag::Catalog;
use wh_formula::{RowTest, RowValue};
use wh_maint::{MaintFault, are_sources};
use wh_row::Bag;
use wh_strategy::Correct;

/// Whether there are these views and their changes are known.
fn are_known(views: usize, state: &NightState, sources: &[usize]) -> bool
    requires { length state.now.known ≡ views }
    ensures { IsTrue result ↔ AreKnown (kept state.now) sources.now }
{
    match sources {
        [] => true,
        [source, rest @ ..] => {
            if *source >= views {
                return false;
            }
            if !state.is_known(*source) {
                return false;
            }
            are_known(views, state, rest)
        }
    }
}

/// Whether this is the Comp of a derived view from some of its children, none twice, whose changes are known.
fn is_ready<F: RowTest, G: RowValue>(catalog: &Catalog<F, G>, job: &Job, state: &NightState) -> bool
    requires { HaveParts catalog.now state.now }
    ensures { IsTrue result ↔ IsReady catalog.now (kept state.now) job.now }
{
    let views = catalog.shape().len();
    let sources = job.from.as_slice();
    job.view < views
        && !catalog.is_base(job.view)
        && are_sources(catalog, job.view, sources)
        && are_known(views, state, sources)
}

/// Tells whether these jobs can be run as a wave: each is the Comp of a derived view from some of its children, none twice, whose changes
/// are known.
/// Takes O(j C²) for j jobs with at most C sources each, of views of at most C children.
pub fn can_run_wave<F: RowTest, G: RowValue>(
    catalog: &Catalog<F, G>,
    jobs: &[Job],
    state: &NightState,
) -> bool
    requires { HaveParts catalog.now state.now }
    ensures { IsTrue result ↔ (IsStageIn catalog.now (stage.Wave jobs.now) × SourcesAreKnown (kept state.now) jobs.now) }
{
    match jobs {
        [] => true,
        [job, rest @ ..] => is_ready(catalog, job, state) && can_run_wave(catalog, rest, state),
    }
}

/// Whether each of these tables is fit; Memory where there is none to test it.
fn are_all_fit<F: RowTest, G: RowValue>(
    alloc: Global,
    catalog: &Catalog<F, G>,
    tables: &[Bag],
) -> Result<bool, MaintFault>
    requires { AreBags catalog.now tables.now }
    ensures fit { IfOk result (λ fit. IsTrue fit ↔ AreFitTables catalog.now tables.now) }
    ensures memory { IfErr result (λ fault. fault ≡ Memory) }
{
    are_fit(alloc, catalog, tables).map_err(|_| MaintFault::Memory)
}

/// Tells whether these tables are fit for this night: each is fit, and, unless a base change is refused, the strategy leaves them so. There
/// is a table and a change for each view, and the strategy was judged over this catalogue's shape. The contents of a base are fit for every
/// night.
///
/// The night is carried out on copies to see it. Fails with the fault of an expression that is refused there: a night would be refused too,
/// perhaps for another expression of the same wave.
pub fn are_fit_for<F: RowTest, G: RowValue>(
    alloc: Global,
    catalog: &Catalog<F, G>,
    tables: &[Bag],
    changes: &[Bag],
    correct: &Correct,
) -> Result<bool, MaintFault>
    requires judged { correct.now.children ≡ catalog.now.views.children }
    requires tables { AreBags catalog.now tables.now }
    requires changes { AreBags catalog.now changes.now }
    ensures fit { IfOk result (λ fit. IsTrue fit → AreFitFor catalog.now (bag_at changes.now) correct.now.list (bag_at tables.now)) }
    ensures unfit { IfOk result (λ fit. fit ≡ false → ¬ (AreFitFor catalog.now (bag_at changes.now) correct.now.list (bag_at tables.now))) }
    ensures refused { IfErr result (λ fault. (fault ≡ Memory)
        ⊎ (AreAllowedBelow catalog.now (bag_at tables.now) (bag_at changes.now) (length catalog.now.views.children)
        × IsListFault catalog.now correct.now.list (bag_at tables.now) (bag_at changes.now) fault)) }
{
    if !are_all_fit(alloc, catalog, tables)? {
        return Ok(false);
    }
    // Makes known that the catalogue and the list keep the rules.
    let _ = catalog.shape();
    let _ = correct.strategy();
    match carry(alloc, catalog, tables, changes, correct) {
        Ok(carried) => are_all_fit(alloc, catalog, &carried.tables),
        Err(refused) => {
            if refused.started {
                return Err(refused.fault);
            }
            match refused.fault {
                MaintFault::Memory => return Err(MaintFault::Memory),
                _ => return Ok(true),
            }
        }
    }
}
