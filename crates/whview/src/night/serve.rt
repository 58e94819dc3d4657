//! Carries a night out, and keeps what is shown of its derived views.

ghost use Rattle.std.specs.Prelude.{◌≡◌, ◌⊎◌, ◌≤◌, length, map, replicate, IfErr, IfOk};
ghost use Rattle.wh_carry.specs.CarriedOut.{IsNightCarried};
ghost use Rattle.wh_carry.specs.Fit.{AreFitFor};
ghost use Rattle.wh_maint.specs.Asked.{AreBags};
ghost use Rattle.wh_maint.specs.Comp.{bag_at};
ghost use Rattle.wh_maint.specs.declared.fault.MaintFault.TheVariants.{Memory};
ghost use Rattle.wh_night.specs.Refusals.{IsRefusedSo, left_of};
ghost use Rattle.wh_night.specs.Serving.{ToldOfNight, rows_of};
ghost use Rattle.wh_carry.specs.Night.{night_over};
ghost use Rattle.wh_text_catalogue.specs.Definitions.{shown_view};
ghost use Rattle.whview.specs.Inner.NightOutput.{IsShownWhole};
ghost use Rattle.whview.specs.NightOutput.{AtDerived, IsShownAs, rows_printed};
ghost use Rattle.whview.specs.declared.night_options.Printed.TheVariants.{Changes};

use super::shown::{Shown, changes, copies};
use crate::night_options::{NightOptions, Printed};
use std::sync::Wait;
use std::thread::Threads;
use wh_carry::CarryFault;
use wh_formula::{RowTest, RowValue};
use wh_load::WrittenView;
use wh_maint::MaintFault;
use wh_night::{Gate, NightRequest, Served, Watch, serve_night};
use wh_row::Bag;

/// Want of memory, in a night that has begun or not.
fn want_of_memory(started: bool) -> CarryFault
    ensures { result.fault ≡ Memory }
{
    CarryFault {
        fault: MaintFault::Memory,
        started,
    }
}

/// Carries a night out from these tables, beside so many readers, with the changes of the derived views.
fn with_changes<F: RowTest, G: RowValue, N: Gate + Watch + Sync, R: Threads + Wait + Sync>(
    asked: &NightRequest<'_, F, G, N, R>,
    readers: usize,
    views: &[WrittenView],
    tables: Vec<Bag>,
) -> Result<(Served, Vec<Bag>), CarryFault>
    requires views { length views.now ≡ length asked.now.catalog.now.views.children }
    requires judged { asked.now.correct.now.children ≡ asked.now.catalog.now.views.children }
    requires tables { AreBags asked.now.catalog.now tables.items }
    requires changes { AreBags asked.now.catalog.now asked.now.changes.now }
    requires fit { AreFitFor asked.now.catalog.now (bag_at asked.now.changes.now) asked.now.correct.now.list (bag_at tables.items) }
    requires some { 1 ≤ asked.now.budget.now.threads }
    requires few { asked.now.budget.now.threads ≤ 16 }
    requires least { 1 ≤ asked.now.page_keys }
    requires most { asked.now.page_keys ≤ 256 }
    requires seats { readers ≤ 16 }
    ensures carried { IfOk result (λ s. IsNightCarried asked.now.catalog.now asked.now.correct.now.list tables.items asked.now.changes.now s.0.tables.items s.0.report) }
    ensures rows { IfOk result (λ s. s.0.rows.items ≡ replicate readers (rows_of tables.items)) }
    ensures published { IfOk result (λ s. 1 ≤ readers → ToldOfNight asked.now.catalog.now asked.now.correct.now.list tables.items asked.now.changes.now asked.now.page_keys s.0.report s.0.published) }
    ensures each { IfOk result (λ s. length s.1.items ≡ length views.now) }
    ensures shown { IfOk result (λ s. AtDerived (map shown_view views.now) (λ view. bag_at s.1.items view ≡ rows_printed Changes (bag_at tables.items) (bag_at s.0.tables.items) view)) }
    ensures refused { IfErr result (λ f. (f.fault ≡ Memory)
        ⊎ IsRefusedSo (night_over asked.now.catalog.now asked.now.correct.now.list tables.items asked.now.changes.now asked.now.page_keys) (left_of f.started) f.fault) }
{
    let alloc = asked.budget.alloc;
    let Ok(old) = copies(alloc, views, &tables) else {
        return Err(want_of_memory(false));
    };
    let served = serve_night(asked, tables, readers)?;
    match changes(asked.budget, views, &served.tables, &old) {
        Ok(changes) => Ok((served, changes)),
        Err(_) => Err(want_of_memory(true)),
    }
}

/// Carries a night out from these tables, by as many workers, beside as many readers and by such operations as it is to be run, and makes
/// what is to be shown of it.
pub(crate) fn serve<F: RowTest, G: RowValue, N: Gate + Watch + Sync, R: Threads + Wait + Sync>(
    asked: &NightRequest<'_, F, G, N, R>,
    how: NightOptions,
    views: &[WrittenView],
    tables: Vec<Bag>,
) -> Result<(Served, Shown), CarryFault>
    requires views { length views.now ≡ length asked.now.catalog.now.views.children }
    requires judged { asked.now.correct.now.children ≡ asked.now.catalog.now.views.children }
    requires tables { AreBags asked.now.catalog.now tables.items }
    requires changes { AreBags asked.now.catalog.now asked.now.changes.now }
    requires fit { AreFitFor asked.now.catalog.now (bag_at asked.now.changes.now) asked.now.correct.now.list (bag_at tables.items) }
    requires workers { asked.now.budget.now.threads ≡ how.workers }
    requires page_keys { asked.now.page_keys ≡ how.page_keys }
    ensures carried { IfOk result (λ s. IsNightCarried asked.now.catalog.now asked.now.correct.now.list tables.items asked.now.changes.now s.0.tables.items s.0.report) }
    ensures rows { IfOk result (λ s. s.0.rows.items ≡ replicate how.readers (rows_of tables.items)) }
    ensures published { IfOk result (λ s. 1 ≤ how.readers → ToldOfNight asked.now.catalog.now asked.now.correct.now.list tables.items asked.now.changes.now asked.now.page_keys s.0.report s.0.published) }
    ensures shown { IfOk result (λ s. IsShownAs how.print (map shown_view views.now) (bag_at tables.items) (bag_at s.0.tables.items) s.1) }
    ensures whole { IfOk result (λ s. IsShownWhole asked.now.catalog.now.views s.1) }
    ensures refused { IfErr result (λ f. (f.fault ≡ Memory)
        ⊎ IsRefusedSo (night_over asked.now.catalog.now asked.now.correct.now.list tables.items asked.now.changes.now asked.now.page_keys) (left_of f.started) f.fault) }
{
    match how.print {
        Printed::Tables => {
            let served = serve_night(asked, tables, how.readers)?;
            Ok((served, Shown::NewTables))
        }
        Printed::Changes => {
            let (served, changes) = with_changes(asked, how.readers, views, tables)?;
            Ok((served, Shown::ChangesOf(changes)))
        }
    }
}
