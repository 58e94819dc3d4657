//! Runs a night while readers go through the tables of before.

ghost use Rattle.std.specs.Prelude.{◌≡◌, ◌⊎◌, ◌≤◌, ℕ, [], Ok, Some, replicate, IfErr, IfOk, IfSome, MatchResult};
ghost use Rattle.wh_maint.specs.Asked.{AreBags};
ghost use Rattle.wh_maint.specs.Comp.{bag_at};
ghost use Rattle.wh_maint.specs.declared.fault.MaintFault.TheVariants.{Memory};
ghost use Rattle.wh_carry.specs.CarriedOut.{IsNightCarried};
ghost use Rattle.wh_carry.specs.Fit.{AreFitFor, AreFitTables};
ghost use Rattle.wh_carry.specs.Night.{Night, night_over};
ghost use Rattle.wh_night.specs.Refusals.{IsRefused, IsRefusedSo, left_of};
ghost use Rattle.wh_store.specs.Kept.{AreTables};
ghost use Rattle.wh_night.specs.Serving.{ToldOfNight, WereServed, newly, rows_of};
ghost use Rattle.wh_night.specs.Inner.Serving.{CanRun, IsServed, opened};

use crate::alone::night_alone;
use crate::beside::{Beside, night_beside};
use crate::cause::NightCause;
use crate::gate::Gate;
use crate::left::{Aftermath, NightFault};
use crate::means::NightRequest;
use crate::readers::{Given, given_by, seat_readers};
use std::alloc::Global;
use std::sync::Wait;
use std::thread::{Threads, join};
use wh_carry::{Carried, CarryFault, Report};
use wh_desk::{Answered, Told, Watch, open_with_copy};
use wh_formula::{RowTest, RowValue};
use wh_maint::MaintFault;
use wh_row::Bag;
use wh_store::{MIN_VERSIONS, Store};

/// The tables and the report of a night, and what the readers beside it were given.
#[derive(Drop)]
pub struct Served {
    /// The new tables, one for each view.
    pub tables: Vec<Bag>,
    /// The report of what each expression did, with the new version.
    pub report: Report,
    /// The number of distinct rows that each reader was given.
    pub rows: Vec<usize>,
    /// How each reader was answered.
    pub answered: Vec<Option<Answered>>,
    /// What the warehouse's writer has published; `None` where there were no readers, and so no warehouse.
    pub published: Option<Told>,
}

/// Want of memory, of a night that leaves nothing.
fn want_of_memory() -> CarryFault
    ensures { result.fault ≡ Memory }
{
    CarryFault {
        fault: MaintFault::Memory,
        started: false,
    }
}

/// Why a night is refused that could begin, and whether it had begun; want of memory where it could not be given up either.
fn refusal(refused: NightFault) -> CarryFault
    ensures { (n : Night) → IsRefused n refused → (result.fault ≡ Memory) ⊎ IsRefusedSo n (left_of result.started) result.fault }
{
    let NightFault { cause, left } = refused;
    let started = match left {
        Aftermath::Untouched => false,
        Aftermath::GivenUp => true,
        Aftermath::StillOpen => return want_of_memory(),
    };
    let fault = match cause {
        NightCause::Large(view) => MaintFault::Large(view),
        NightCause::Range(view) => MaintFault::Range(view),
        NightCause::Absent(view, row) => MaintFault::Absent(view, row),
        _ => return want_of_memory(),
    };
    CarryFault { fault, started }
}

/// What a night made, with what readers were given and what was told of the published list.
fn answer_of(
    night: Result<Carried, NightFault>,
    given: Option<Given>,
    told: Told,
) -> Result<Served, CarryFault>
    ensures ok { IfOk result (λ s. (night ≡ Ok (record { tables = s.tables; report = s.report })) × (given ≡ Some (record { rows = s.rows; answered = s.answered }))) }
    ensures told { IfOk result (λ s. s.published ≡ Some told) }
    ensures err { IfErr result (λ f. MatchResult night (λ _. f.fault ≡ Memory) (λ g. (n : Night) → IsRefused n g → (f.fault ≡ Memory) ⊎ IsRefusedSo n (left_of f.started) f.fault)) }
{
    match night {
        Ok(Carried { tables, report }) => {
            let Some(Given { rows, answered }) = given else {
                return Err(want_of_memory());
            };
            Ok(Served {
                tables,
                report,
                rows,
                answered,
                published: Some(told),
            })
        }
        Err(refused) => Err(refusal(refused)),
    }
}

/// A night without readers, over the tables as they lie.
fn serve_none<F: RowTest, G: RowValue, W: Gate + Watch + Sync, R: Threads + Sync>(
    asked: &NightRequest<'_, F, G, W, R>,
    tables: Vec<Bag>,
) -> Result<Served, CarryFault>
    requires judged { asked.now.correct.now.children ≡ asked.now.catalog.now.views.children }
    requires tables { AreBags asked.now.catalog.now tables.items }
    requires changes { AreBags asked.now.catalog.now asked.now.changes.now }
    requires fit { AreFitTables asked.now.catalog.now tables.items }
    requires some { 1 ≤ asked.now.budget.now.threads }
    requires few { asked.now.budget.now.threads ≤ 16 }
    ensures carried { IfOk result (λ s. IsNightCarried asked.now.catalog.now asked.now.correct.now.list tables.items asked.now.changes.now s.tables.items s.report) }
    ensures rows { IfOk result (λ s. s.rows.items ≡ []) }
    ensures refused { IfErr result (λ f. (f.fault ≡ Memory)
        ⊎ ((keys : ℕ) → IsRefusedSo (night_over asked.now.catalog.now asked.now.correct.now.list tables.items asked.now.changes.now keys) (left_of f.started) f.fault)) }
{
    let Carried { tables, report } = night_alone(asked, tables)?;
    Ok(Served {
        tables,
        report,
        rows: Vec::new(asked.budget.alloc),
        answered: Vec::new(asked.budget.alloc),
        published: None,
    })
}

/// A store of these tables, as version 0.
fn store_of(alloc: Global, tables: &[Bag]) -> Option<Store>
    requires { AreTables tables.now }
    ensures { IfSome result (λ store. store ≡ opened tables.now) }
{
    match Store::new(alloc, tables, MIN_VERSIONS) {
        Ok(store) => Some(store),
        Err(_) => None,
    }
}

/// Two stores of these tables, filled beside each other where a thread can be started.
fn two_stores<R: Threads + Sync>(rt: &R, alloc: Global, tables: &[Bag]) -> Option<(Store, Store)>
    requires tables { AreTables tables.now }
    ensures first { IfSome result (λ stores. stores.0 ≡ opened tables.now) }
    ensures second { IfSome result (λ stores. stores.1 ≡ opened tables.now) }
{
    let (first, second) = join(
        rt,
        move || -> Option<Store>
            requires { AreTables tables.now }
            ensures { IfSome result (λ store. store ≡ opened tables.entry.now) }
        { store_of(alloc, tables) },
        move || -> Option<Store>
            requires { AreTables tables.now }
            ensures { IfSome result (λ store. store ≡ opened tables.entry.now) }
        { store_of(alloc, tables) },
    );
    Some((first?, second?))
}

/// A night beside one reader at least, over new stores of these tables.
fn serve_some<F: RowTest, G: RowValue, W: Gate + Watch + Sync, R: Threads + Wait + Sync>(
    asked: &NightRequest<'_, F, G, W, R>,
    stores: (Store, Store),
    tables: Vec<Bag>,
    readers: usize,
) -> Result<Served, CarryFault>
    requires first { stores.0 ≡ opened tables.items }
    requires second { stores.1 ≡ opened tables.items }
    requires ready { CanRun asked.now.catalog.now asked.now.correct.now (newly tables.items) asked.now.changes.now asked.now.budget.now.threads asked.now.page_keys }
    requires least { 1 ≤ readers }
    requires most { readers ≤ 16 }
    ensures run { IfOk result (IsServed asked.now.catalog.now asked.now.correct.now.list (newly tables.items) asked.now.changes.now asked.now.page_keys) }
    ensures rows { IfOk result (λ s. s.rows.items ≡ replicate readers (rows_of tables.items)) }
    ensures served { IfOk result (λ s. WereServed tables.items readers s.answered.items s.rows.items) }
    ensures refused { IfErr result (λ f. (f.fault ≡ Memory)
        ⊎ IsRefusedSo (night_over asked.now.catalog.now asked.now.correct.now.list tables.items asked.now.changes.now asked.now.page_keys) (left_of f.started) f.fault) }
{
    let rt = asked.budget.rt;
    let alloc = asked.budget.alloc;
    let (store, copy) = stores;
    let Ok((mut writer, desks)) = open_with_copy(rt, alloc, store, copy, readers) else {
        return Err(want_of_memory());
    };
    let Some(askers) = seat_readers(alloc, desks, tables.len()) else {
        writer.end(rt);
        return Err(want_of_memory());
    };
    let Beside { night, answered } = night_beside(asked, &mut writer, askers, tables);
    let told = writer.tell();
    writer.end(rt);
    answer_of(night, given_by(alloc, answered), told)
}

/// Runs a night over a new warehouse of these tables while readers go through them. There is one bag for each view, fit for the night, as
/// the contents of a base are for every night (`are_fit_for` tests it). There is a change for each view; those of derived views are not
/// read. The strategy was judged over this catalogue's shape (`is_of` tests it).
///
/// There are 0 to 16 readers. Each opens its session before the night begins, and by [`night_beside`] reads each view once, in pages of 256
/// rows. The gate is told of each job, and as a [`Watch`] before a reader's first page and after its last. The night publishes pages of
/// `page_keys` rows at most, and its writer tells what it has published. Where there are no readers the tables are changed where they lie,
/// and none is copied or published.
///
/// Fails as [`crate::night`] does. Want of memory is also told where a reader was not answered.
pub fn serve_night<F: RowTest, G: RowValue, W: Gate + Watch + Sync, R: Threads + Wait + Sync>(
    asked: &NightRequest<'_, F, G, W, R>,
    tables: Vec<Bag>,
    readers: usize,
) -> Result<Served, CarryFault>
    requires judged { asked.now.correct.now.children ≡ asked.now.catalog.now.views.children }
    requires tables { AreBags asked.now.catalog.now tables.items }
    requires changes { AreBags asked.now.catalog.now asked.now.changes.now }
    requires fit { AreFitFor asked.now.catalog.now (bag_at asked.now.changes.now) asked.now.correct.now.list (bag_at tables.items) }
    requires some { 1 ≤ asked.now.budget.now.threads }
    requires few { asked.now.budget.now.threads ≤ 16 }
    requires least { 1 ≤ asked.now.page_keys }
    requires most { asked.now.page_keys ≤ 256 }
    requires readers { readers ≤ 16 }
    ensures carried { IfOk result (λ s. IsNightCarried asked.now.catalog.now asked.now.correct.now.list tables.items asked.now.changes.now s.tables.items s.report) }
    ensures rows { IfOk result (λ s. s.rows.items ≡ replicate readers (rows_of tables.items)) }
    ensures served { IfOk result (λ s. 1 ≤ readers → WereServed tables.items readers s.answered.items s.rows.items) }
    ensures published { IfOk result (λ s. 1 ≤ readers → ToldOfNight asked.now.catalog.now asked.now.correct.now.list tables.items asked.now.changes.now asked.now.page_keys s.report s.published) }
    ensures refused { IfErr result (λ f. (f.fault ≡ Memory)
        ⊎ IsRefusedSo (night_over asked.now.catalog.now asked.now.correct.now.list tables.items asked.now.changes.now asked.now.page_keys) (left_of f.started) f.fault) }
{
    // Makes known that the strategy keeps the rules.
    let _ = asked.correct.strategy();
    if readers == 0 {
        return serve_none(asked, tables);
    }
    let Some(stores) = two_stores(asked.budget.rt, asked.budget.alloc, &tables) else {
        return Err(want_of_memory());
    };
    serve_some(asked, stores, tables, readers)
}
