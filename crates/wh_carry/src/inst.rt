//! Makes the pages of an Inst's new counts.

ghost use Rattle.std.specs.Prelude.{◌≡◌, ◌≢◌, ◌≤◌, ◌<◌, ◌==◌, ℕ, [], ◌∷◌, ◌++◌, Some, None, length, map, OnOk, IfOk};
ghost use Rattle.wh_row.specs.Bag.{count, written};
ghost use Rattle.wh_row.specs.Stored.{plain};
ghost use Rattle.wh_maint.specs.declared.fault.MaintFault.{MaintFault as Fault};
ghost use Rattle.wh_carry.specs.Kept.{kept, finished, installed, HaveParts, CanFinish};
ghost use Rattle.wh_carry.specs.NightList.{new_counts, pages_of};
ghost use Rattle.wh_carry.specs.Inner.Refused.{IsPassedIn, IsStepFaultIn};
ghost use Rattle.wh_strategy.specs.declared.expression.Expression.TheVariants.{Inst};
ghost use Rattle.wh_carry.specs.Inner.Standing.{PutsPages, PutsSome};

use crate::course::Part;
use crate::state::NightState;
use std::alloc::{AllocError, Global};
use wh_dag::Catalog;
use wh_formula::{RowTest, RowValue};
use wh_maint::MaintFault;
use wh_row::{Bag, Row};
use wh_store::Op;

/// Puts these rows as a page of its own, and begins the next.
fn close_page(
    alloc: Global,
    view: usize,
    page: &mut Vec<(Row, i64)>,
    parts: &mut Vec<Part>,
) -> Result<(), AllocError>
    ensures empty { OnOk result (page.new.items ≡ []) }
    ensures puts { OnOk result (PutsPages view (plain page.old.items ∷ []) parts.old.items parts.new.items) }
{
    let rows = std::mem::replace(page, Vec::new(alloc));
    parts.push(Part::Page(Op::Put(view, rows)))?;
    Ok(())
}

/// Closes the page if it is full.
fn make_room(
    alloc: Global,
    view: usize,
    keys: usize,
    page: &mut Vec<(Row, i64)>,
    parts: &mut Vec<Part>,
) -> Result<(), AllocError>
    requires some { 1 ≤ keys }
    requires few { length page.old.items ≤ keys }
    ensures room { OnOk result (length page.new.items < keys) }
    ensures puts { OnOk result (PutsSome view keys (plain page.old.items) (plain page.new.items) parts.old.items parts.new.items) }
{
    if page.len() == keys {
        close_page(alloc, view, page, parts)?;
    }
    Ok(())
}

/// Closes the page if it has a row.
fn close_last(
    alloc: Global,
    view: usize,
    keys: usize,
    page: &mut Vec<(Row, i64)>,
    parts: &mut Vec<Part>,
) -> Result<(), AllocError>
    requires few { length page.old.items ≤ keys }
    ensures { OnOk result (PutsPages view (pages_of keys (plain page.old.items)) parts.old.items parts.new.items) }
{
    if page.len() == 0 {
        return Ok(());
    }
    close_page(alloc, view, page, parts)?;
    Ok(())
}

/// Puts a row behind those of the open page, with its count in the table.
fn put_row(
    alloc: Global,
    table: &Bag,
    row: &[i64],
    page: &mut Vec<(Row, i64)>,
) -> Result<(), AllocError>
    ensures { OnOk result (plain page.new.items ≡ plain page.old.items ++ (row.now, count table.now row.now) ∷ []) }
{
    let copy = Row::from_slice(alloc, row)?;
    page.push((copy, table.count(row)))?;
    Ok(())
}

/// Puts the rows of a change in rising order, each with its count in the table that has the change, by pages of at most
/// `keys` rows.
fn put_pages(
    alloc: Global,
    view: usize,
    keys: usize,
    table: &Bag,
    change: &Bag,
    parts: &mut Vec<Part>,
) -> Result<(), AllocError>
    requires some { 1 ≤ keys }
    ensures { OnOk result (PutsPages view (pages_of keys (map (λ e. (e.0, count table.now e.0)) (written change.now))) parts.old.items parts.new.items) }
{
    let mut page = Vec::new(alloc);
    for (row, _) in change.rows() {
        make_room(alloc, view, keys, &mut page, parts)?;
        put_row(alloc, table, row, &mut page)?;
    }
    close_last(alloc, view, keys, &mut page, parts)?;
    Ok(())
}

/// Carries an Inst out, and puts its pages. A fault other than memory puts none.
pub(crate) fn inst_of<F: RowTest, G: RowValue>(
    alloc: Global,
    catalog: &Catalog<F, G>,
    view: usize,
    keys: usize,
    state: &mut NightState,
    parts: &mut Vec<Part>,
) -> Result<Option<MaintFault>, AllocError>
    requires parts { HaveParts catalog.now state.old }
    requires fit { CanFinish catalog.now (kept state.old) }
    requires view { view < length catalog.now.views.children }
    requires some { 1 ≤ keys }
    ensures parts { OnOk result (HaveParts catalog.now state.new) }
    ensures fit { OnOk result (CanFinish catalog.now (kept state.new)) }
    ensures done { IfOk result (λ fault. fault ≡ None → kept state.new ≡ installed view (finished catalog.now (λ u. view == u) (kept state.old))) }
    ensures passed { IfOk result (λ fault. fault ≡ None → IsPassedIn catalog.now (kept state.old) (Inst view)) }
    ensures puts { IfOk result (λ fault. fault ≡ None → PutsPages view
        (pages_of keys (new_counts ((kept state.old).tables view) ((finished catalog.now (λ u. view == u) (kept state.old)).changes view))) parts.old.items parts.new.items) }
    ensures none { IfOk result (λ fault. (f : Fault) → fault ≡ Some f → parts.new ≡ parts.old) }
    ensures refused { IfOk result (λ fault. (f : Fault) → fault ≡ Some f → IsStepFaultIn catalog.now (kept state.old) (Inst view) f) }
    ensures memory { IfOk result (λ fault. fault ≢ Some MaintFault.Memory) }
{
    if let Err(fault) = state.finish_one(alloc, catalog, view) {
        let told = told(fault)?;
        return Ok(told);
    }
    if let Err(fault) = state.install(view) {
        let told = told(fault)?;
        return Ok(told);
    }
    put_pages(
        alloc,
        view,
        keys,
        state.table(view),
        state.change(view),
        parts,
    )?;
    Ok(None)
}

/// A fault other than memory.
fn told(fault: MaintFault) -> Result<Option<MaintFault>, AllocError>
    ensures told { IfOk result (λ told. told ≡ Some fault) }
    ensures memory { IfOk result (λ told. told ≢ Some MaintFault.Memory) }
{
    match fault {
        MaintFault::Memory => Err(AllocError),
        fault => Ok(Some(fault)),
    }
}
