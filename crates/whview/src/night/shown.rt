//! Keeps what is shown of the derived views of a night that was carried out: their new tables, or their changes.

ghost use Rattle.std.specs.Prelude.{◌≡◌, ◌≢◌, ℕ, None, length, map, IfOk};
ghost use Rattle.wh_maint.specs.Comp.{bag_at};
ghost use Rattle.wh_row.specs.Bag.{IsTable, difference_of};
ghost use Rattle.wh_text_catalogue.specs.Definitions.{shown_view};
ghost use Rattle.whview.specs.NightOutput.{AtDerived};

use super::difference::difference;
use std::alloc::{AllocError, Global};
use std::thread::Threads;
use wh_load::WrittenView;
use wh_row::Bag;
use wh_threads::ThreadBudget;

/// The tables or the changes that are shown of the derived views.
#[derive(Drop)]
pub enum Shown {
    /// The new tables of the derived views.
    NewTables,
    /// The changes of the derived views: a bag for each view. What stands in the place of a base view is not shown.
    ChangesOf(Vec<Bag>),
}

/// A copy of a derived view's table; of a base view's there is none.
fn copy_of(alloc: Global, view: &WrittenView, table: &Bag) -> Result<Bag, AllocError>
    ensures { IfOk result (λ copy. (shown_view view.now).definition ≢ None → copy ≡ table.now) }
{
    if view.definition.is_none() {
        return Ok(Bag::new(alloc));
    }
    table.copy(alloc).map_err(|_| AllocError)
}

/// Makes copies of the derived views' tables, in the places of their views.
pub(crate) fn copies(
    alloc: Global,
    views: &[WrittenView],
    tables: &[Bag],
) -> Result<Vec<Bag>, AllocError>
    requires { length tables.now ≡ length views.now }
    ensures each { IfOk result (λ copies. length copies.items ≡ length views.now) }
    ensures copies { IfOk result (λ copies. AtDerived (map shown_view views.now) (λ view. bag_at copies.items view ≡ bag_at tables.now view)) }
{
    let mut copies = Vec::new(alloc);
    for place in 0..views.len() {
        let copy = copy_of(alloc, &views[place], &tables[place])?;
        copies.push(copy)?;
    }
    Ok(copies)
}

/// The change of a derived view from its old table to its new one; of a base view there is none.
fn change_of<R: Threads + Sync>(
    budget: &ThreadBudget<'_, R>,
    view: &WrittenView,
    new: &Bag,
    old: &Bag,
) -> Result<Bag, AllocError>
    requires new { IsTable new.now }
    requires old { (shown_view view.now).definition ≢ None → IsTable old.now }
    ensures { IfOk result (λ change. (shown_view view.now).definition ≢ None → change ≡ difference_of new.now old.now) }
{
    if view.definition.is_none() {
        return Ok(Bag::new(budget.alloc));
    }
    difference(budget, new, old)
}

/// Returns the changes of the derived views from their old tables to their new ones, in the places of their views.
pub(crate) fn changes<R: Threads + Sync>(
    budget: &ThreadBudget<'_, R>,
    views: &[WrittenView],
    new: &[Bag],
    old: &[Bag],
) -> Result<Vec<Bag>, AllocError>
    requires each_new { length new.now ≡ length views.now }
    requires each_old { length old.now ≡ length views.now }
    requires new { (view : ℕ) → IsTable (bag_at new.now view) }
    requires old { AtDerived (map shown_view views.now) (λ view. IsTable (bag_at old.now view)) }
    ensures each { IfOk result (λ changes. length changes.items ≡ length views.now) }
    ensures changes { IfOk result (λ changes. AtDerived (map shown_view views.now) (λ view. bag_at changes.items view ≡ difference_of (bag_at new.now view) (bag_at old.now view))) }
{
    let mut changes = Vec::new(budget.alloc);
    for place in 0..views.len() {
        let change = change_of(budget, &views[place], &new[place], &old[place])?;
        changes.push(change)?;
    }
    Ok(changes)
}
