//! Evaluates views that do not wait for each other side by side.
//!
//! A view's driving rows are cut for several threads, but what those make is put together by one. Of a run of views, none of which is over
//! another, each is evaluated by a thread alone, and the answers stand in the order of the views.

ghost use Rattle.std.specs.Prelude.{◌≡◌, ◌-◌, ◌<◌, ◌≤◌, ℕ, true, length, All, IfOk, IsTrue};
ghost use Rattle.std.specs.List.{AllZip, range_with_len};
ghost use Rattle.wh_dag.specs.Shape.{has};
ghost use Rattle.wh_row.specs.Bag.{Bag as SignedBag};
ghost use Rattle.wh_maint.specs.Asked.{AreBags};
ghost use Rattle.wh_maint.specs.Comp.{bag_at};
ghost use Rattle.wh_maint.specs.Contents.{contents};
ghost use Rattle.wh_maint.specs.Definition.{graph_of};
ghost use Rattle.wh_maint.specs.Inner.Opening.{AreOpenedTo, IsAnswerOf, AreAnswersFrom, CanBeAsked, IsRun};

use crate::evaluated::evaluate;
use crate::fault::MaintFault;
use std::alloc::{AllocError, Global};
use std::thread::Threads;
use wh_dag::Catalog;
use wh_formula::{RowTest, RowValue};
use wh_row::Bag;
use wh_threads::{ThreadBudget, Work};

/// Returns what the views of the run from this one on are evaluated to, in their order: a thread evaluates each. There is nothing where the
/// view goes alone, nor where there is no memory for the list.
pub(crate) fn answers_from<R: Threads + Sync, F: RowTest, G: RowValue>(
    budget: &ThreadBudget<'_, R>,
    catalog: &Catalog<F, G>,
    first: usize,
    tables: &[Bag],
) -> Vec<Result<Bag, MaintFault>>
    requires view { first < length catalog.now.views.children }
    requires bags { AreBags catalog.now tables.now }
    ensures { (base : ℕ → SignedBag) → AreOpenedTo (graph_of catalog.now) base first (bag_at tables.now)
        → AreAnswersFrom catalog.now (contents (graph_of catalog.now) base) first result.items }
{
    let end = end_of_run(budget.threads, catalog, first);
    if end - first < 2 || !is_even_run(budget, catalog, first, end, tables) {
        return Vec::new(budget.alloc);
    }
    let Ok(answers) = evaluate_run(budget, catalog, first, end, tables) else {
        return Vec::new(budget.alloc);
    };
    answers
}

/// Where the run from this view on ends: before the first view that is over one of the run, and after as many views as there are
/// threads.
fn end_of_run<F: RowTest, G: RowValue>(
    threads: usize,
    catalog: &Catalog<F, G>,
    first: usize,
) -> usize
    requires view { first < length catalog.now.views.children }
    ensures run { IsRun catalog.now first result }
    ensures some { first < result }
{
    let shape = catalog.shape();
    for view in first + 1..shape.len() {
        if view - first >= threads || !are_below(shape.children(view), first) {
            return view;
        }
    }
    shape.len()
}

/// Whether the views of a run are worth a thread each: there are rows for two threads, and no view has more than half of them, which all
/// threads together would sooner be done with.
fn is_even_run<R: Threads + Sync, F: RowTest, G: RowValue>(
    budget: &ThreadBudget<'_, R>,
    catalog: &Catalog<F, G>,
    first: usize,
    end: usize,
    tables: &[Bag],
) -> bool
    requires { end ≤ length catalog.now.views.children }
{
    let mut all: usize = 0;
    let mut most = 0;
    for view in first..end {
        let rows = driving_rows(catalog.shape().children(view), tables);
        all = all.saturating_add(rows);
        most = rows.max(most);
    }
    budget.parts(Work::DrivingRows, all) > 1 && most <= all / 2
}

/// How many rows the largest of these views' tables has.
fn driving_rows(views: &[usize], tables: &[Bag]) -> usize {
    let mut most = 0;
    for view in views {
        if let Some(table) = tables.get(*view) {
            most = table.len().max(most);
        }
    }
    most
}

/// Whether all these views have numbers below this one.
fn are_below(views: &[usize], end: usize) -> bool
    ensures { IsTrue result → (view : ℕ) → has views.now view ≡ true → view < end }
{
    match views {
        [] => true,
        [view, rest @ ..] => *view < end && are_below(rest, end),
    }
}

/// What each view of the run is evaluated to, in their order.
fn evaluate_run<R: Threads + Sync, F: RowTest, G: RowValue>(
    budget: &ThreadBudget<'_, R>,
    catalog: &Catalog<F, G>,
    first: usize,
    end: usize,
    tables: &[Bag],
) -> Result<Vec<Result<Bag, MaintFault>>, AllocError>
    requires first { first ≤ end }
    requires end { end ≤ length catalog.now.views.children }
    requires bags { AreBags catalog.now tables.now }
    ensures { IfOk result (λ answers. AllZip (IsAnswerOf catalog.now (bag_at tables.now)) (range_with_len first (end - first)) answers.items) }
{
    let views: Vec<usize> = (first..end).collect(budget.alloc)?;
    evaluate_each(budget, catalog, views.as_slice(), tables)
}

/// What each of these views is evaluated to, a thread to each.
fn evaluate_each<R: Threads + Sync, F: RowTest, G: RowValue>(
    budget: &ThreadBudget<'_, R>,
    catalog: &Catalog<F, G>,
    views: &[usize],
    tables: &[Bag],
) -> Result<Vec<Result<Bag, MaintFault>>, AllocError>
    requires asked { All (CanBeAsked catalog.now tables.now) views.now }
    ensures { IfOk result (λ answers. AllZip (IsAnswerOf catalog.now (bag_at tables.now)) views.now answers.items) }
{
    let alloc = budget.alloc;
    budget.each(
        views,
        move |view: &usize| -> Result<Bag, MaintFault>
            requires { CanBeAsked catalog.now tables.now view.now }
            ensures { IsAnswerOf catalog.entry.now (bag_at tables.entry.now) view.now result }
        { evaluate_alone(alloc, catalog, *view, tables) },
    )
}

/// What a view is evaluated to by one thread; a base view to no rows.
fn evaluate_alone<F: RowTest, G: RowValue>(
    alloc: Global,
    catalog: &Catalog<F, G>,
    view: usize,
    tables: &[Bag],
) -> Result<Bag, MaintFault>
    requires { CanBeAsked catalog.now tables.now view }
    ensures { IsAnswerOf catalog.now (bag_at tables.now) view result }
{
    if catalog.is_base(view) {
        return Ok(Bag::new(alloc));
    }
    evaluate(alloc, catalog, view, tables)
}
