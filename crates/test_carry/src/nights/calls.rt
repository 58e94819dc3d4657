// Each call, once what it asks for was tested.
ghost use Rattle.std.specs.Prelude.{◌≡◌};

use std::alloc::{AllocError, Global};
use std::process::Abort;
use std::thread::Threads;
use wh_dag::Catalog;
use wh_formula::{RowTest, RowValue};
use wh_maint::{
    MaintFault, Pending, Wants, are_bags, are_sources, comp, comp_wide, evaluate, evaluate_wide,
    finish, is_fit, opening_contents, operand_rows,
};
use wh_row::Bag;
use wh_threads::ThreadBudget;

/// What the Comp of this view from these answers.
pub(crate) fn comp_of<F: RowTest, G: RowValue>(
    rt: &impl Abort,
    alloc: Global,
    catalog: &Catalog<F, G>,
    (view, sources): (usize, &[usize]),
    tables: &[Bag],
    changes: &[Bag],
) -> Result<Pending, MaintFault> {
    assert!(rt; view < catalog.shape().len());
    assert!(rt; !catalog.is_base(view));
    assert!(rt; are_sources(catalog, view, sources));
    assert!(rt; are_bags(catalog, tables));
    assert!(rt; are_bags(catalog, changes));
    comp(alloc, catalog, view, sources, tables, changes)
}

/// A Comp: of which view, from which sources, over which tables, and by which changes.
#[derive(Clone, Copy)]
pub(crate) struct Asked<'a> {
    pub(crate) view: usize,
    pub(crate) sources: &'a [usize],
    pub(crate) tables: &'a [Bag],
    pub(crate) changes: &'a [Bag],
}

/// Notes what a Comp misses.
pub(crate) fn note<F: RowTest, G: RowValue>(
    rt: &impl Abort,
    wants: &mut Wants,
    catalog: &Catalog<F, G>,
    asked: &Asked<'_>,
) -> Result<(), AllocError> {
    let Asked {
        view,
        sources,
        tables,
        changes,
    } = *asked;
    assert!(rt; view < catalog.shape().len());
    assert!(rt; !catalog.is_base(view));
    assert!(rt; are_sources(catalog, view, sources));
    assert!(rt; are_bags(catalog, tables));
    assert!(rt; are_bags(catalog, changes));
    wants.note(catalog, view, sources, tables, changes)
}

/// How many rows a Comp's operands have.
pub(crate) fn rows_of<F: RowTest, G: RowValue>(
    rt: &impl Abort,
    catalog: &Catalog<F, G>,
    view: usize,
    sources: &[usize],
    tables: &[Bag],
    changes: &[Bag],
) -> u128 {
    assert!(rt; view < catalog.shape().len());
    assert!(rt; !catalog.is_base(view));
    assert!(rt; are_sources(catalog, view, sources));
    assert!(rt; are_bags(catalog, tables));
    assert!(rt; are_bags(catalog, changes));
    operand_rows(catalog, view, sources, tables, changes)
}

/// The value of a view.
pub(crate) fn value_of<F: RowTest, G: RowValue>(
    rt: &impl Abort,
    alloc: Global,
    catalog: &Catalog<F, G>,
    view: usize,
    tables: &[Bag],
) -> Result<Bag, MaintFault> {
    assert!(rt; view < catalog.shape().len());
    assert!(rt; !catalog.is_base(view));
    assert!(rt; are_bags(catalog, tables));
    evaluate(alloc, catalog, view, tables)
}

/// What so many threads answer to a Comp.
pub(crate) fn comp_of_threads<R: Threads + Abort + Sync, F: RowTest, G: RowValue>(
    rt: &R,
    threads: usize,
    alloc: Global,
    catalog: &Catalog<F, G>,
    asked: &Asked<'_>,
) -> Result<Pending, MaintFault> {
    let Asked {
        view,
        sources,
        tables,
        changes,
    } = *asked;
    assert!(rt; view < catalog.shape().len());
    assert!(rt; !catalog.is_base(view));
    assert!(rt; are_sources(catalog, view, sources));
    assert!(rt; are_bags(catalog, tables));
    assert!(rt; are_bags(catalog, changes));
    let budget = ThreadBudget { rt, alloc, threads };
    comp_wide(&budget, catalog, view, sources, tables, changes)
}

/// The value of a view, by so many threads.
pub(crate) fn value_of_threads<R: Threads + Abort + Sync, F: RowTest, G: RowValue>(
    rt: &R,
    threads: usize,
    alloc: Global,
    catalog: &Catalog<F, G>,
    view: usize,
    tables: &[Bag],
) -> Result<Bag, MaintFault> {
    assert!(rt; view < catalog.shape().len());
    assert!(rt; !catalog.is_base(view));
    assert!(rt; are_bags(catalog, tables));
    let budget = ThreadBudget { rt, alloc, threads };
    evaluate_wide(&budget, catalog, view, tables)
}

/// The contents of a base.
pub(crate) fn contents_of<R: Threads + Abort + Sync, F: RowTest, G: RowValue>(
    rt: &R,
    alloc: Global,
    catalog: &Catalog<F, G>,
    base: Vec<Bag>,
) -> Result<Vec<Bag>, MaintFault> {
    contents_of_threads(rt, 1, alloc, catalog, base)
}

/// The contents of a base, by so many threads.
pub(crate) fn contents_of_threads<R: Threads + Abort + Sync, F: RowTest, G: RowValue>(
    rt: &R,
    threads: usize,
    alloc: Global,
    catalog: &Catalog<F, G>,
    base: Vec<Bag>,
) -> Result<Vec<Bag>, MaintFault> {
    assert!(rt; are_bags(catalog, &base));
    let budget = ThreadBudget { rt, alloc, threads };
    opening_contents(&budget, catalog, base)
}

/// The change of a view; its table is fit.
pub(crate) fn change_of<F: RowTest, G: RowValue>(
    rt: &impl Abort,
    alloc: Global,
    catalog: &Catalog<F, G>,
    view: usize,
    pending: &Pending,
    table: &Bag,
) -> Result<Bag, MaintFault> {
    assert!(rt; view < catalog.shape().len());
    assert!(rt; !catalog.is_base(view));
    assert!(rt; pending.is_for(catalog, view));
    let Ok(fit) = is_fit(alloc, catalog, view, table) else {
        return Err(MaintFault::Memory);
    };
    assert!(rt; fit);
    finish(alloc, catalog, view, pending, table)
}

/// Adds what another Comp of the view adds.
pub(crate) fn merge_into(
    rt: &impl Abort,
    pending: &mut Pending,
    other: &Pending,
) -> Result<(), MaintFault> {
    assert!(rt; other.view() == pending.view());
    assert!(rt; other.sums() == pending.sums());
    pending.merge(other)
}
