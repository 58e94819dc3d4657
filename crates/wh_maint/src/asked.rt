//! Tests whether bags, sources and tables are what the calls over a catalogue ask for.

ghost use Rattle.std.specs.Prelude.{◌≡◌, ◌↔◌, ◌<◌, length, IsTrue, IfOk, OnErr, false};
ghost use Rattle.wh_dag.specs.Shape.{children_of};
ghost use Rattle.wh_dag.specs.Catalog.{is_base};
ghost use Rattle.wh_maint.specs.View.{Summed};
ghost use Rattle.wh_maint.specs.Asked.{AreBags, AreSources};
ghost use Rattle.wh_maint.specs.Inner.Asked.{are_among, are_distinct};
ghost use Rattle.wh_maint.specs.Fit.{IsFitTable, HasGroups};
ghost use Rattle.wh_maint.specs.Inner.Fit.{IsSummaryRow};
ghost use Rattle.wh_maint.specs.Finishing.{kind_in, IsPendingFor};

use crate::combined::sums_in;
use crate::group_change::{group_in, note, old_cell};
use crate::pending::Pending;
use std::alloc::{AllocError, Global};
use wh_dag::{Catalog, Output, has_view};
use wh_formula::{RowTest, RowValue};
use wh_row::Bag;

/// Tells whether there is a bag for each view of the catalogue, with rows of that view's width.
pub fn are_bags<F: RowTest, G: RowValue>(catalog: &Catalog<F, G>, bags: &[Bag]) -> bool
    ensures { IsTrue result ↔ AreBags catalog.now bags.now }
{
    if bags.len() != catalog.shape().len() {
        return false;
    }
    for view in 0..bags.len() {
        if !bags[view].has_width(catalog.width(view)) {
            return false;
        }
    }
    true
}

/// Tells whether a Comp of the view may have these sources: some of its children, none twice.
pub fn are_sources<F: RowTest, G: RowValue>(
    catalog: &Catalog<F, G>,
    view: usize,
    sources: &[usize],
) -> bool
    requires { view < length catalog.now.views.children }
    ensures { IsTrue result ↔ AreSources (children_of catalog.now.views.children view) sources.now }
{
    if sources.is_empty() {
        return false;
    }
    are_distinct(sources) && are_among(sources, catalog.shape().children(view))
}

/// Whether each of these views is among the others.
fn are_among(views: &[usize], others: &[usize]) -> bool
    ensures { result ≡ are_among views.now others.now }
{
    match views {
        [] => true,
        [view, rest @ ..] => has_view(others, *view) && are_among(rest, others),
    }
}

/// Whether no view stands twice in the list.
fn are_distinct(views: &[usize]) -> bool
    ensures { result ≡ are_distinct views.now }
{
    match views {
        [] => true,
        [view, rest @ ..] => !has_view(rest, *view) && are_distinct(rest),
    }
}

/// Tells whether a derived view's table is fit: no count is negative. In a summary, each row also stands once, alone of its group, with a
/// positive count of the group.
/// Fails for want of memory, and only for the groups of a summary with rows.
/// Takes O(1) time for a joined view, and O(n w log n) for a summary of n rows of w cells.
pub fn is_fit<F: RowTest, G: RowValue>(
    alloc: Global,
    catalog: &Catalog<F, G>,
    view: usize,
    table: &Bag,
) -> Result<bool, AllocError>
    requires view { view < length catalog.now.views.children }
    requires derived { is_base catalog.now view ≡ false }
    ensures fit { IfOk result (λ fit. IsTrue fit ↔ IsFitTable (kind_in catalog.now view) table.now) }
    ensures memory { OnErr result (HasGroups (kind_in catalog.now view) table.now) }
{
    match catalog.derived(view).output() {
        Output::Keep(_) => Ok(table.is_table()),
        Output::Sums { group: _, sums } => is_summary_table(alloc, sums.len(), table),
    }
}

/// Whether each row is a summary's, with so many sums, alone of its group.
fn is_summary_table(alloc: Global, sums: usize, table: &Bag) -> Result<bool, AllocError>
    ensures fit { IfOk result (λ fit. IsTrue fit ↔ IsFitTable (Summed sums) table.now) }
    ensures memory { OnErr result (HasGroups (Summed sums) table.now) }
{
    let mut seen = Bag::new(alloc);
    for (row, count) in table.rows() {
        if !is_summary_row(sums, row, count) {
            return Ok(false);
        }
        let group = group_in(row, sums);
        if seen.count(group) != 0 {
            return Ok(false);
        }
        let Ok(()) = note(&mut seen, group) else {
            return Err(AllocError);
        };
    }
    Ok(true)
}

/// Whether this is a row of a summary.
fn is_summary_row(sums: usize, row: &[i64], count: i64) -> bool
    ensures { IsTrue result ↔ IsSummaryRow sums row.now count }
{
    sums < row.len() && count == 1 && old_cell(sums, Some(row), 0) >= 1
}

impl Pending {
    /// Tells whether what is pending belongs to this derived view and has the view's number of sums.
    pub fn is_for<F: RowTest, G: RowValue>(&self, catalog: &Catalog<F, G>, view: usize) -> bool
        requires view { view < length catalog.now.views.children }
        requires derived { is_base catalog.now view ≡ false }
        ensures { IsTrue result ↔ IsPendingFor catalog.now view self.now }
    {
        self.view() == view && self.sums() == sums_in(catalog.derived(view).output())
    }
}
