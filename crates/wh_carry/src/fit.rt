//! Tests whether tables are fit for a night.

ghost use Rattle.std.specs.Prelude.{◌↔◌, ◌<◌, length, IsTrue, IfOk, OnErr};
ghost use Rattle.wh_maint.specs.Asked.{AreBags};
ghost use Rattle.wh_maint.specs.Finishing.{kind_in};
ghost use Rattle.wh_maint.specs.Fit.{IsFitTable, HasGroups};
ghost use Rattle.wh_carry.specs.Fit.{AreFitTables, OneHasGroups};

use std::alloc::{AllocError, Global};
use wh_dag::Catalog;
use wh_formula::{RowTest, RowValue};
use wh_maint::is_fit;
use wh_row::Bag;

/// Tells whether each view's table is fit, as a night asks for.
/// Fails for want of memory, and only for the groups of summaries.
/// Takes O(n w log n) time for n rows of summaries, of w cells, beside a look at each other view.
pub fn are_fit<F: RowTest, G: RowValue>(
    alloc: Global,
    catalog: &Catalog<F, G>,
    tables: &[Bag],
) -> Result<bool, AllocError>
    requires { AreBags catalog.now tables.now }
    ensures fit { IfOk result (λ fit. IsTrue fit ↔ AreFitTables catalog.now tables.now) }
    ensures memory { OnErr result (OneHasGroups catalog.now tables.now) }
{
    for view in 0..catalog.shape().len() {
        if !is_fit_view(alloc, catalog, view, &tables[view])? {
            return Ok(false);
        }
    }
    Ok(true)
}

fn is_fit_view<F: RowTest, G: RowValue>(
    alloc: Global,
    catalog: &Catalog<F, G>,
    view: usize,
    table: &Bag,
) -> Result<bool, AllocError>
    requires { view < length catalog.now.views.children }
    ensures fit { IfOk result (λ fit. IsTrue fit ↔ IsFitTable (kind_in catalog.now view) table.now) }
    ensures memory { OnErr result (HasGroups (kind_in catalog.now view) table.now) }
{
    let _shape = catalog.shape();
    if catalog.is_base(view) {
        return Ok(table.is_table());
    }
    is_fit(alloc, catalog, view, table)
}
