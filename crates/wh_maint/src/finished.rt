//! Makes the change of a view, once its Comps are done.

ghost use Rattle.std.specs.Prelude.{◌≡◌, ℕ, suc, ◌<◌, length, IsTrue, ◌↔◌, IfOk, OnOk, IfErr, false};
ghost use Rattle.wh_row.specs.Bag.{empty};
ghost use Rattle.wh_dag.specs.Catalog.{is_base};
ghost use Rattle.wh_maint.specs.View.{Summed};
ghost use Rattle.wh_maint.specs.Comp.{bag_at, AreEmpty};
ghost use Rattle.wh_maint.specs.Summary.{summary_change, change_of};
ghost use Rattle.wh_maint.specs.Value.{NewCountsFit, ChangeHasValue};
ghost use Rattle.wh_maint.specs.Fit.{IsFitTable, IsSummaryTable};
ghost use Rattle.wh_maint.specs.Refused.{IsFinishFault};
ghost use Rattle.wh_maint.specs.Finishing.{kind_in, IsPendingFor};
ghost use Rattle.wh_maint.specs.Inner.Finishing.{CountsFitIn, stands_within, AreMade};

use crate::fault::{MaintFault, RowFault};
use crate::group_change::{add_group, count_fits};
use crate::pending::Pending;
use std::alloc::Global;
use wh_dag::{Catalog, Output};
use wh_formula::{RowTest, RowValue};
use wh_row::Bag;

/// Makes the net change of a derived view from what is pending: of a joined view, the pending rows. Of a summary it is, for each group that
/// stands in the pending accumulators, its new row less its old one. A group whose count becomes 0 has no new row, and one whose sums are 0
/// has one.
/// Fails with Large where the new count of such a group leaves i64. Then it fails with Range where a new sum of one does. Memory is refused
/// only where something is pending.
/// Takes O(m w) time for a joined view of m pending rows of w cells.
pub fn finish<F: RowTest, G: RowValue>(
    alloc: Global,
    catalog: &Catalog<F, G>,
    view: usize,
    pending: &Pending,
    table: &Bag,
) -> Result<Bag, MaintFault>
    requires view { view < length catalog.now.views.children }
    requires derived { is_base catalog.now view ≡ false }
    requires pending { IsPendingFor catalog.now view pending.now }
    requires fit { IsFitTable (kind_in catalog.now view) table.now }
    ensures change { IfOk result (λ change. change ≡ change_of (kind_in catalog.now view) table.now (bag_at pending.now.columns)) }
    ensures counts { OnOk result (NewCountsFit (kind_in catalog.now view) table.now (bag_at pending.now.columns)) }
    ensures sums { OnOk result (ChangeHasValue (kind_in catalog.now view) table.now (bag_at pending.now.columns)) }

    // Large comes before Range and Memory, and Memory only where something is pending.
    ensures refused { IfErr result (IsFinishFault view (kind_in catalog.now view) table.now (bag_at pending.now.columns)) }
    ensures memory { result ≡ Err MaintFault.Memory → ¬ (AreEmpty pending.now.columns) }
{
    match catalog.derived(view).output() {
        Output::Keep(_) => match pending.counts().copy(alloc) {
            Ok(change) => Ok(change),
            Err(_) => Err(MaintFault::Memory),
        },
        Output::Sums { group: _, sums } => {
            if !new_counts_fit(pending, sums.len(), table) {
                return Err(MaintFault::Large(view));
            }
            match summary_change(pending, sums.len(), table) {
                Ok(change) => Ok(change),
                Err(fault) => Err(fault.of(view)),
            }
        }
    }
}

/// Whether each touched group's new count fits i64. Where the table has no rows, no group is looked at: the new counts are those that
/// are pending.
fn new_counts_fit(pending: &Pending, sums: usize, table: &Bag) -> bool
    requires columns { length pending.now.columns ≡ suc sums }
    requires fit { IsSummaryTable sums table.now }
    ensures { IsTrue result ↔ NewCountsFit (Summed sums) table.now (bag_at pending.now.columns) }
{
    if table.is_empty() {
        pending.counts().counts_fit();
        return true;
    }
    if !counted_fit(pending, sums, table) {
        return false;
    }
    for number in 0..sums {
        if !summed_fit(pending, sums, table, number) {
            return false;
        }
    }
    true
}

/// Whether the new count of each group of the pending counts fits i64.
fn counted_fit(pending: &Pending, sums: usize, table: &Bag) -> bool
    requires columns { length pending.now.columns ≡ suc sums }
    requires fit { IsSummaryTable sums table.now }
    ensures { IsTrue result ↔ CountsFitIn sums table.now (bag_at pending.now.columns) 0 }
{
    for (group, _) in pending.counts().rows() {
        if !count_fits(pending, sums, table, group) {
            return false;
        }
    }
    true
}

/// Whether that of each group of a pending sum does. A group without a pending count keeps its count, which is read for the proof: of a
/// cell that is not read nothing says that it is an i64.
fn summed_fit(pending: &Pending, sums: usize, table: &Bag, number: usize) -> bool
    requires columns { length pending.now.columns ≡ suc sums }
    requires fit { IsSummaryTable sums table.now }
    requires number { number < sums }
    requires counted { CountsFitIn sums table.now (bag_at pending.now.columns) 0 }
    ensures { IsTrue result ↔ CountsFitIn sums table.now (bag_at pending.now.columns) (suc number) }
{
    for (group, _) in pending.sum_rows(number) {
        if pending.count(group) == 0 && !count_fits(pending, sums, table, group) {
            return false;
        }
    }
    true
}

/// Returns the change of a summary whose touched groups' new counts fit i64. A group is dealt with at the first column of the pending
/// accumulators that has it.
pub(crate) fn summary_change(pending: &Pending, sums: usize, table: &Bag) -> Result<Bag, RowFault>
    requires columns { length pending.now.columns ≡ suc sums }
    requires fit { IsSummaryTable sums table.now }
    requires counts { NewCountsFit (Summed sums) table.now (bag_at pending.now.columns) }
    ensures change { IfOk result (λ change. change ≡ summary_change sums table.now (bag_at pending.now.columns)) }
    ensures sums { OnOk result (ChangeHasValue (Summed sums) table.now (bag_at pending.now.columns)) }
    ensures range { result ≡ Err RowFault.Range → ¬ (ChangeHasValue (Summed sums) table.now (bag_at pending.now.columns)) }
    ensures memory { result ≡ Err RowFault.Memory → ¬ (AreEmpty pending.now.columns) }
{
    let mut change = Bag::new(pending.alloc());
    add_counted(pending, sums, table, &mut change)?;
    for number in 0..sums {
        add_summed(pending, sums, table, number, &mut change)?;
    }
    Ok(change)
}

/// Adds the changes of the groups of the pending counts.
fn add_counted(
    pending: &Pending,
    sums: usize,
    table: &Bag,
    change: &mut Bag,
) -> Result<(), RowFault>
    requires columns { length pending.now.columns ≡ suc sums }
    requires fit { IsSummaryTable sums table.now }
    requires counts { NewCountsFit (Summed sums) table.now (bag_at pending.now.columns) }
    requires none { change.old ≡ empty }
    ensures made { OnOk result (AreMade sums table.now (bag_at pending.now.columns) (stands_within 1 (bag_at pending.now.columns)) change.new) }
    ensures range { result ≡ Err RowFault.Range → ¬ (ChangeHasValue (Summed sums) table.now (bag_at pending.now.columns)) }
    ensures memory { result ≡ Err RowFault.Memory → ¬ (AreEmpty pending.now.columns) }
{
    for (group, _) in pending.counts().rows() {
        add_group(pending, sums, table, 0, group, change)?;
    }
    Ok(())
}

/// Adds the changes of the groups of a pending sum, where those of the columns before it have been added.
fn add_summed(
    pending: &Pending,
    sums: usize,
    table: &Bag,
    number: usize,
    change: &mut Bag,
) -> Result<(), RowFault>
    requires columns { length pending.now.columns ≡ suc sums }
    requires fit { IsSummaryTable sums table.now }
    requires counts { NewCountsFit (Summed sums) table.now (bag_at pending.now.columns) }
    requires number { number < sums }
    requires made { AreMade sums table.now (bag_at pending.now.columns) (stands_within (suc number) (bag_at pending.now.columns)) change.old }
    ensures made { OnOk result (AreMade sums table.now (bag_at pending.now.columns) (stands_within (suc (suc number)) (bag_at pending.now.columns)) change.new) }
    ensures range { result ≡ Err RowFault.Range → ¬ (ChangeHasValue (Summed sums) table.now (bag_at pending.now.columns)) }
    ensures memory { result ≡ Err RowFault.Memory → ¬ (AreEmpty pending.now.columns) }
{
    for (group, _) in pending.sum_rows(number) {
        add_group(pending, sums, table, number + 1, group, change)?;
    }
    Ok(())
}
