//! Carries a whole night out on one thread.

ghost use Rattle.std.specs.Prelude.{◌≡◌, ◌⊎◌, ◌<◌, ℕ, length, OnOk, IfOk, IfErr};
ghost use Rattle.wh_row.specs.Bag.{Bag as SignedBag};
ghost use Rattle.wh_strategy.specs.declared.expression.Expression.{Expression as Step};
ghost use Rattle.wh_strategy.specs.Rules.{IsCorrect};
ghost use Rattle.wh_maint.specs.Asked.{AreBags};
ghost use Rattle.wh_maint.specs.Comp.{bag_at};
ghost use Rattle.wh_maint.specs.Contents.{AreValues, contents};
ghost use Rattle.wh_maint.specs.Definition.{graph_of};
ghost use Rattle.wh_maint.specs.Laws.{changed};
ghost use Rattle.wh_carry.specs.CarriedOut.{IsNightCarried};
ghost use Rattle.wh_carry.specs.Carry.{tables_after};
ghost use Rattle.wh_carry.specs.Fit.{AreFitTables};
ghost use Rattle.wh_carry.specs.Kept.{kept, HaveParts, CanFinish, IsFirst};
ghost use Rattle.wh_carry.specs.Refused.{AreAllowedBelow, ArePassedBelow, IsBaseFault, IsListFault, IsNightFault};
ghost use Rattle.wh_carry.specs.Steps.{AreSteps};

use crate::report::{Carried, CarryFault, Report};
use crate::state::NightState;
use std::alloc::Global;
use wh_dag::Catalog;
use wh_formula::{RowTest, RowValue};
use wh_maint::{MaintFault, changed};
use wh_row::Bag;
use wh_strategy::{Correct, Expression};

/// Carries a night out, on copies of the tables: what any correct strategy, one-way or not, makes of them with these changes of the base
/// views. There is a table and a change for each view; the changes of derived views are not read. The strategy was judged over this
/// catalogue's shape (`is_of` tests it), and each table is fit, as the contents of a base are. The report has version 1.
///
/// First the base changes are tested, view by view: Absent, then Large. Then the expressions are carried out in their order. A derived view
/// is finished where its change is first needed, at a Comp that is from it (several by rising number) or at its Inst.
///
/// Fails with the first refusal. A Comp may be Large, then Range, and then Large where it is added to what is pending; an Inst may be
/// Large. Memory may come for the row that a base change lacks, and at any time once all base changes are allowed.
pub fn carry<F: RowTest, G: RowValue>(
    alloc: Global,
    catalog: &Catalog<F, G>,
    tables: &[Bag],
    changes: &[Bag],
    correct: &Correct,
) -> Result<Carried, CarryFault>
    requires judged { correct.now.children ≡ catalog.now.views.children }
    requires tables { AreBags catalog.now tables.now }
    requires changes { AreBags catalog.now changes.now }
    requires fit { AreFitTables catalog.now tables.now }
    ensures carried { IfOk result (λ c. IsNightCarried catalog.now correct.now.list tables.now changes.now c.tables.items c.report) }
    ensures views { IfOk result (λ c. AreValues (graph_of catalog.now) (bag_at tables.now) → (v : ℕ) → v < length catalog.now.views.children
        → bag_at c.tables.items v ≡ contents (graph_of catalog.now) (changed (bag_at tables.now) (bag_at changes.now)) v) }
    ensures refused { IfErr result (IsNightFault catalog.now correct.now.list (bag_at tables.now) (bag_at changes.now)) }
{
    if let Err(fault) = base_changes(alloc, catalog, tables, changes) {
        return Err(CarryFault {
            fault,
            started: false,
        });
    }
    let Ok(mut state) = NightState::new(alloc, catalog, tables, changes) else {
        return Err(CarryFault {
            fault: MaintFault::Memory,
            started: false,
        });
    };
    match carry_out(alloc, catalog, correct.strategy().as_slice(), &mut state) {
        Ok(steps) => Ok(Carried {
            tables: state.into_tables(),
            report: Report { version: 1, steps },
        }),
        Err(fault) => Err(CarryFault {
            fault,
            started: true,
        }),
    }
}

/// Tests the change of each base view, by rising number. There is a table and a change for each view.
/// Fails with Absent, which names the first row that a change takes below zero, then with Large where a count leaves i64. Memory is wanted
/// for the named row alone.
/// Takes O(m w log n) time for m changed rows in all, of w cells, and tables of at most n rows, beside a look at each view.
pub fn base_changes<F: RowTest, G: RowValue>(
    alloc: Global,
    catalog: &Catalog<F, G>,
    tables: &[Bag],
    changes: &[Bag],
) -> Result<(), MaintFault>
    requires tables { AreBags catalog.now tables.now }
    requires changes { AreBags catalog.now changes.now }
    ensures allowed { OnOk result (AreAllowedBelow catalog.now (bag_at tables.now) (bag_at changes.now) (length catalog.now.views.children)) }
    ensures refused { IfErr result (IsBaseFault catalog.now (bag_at tables.now) (bag_at changes.now)) }
{
    for view in 0..catalog.shape().len() {
        if catalog.is_base(view) {
            changed(alloc, view, &tables[view], &changes[view])?;
        }
    }
    Ok(())
}

fn carry_out<F: RowTest, G: RowValue>(
    alloc: Global,
    catalog: &Catalog<F, G>,
    list: &[Expression],
    state: &mut NightState,
) -> Result<Vec<(Expression, u128)>, MaintFault>
    requires correct { IsCorrect catalog.now.views.children list.now }
    requires parts { HaveParts catalog.now state.old }
    requires fit { CanFinish catalog.now (kept state.old) }
    ensures parts { OnOk result (HaveParts catalog.now state.new) }
    ensures tables { OnOk result ((old changes : ℕ → SignedBag) → IsFirst catalog.now old changes (kept state.old)
        → (v : ℕ) → bag_at state.new.tables v ≡ tables_after (graph_of catalog.now) changes list.now old v) }
    ensures steps { IfOk result (λ steps. (old changes : ℕ → SignedBag) → IsFirst catalog.now old changes (kept state.old)
        → AreSteps catalog.now.views.children list.now old (tables_after (graph_of catalog.now) changes list.now old) steps.items) }
    ensures passed { OnOk result ((old changes : ℕ → SignedBag) → IsFirst catalog.now old changes (kept state.old)
        → ArePassedBelow catalog.now list.now old changes (length list.now)) }
    ensures refused { IfErr result (λ fault. (old changes : ℕ → SignedBag) → IsFirst catalog.now old changes (kept state.old)
        → (fault ≡ MaintFault.Memory) ⊎ IsListFault catalog.now list.now old changes fault) }
{
    let mut steps = Vec::new(alloc);
    for place in 0..list.len() {
        let rows = state.step(alloc, catalog, &list[place])?;
        let Ok(expression) = list[place].copy(alloc) else {
            return Err(MaintFault::Memory);
        };
        let Ok(()) = steps.push((expression, rows)) else {
            return Err(MaintFault::Memory);
        };
    }
    Ok(steps)
}
