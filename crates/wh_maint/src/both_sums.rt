//! Adds the columns of two Comps together, in place.
//!
//! In each column the rows that are new get their sums first, since they alone take memory. Where memory is refused, or a later column
//! refuses, they go again. Once nothing can be refused any more, the sums of all other rows are added.

ghost use Rattle.std.specs.Prelude.{◌≡◌, ◌≢◌, ◌↔◌, ◌∷◌, ℤ, pos, ◌+ℤ◌, List, FitsSigned, length, IsTrue, IfOk, OnOk, OnErr};
ghost use mir.Syntax.{w128};
ghost use Rattle.wh_row.specs.Bag.{empty, sum_of, plus, count as count_of, HasRowsOf};
ghost use Rattle.wh_maint.specs.Comp.{merged};
ghost use Rattle.wh_maint.specs.Refused.{SumsTogetherFit, MergedFit, BringsNothing};
ghost use Rattle.wh_maint.specs.Inner.NewSums.{AreNewRows};

use crate::column::{add_new, add_others, fit, new_rows, take_back};
use std::alloc::Global;
use wh_row::{Bag, BagFault, Sums};

/// Adds other sums column by column, and other counts. A refusal changes nothing.
pub(crate) fn add_columns(
    alloc: Global,
    counts: &mut Bag,
    sums: &mut [Sums],
    more: &Bag,
    others: &[Sums],
) -> Result<(), BagFault>
    requires { length others.now ≡ length sums.old }
    ensures counts { OnOk result (counts.new ≡ sum_of counts.old more.now) }
    ensures sums { OnOk result (sums.new ≡ merged sums.old others.now) }
    ensures fits { OnOk result (MergedFit (counts.old ∷ sums.old) (more.now ∷ others.now)) }
    ensures large { result ≡ Err BagFault.Large → ¬ (MergedFit (counts.old ∷ sums.old) (more.now ∷ others.now)) }
    ensures memory { result ≡ Err BagFault.Memory → ¬ (BringsNothing (counts.old ∷ sums.old) (more.now ∷ others.now)) }
    ensures counts_err { OnErr result (counts.new ≡ counts.old) }
    ensures sums_err { OnErr result (sums.new ≡ sums.old) }
{
    let Some((other, others)) = others.split_first() else {
        return counts.merge(more);
    };
    let Some((first, rest)) = sums.split_first_mut() else {
        unreachable!()
    };
    if !fit(first, other) {
        return Err(BagFault::Large);
    }
    let new = new_rows(alloc, first, other)?;
    add_new(first, &new)?;
    if let Err(fault) = add_columns(alloc, counts, rest, more, others) {
        take_back(first, &new);
        return Err(fault);
    }
    add_others(first, other, &new);
    Ok(())
}
