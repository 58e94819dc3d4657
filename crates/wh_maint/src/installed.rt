//! Adds a change to a table.

ghost use Rattle.std.specs.Prelude.{◌≡◌, OnOk, IfOk, IfErr};
ghost use Rattle.wh_row.specs.Bag.{empty, sum_of, SumFits};
ghost use Rattle.wh_maint.specs.Refused.{IsInstallFault};

use crate::fault::MaintFault;
use std::alloc::Global;
use wh_row::{Bag, BagFault};

/// Returns the table with the change added: the sum of the bags.
/// Fails with Large where a count leaves i64. Memory comes after it, and only where one of the two has rows.
/// Takes O(n w + m w log(n + m)) time for n rows of w cells and m of the change.
pub fn install(alloc: Global, view: usize, table: &Bag, delta: &Bag) -> Result<Bag, MaintFault>
    ensures sum { IfOk result (λ new. new ≡ sum_of table.now delta.now) }
    ensures fits { OnOk result (SumFits table.now delta.now) }

    // Large comes before Memory, and Memory only where one of them has a row.
    ensures refused { IfErr result (IsInstallFault view table.now delta.now) }
    ensures memory { result ≡ Err MaintFault.Memory → ¬ ((table.now ≡ empty) × (delta.now ≡ empty)) }
{
    if !table.sums_fit(delta) {
        return Err(MaintFault::Large(view));
    }
    let Ok(mut new) = table.copy(alloc) else {
        return Err(MaintFault::Memory);
    };
    match new.merge(delta) {
        Ok(()) => Ok(new),
        Err(BagFault::Memory) => Err(MaintFault::Memory),
        Err(BagFault::Large) => unreachable!(),
    }
}
