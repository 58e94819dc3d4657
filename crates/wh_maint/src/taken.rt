//! Takes other sums in column by column, for good: a refusal may leave some of them added.

ghost use Rattle.std.specs.Prelude.{◌≡◌, ℕ, pos, ◌+ℤ◌, FitsSigned, length, OnOk, OnErr};
ghost use mir.Syntax.{w128};
ghost use Rattle.wh_row.specs.Bag.{count as count_of, sum_of, plus, HasRowsOf};
ghost use Rattle.wh_maint.specs.Comp.{bag_at, merged};
ghost use Rattle.wh_maint.specs.Refused.{SumsTogetherFit};

use std::alloc::{AllocError, Global};
use std::mem;
use wh_row::{BagFault, Sums};

/// Takes in other sums column by column; of those none are left.
pub(crate) fn take_columns_in(
    alloc: Global,
    sums: &mut [Sums],
    others: &mut [Sums],
) -> Result<(), AllocError>
    requires columns { length others.old ≡ length sums.old }
    requires fits { (j : ℕ) → SumsTogetherFit (bag_at sums.old j) (bag_at others.old j) }
    ensures columns { length sums.new ≡ length sums.old }
    ensures sums { OnOk result (sums.new ≡ merged sums.old others.old) }
{
    let Some((first, rest)) = sums.split_first_mut() else {
        return Ok(());
    };
    let Some((other, others)) = others.split_first_mut() else {
        unreachable!()
    };
    absorb(first, mem::replace(other, Sums::new(alloc)))?;
    take_columns_in(alloc, rest, others)
}

/// Takes in other sums: by no more than a move where all their rows are above these, else row by row.
fn absorb(sums: &mut Sums, others: Sums) -> Result<(), AllocError>
    requires { SumsTogetherFit sums.old others }
    ensures sum { OnOk result (sums.new ≡ sum_of sums.old others) }
    ensures memory { OnErr result (¬ (HasRowsOf sums.old others)) }
{
    match sums.put_above(others)? {
        None => Ok(()),
        Some(others) => add_each_row(sums, &others),
    }
}

/// Adds other sums row by row.
fn add_each_row(sums: &mut Sums, others: &Sums) -> Result<(), AllocError>
    requires { SumsTogetherFit sums.old others.now }
    ensures sum { OnOk result (sums.new ≡ sum_of sums.old others.now) }
    ensures memory { OnErr result (¬ (HasRowsOf sums.old others.now)) }
{
    for (row, more) in others.rows() {
        add_row(sums, row, more)?;
    }
    Ok(())
}

/// Adds to the sum of a row.
fn add_row(sums: &mut Sums, row: &[i64], more: i128) -> Result<(), AllocError>
    requires { FitsSigned w128 (count_of sums.old row.now +ℤ more) }
    ensures ok { OnOk result (sums.new ≡ plus sums.old row.now more) }
    ensures memory { OnErr result (count_of sums.old row.now ≡ pos 0) }
{
    match sums.add(row, more) {
        Ok(()) => Ok(()),
        Err(BagFault::Memory) => Err(AllocError),
        Err(BagFault::Large) => unreachable!(),
    }
}
