//! Adds other sums to those of one column, in two steps: at rows that are new, and at all others.

ghost use Rattle.std.specs.Prelude.{◌≡◌, ◌≢◌, ◌↔◌, ℤ, pos, ◌+ℤ◌, List, cond, FitsSigned, IsTrue, IfOk, OnOk, OnErr};
ghost use mir.Syntax.{w128};
ghost use Rattle.wh_row.specs.Row.{is_row};
ghost use Rattle.wh_row.specs.Bag.{empty, plus, count as count_of, HasRowsOf};
ghost use Rattle.wh_maint.specs.Refused.{SumsTogetherFit};
ghost use Rattle.wh_maint.specs.Inner.NewSums.{AreNewRows};

use std::alloc::{AllocError, Global};
use wh_row::{BagFault, Sums};

/// Tells whether the sums of both together are an i128 at each row.
pub(crate) fn fit(sums: &Sums, others: &Sums) -> bool
    ensures { IsTrue result ↔ SumsTogetherFit sums.now others.now }
{
    sums.sums_fit();
    for (row, more) in others.rows() {
        if !can_add(sums, row, more) {
            return false;
        }
    }
    true
}

/// Whether the sum at a row and this one together are an i128.
fn can_add(sums: &Sums, row: &[i64], more: i128) -> bool
    ensures { IsTrue result ↔ FitsSigned w128 (count_of sums.now row.now +ℤ more) }
{
    sums.sum(row).checked_add(more).is_some()
}

/// Returns those of the others' sums that stand at rows where there are none.
pub(crate) fn new_rows(alloc: Global, sums: &Sums, others: &Sums) -> Result<Sums, AllocError>
    ensures new { IfOk result (λ new. AreNewRows sums.now others.now new) }
    ensures memory { OnErr result (¬ (HasRowsOf sums.now others.now)) }
{
    let mut new = Sums::new(alloc);
    for (row, more) in others.rows() {
        if sums.sum(row) == 0 {
            add_row(&mut new, row, more)?;
        }
    }
    Ok(new)
}

/// Adds the sum of a row that has none.
fn add_row(sums: &mut Sums, row: &[i64], sum: i128) -> Result<(), AllocError>
    requires { count_of sums.old row.now ≡ pos 0 }
    ensures ok { OnOk result (sums.new ≡ plus sums.old row.now sum) }
    ensures err { OnErr result (sums.new ≡ sums.old) }
{
    match sums.add(row, sum) {
        Ok(()) => Ok(()),
        Err(BagFault::Memory) => Err(AllocError),
        Err(BagFault::Large) => unreachable!(),
    }
}

/// Adds the sums of rows that have none. A refusal changes nothing.
pub(crate) fn add_new(sums: &mut Sums, new: &Sums) -> Result<(), AllocError>
    requires { (row : List ℤ) → count_of new.now row ≢ pos 0 → count_of sums.old row ≡ pos 0 }
    ensures ok { OnOk result ((row : List ℤ) → count_of sums.new row ≡ count_of sums.old row +ℤ count_of new.now row) }
    ensures memory { OnErr result (new.now ≢ empty) }
    ensures err { OnErr result (sums.new ≡ sums.old) }
{
    let Ok(()) = add_some(sums, new) else {
        take_back(sums, new);
        return Err(AllocError);
    };
    Ok(())
}

/// Adds the sums of rows that have none. After a refusal some have theirs.
fn add_some(sums: &mut Sums, new: &Sums) -> Result<(), AllocError>
    requires { (row : List ℤ) → count_of new.now row ≢ pos 0 → count_of sums.old row ≡ pos 0 }
    ensures ok { OnOk result ((row : List ℤ) → count_of sums.new row ≡ count_of sums.old row +ℤ count_of new.now row) }
    ensures memory { OnErr result (new.now ≢ empty) }
    ensures err { OnErr result ((row : List ℤ) → count_of new.now row ≡ pos 0 → count_of sums.new row ≡ count_of sums.old row) }
{
    for (row, sum) in new.rows() {
        add_row(sums, row, sum)?;
    }
    Ok(())
}

/// Takes the sums of these rows away.
pub(crate) fn take_back(sums: &mut Sums, new: &Sums)
    ensures gone { (row : List ℤ) → count_of new.now row ≢ pos 0 → count_of sums.new row ≡ pos 0 }
    ensures kept { (row : List ℤ) → count_of new.now row ≡ pos 0 → count_of sums.new row ≡ count_of sums.old row }
{
    for (row, _) in new.rows() {
        take_row(sums, row);
    }
}

/// Takes the sum of a row away.
fn take_row(sums: &mut Sums, row: &[i64])
    ensures { (q : List ℤ) → count_of sums.new q ≡ cond (is_row q row.now) (pos 0) (count_of sums.old q) }
{
    match sums.sum(row).checked_neg() {
        Some(less) => add_freely(sums, row, less),
        None => {
            add_freely(sums, row, i128::MAX);
            add_freely(sums, row, 1);
        }
    }
}

/// Adds other sums but for those of rows that have theirs already. It takes no memory.
pub(crate) fn add_others(sums: &mut Sums, others: &Sums, new: &Sums)
    requires among { (row : List ℤ) → count_of new.now row ≢ pos 0 → count_of new.now row ≡ count_of others.now row }
    requires there { HasRowsOf sums.old others.now }
    requires fits { (row : List ℤ) → count_of new.now row ≡ pos 0 → FitsSigned w128 (count_of sums.old row +ℤ count_of others.now row) }
    ensures { (row : List ℤ) → count_of sums.new row +ℤ count_of new.now row ≡ count_of sums.old row +ℤ count_of others.now row }
{
    for (row, more) in others.rows() {
        if new.sum(row) == 0 {
            add_freely(sums, row, more);
        }
    }
}

/// Adds to the sum of a row that has one. It takes no memory.
fn add_freely(sums: &mut Sums, row: &[i64], more: i128)
    requires there { count_of sums.old row.now ≡ pos 0 → more ≡ pos 0 }
    requires fits { FitsSigned w128 (count_of sums.old row.now +ℤ more) }
    ensures { sums.new ≡ plus sums.old row.now more }
{
    let Ok(()) = sums.add(row, more) else {
        unreachable!()
    };
}
