//! Keeps what the Comps of a view have added so far.

ghost use Rattle.std.specs.Prelude.{◌≡◌, ℕ, suc, ◌<◌, ◌≤◌, ℤ, pos, ◌+ℤ◌, ◌*ℤ◌, FitsSigned, List, IsTrue, length, map, IfOk, IfErr, OnOk, OnErr, slice_index_or};
ghost use Rattle.std.specs.List.{range_with_len};
ghost use mir.Syntax.{w64, w128};
ghost use Rattle.wh_row.specs.Bag.{count as count_of, written, empty, plus, sum_of, SumFits};
ghost use Rattle.wh_maint.specs.Comp.{bag_at, merged};
ghost use Rattle.wh_maint.specs.Refused.{SumsTogetherFit, MergedFit, BringsNothing, IsMergeFault};

use crate::both_sums::add_columns;
use crate::fault::{MaintFault, RowFault};
use crate::taken::take_columns_in;
use std::alloc::{AllocError, Global};
use std::marker::Model;
use wh_row::{Bag, BagFault, SumRows, Sums};

/// The sum of what the Comps of a view have added so far. Of a joined view it is the rows with their counts, and of a summary the count and
/// the sums of each group.
#[derive(Drop)]
pub struct Pending {
    alloc: Global,
    view: usize,
    counts: Bag,
    sums: Vec<Sums>,
}

impl Model for Pending {
    ghost use Rattle.std.specs.Prelude.{◌∷◌};
    ghost use Rattle.wh_maint.specs.Comp.{PendingOf};
    ghost use Rattle.wh_maint.specs.Inner.Comp.{pending_code};

    ghost Value = { PendingOf };

    ghost coded = { pending_code };

    ghost view = { λ p. record { view = p.view; columns = p.counts ∷ p.sums.items } };
}

impl Pending {
    /// Makes what is pending of a view with so many sums before any Comp: nothing.
    /// Fails for want of memory, and only where there are sums.
    pub fn new(alloc: Global, view: usize, sums: usize) -> Result<Pending, AllocError>
        ensures view { IfOk result (λ pending. pending.view ≡ view) }
        ensures columns { IfOk result (λ pending. pending.columns ≡ map (λ _. empty) (range_with_len 0 (suc sums))) }
        ensures memory { OnErr result (1 ≤ sums) }
    {
        let sums = no_sums(alloc, sums)?;
        Ok(Pending {
            alloc,
            view,
            counts: Bag::new(alloc),
            sums,
        })
    }

    /// Returns the allocator from which memory is taken.
    pub(crate) fn alloc(&self) -> Global {
        self.alloc
    }

    /// Returns the view's number.
    pub fn view(&self) -> usize
        ensures { result ≡ self.now.view }
    {
        self.view
    }

    /// Returns how many sums the view has.
    pub fn sums(&self) -> usize
        ensures { suc result ≡ length self.now.columns }
    {
        self.sums.len()
    }

    /// Returns how often a row or a group counts.
    /// Takes O(w log n) time for n rows or groups of w cells.
    pub fn count(&self, row: &[i64]) -> i64
        ensures { result ≡ count_of (bag_at self.now.columns 0) row.now }
    {
        self.counts.count(row)
    }

    /// Returns the sum with this number, from 0, of a group.
    /// Takes O(w log n) time for n groups of w cells.
    pub fn sum(&self, number: usize, group: &[i64]) -> i128
        requires { suc number < length self.now.columns }
        ensures { result ≡ count_of (bag_at self.now.columns (suc number)) group.now }
    {
        self.sums[number].sum(group)
    }

    /// Adds what another Comp of the view adds: each row or group then has the counts and the sums of both.
    /// Fails with Large where a count leaves i64 or a sum i128. Memory may come before it, and only for a row or a group that is new. A
    /// refusal changes nothing.
    pub fn merge(&mut self, other: &Pending) -> Result<(), MaintFault>
        requires view { other.now.view ≡ self.old.view }
        requires columns { length other.now.columns ≡ length self.old.columns }
        ensures view { self.new.view ≡ self.old.view }
        ensures sum { OnOk result (self.new.columns ≡ merged self.old.columns other.now.columns) }
        ensures fits { OnOk result (MergedFit self.old.columns other.now.columns) }
        ensures refused { IfErr result (IsMergeFault self.old.view self.old.columns other.now.columns) }

        // Memory may come before Large, but only for a row or a group that is not there.
        ensures memory { result ≡ Err MaintFault.Memory → ¬ (BringsNothing self.old.columns other.now.columns) }
        ensures err { OnErr result (self.new ≡ self.old) }
    {
        let sums = self.sums.as_mut_slice();
        let others = other.sums.as_slice();
        let counts = &mut self.counts;
        if let Err(fault) = add_columns(self.alloc, counts, sums, &other.counts, others) {
            return Err(MaintFault::of_bag(fault, self.view));
        }
        Ok(())
    }

    /// Takes in what others added of the same view: as [`Pending::merge`] does, but that a refusal may leave some of it added. It is
    /// moved where nothing was added yet, and so is each column of which all rows are above these.
    pub(crate) fn absorb(&mut self, other: Pending) -> Result<(), RowFault>
        requires view { other.view ≡ self.old.view }
        requires columns { length other.columns ≡ length self.old.columns }
        requires fits { MergedFit self.old.columns other.columns }
        ensures view { self.new.view ≡ self.old.view }
        ensures columns { length self.new.columns ≡ length self.old.columns }
        ensures sum { OnOk result ((j : ℕ) (q : List ℤ) → count_of (bag_at self.new.columns j) q ≡ count_of (bag_at self.old.columns j) q +ℤ count_of (bag_at other.columns j) q) }
        ensures memory { OnErr result (result ≡ Err RowFault.Memory) }
    {
        if self.is_nothing() {
            *self = other;
            return Ok(());
        }
        self.take_counts_in(other.counts)?;
        self.take_sums_in(other.sums)
    }

    /// Takes in counts.
    fn take_counts_in(&mut self, counts: Bag) -> Result<(), RowFault>
        requires fits { SumFits (bag_at self.old.columns 0) counts }
        ensures view { self.new.view ≡ self.old.view }
        ensures columns { length self.new.columns ≡ length self.old.columns }
        ensures count { OnOk result (bag_at self.new.columns 0 ≡ sum_of (bag_at self.old.columns 0) counts) }
        ensures sums { (j : ℕ) → bag_at self.new.columns (suc j) ≡ bag_at self.old.columns (suc j) }
        ensures memory { OnErr result (result ≡ Err RowFault.Memory) }
    {
        match self.counts.absorb(counts) {
            Ok(()) => Ok(()),
            Err(BagFault::Memory) => Err(RowFault::Memory),
            Err(BagFault::Large) => unreachable!(),
        }
    }

    /// Takes in the sums of each column.
    fn take_sums_in(&mut self, others: Vec<Sums>) -> Result<(), RowFault>
        requires columns { suc (length others.items) ≡ length self.old.columns }
        requires fits { (j : ℕ) → SumsTogetherFit (bag_at self.old.columns (suc j)) (bag_at others.items j) }
        ensures view { self.new.view ≡ self.old.view }
        ensures columns { length self.new.columns ≡ length self.old.columns }
        ensures count { bag_at self.new.columns 0 ≡ bag_at self.old.columns 0 }
        ensures sums { OnOk result ((j : ℕ) (q : List ℤ) → count_of (bag_at self.new.columns (suc j)) q
            ≡ count_of (bag_at self.old.columns (suc j)) q +ℤ count_of (bag_at others.items j) q) }
        ensures memory { OnErr result (result ≡ Err RowFault.Memory) }
    {
        let mut others = others;
        let columns = self.sums.as_mut_slice();
        let Ok(()) = take_columns_in(self.alloc, columns, others.as_mut_slice()) else {
            return Err(RowFault::Memory);
        };
        Ok(())
    }

    /// Whether nothing was added.
    fn is_nothing(&self) -> bool
        ensures { IsTrue result → (j : ℕ) → bag_at self.now.columns j ≡ empty }
    {
        self.counts.is_empty() && are_empty(self.sums.as_slice())
    }

    /// Adds to a count.
    pub(crate) fn add_count(&mut self, row: &[i64], count: i64) -> Result<(), RowFault>
        requires { FitsSigned w64 (count_of (bag_at self.old.columns 0) row.now +ℤ count) }
        ensures view { self.new.view ≡ self.old.view }
        ensures columns { length self.new.columns ≡ length self.old.columns }
        ensures count { OnOk result (bag_at self.new.columns 0 ≡ plus (bag_at self.old.columns 0) row.now count) }
        ensures sums { (j : ℕ) → bag_at self.new.columns (suc j) ≡ bag_at self.old.columns (suc j) }
        ensures memory { OnErr result (result ≡ Err RowFault.Memory) }
    {
        match self.counts.add(row, count) {
            Ok(()) => Ok(()),
            Err(BagFault::Memory) => Err(RowFault::Memory),
            Err(BagFault::Large) => unreachable!(),
        }
    }

    /// Adds `count` times each of these values to the group's sum with its number.
    pub(crate) fn add_values(
        &mut self,
        group: &[i64],
        count: i64,
        values: &[i64],
    ) -> Result<(), RowFault>
        requires columns { suc (length values.now) ≡ length self.old.columns }
        requires fits { (j : ℕ) → j < length values.now
            → FitsSigned w128 (count_of (bag_at self.old.columns (suc j)) group.now +ℤ (count *ℤ slice_index_or values.now j (pos 0))) }
        ensures view { self.new.view ≡ self.old.view }
        ensures columns { length self.new.columns ≡ length self.old.columns }
        ensures count { bag_at self.new.columns 0 ≡ bag_at self.old.columns 0 }
        ensures sums { OnOk result ((j : ℕ) → j < length values.now → bag_at self.new.columns (suc j)
            ≡ plus (bag_at self.old.columns (suc j)) group.now (count *ℤ slice_index_or values.now j (pos 0))) }
        ensures memory { OnErr result (result ≡ Err RowFault.Memory) }
    {
        add_each(self.sums.as_mut_slice(), group, count, values)
    }

    /// Returns the rows of a joined view, or the groups of a summary, with their counts.
    pub fn counts(&self) -> &Bag
        ensures { result.now ≡ bag_at self.now.columns 0 }
    {
        &self.counts
    }

    /// Returns the groups that have the sum with this number, from 0, in rising order, each with its sum.
    pub(crate) fn sum_rows(&self, number: usize) -> SumRows<'_>
        requires { suc number < length self.now.columns }
        ensures { result ≡ written (bag_at self.now.columns (suc number)) }
    {
        self.sums[number].rows()
    }

    /// Gives the counts up, and drops the sums.
    pub(crate) fn into_counts(self) -> Bag
        ensures { result ≡ bag_at self.columns 0 }
    {
        self.counts
    }
}

/// Whether each of these columns is empty.
fn are_empty(sums: &[Sums]) -> bool
    ensures { IsTrue result → (j : ℕ) → slice_index_or sums.now j empty ≡ empty }
{
    match sums {
        [] => true,
        [first, rest @ ..] => first.is_empty() && are_empty(rest),
    }
}

/// So many columns of sums, each empty.
fn no_sums(alloc: Global, sums: usize) -> Result<Vec<Sums>, AllocError>
    ensures none { IfOk result (λ none. none.items ≡ map (λ _. empty) (range_with_len 0 sums)) }
    ensures memory { OnErr result (1 ≤ sums) }
{
    let mut none = Vec::new(alloc);
    for _number in 0..sums {
        none.push(Sums::new(alloc))?;
    }
    Ok(none)
}

/// Adds `count` times each of these values to the group's sum with its number.
fn add_each(sums: &mut [Sums], group: &[i64], count: i64, values: &[i64]) -> Result<(), RowFault>
    requires each { length values.now ≡ length sums.old }
    requires fits { (j : ℕ) → j < length values.now
        → FitsSigned w128 (count_of (slice_index_or sums.old j empty) group.now +ℤ (count *ℤ slice_index_or values.now j (pos 0))) }
    ensures added { OnOk result ((j : ℕ) → j < length values.now → slice_index_or sums.new j empty
        ≡ plus (slice_index_or sums.old j empty) group.now (count *ℤ slice_index_or values.now j (pos 0))) }
    ensures memory { OnErr result (result ≡ Err RowFault.Memory) }
{
    for j in 0..values.len() {
        let more = i128::from(count) * i128::from(values[j]);
        match sums[j].add(group, more) {
            Ok(()) => {}
            Err(BagFault::Memory) => return Err(RowFault::Memory),
            Err(BagFault::Large) => unreachable!(),
        }
    }
    Ok(())
}
