//! Finds what a table has more, or with a sign less, than another.

ghost use Rattle.std.specs.Prelude.{◌≡◌, [], ◌-ℤ◌, List, ℤ, IfOk, MatchOption};
ghost use Rattle.wh_row.specs.Bag.{IsTable, count, difference_of};
ghost use Rattle.wh_row.specs.Lent.{lent};
ghost use Rattle.wh_row.specs.Records.{EachSumFits};
ghost use Rattle.wh_row.specs.Weigh.{count_in};
ghost use Rattle.whview.specs.Inner.Difference.{AreNotNegative, IsStep};

use super::front::Front;
use std::alloc::{AllocError, Global};
use std::cmp::Ordering;
use std::thread::Threads;
use wh_row::{Bag, Records, RecordsFault};
use wh_threads::ThreadBudget;

/// Passes over the lowest row that is still to come, in both tables where both have it, and gives it with what it counts more in the
/// new one, whose rows are coming, than in the old one, whose rows are leaving.
fn step<'a>(coming: &mut Front<'a>, leaving: &mut Front<'a>) -> Option<(&'a [i64], i64)>
    requires coming { AreNotNegative coming.old }
    requires leaving { AreNotNegative leaving.old }
    ensures { MatchOption result ((coming.old ≡ []) × (leaving.old ≡ [])) (λ e. IsStep (lent e) coming.old coming.new leaving.old leaving.new) }
{
    match (coming.first(), leaving.first()) {
        (None, None) => None,
        (Some((row, count)), None) => {
            coming.pass();
            Some((row, count))
        }
        (None, Some((row, count))) => {
            leaving.pass();
            Some((row, -count))
        }
        (Some((row, count)), Some((other, less))) => match row.cmp(other) {
            Ordering::Less => {
                coming.pass();
                Some((row, count))
            }
            Ordering::Greater => {
                leaving.pass();
                Some((other, -less))
            }
            Ordering::Equal => {
                coming.pass();
                leaving.pass();
                Some((row, count - less))
            }
        },
    }
}

/// The rows that count otherwise in a new table than in an old one, in rising order, each with what it counts more.
fn changed_rows<'a>(alloc: Global, new: &'a Bag, old: &'a Bag) -> Result<Records, AllocError>
    requires new { IsTable new.now }
    requires old { IsTable old.now }
    ensures counts { IfOk result (λ changed. (row : List ℤ) → count_in changed row ≡ count new.now row -ℤ count old.now row) }
    ensures fits { IfOk result EachSumFits }
{
    new.counts_fit();
    old.counts_fit();
    let mut changed = Records::new(alloc);
    let mut coming = Front::new(new.rows());
    let mut leaving = Front::new(old.rows());
    while let Some((row, more)) = step(&mut coming, &mut leaving) {
        if more != 0 {
            changed.push(row, more)?;
        }
    }
    Ok(changed)
}

/// Returns the change that makes a new table of an old one: in it each row counts what it counts in the new one less what it counts in the
/// old one. Takes O((n + m) w) time for tables of n and m rows of w cells.
pub(crate) fn difference<R: Threads + Sync>(
    budget: &ThreadBudget<'_, R>,
    new: &Bag,
    old: &Bag,
) -> Result<Bag, AllocError>
    requires new { IsTable new.now }
    requires old { IsTable old.now }
    ensures { IfOk result (λ change. change ≡ difference_of new.now old.now) }
{
    let changed = changed_rows(budget.alloc, new, old)?;
    match Bag::from_records(budget, &changed) {
        Ok(change) => Ok(change),
        Err(RecordsFault::Memory) => Err(AllocError),
        Err(RecordsFault::Large(_)) => unreachable!(),
    }
}
