//! Reckons what a bag keeps of its counts where it is made at once, of rising records or of two bags.

ghost use Rattle.std.specs.Prelude.{◌≡◌, IfSome, unsigned_abs};
ghost use Rattle.std.specs.List.{sum_by};
ghost use Rattle.wh_row.specs.Inner.Kept.{one_below};
ghost use Rattle.wh_row.specs.Inner.Stored.{AreCounts};

use crate::kept::{Kept, one_if_below};
use crate::records::Records;
use wh_pieces::RowMap;

/// Returns what is kept of a bag of these records where each stands alone with its row; none where a count is 0 or all together leave u64.
pub(crate) fn kept_of(records: &Records) -> Option<Kept>
    ensures counts { IfSome result (λ kept. AreCounts records.now) }
    ensures total { IfSome result (λ kept. kept.total ≡ sum_by (λ e. unsigned_abs e.1) records.now) }
    ensures below { IfSome result (λ kept. kept.below ≡ sum_by (λ e. one_below e.1) records.now) }
{
    let mut total: u64 = 0;
    let mut below = 0;
    for place in 0..records.len() {
        let (_, count) = records.get(place);
        if count == 0 {
            return None;
        }
        total = total.checked_add(count.unsigned_abs())?;
        below += one_if_below(count);
    }
    Some(Kept {
        total: u128::from(total),
        below,
    })
}

/// Returns what is kept of a bag with these counts.
pub(crate) fn kept_of_counts(counts: &RowMap<i64>) -> Kept
    ensures total { result.total ≡ sum_by (λ e. unsigned_abs e.1) counts.now }
    ensures below { result.below ≡ sum_by (λ e. one_below e.1) counts.now }
{
    let mut total: u128 = 0;
    let mut below = 0;
    for (_, count) in counts.entries() {
        total += u128::from(count.unsigned_abs());
        below += one_if_below(count);
    }
    Kept { total, below }
}
