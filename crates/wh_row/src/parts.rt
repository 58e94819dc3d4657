//! Makes the bag of records that come in parts, by several threads.
//!
//! Where the rows of each part rise, a thread makes a bag of each. Most often all rows of a part are above those of the part before it, so
//! that the bags are moved behind each other. Other records are shared out. Where they weigh too much for that, or memory is refused, they
//! are added up in the order given.

ghost use Rattle.std.specs.Prelude.{◌≡◌, ◌≤◌, ◌*◌, List, length, All, IfSome, IsSome, IsTrue};
ghost use Rattle.wh_row.specs.Bag.{bag_of};
ghost use Rattle.wh_row.specs.Weigh.{Counted};
ghost use Rattle.wh_row.specs.Inner.Parts.{weight, grouped, AreBagsOf};
ghost use Rattle.wh_row.specs.Records.{EachSumFits, IsRecordsAnswer, joined};

use crate::added::added_up;
use crate::bag::Bag;
use crate::fault::RecordsFault;
use crate::records::{MOST, Records};
use crate::shares::from_shares;
use std::alloc::Global;
use std::thread::Threads;
use wh_threads::{ThreadBudget, Work};

impl Bag {
    /// Makes the bag of the records of all parts, those of a part behind those of the part before. A refusal numbers the records of all
    /// parts in this order. Takes O(r w log r) time for r records of w cells, and O(r w) where each part rises, none twice, and is above
    /// the part before.
    pub fn from_parts<R: Threads + Sync>(
        budget: &ThreadBudget<'_, R>,
        parts: &[Records],
    ) -> Result<Self, RecordsFault>
        ensures { IsRecordsAnswer (joined parts.now) result }
    {
        if let Some(bag) = from_rising_parts(budget, parts) {
            return Ok(bag);
        }
        if let Some(bag) = from_light_parts(budget, parts) {
            return Ok(bag);
        }
        added_up(budget.alloc, parts)
    }
}

/// Makes the bag of the records of parts that rise, where all absolute counts together are an i64 and there is memory for it.
fn from_rising_parts<R: Threads + Sync>(
    budget: &ThreadBudget<'_, R>,
    parts: &[Records],
) -> Option<Bag>
    ensures bag { IfSome result (λ bag. bag ≡ bag_of (joined parts.now)) }
    ensures fits { IfSome result (λ bag. EachSumFits (joined parts.now)) }
{
    // Each part has its share of the room of an i64.
    let room = MOST.checked_div(parts.len() as u64)?;
    let groups = groups_of(
        budget.alloc,
        parts,
        budget.parts(Work::Records, len_of(parts)),
    )?;
    from_groups(budget, room, groups.as_slice())
}

/// Deals the parts into groups of neighbours, at most so many.
fn groups_of<'a>(alloc: Global, parts: &'a [Records], most: usize) -> Option<Vec<&'a [Records]>>
    requires { 1 ≤ most }
    ensures { IfSome result (λ groups. grouped groups.items ≡ parts.now) }
{
    let size = parts.len().div_ceil(most).max(1);
    parts.chunks(size).collect(alloc).ok()
}

/// Makes the bag of the records of groups of parts that rise, a group by a thread. None where the absolute counts of a part are more than
/// `room`.
fn from_groups<R: Threads + Sync>(
    budget: &ThreadBudget<'_, R>,
    room: u64,
    groups: &[&[Records]],
) -> Option<Bag>
    ensures bag { IfSome result (λ bag. bag ≡ bag_of (joined (grouped groups.now))) }
    ensures light { IfSome result (λ bag. weight (joined (grouped groups.now)) ≤ room * length (grouped groups.now)) }
{
    let alloc = budget.alloc;
    let bags = budget.each(
        groups,
        move |group: &&[Records]| -> Option<Bag>
            ensures bag { IfSome result (λ bag. bag ≡ bag_of (joined group.now.now)) }
            ensures light { IfSome result (λ bag. weight (joined group.now.now) ≤ room * length group.now.now) }
        { parts_alone(alloc, room, group) },
    );
    together(alloc, bags.ok()?)
}

/// Makes one bag of several, each of a list of records, if each is there and there is memory for it. The rows of each are put behind those
/// of the one before, where they are above them.
pub(crate) fn together(alloc: Global, bags: Vec<Option<Bag>>) -> Option<Bag>
    ensures bag { (lists : List Counted) → AreBagsOf lists bags.items → IfSome result (λ bag. bag ≡ bag_of (joined lists)) }
    ensures all { IsSome result → All IsSome bags.items }
{
    let mut all = Bag::new(alloc);
    for bag in bags {
        all.absorb(bag?).ok()?;
    }
    Some(all)
}

/// Makes the bag of the records of these parts, by one thread.
fn parts_alone(alloc: Global, room: u64, parts: &[Records]) -> Option<Bag>
    ensures bag { IfSome result (λ bag. bag ≡ bag_of (joined parts.now)) }
    ensures light { IfSome result (λ bag. weight (joined parts.now) ≤ room * length parts.now) }
{
    let mut all = Bag::new(alloc);
    for records in parts {
        let bag = part_alone(alloc, room, records)?;
        all.absorb(bag).ok()?;
    }
    Some(all)
}

/// Makes the bag of records that rise, whose absolute counts are no more than `room` together.
fn part_alone(alloc: Global, room: u64, records: &Records) -> Option<Bag>
    ensures bag { IfSome result (λ bag. bag ≡ bag_of records.now) }
    ensures light { IfSome result (λ bag. weight records.now ≤ room) }
{
    let _left = records.room_left(room)?;
    let bag = Bag::from_rising(alloc, records);
    if bag.is_some() || !records.is_rising() {
        return bag;
    }
    Bag::from_ordered(alloc, records)
}

/// Makes the bag of the records of all parts, in shares, where all absolute counts together are an i64 and there is memory for it.
fn from_light_parts<R: Threads + Sync>(
    budget: &ThreadBudget<'_, R>,
    parts: &[Records],
) -> Option<Bag>
    ensures bag { IfSome result (λ bag. bag ≡ bag_of (joined parts.now)) }
    ensures fits { IfSome result (λ bag. EachSumFits (joined parts.now)) }
{
    if !are_light(parts) {
        return None;
    }
    let shares = budget
        .threads
        .min(budget.parts(Work::Records, len_of(parts)));
    from_shares(budget, shares, parts)
}

/// Returns whether the absolute counts of all parts together are an i64. Then no running sum leaves it.
fn are_light(parts: &[Records]) -> bool
    ensures { IsTrue result → EachSumFits (joined parts.now) }
{
    let mut room = MOST;
    for records in parts {
        let Some(left) = records.room_left(room) else {
            return false;
        };
        room = left;
    }
    true
}

/// Returns how many records the parts have. It tells how many threads are worth their start, and no more.
pub(crate) fn len_of(parts: &[Records]) -> usize {
    let mut len: usize = 0;
    for records in parts {
        len = len.saturating_add(records.len());
    }
    len
}
