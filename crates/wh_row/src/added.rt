//! Adds records up in the order given, where no faster way is sure to answer what that does.

ghost use Rattle.std.specs.Prelude.{◌≡◌, ◌++◌, ℕ, length, List, ℤ, Err, IfSome, IsSomeAnd, OnOk, ◌+◌};
ghost use Rattle.wh_row.specs.Weigh.{Counted};
ghost use Rattle.wh_row.specs.Records.{CountNothing, IsFirstTooLarge, IsRecordsAnswer, joined};
ghost use Rattle.wh_row.specs.Inner.Added.{AreAddedUp};

use crate::bag::Bag;
use crate::fault::{BagFault, RecordsFault};
use crate::records::Records;
use std::alloc::Global;

/// Adds up the records of all parts at each row, those of a part behind those of the part before. No record is copied.
pub(crate) fn added_up(alloc: Global, parts: &[Records]) -> Result<Bag, RecordsFault>
    ensures { IsRecordsAnswer (joined parts.now) result }
{
    let mut bag = Bag::new(alloc);
    let mut before = Some(0);
    for records in parts {
        add_each(&mut bag, before, records)?;
        before = with(before, records.len());
    }
    Ok(bag)
}

/// Adds records to a bag that is the sum of `before` others; none where their number is no usize. After a refusal some may have been added.
fn add_each(bag: &mut Bag, before: Option<usize>, records: &Records) -> Result<(), RecordsFault>
    ensures ok { (es : Counted) → AreAddedUp es bag.old → OnOk result (AreAddedUp (es ++ records.now) bag.new) }
    ensures large { (es : Counted) (place : ℕ) → AreAddedUp es bag.old → IfSome before (λ many. many ≡ length es)
        → result ≡ Err (RecordsFault.Large place) → IsFirstTooLarge (es ++ records.now) place }
    ensures memory { result ≡ Err RecordsFault.Memory → ¬ (CountNothing records.now) }
{
    for place in 0..records.len() {
        bag.counts_fit();
        let (row, count) = records.get(place);
        if let Err(fault) = bag.add(row, count) {
            return Err(at_place(fault, with(before, place)));
        }
    }
    Ok(())
}

/// Returns why no bag was made, where a record was not added. Without a number for its place it is told as want of memory: no memory has so
/// many.
fn at_place(fault: BagFault, place: Option<usize>) -> RecordsFault
    ensures memory { fault ≡ BagFault.Memory → result ≡ RecordsFault.Memory }
    ensures large { (at : ℕ) → result ≡ RecordsFault.Large at → (fault ≡ BagFault.Large) × (place ≡ Some at) }
{
    match (fault, place) {
        (BagFault::Large, Some(place)) => RecordsFault::Large(place),
        _ => RecordsFault::Memory,
    }
}

/// Returns the sum of both numbers, where it is a usize.
fn with(many: Option<usize>, more: usize) -> Option<usize>
    ensures { IfSome result (λ sum. IsSomeAnd many (λ many. sum ≡ many + more)) }
{
    many?.checked_add(more)
}
