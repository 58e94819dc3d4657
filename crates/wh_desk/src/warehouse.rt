//! Opens a warehouse, with its writer and its desks.

ghost use Rattle.std.specs.Prelude.{◌≡◌, ◌<◌, ◌≤◌, [], None, Some, IfOk, drop, length};
ghost use Rattle.std.specs.List.{All};
ghost use Rattle.left_right.specs.Sides.{view};
ghost use Rattle.wh_store.specs.Windows.{Shows, current};
ghost use Rattle.wh_store.specs.Ledgers.{ledger};
ghost use Rattle.wh_desk.specs.Known.{IsStory};
ghost use Rattle.wh_desk.specs.Desks.{sitting};
ghost use Rattle.wh_desk.specs.Writers.{writing, written};

use crate::chair::Chair;
use crate::desk::Desk;
use crate::history::{History, Told};
use crate::inner::Inner;
use crate::kept::Kept;
use crate::steps::{Raw, publish_raw, reader_of};
use crate::writer::Writer;
use std::alloc::Global;
use std::sync::Wait;
use wh_store::{RefusedEnds, Store};

/// The most desks that a warehouse has.
pub const MAX_DESKS: usize = 16;

/// The reasons for which no warehouse is opened. The store is gone.
#[derive(Clone, Copy, Debug, PartialEq, Eq)]
pub enum OpenFault {
    /// Memory was refused.
    Memory,
    /// A desk's place could not be made.
    NotAvailable,
}

/// A desk for each that is asked for, if there are places and memory.
fn seat_all(alloc: Global, raw: &mut Raw, desks: usize) -> Result<Vec<Desk>, OpenFault>
    requires knows { view raw.old.desk.place ≡ Some raw.old.desk.shown.value.front }
    ensures kept { (raw.new.desk.shown.value ≡ raw.old.desk.shown.value) × (drop raw.new.behind raw.new.log.items ≡ drop raw.old.behind raw.old.log.items) × (view raw.new.desk.place ≡ view raw.old.desk.place) }
    ensures desks { IfOk result (λ ds. (length ds.items ≡ desks) × All (λ d. d ≡ sitting raw.old.desk.shown.value.front None) ds.items) }
{
    let mut all = Vec::new(alloc);
    for _ in 0..desks {
        let front = raw.published().front.share();
        let Some(reader) = reader_of(raw) else {
            return Err(OpenFault::NotAvailable);
        };
        let desk = Desk {
            chair: Chair {
                reader,
                front,
                session: None,
            },
        };
        if all.push(desk).is_err() {
            return Err(OpenFault::Memory);
        }
    }
    Ok(all)
}

/// Opens a warehouse over a store in which nothing was done yet, with so many desks. Nothing is published; all desks are the writer's own.
/// Fails for want of memory, or where a desk's place could not be made. The store is then gone.
/// Takes O(n w) time for n rows of w cells in all, since the store is copied.
pub fn open_warehouse<R: Wait>(
    rt: &R,
    alloc: Global,
    store: Store,
    desks: usize,
) -> Result<(Writer, Vec<Desk>), OpenFault>
    requires new { Shows store (current store) [] }
    requires limit { 2 ≤ store.limit }
    requires least { 1 ≤ desks }
    requires most { desks ≤ 16 }
    ensures writer { IfOk result (λ r. r.0.ledger ≡ ledger (record { limit = store.limit; opening = current store }) [] None) }
    ensures desks { IfOk result (λ r. length r.1.items ≡ desks) }
    ensures alike { IfOk result (λ r. All (λ d. d ≡ sitting (record { book = r.0.book; of = r.0.ledger.of; list = [] }) None) r.1.items) }
{
    let Ok(copy) = store.copy(alloc) else {
        return Err(OpenFault::Memory);
    };
    open_with_copy(rt, alloc, store, copy, desks)
}

/// Opens a warehouse over a store in which nothing was done yet and a second one that shows the same, with so many desks. So a caller may
/// fill both stores at once.
/// Fails for want of memory, or where a desk's place could not be made. Both stores are then gone.
pub fn open_with_copy<R: Wait>(
    rt: &R,
    alloc: Global,
    store: Store,
    copy: Store,
    desks: usize,
) -> Result<(Writer, Vec<Desk>), OpenFault>
    requires new { Shows store (current store) [] }
    requires same { copy ≡ store }
    requires limit { 2 ≤ store.limit }
    requires least { 1 ≤ desks }
    requires most { desks ≤ 16 }
    ensures writer { IfOk result (λ r. r.0.ledger ≡ ledger (record { limit = store.limit; opening = current store }) [] None) }
    ensures desks { IfOk result (λ r. length r.1.items ≡ desks) }
    ensures alike { IfOk result (λ r. All (λ d. d ≡ sitting (record { book = r.0.book; of = r.0.ledger.of; list = [] }) None) r.1.items) }
{
    let history = History::new(&store);
    let first = Kept {
        store,
        front: history.told(),
    };
    let second = Kept {
        store: copy,
        front: history.told(),
    };
    let Ok(mut raw) = Raw::new(alloc, first, second, desks) else {
        return Err(OpenFault::Memory);
    };
    if publish_raw(rt, &mut raw).is_err() {
        raw.take(rt);
        return Err(OpenFault::Memory);
    }
    match seat_all(alloc, &mut raw, desks) {
        Ok(all) => {
            let inner = Inner {
                raw,
                history,
                held: None,
                ends: None,
            };
            let writer = Writer {
                inner,
                refused_ends: RefusedEnds::none(),
            };
            Ok((writer, all))
        }
        Err(fault) => {
            raw.take(rt);
            Err(fault)
        }
    }
}
