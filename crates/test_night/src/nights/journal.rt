//! A store, and all that was done to it.

ghost use Rattle.std.specs.Prelude.{◌≡◌, ◌≢◌, ◌≤◌, ◌<◌, ◌++◌, ◌∷◌, [], None, IfOk, IfErr, OnOk, OnErr, IsTrue, length};
ghost use Rattle.wh_row.specs.Bag.{empty};
ghost use Rattle.wh_store.specs.Operations.{operation};
ghost use Rattle.wh_store.specs.Refusals.{refusal};
ghost use Rattle.wh_store.specs.Versions.{is_active, is_well_formed, number, table_in};
ghost use Rattle.wh_store.specs.Windows.{Shows, current};
ghost use Rattle.wh_store.specs.Ledgers.{ledger, versions_in, window_in};

use std::alloc::{AllocError, Global};
use std::marker::Model;
use wh_row::Bag;
use wh_store::{Op, Store, StoreFault, told_law, well_formed_goes_on_law, window_law};

/// A store, and all that was done to it. Seen as a ledger in which nothing is held.
#[derive(Drop)]
pub(crate) struct Journal {
    first: Store,
    store: Store,
    done: Vec<Op>,
}

impl Model for Journal {
    ghost use Rattle.std.specs.Prelude.{◌≡◌, ◌≤◌, None, IsTrue, length, map};
    ghost use Rattle.wh_store.specs.Operations.{operation};
    ghost use Rattle.wh_store.specs.Versions.{is_well_formed};
    ghost use Rattle.wh_store.specs.Windows.{Shows, current};
    ghost use Rattle.wh_store.specs.Ledgers.{Ledger, ledger};
    ghost use Rattle.wh_store.specs.Inner.Codes.{coded_ledger};

    ghost Value = { Ledger };

    ghost coded = { coded_ledger };

    ghost view = { λ j. ledger (record { limit = j.first.limit; opening = current j.first }) (map operation j.done.items) None };

    ghost invariant = { λ j. (2 ≤ j.first.limit) × (j.store.limit ≡ j.first.limit) × Shows j.store (current j.first) (map operation j.done.items)
        × IsTrue (is_well_formed (length (current j.first)) (map operation j.done.items)) };
}

impl Journal {
    /// Nothing was done yet to this store.
    pub(crate) fn new(alloc: Global, store: Store) -> Result<Journal, AllocError>
        requires new { Shows store (current store) [] }
        requires limit { 2 ≤ store.limit }
        ensures { IfOk result (λ j. j ≡ ledger (record { limit = store.limit; opening = current store }) [] None) }
    {
        Ok(Journal {
            first: store.copy(alloc)?,
            store,
            done: Vec::new(alloc),
        })
    }

    /// Why the operation would be refused, if it would.
    pub(crate) fn refuses(&self, op: &Op) -> Option<StoreFault>
        ensures { result ≡ refusal (window_in self.now.of self.now.list) (operation op.now) }
    {
        self.store.refuses(op)
    }

    /// Does an operation. It comes back where it is refused, also for want of memory.
    pub(crate) fn add(&mut self, op: Op) -> Result<(), Op>
        ensures done { OnOk result (self.new ≡ ledger self.old.of (self.old.list ++ operation op ∷ []) None) }
        ensures back { IfErr result (λ back. (back ≡ op) × (self.new ≡ self.old)) }
    {
        window_law();
        well_formed_goes_on_law();
        if self.done.try_reserve(1).is_err() {
            return Err(op);
        }
        if self.store.apply(&op).is_err() {
            return Err(op);
        }
        self.done.push_reserved(op);
        Ok(())
    }

    /// The number of the current version.
    pub(crate) fn current(&self) -> u64
        ensures number { result ≡ number (versions_in self.now.of self.now.list) }
        ensures well_formed { IsTrue (is_well_formed (length self.now.of.opening) self.now.list) }
    {
        self.store.number()
    }

    /// Whether a night is open.
    pub(crate) fn is_active(&self) -> bool
        ensures { result ≡ is_active (versions_in self.now.of self.now.list) }
    {
        self.store.is_active()
    }

    /// How many views the current version has.
    pub(crate) fn views(&self) -> usize
        ensures { result ≡ length (versions_in self.now.of self.now.list).newest }
    {
        told_law();
        self.store.current_views()
    }

    /// The tables of the current version.
    pub(crate) fn tables(&self, alloc: Global) -> Result<Vec<Bag>, AllocError>
        ensures { IfOk result (λ tables. tables.items ≡ (versions_in self.now.of self.now.list).newest) }
    {
        let mut tables = Vec::new(alloc);
        for view in 0..self.views() {
            let table = self.table(view)?;
            tables.push(table)?;
        }
        Ok(tables)
    }

    /// The table of a view in the current version.
    pub(crate) fn table(&self, view: usize) -> Result<Bag, AllocError>
        requires { view < length (versions_in self.now.of self.now.list).newest }
        ensures table { IfOk result (λ table. table ≡ table_in (versions_in self.now.of self.now.list).newest view) }
        ensures memory { OnErr result (table_in (versions_in self.now.of self.now.list).newest view ≢ empty) }
    {
        told_law();
        self.store.table(view)
    }

    /// All that was done, in its order.
    pub(crate) fn done(&self) -> &[Op] {
        self.done.as_slice()
    }
}
