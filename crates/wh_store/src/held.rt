//! Keeps the rows of all views with the last N versions, and does operations on them.

ghost use Rattle.std.specs.Prelude.{◌≡◌, ◌≢◌, ◌≤◌, ◌<◌, ◌++◌, [], ◌∷◌, ◌+◌, ℕ, List, Some, Err, IfOk, OnOk, OnErr, IsOk, IsOkUnless, IsTrue, MatchOption, is_some, length, option_map};
ghost use Rattle.wh_row.specs.Bag.{empty};
ghost use Rattle.wh_row.specs.Stored.{plain};
ghost use Rattle.wh_store.specs.Kept.{AreTables};
ghost use Rattle.wh_store.specs.Operations.{Operation, operation, Opens, Writes, Commits, Gives_up};
ghost use Rattle.wh_store.specs.Pages.{Contents, page_of};
ghost use Rattle.wh_store.specs.Refusals.{refusal};
ghost use Rattle.wh_store.specs.Slots.{opening_rows, pairs_at};
ghost use Rattle.wh_store.specs.Versions.{table_in};
ghost use Rattle.wh_store.specs.Windows.{CountsAreRead, Shows, TakesMemory, applied, current, kept_version, unexpired};
ghost use Rattle.wh_versions.specs.Tables.{pairs_in};

use crate::fault::StoreFault;
use crate::operation::{Op, is_page};
use crate::page::Page;
use crate::tables::{begin_each, copy_each, first_tables, give_up_each, put_one};
use std::alloc::{AllocError, Global};
use std::marker::Model;
use wh_row::{Bag, Row};
use wh_versions::{VersionRow, VersionTable};

/// The rows of all views, each with what it counts in the last N versions. Seen as what it shows.
#[derive(Drop)]
pub(crate) struct Held<const N: usize> {
    alloc: Global,
    number: u64,
    active: bool,
    tables: Vec<VersionTable<N>>,
}

impl<const N: usize> Model for Held<N> {
    ghost use Rattle.wh_store.specs.Windows.{Window};
    ghost use Rattle.wh_store.specs.Inner.Windows.{coded_window};
    ghost use Rattle.wh_store.specs.Inner.Kept.{IsHeld, window_held};

    ghost Value = { Window };

    ghost coded = { coded_window };

    ghost view = { λ h. window_held N h.number h.active h.tables.items };

    ghost invariant = { λ h. IsHeld N h.number h.active h.tables.items };
}

impl<const N: usize> Held<N> {
    /// Makes version 0, of these tables, in no night.
    pub(crate) fn new(alloc: Global, tables: &[Bag]) -> Result<Self, AllocError>
        requires versions { 2 ≤ N }
        requires few { N ≤ 4 }
        requires tables { AreTables tables.now }
        ensures shows { IfOk result (λ held. Shows held tables.now []) }
        ensures limit { IfOk result (λ held. held.limit ≡ N) }
        ensures current { IfOk result (λ held. current held ≡ tables.now) }
        ensures rows { IfOk result (λ held. held.rows ≡ opening_rows tables.now) }
    {
        let tables = first_tables(alloc, tables)?;
        Ok(Held {
            alloc,
            number: 0,
            active: false,
            tables,
        })
    }

    fn begin(&mut self) -> Result<(), StoreFault>
        ensures ok { OnOk result (self.new ≡ applied self.old Opens) }
        ensures err { OnErr result (self.new ≡ self.old) }
        ensures refused { MatchOption (refusal self.old Opens) (IsOk result) (λ fault. result ≡ Err fault) }
    {
        if self.active {
            return Err(StoreFault::NightOpen);
        }
        if self.number == u64::MAX {
            return Err(StoreFault::LastVersion);
        }
        begin_each(self.tables.as_mut_slice());
        self.active = true;
        Ok(())
    }

    fn put(&mut self, view: usize, rows: &[(Row, i64)]) -> Result<(), StoreFault>
        ensures ok { OnOk result (self.new ≡ applied self.old (Writes view (plain rows.now))) }
        ensures err { OnErr result (self.new ≡ self.old) }
        ensures refused { MatchOption (refusal self.old (Writes view (plain rows.now))) (IsOkUnless result StoreFault.Memory) (λ fault. result ≡ Err fault) }
        ensures memory { result ≡ Err StoreFault.Memory → TakesMemory self.old (Writes view (plain rows.now)) }
    {
        if !self.active {
            return Err(StoreFault::NoNight);
        }
        if view >= self.tables.len() {
            return Err(StoreFault::NoView);
        }
        if !is_page(rows) {
            return Err(StoreFault::BadPage);
        }
        put_one(&mut self.tables[view], rows)?;
        Ok(())
    }

    fn commit(&mut self) -> Result<(), StoreFault>
        ensures ok { OnOk result (self.new ≡ applied self.old Commits) }
        ensures err { OnErr result (self.new ≡ self.old) }
        ensures refused { MatchOption (refusal self.old Commits) (IsOk result) (λ fault. result ≡ Err fault) }
    {
        if !self.active {
            return Err(StoreFault::NoNight);
        }
        self.number += 1;
        self.active = false;
        Ok(())
    }

    fn give_up(&mut self) -> Result<(), StoreFault>
        ensures ok { OnOk result (self.new ≡ applied self.old Gives_up) }
        ensures err { OnErr result (self.new ≡ self.old) }
        ensures refused { MatchOption (refusal self.old Gives_up) (IsOk result) (λ fault. result ≡ Err fault) }
    {
        if !self.active {
            return Err(StoreFault::NoNight);
        }
        give_up_each(self.tables.as_mut_slice());
        self.number += 1;
        self.active = false;
        Ok(())
    }

    /// Does an operation. A refusal changes nothing that is seen.
    pub(crate) fn apply(&mut self, op: &Op) -> Result<(), StoreFault>
        ensures ok { OnOk result (self.new ≡ applied self.old (operation op.now)) }
        ensures err { OnErr result (self.new ≡ self.old) }
        ensures refused { MatchOption (refusal self.old (operation op.now)) (IsOkUnless result StoreFault.Memory) (λ fault. result ≡ Err fault) }
        ensures memory { result ≡ Err StoreFault.Memory → TakesMemory self.old (operation op.now) }
    {
        match op {
            Op::Begin => self.begin(),
            Op::Put(view, rows) => self.put(*view, rows.as_slice()),
            Op::Commit => self.commit(),
            Op::GiveUp => self.give_up(),
        }
    }

    /// States that at least two versions are kept. It does nothing, and is there for proofs.
    pub(crate) fn is_enough(&self)
        ensures { 2 ≤ self.now.limit }
    {
        // Makes known what holds of the rows.
        let _ = &self.number;
    }

    /// Tells why this operation would be refused, if it would, want of memory aside.
    pub(crate) fn refuses(&self, op: &Op) -> Option<StoreFault>
        ensures { result ≡ refusal self.now (operation op.now) }
    {
        match op {
            Op::Begin => self.refuses_begin(),
            Op::Put(view, rows) => self.refuses_put(*view, rows.as_slice()),
            Op::Commit => self.refuses_end(),
            Op::GiveUp => self.refuses_end(),
        }
    }

    fn refuses_begin(&self) -> Option<StoreFault>
        ensures { result ≡ refusal self.now Opens }
    {
        if self.active {
            return Some(StoreFault::NightOpen);
        }
        if self.number == u64::MAX {
            return Some(StoreFault::LastVersion);
        }
        None
    }

    fn refuses_put(&self, view: usize, rows: &[(Row, i64)]) -> Option<StoreFault>
        ensures { result ≡ refusal self.now (Writes view (plain rows.now)) }
    {
        if !self.active {
            return Some(StoreFault::NoNight);
        }
        if view >= self.tables.len() {
            return Some(StoreFault::NoView);
        }
        if !is_page(rows) {
            return Some(StoreFault::BadPage);
        }
        None
    }

    fn refuses_end(&self) -> Option<StoreFault>
        ensures { (result ≡ refusal self.now Commits) × (result ≡ refusal self.now Gives_up) }
    {
        if self.active {
            None
        } else {
            Some(StoreFault::NoNight)
        }
    }

    /// Returns the number of the current version, from 0.
    pub(crate) fn number(&self) -> u64
        ensures { result ≡ self.now.number }
    {
        self.number
    }

    /// Tells whether a night is open.
    pub(crate) fn is_active(&self) -> bool
        ensures { result ≡ is_some self.now.draft }
    {
        self.active
    }

    /// Returns the number of the version that is being written, if a night is open.
    pub(crate) fn night_number(&self) -> Option<u64>
        ensures { result ≡ option_map (λ contents. self.now.number + 1) self.now.draft }
    {
        if self.active {
            Some(self.number + 1)
        } else {
            None
        }
    }

    /// Tells whether sessions of this version can be read.
    pub(crate) fn unexpired(&self, version: u64) -> bool
        ensures { result ≡ unexpired self.now version }
    {
        let kept = if self.active { N - 1 } else { N };
        version <= self.number && self.number - version < kept as u64
    }

    /// Returns how many views there are.
    pub(crate) fn views(&self) -> usize
        ensures current { result ≡ length (current self.now) }
        ensures kept { (version : ℕ) → IsTrue (unexpired self.now version) → result ≡ length (kept_version self.now version) }
    {
        self.tables.len()
    }

    /// Returns a page of a view in a version that sessions can be read of.
    pub(crate) fn visible(
        &self,
        version: u64,
        view: usize,
        after: Option<&[i64]>,
        limit: usize,
    ) -> Result<Page, AllocError>
        requires unexpired { IsTrue (unexpired self.now version) }
        requires view { view < length (kept_version self.now version) }
        requires most { limit ≤ 256 }
        ensures page { IfOk result (λ page. page ≡ page_of (table_in (kept_version self.now version) view) (option_map (λ row. row.now) after.entry) limit) }
        ensures memory { OnErr result ((page_of (table_in (kept_version self.now version) view) (option_map (λ row. row.now) after.entry) limit).rows ≢ []) }
    {
        let table = &self.tables[view];
        table.are_in_form();
        let (rows, last) = table.page(self.alloc, version, after, limit)?;
        Ok(Page { rows, last })
    }

    /// Returns the table of a view in the current version.
    pub(crate) fn table(&self, view: usize) -> Result<Bag, AllocError>
        requires { view < length (current self.now) }
        ensures table { IfOk result (λ table. table ≡ table_in (current self.now) view) }
        ensures memory { OnErr result (table_in (current self.now) view ≢ empty) }
    {
        self.tables[view].table(self.alloc, self.number)
    }

    /// Returns the pairs of a row of a view; `None` where the row is not there.
    pub(crate) fn slots(&self, view: usize, row: &[i64]) -> Option<VersionRow<N>>
        ensures { pairs_in result ≡ pairs_at self.now.rows view row.now }
    {
        if view >= self.tables.len() {
            return None;
        }
        let table = &self.tables[view];
        table.are_in_form();
        table.slots(row)
    }

    /// In each version that sessions can be read of, and in the one that a night is writing, each row of a view counts what a session of that
    /// version reads of its pairs. For proofs: it does nothing.
    pub(crate) fn slots_are_read(&self, view: usize)
        requires { view < length (current self.now) }
        ensures kept { (version : ℕ) → IsTrue (unexpired self.now version) → CountsAreRead self.now view version (kept_version self.now version) }
        ensures night { (contents : Contents) → self.now.draft ≡ Some contents → CountsAreRead self.now view (self.now.number + 1) contents }
    {
        let table = &self.tables[view];
        table.are_in_form();
    }

    /// Makes a copy, which shows what this shows.
    pub(crate) fn copy(&self, alloc: Global) -> Result<Self, AllocError>
        ensures { IfOk result (λ copy. copy ≡ self.now) }
    {
        let tables = copy_each(alloc, self.tables.as_slice())?;
        Ok(Held {
            alloc,
            number: self.number,
            active: self.active,
            tables,
        })
    }
}
