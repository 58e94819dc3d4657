//! Keeps the rows of a view, each with what it counts in the last versions.

ghost use Rattle.std.specs.Prelude.{◌≡◌, ◌≢◌, ◌<◌, ◌≤◌, ◌+◌, ◌^◌, List, ℤ, [], take, length, nat_le, option_map, OnOk, OnErr, IfOk};
ghost use Rattle.wh_pieces.specs.Place.{AreRisingRows};
ghost use Rattle.wh_row.specs.Bag.{IsTable, empty, written as written_out};
ghost use Rattle.wh_row.specs.Stored.{plain};
ghost use Rattle.wh_versions.specs.Pages.{rows_after, shown_at};
ghost use Rattle.wh_versions.specs.Tables.{AreInForm, HaveCounts, IsBegun, IsNewToNight, MayBeAdded, count_at, given_up, opening, slots, table_at, written};

use crate::row::VersionRow;
use crate::shown::{first_shown, table_of};
use crate::writing::{
    add_rows, copy_sets, count_of, drop_unread, first_rows, take_back, write_rows,
};
use std::alloc::{AllocError, Global};
use std::marker::Model;
use wh_pieces::RowMap;
use wh_row::{Bag, Records, Row};

/// The rows of a view, each with what it counts in the last N versions.
#[derive(Drop)]
pub struct VersionTable<const N: usize> {
    alloc: Global,
    night: u64,
    rows: RowMap<VersionRow<N>>,
    /// The rows that the last N - 1 nights touched, those of the last night last.
    touched: Vec<RowMap<()>>,
}

impl<const N: usize> Model for VersionTable<N> {
    ghost use Rattle.wh_versions.specs.Tables.{ViewRows};
    ghost use Rattle.wh_versions.specs.Inner.Tables.{AreKept, coded_view_rows};

    ghost Value = { ViewRows };

    ghost coded = { coded_view_rows };

    ghost view = { λ t. record { night = t.night; rows = t.rows } };

    ghost invariant = { λ t. AreKept N t.night t.rows t.touched.items };
}

impl<const N: usize> VersionTable<N> {
    /// Makes the rows of a table, as version 0 alone.
    /// Fails for want of memory.
    /// Takes O(n w) time for n rows of w cells.
    pub fn new(alloc: Global, table: &Bag) -> Result<Self, AllocError>
        requires versions { 2 ≤ N }
        requires few { N ≤ 4 }
        requires table { IsTable table.now }
        ensures night { IfOk result (λ t. t.night ≡ 0) }
        ensures rows { IfOk result (λ t. t.rows ≡ opening (written_out table.now)) }
    {
        let rows = first_rows(alloc, table)?;
        let mut touched = Vec::new(alloc);
        for _ in 1..N {
            touched.push(RowMap::new(alloc))?;
        }
        Ok(VersionTable {
            alloc,
            night: 0,
            rows,
            touched,
        })
    }

    /// States that each row's pairs are in form, and that the rows rise. It does nothing, and is there for proofs.
    pub fn are_in_form(&self)
        ensures pairs { AreInForm N self.now }
        ensures rising { AreRisingRows self.now.rows }
    {
        // Told by the map: its rows rise.
        let _ = self.rows.len();
    }

    /// Returns what a row counts in a version.
    /// Takes O(w log n) time for n rows of w cells.
    pub fn count(&self, version: u64, row: &[i64]) -> i64
        ensures { result ≡ count_at self.now version row.now }
    {
        count_of(&self.rows, version, row)
    }

    /// Returns the pairs of a row; `None` where the row is not there.
    /// Takes O(w log n) time for n rows of w cells.
    pub fn slots(&self, row: &[i64]) -> Option<VersionRow<N>>
        ensures { result ≡ slots self.now row.now }
    {
        self.rows.get(row)
    }

    /// Returns the first rows that a version shows after a row, or from the first on, each with its count, and whether it shows none after
    /// these. There are at most `limit` of them, which is up to 256.
    /// Fails for want of memory, and only where a row is given. It takes no more than for as many rows as are left.
    /// Takes O(w (log n + p)) time for n rows of w cells, p of which it walks through: also those that the version does not show. No row
    /// before them is looked at.
    pub fn page(
        &self,
        alloc: Global,
        version: u64,
        after: Option<&[i64]>,
        limit: usize,
    ) -> Result<(Records, bool), AllocError>
        requires most { limit ≤ 256 }
        ensures rows { IfOk result (λ page. page.0 ≡ take limit (rows_after (option_map (λ row. row.now) after.entry) (shown_at self.now version))) }
        ensures last { IfOk result (λ page. page.1 ≡ nat_le (length (rows_after (option_map (λ row. row.now) after.entry) (shown_at self.now version))) limit) }

        // Memory only where there is a row to take.
        ensures memory { OnErr result (take limit (rows_after (option_map (λ row. row.now) after.entry) (shown_at self.now version)) ≢ []) }
    {
        match after {
            Some(row) => first_shown(alloc, self.rows.entries_after(row), version, limit),
            None => first_shown(alloc, self.rows.entries(), version, limit),
        }
    }

    /// Returns the table that a version shows.
    /// Fails for want of memory, and only where the version shows a row.
    /// Takes O(n w) time for n rows of w cells.
    pub fn table(&self, alloc: Global, version: u64) -> Result<Bag, AllocError>
        ensures ok { IfOk result (λ table. table ≡ table_at self.now version) }

        // Memory only where a row is shown.
        ensures memory { OnErr result (table_at self.now version ≢ empty) }
    {
        table_of(alloc, &self.rows, version)
    }

    /// Writes counts of rows in the night that was begun last.
    /// Fails for want of memory, which only rows take that are new or untouched in this night. Then some rows may have been added, with no
    /// pairs.
    /// Takes O(r w log(n + r)) time for r rows of w cells beside n.
    pub fn put(&mut self, rows: &[(Row, i64)]) -> Result<(), AllocError>
        requires begun { 0 < self.old.night }
        requires counts { HaveCounts (plain rows.now) }
        ensures night { self.new.night ≡ self.old.night }
        ensures ok { OnOk result ((row : List ℤ) → slots self.new row ≡ written N self.old.night (plain rows.now) row (slots self.old row)) }
        ensures err { OnErr result ((row : List ℤ) → MayBeAdded (plain rows.now) row (slots self.old row) (slots self.new row)) }

        // Memory only where one of the rows has no pair of this night.
        ensures memory { OnErr result (IsNewToNight (plain rows.now) self.old) }
    {
        let last = self.touched.len() - 1;
        add_rows(&mut self.rows, &mut self.touched[last], rows)?;
        write_rows(&mut self.rows, self.night, rows);
        Ok(())
    }

    /// Takes away what the night that was begun last wrote.
    /// Takes O(t w log n) time for the t rows that it touched, of n of w cells, and no memory. No other row is looked at.
    pub fn give_up(&mut self)
        requires begun { 0 < self.old.night }
        ensures night { self.new.night ≡ self.old.night }
        ensures rows { (row : List ℤ) → slots self.new row ≡ given_up self.old.night (slots self.old row) }
    {
        let last = self.touched.len() - 1;
        take_back(&mut self.rows, &self.touched[last], self.night);
    }

    /// Begins the next night, and drops the rows of which no session that can be read from then on reads anything.
    /// Takes O(t w log n) time for the t rows that the night before or the first of the last N - 1 touched, of n of w cells. No other row
    /// is looked at.
    pub fn begin(&mut self)
        requires { self.old.night + 1 < 2 ^ 64 }
        ensures night { self.new.night ≡ self.old.night + 1 }
        ensures rows { (row : List ℤ) → IsBegun N (self.old.night + 1) (slots self.old row) (slots self.new row) }
    {
        let last = self.touched.len() - 1;
        let night = self.night + 1;
        drop_unread(&mut self.rows, &self.touched[last], night);
        drop_unread(&mut self.rows, &self.touched[0], night);
        self.touched.rotate_left(1);
        self.touched[last] = RowMap::new(self.alloc);
        self.night = night;
    }

    /// Makes a copy of this table.
    /// Fails for want of memory, which it always takes: for the sets of rows that the last nights touched.
    /// Takes O((n + t) w) time for n rows of w cells and t touched ones.
    pub fn copy(&self, alloc: Global) -> Result<Self, AllocError>
        ensures { IfOk result (λ copy. copy ≡ self.now) }
    {
        let rows = self.rows.copy(alloc)?;
        let touched = copy_sets(alloc, self.touched.as_slice())?;
        Ok(VersionTable {
            alloc,
            night: self.night,
            rows,
            touched,
        })
    }
}
