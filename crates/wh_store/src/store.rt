//! Keeps the versions of a warehouse that sessions can still read.

ghost use Rattle.std.specs.Prelude.{◌≡◌, ◌≢◌, ◌≤◌, ◌<◌, ◌++◌, [], ◌∷◌, ◌+◌, ℕ, List, Some, Err, IfOk, OnOk, OnErr, IsOkUnless, IsTrue, MatchOption, is_some, length, option_map};
ghost use Rattle.wh_row.specs.Bag.{empty};
ghost use Rattle.wh_store.specs.Kept.{AreTables};
ghost use Rattle.wh_store.specs.Operations.{Operation, operation};
ghost use Rattle.wh_store.specs.Pages.{Contents, page_of};
ghost use Rattle.wh_store.specs.Refusals.{refusal};
ghost use Rattle.wh_store.specs.Slots.{opening_rows, pairs_at};
ghost use Rattle.wh_store.specs.Versions.{table_in, table_of, version as version_of, versions_of};
ghost use Rattle.wh_store.specs.Windows.{CountsAreRead, Shows, TakesMemory, applied, current, kept_version, unexpired};
ghost use Rattle.wh_versions.specs.Tables.{pairs_in};

use crate::fault::StoreFault;
use crate::held::Held;
use crate::operation::{MAX_KEYS, Op};
use crate::page::Page;
use crate::slots::{Places, Slots};
use std::alloc::{AllocError, Global};
use std::marker::Model;
use wh_row::Bag;

/// The fewest versions that a store keeps: the current one and the one before it.
pub const MIN_VERSIONS: usize = 2;

/// The most versions that a store keeps.
pub const MAX_VERSIONS: usize = 4;

/// The rows of all views with as many versions as a store keeps.
#[derive(Drop)]
enum Depth {
    Two(Held<2>),
    Three(Held<3>),
    Four(Held<4>),
}

/// The versions of a warehouse that sessions can still read, and in a night the one that is being written. It holds the rows of each view,
/// each with its counts in the last versions.
/// It is seen as what it shows: the current version's number, the contents of each kept version, the newest first, those being written, and
/// the rows that have pairs.
#[derive(Drop)]
pub struct Store {
    held: Depth,
}

impl Model for Store {
    ghost use Rattle.wh_store.specs.Windows.{Window};
    ghost use Rattle.wh_store.specs.Inner.Windows.{coded_window};

    ghost Value = { Window };

    ghost coded = { coded_window };

    ghost use Rattle.wh_store.specs.Inner.Depths.{shown_by};

    ghost view = { λ s. shown_by s.held };
}

impl Store {
    /// Makes a store of version 0, with these tables, in no night. Sessions of the last `versions` versions can be read, 2 to 4, and of one
    /// less while a night is open.
    /// Fails for want of memory.
    /// Takes O(n w) time for n rows of w cells in all tables.
    pub fn new(alloc: Global, tables: &[Bag], versions: usize) -> Result<Store, AllocError>
        requires tables { AreTables tables.now }
        requires least { 2 ≤ versions }
        requires most { versions ≤ 4 }
        ensures shows { IfOk result (λ store. Shows store tables.now []) }
        ensures limit { IfOk result (λ store. store.limit ≡ versions) }
        ensures current { IfOk result (λ store. current store ≡ tables.now) }
        ensures rows { IfOk result (λ store. store.rows ≡ opening_rows tables.now) }
    {
        let held = match versions {
            2 => Depth::Two(Held::new(alloc, tables)?),
            3 => Depth::Three(Held::new(alloc, tables)?),
            _ => Depth::Four(Held::new(alloc, tables)?),
        };
        Ok(Store { held })
    }

    /// At least two versions are kept. For proofs: it does nothing.
    fn keeps_two(&self)
        ensures { 2 ≤ self.now.limit }
    {
        match &self.held {
            Depth::Two(held) => held.is_enough(),
            Depth::Three(held) => held.is_enough(),
            Depth::Four(held) => held.is_enough(),
        }
    }

    fn change(&mut self, op: &Op) -> Result<(), StoreFault>
        ensures ok { OnOk result (self.new ≡ applied self.old (operation op.now)) }
        ensures err { OnErr result (self.new ≡ self.old) }
        ensures refused { MatchOption (refusal self.old (operation op.now)) (IsOkUnless result StoreFault.Memory) (λ fault. result ≡ Err fault) }
        ensures memory { result ≡ Err StoreFault.Memory → TakesMemory self.old (operation op.now) }
    {
        match &mut self.held {
            Depth::Two(held) => held.apply(op),
            Depth::Three(held) => held.apply(op),
            Depth::Four(held) => held.apply(op),
        }
    }

    /// Does an operation.
    /// Fails with the first of [`StoreFault`]'s reasons that holds, and then changes nothing that is shown. Only a put takes memory, and
    /// none where each of its rows was put in this night before.
    /// Begin and GiveUp take O(V + t w log n) time for V views and the t rows that nights touched, of n of w cells. Commit takes O(1), and
    /// a put O(r w log(n + r)) for r rows.
    pub fn apply(&mut self, op: &Op) -> Result<(), StoreFault>
        // Each list of operations that was shown is shown with this one behind it.
        ensures shows { OnOk result ((opening : Contents) (ops : List Operation) → Shows self.old opening ops → Shows self.new opening (ops ++ operation op.now ∷ [])) }
        ensures ok { OnOk result (self.new ≡ applied self.old (operation op.now)) }
        ensures err { OnErr result (self.new ≡ self.old) }
        ensures refused { MatchOption (refusal self.old (operation op.now)) (IsOkUnless result StoreFault.Memory) (λ fault. result ≡ Err fault) }
        ensures memory { result ≡ Err StoreFault.Memory → TakesMemory self.old (operation op.now) }
    {
        self.keeps_two();
        self.change(op)
    }

    /// Tells why this operation would be refused, want of memory aside; `None` where it would not.
    pub fn refuses(&self, op: &Op) -> Option<StoreFault>
        ensures { result ≡ refusal self.now (operation op.now) }
    {
        match &self.held {
            Depth::Two(held) => held.refuses(op),
            Depth::Three(held) => held.refuses(op),
            Depth::Four(held) => held.refuses(op),
        }
    }

    /// Returns the number of the current version, from 0.
    pub fn number(&self) -> u64
        ensures { result ≡ self.now.number }
    {
        match &self.held {
            Depth::Two(held) => held.number(),
            Depth::Three(held) => held.number(),
            Depth::Four(held) => held.number(),
        }
    }

    /// Tells whether a night is open.
    pub fn is_active(&self) -> bool
        ensures { result ≡ is_some self.now.draft }
    {
        match &self.held {
            Depth::Two(held) => held.is_active(),
            Depth::Three(held) => held.is_active(),
            Depth::Four(held) => held.is_active(),
        }
    }

    /// Returns the number of the version that an open night writes, one above the current version's; `None` where no night is open.
    pub fn night_number(&self) -> Option<u64>
        ensures { result ≡ option_map (λ contents. self.now.number + 1) self.now.draft }
    {
        match &self.held {
            Depth::Two(held) => held.night_number(),
            Depth::Three(held) => held.night_number(),
            Depth::Four(held) => held.night_number(),
        }
    }

    /// Tells whether sessions of this version can be read.
    pub fn unexpired(&self, version: u64) -> bool
        ensures { result ≡ unexpired self.now version }
    {
        match &self.held {
            Depth::Two(held) => held.unexpired(version),
            Depth::Three(held) => held.unexpired(version),
            Depth::Four(held) => held.unexpired(version),
        }
    }

    /// How many views there are, in each version that is kept.
    fn views_of(&self) -> usize
        ensures current { result ≡ length (current self.now) }
        ensures kept { (version : ℕ) → IsTrue (unexpired self.now version) → result ≡ length (kept_version self.now version) }
    {
        match &self.held {
            Depth::Two(held) => held.views(),
            Depth::Three(held) => held.views(),
            Depth::Four(held) => held.views(),
        }
    }

    /// Returns how many views a version has that sessions can be read of.
    pub fn views(&self, version: u64) -> usize
        requires { IsTrue (unexpired self.now version) }
        ensures len { result ≡ length (kept_version self.now version) }
        ensures of_list { (opening : Contents) (ops : List Operation) → Shows self.now opening ops → result ≡ length (version_of (versions_of opening ops) version) }
    {
        self.views_of()
    }

    /// A page of a view in a version that sessions can be read of.
    fn page(
        &self,
        version: u64,
        view: usize,
        after: Option<&[i64]>,
        limit: usize,
    ) -> Result<Page, AllocError>
        requires unexpired { IsTrue (unexpired self.now version) }
        requires view { view < length (kept_version self.now version) }
        requires most { limit ≤ 256 }
        ensures page { IfOk result (λ page. page ≡ page_of (table_in (kept_version self.now version) view) (option_map (λ row. row.now) after.entry) limit) }
        ensures memory { OnErr result ((page_of (table_in (kept_version self.now version) view) (option_map (λ row. row.now) after.entry) limit).rows ≢ []) }
    {
        match &self.held {
            Depth::Two(held) => held.visible(version, view, after, limit),
            Depth::Three(held) => held.visible(version, view, after, limit),
            Depth::Four(held) => held.visible(version, view, after, limit),
        }
    }

    /// Returns a page of a view in a version that sessions can be read of: its first rows after this one, or from its beginning. There are
    /// at most `limit` rows, which is 1 to 256.
    /// Fails for want of memory, and only where the page has rows.
    /// Takes O(w (log n + p)) time for n rows of w cells, p of which it walks through: also those that the version does not show.
    pub fn visible(
        &self,
        version: u64,
        view: usize,
        after: Option<&[i64]>,
        limit: usize,
    ) -> Result<Page, AllocError>
        requires unexpired { IsTrue (unexpired self.now version) }
        requires view { view < length (kept_version self.now version) }
        requires least { 1 ≤ limit }
        requires most { limit ≤ 256 }
        ensures page { IfOk result (λ page. page ≡ page_of (table_in (kept_version self.now version) view) (option_map (λ row. row.now) after.entry) limit) }
        ensures of_list { IfOk result (λ page. (opening : Contents) (ops : List Operation) → Shows self.now opening ops → page ≡ page_of (table_of (versions_of opening ops) version view) (option_map (λ row. row.now) after.entry) limit) }
        ensures memory { OnErr result ((page_of (table_in (kept_version self.now version) view) (option_map (λ row. row.now) after.entry) limit).rows ≢ []) }
    {
        self.page(version, view, after, limit)
    }

    /// Returns how many views the current version has.
    pub fn current_views(&self) -> usize
        ensures len { result ≡ length (current self.now) }
        ensures of_list { (opening : Contents) (ops : List Operation) → Shows self.now opening ops → result ≡ length (versions_of opening ops).newest }
    {
        self.keeps_two();
        self.views_of()
    }

    fn table_of_view(&self, view: usize) -> Result<Bag, AllocError>
        requires { view < length (current self.now) }
        ensures table { IfOk result (λ table. table ≡ table_in (current self.now) view) }
        ensures memory { OnErr result (table_in (current self.now) view ≢ empty) }
    {
        match &self.held {
            Depth::Two(held) => held.table(view),
            Depth::Three(held) => held.table(view),
            Depth::Four(held) => held.table(view),
        }
    }

    /// Returns the table of a view in the current version.
    /// Fails for want of memory, and only where the table has rows.
    /// Takes O(n w) time for the view's n rows of w cells.
    pub fn table(&self, view: usize) -> Result<Bag, AllocError>
        requires { view < length (current self.now) }
        ensures table { IfOk result (λ table. table ≡ table_in (current self.now) view) }
        ensures of_list { IfOk result (λ table. (opening : Contents) (ops : List Operation) → Shows self.now opening ops → table ≡ table_in (versions_of opening ops).newest view) }
        ensures memory { OnErr result (table_in (current self.now) view ≢ empty) }
    {
        self.keeps_two();
        self.table_of_view(view)
    }

    /// Returns what a row of a view counts in the last versions. It is `None` where the row is not there, while a row that is there may
    /// have no pairs.
    /// Takes O(w log n) time for the view's n rows of w cells.
    pub fn slots(&self, view: usize, row: &[i64]) -> Option<Slots>
        ensures { pairs_in result ≡ pairs_at self.now.rows view row.now }
    {
        let places = match &self.held {
            Depth::Two(held) => Places::Two(held.slots(view, row)?),
            Depth::Three(held) => Places::Three(held.slots(view, row)?),
            Depth::Four(held) => Places::Four(held.slots(view, row)?),
        };
        Some(Slots { places })
    }

    /// States that sessions read what rows have. Each row of a view counts what a session reads of the row's pairs, in each version that
    /// can be read and in the one that a night is writing.
    /// It does nothing, and is there for proofs.
    pub fn slots_are_read(&self, view: usize)
        requires { view < length (current self.now) }
        ensures kept { (version : ℕ) → IsTrue (unexpired self.now version) → CountsAreRead self.now view version (kept_version self.now version) }
        ensures night { (contents : Contents) → self.now.draft ≡ Some contents → CountsAreRead self.now view (self.now.number + 1) contents }
    {
        match &self.held {
            Depth::Two(held) => held.slots_are_read(view),
            Depth::Three(held) => held.slots_are_read(view),
            Depth::Four(held) => held.slots_are_read(view),
        }
    }

    /// Makes a store that shows what this one shows.
    /// Fails for want of memory.
    /// Takes O((n + t) w) time for n rows of w cells, and t that the last nights touched.
    pub fn copy(&self, alloc: Global) -> Result<Store, AllocError>
        ensures { IfOk result (λ copy. copy ≡ self.now) }
    {
        let held = match &self.held {
            Depth::Two(held) => Depth::Two(held.copy(alloc)?),
            Depth::Three(held) => Depth::Three(held.copy(alloc)?),
            Depth::Four(held) => Depth::Four(held.copy(alloc)?),
        };
        Ok(Store { held })
    }
}
