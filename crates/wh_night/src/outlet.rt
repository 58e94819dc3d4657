//! Takes the new counts that Insts make, to where the night hands them.

ghost use Rattle.std.specs.Prelude.{◌≡◌, ◌≤◌, ℕ, Option, None, Some, OnOk, OnErr, IfSome, map};
ghost use Rattle.wh_store.specs.Operations.{Writes};
ghost use Rattle.wh_store.specs.Ledgers.{Ledger};
ghost use Rattle.wh_carry.specs.NightList.{counts_in, pages_of};
ghost use Rattle.wh_night.specs.Inner.Underway.{ArePartlyOut, TakesRows, behind};

use crate::pages::{Pages, publish_change};
use std::alloc::AllocError;
use std::sync::Wait;
use wh_row::Bag;
use wh_store::Publish;

/// How a night's new counts go out to a writer. It knows pages alone: tables and changes, and nothing of a catalogue.
pub(crate) trait Outlet<W> {
    // What the writer has published, if it publishes at all.
    ghost kept: { W → Option Ledger };

    // What no page changes: by what warehouses are told apart, and how many give-ups were refused.
    ghost Home: { Type 0 };

    ghost home: { W → Home };

    // How many rows of a view one operation writes at most.
    ghost keys: { Self → ℕ };

    /// Puts the rows of a change, each with its count in the table that has the change.
    fn put(&self, writer: &mut W, view: usize, table: &Bag, change: &Bag) -> Result<(), AllocError>
        requires some { 1 ≤ keys self.now }
        requires takes { IfSome (kept writer.old) (TakesRows (keys self.now) view (counts_in table.now change.now)) }
        ensures home { home writer.new ≡ home writer.old }
        ensures out { OnOk result (kept writer.new ≡ behind (kept writer.old) (map (Writes view) (pages_of (keys self.now) (counts_in table.now change.now)))) }
        ensures err { OnErr result (ArePartlyOut (kept writer.old) (map (Writes view) (pages_of (keys self.now) (counts_in table.now change.now))) (kept writer.new)) };
}

/// For a night that nobody reads beside: nothing goes out.
pub(crate) struct Nowhere;

impl Outlet<()> for Nowhere {
    ghost kept = { λ _. None };

    ghost Home = { Unit {0} };

    ghost home = { λ _. tt };

    ghost keys = { λ _. 1 };

    fn put(
        &self,
        _writer: &mut (),
        _view: usize,
        _table: &Bag,
        _change: &Bag,
    ) -> Result<(), AllocError> {
        Ok(())
    }
}

impl<P: Publish, R: Wait> Outlet<P> for Pages<'_, R> {
    ghost kept = { λ writer. Some (P.kept writer) };

    ghost Home = { P.Home × ℕ };

    ghost home = { λ writer. (P.home writer, P.refused_ends writer) };

    ghost keys = { λ pages. pages.keys };

    fn put(
        &self,
        writer: &mut P,
        view: usize,
        table: &Bag,
        change: &Bag,
    ) -> Result<(), AllocError> {
        publish_change(self, writer, view, table, change)
    }
}
