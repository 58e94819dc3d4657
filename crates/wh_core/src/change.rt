//! Finds by how much the rows of a view count otherwise in what an open night writes.

ghost use Rattle.std.specs.Prelude.{◌≡◌, ◌<◌, ◌||◌, Bool, IfOk, OnOk, length};
ghost use Rattle.wh_row.specs.Bag.{count};
ghost use Rattle.wh_row.specs.Row.{Row as Cells, is_row};
ghost use Rattle.wh_row.specs.Stored.{plain};
ghost use Rattle.wh_versions.specs.Tables.{is_given};
ghost use Rattle.wh_store.specs.Windows.{current};
ghost use Rattle.wh_core.specs.Changes.{change_written};
ghost use Rattle.wh_core.specs.Laws.{IsSetup};
ghost use Rattle.wh_core.specs.Log.{Log};
ghost use Rattle.wh_core.specs.Nights.{Setup, versions};
ghost use Rattle.wh_core.specs.Standing.{Stands};
ghost use Rattle.wh_core.specs.Inner.Changes.{AreNoted, change_shown, is_put_by};
ghost use Rattle.wh_core.specs.Inner.Standing.{IsRunning};

use crate::laws::published_are_well_formed;
use crate::machine::Machine;
use std::alloc::{AllocError, Global};
use wh_carry::Part;
use wh_row::{Bag, BagFault, Row};
use wh_store::{Op, tables_stay_law, told_law};

impl Machine {
    /// By how much a row of a view counts otherwise. It is read of the row's own pairs.
    fn row_change(&self, view: usize, row: &[i64]) -> i64
        requires running { IsRunning self.now }
        requires view { view < length (current self.now.store) }
        ensures { result ≡ count (change_shown self.now.store view) row.now }
    {
        published_are_well_formed();
        tables_stay_law();
        told_law();
        let Some(night) = self.store.night_number() else {
            return 0;
        };
        self.store.slots_are_read(view);
        let Some(slots) = self.store.slots(view, row) else {
            return 0;
        };
        slots.read(night) - slots.read(self.store.number())
    }

    /// Notes by how much a row counts otherwise.
    fn note_row(&self, view: usize, row: &[i64], change: &mut Bag) -> Result<(), AllocError>
        requires running { IsRunning self.now }
        requires view { view < length (current self.now.store) }
        ensures { OnOk result ((noted : Cells → Bool) → AreNoted (change_shown self.now.store view) noted change.old
            → AreNoted (change_shown self.now.store view) (λ r. noted r || is_row r row.now) change.new) }
    {
        if change.count(row) != 0 {
            return Ok(());
        }
        match change.add(row, self.row_change(view, row)) {
            Ok(()) => Ok(()),
            Err(BagFault::Memory) => Err(AllocError),
            Err(BagFault::Large) => unreachable!(),
        }
    }

    /// Notes by how much each of these rows counts otherwise.
    fn note_rows(
        &self,
        view: usize,
        rows: &[(Row, i64)],
        change: &mut Bag,
    ) -> Result<(), AllocError>
        requires running { IsRunning self.now }
        requires view { view < length (current self.now.store) }
        ensures { OnOk result ((noted : Cells → Bool) → AreNoted (change_shown self.now.store view) noted change.old
            → AreNoted (change_shown self.now.store view) (λ r. noted r || is_given r (plain rows.now)) change.new) }
    {
        for (row, _) in rows {
            self.note_row(view, row.as_slice(), change)?;
        }
        Ok(())
    }

    /// Notes by how much each row counts otherwise that an operation puts of the view.
    fn note_page(&self, view: usize, op: &Op, change: &mut Bag) -> Result<(), AllocError>
        requires running { IsRunning self.now }
        requires view { view < length (current self.now.store) }
        ensures { OnOk result ((noted : Cells → Bool) → AreNoted (change_shown self.now.store view) noted change.old
            → AreNoted (change_shown self.now.store view) (λ r. noted r || is_put_by view r op.now) change.new) }
    {
        match op {
            Op::Put(of, rows) if *of == view => self.note_rows(view, rows.as_slice(), change),
            _ => Ok(()),
        }
    }

    /// The change that is being written of a view: no row changes of a view that is not there, or where no night is open.
    /// Fails for want of memory.
    /// Takes O(p + m w log n) time for the p pages that were put, with m rows of the view, of w cells, in a table of n.
    pub(crate) fn change(&self, view: usize) -> Result<Bag, AllocError>
        requires running { IsRunning self.now }
        ensures { IfOk result (λ change. (s : Setup) (log : Log) → IsSetup s → Stands s log self.now → change ≡ change_written (versions s log) view) }
    {
        told_law();
        let mut change = Bag::new(self.alloc);
        if view >= self.store.current_views() || !self.store.is_active() {
            return Ok(change);
        }
        let count = self.place.min(self.course.parts.len());
        let put = &self.course.parts[..count];
        for part in put {
            if let Part::Page(op) = part {
                self.note_page(view, op, &mut change)?;
            }
        }
        Ok(change)
    }
}
