//! Brings a small map into a large one, row by row. What a large map has beside the rows of the small one is neither walked through nor
//! copied.

ghost use Rattle.std.specs.Prelude.{◌≡◌, ◌++◌, List, ℤ, Some, None, cond, OnOk, OnErr, IfOk};
ghost use Rattle.wh_pieces.specs.Row.{is_row};
ghost use Rattle.wh_pieces.specs.Place.{AreRisingRows, IsAbove};
ghost use Rattle.wh_pieces.specs.Pieces.{found};
ghost use Rattle.wh_pieces.specs.Merged.{AreMerged, HaveRowsOf};
ghost use Rattle.wh_pieces.specs.Inner.Merged.{entry_of, lacking, either, without};

use crate::pieces::RowMap;
use std::alloc::AllocError;

impl<T: Copy + Drop> RowMap<T> {
    /// Merges another map into this one, row by row, which serves where the other is much smaller. Where both have a row, `combine` gives
    /// its value, or none where the row is to be left out. An error, for want of memory, leaves this map as it was; there is none where
    /// each row of the other is here. Takes the time of m inserts, O(m w log(n + m)), for the other's m rows beside n, of w cells.
    pub fn merge<F: Fn(T, T) -> Option<T>>(
        &mut self,
        other: &Self,
        combine: F,
    ) -> Result<(), AllocError>
        requires { F.IsAlwaysCallable combine }
        ensures ok { OnOk result (AreMerged (λ v more r. F.post combine v more r) self.old other.now self.new) }
        ensures err { OnErr result (self.new ≡ self.old) }

        // Memory only where the other map has a row that is new here.
        ensures memory { OnErr result (¬ (HaveRowsOf self.old other.now)) }
    {
        let brought = self.bring(other)?;
        // Both rise, so each row that was brought is met as the first of those that are left.
        let mut left = brought.entries();
        for (row, more) in other.entries() {
            if left.begin_with(row) {
                left.pass();
            } else {
                self.combine_at(row, more, &combine);
            }
        }
        Ok(())
    }

    /// Puts in the entries of another map whose rows are not here, and gives them. Where it fails, none of them stays.
    fn bring(&mut self, other: &Self) -> Result<Self, AllocError>
        ensures brought { IfOk result (λ brought. (q : List ℤ) → found q brought ≡ lacking (found q self.old) (found q other.now)) }
        ensures ok { OnOk result ((q : List ℤ) → found q self.new ≡ either (found q self.old) (found q other.now)) }
        ensures err { OnErr result (self.new ≡ self.old) }
        ensures memory { OnErr result (¬ (HaveRowsOf self.old other.now)) }
    {
        // Told by the map: its rows rise.
        let _ = self.len();
        let mut brought = self.none();
        for (row, value) in other.entries() {
            let Ok(()) = self.bring_row(row, value, &mut brought) else {
                self.take_rows(&brought);
                return Err(AllocError);
            };
        }
        Ok(brought)
    }

    /// Puts in a row that is not here, and notes it behind those that are noted. Where it fails, it does neither.
    fn bring_row(&mut self, row: &[i64], value: T, noted: &mut Self) -> Result<(), AllocError>
        requires { IsAbove row.now noted.old }
        ensures here { OnOk result ((q : List ℤ) → found q self.new ≡ either (found q self.old) (cond (is_row q row.now) (Some value) None)) }
        ensures noted { OnOk result (noted.new ≡ noted.old ++ entry_of row.now (lacking (found row.now self.old) (Some value))) }
        ensures err { OnErr result ((q : List ℤ) → found q self.new ≡ found q self.old) }
        ensures noted_err { OnErr result (noted.new ≡ noted.old) }
        ensures memory { OnErr result (found row.now self.old ≡ None) }
    {
        let stood = self.insert_or(
            row,
            value,
            &move |old: T| -> Option<T>
                ensures { result ≡ Some old }
            { Some(old) },
        )?;
        if stood.is_some() {
            return Ok(());
        }
        let Ok(()) = noted.push(row, value) else {
            let _ = self.remove(row);
            return Err(AllocError);
        };
        Ok(())
    }

    /// Removes all rows of another map.
    fn take_rows(&mut self, more: &Self)
        ensures found { (q : List ℤ) → found q self.new ≡ without (found q more.now) (found q self.old) }
        ensures rising { AreRisingRows self.new }
    {
        for (row, _) in more.entries() {
            let _ = self.remove(row);
        }
        // Told by the map.
        let _ = self.len();
    }
}
