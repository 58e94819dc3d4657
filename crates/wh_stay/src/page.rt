//! Answers pages of views without a bookmark, and reads the cells of the row that one begins behind.

ghost use Rattle.std.specs.Prelude.{◌≡◌, ◌⊎◌, ◌++◌, option_map, slice_get, Ok, Err, IfOk, IfErr, OnOk, OnErr};
ghost use Rattle.std.specs.List.{flat_map};
ghost use Rattle.wh_core.specs.Log.{Log};
ghost use Rattle.wh_core.specs.Nights.{Setup};
ghost use Rattle.wh_core.specs.Standing.{StandsWith};
ghost use Rattle.wh_stay.specs.Pages.{IsPageTold, name_behind_comma, one_record, row_asked, sole_row};
ghost use Rattle.wh_stay.specs.Standing.{IsLive, core_of, shown_standing, standing_of};

use crate::standing::{Live, Standing};
use std::alloc::{AllocError, Global};
use std::thread::Threads;
use wh_core::Reply;
use wh_formula::{RowTest, RowValue};
use wh_load::{Column, LoadFault, WrittenView, read_table};
use wh_row::{Bag, Row};
use wh_threads::ThreadBudget;

/// Appends the names of columns, each behind a comma.
fn append_names(out: &mut Vec<u8>, columns: &[Column]) -> Result<(), AllocError>
    ensures { OnOk result (out.new.items ≡ out.old.items ++ flat_map name_behind_comma columns.now) }
{
    for column in columns {
        out.push(b',')?;
        out.extend_from_slice(column.name().as_bytes())?;
    }
    Ok(())
}

/// The text of a table of these columns with one record, of count 1 and these cells.
fn one_record(alloc: Global, columns: &[Column], cells: &[u8]) -> Result<Vec<u8>, AllocError>
    ensures { IfOk result (λ text. text.items ≡ one_record columns.now cells.now) }
{
    let mut text = Vec::new(alloc);
    text.extend_from_slice(b"#")?;
    append_names(&mut text, columns)?;
    text.extend_from_slice(b"\n1,")?;
    text.extend_from_slice(cells)?;
    Ok(text)
}

/// The row of a table of one record.
fn sole_row(alloc: Global, table: &Bag) -> Result<Row, LoadFault>
    ensures ok { IfOk result (λ row. sole_row table.now ≡ Ok row.items) }
    ensures err { IfErr result (λ f. (f ≡ LoadFault.Memory) ⊎ (sole_row table.now ≡ Err f)) }
{
    if table.total() != 1 {
        return Err(LoadFault::Csv(3));
    }
    match table.rows().next() {
        Some((row, _)) => Ok(Row::from_slice(alloc, row)?),
        None => Err(LoadFault::Csv(3)),
    }
}

/// The view of this number, if there is one.
fn view_at(views: &[WrittenView], view: usize) -> Option<&WrittenView>
    ensures { option_map (λ own. own.now) result ≡ slice_get views.now view }
{
    views.get(view)
}

impl Standing {
    /// Reads the cells of a row over the columns of this view, if there is one. Texts that are new are forgotten again.
    fn read_row<R: Threads + Sync>(
        &mut self,
        budget: &ThreadBudget<'_, R>,
        view: usize,
        cells: &[u8],
    ) -> Result<Option<Row>, LoadFault>
        ensures ok { IfOk result (λ row. row_asked (shown_standing self.old) (Some view) (Some cells.now) ≡ Ok (option_map (λ own. own.items) row)) }
        ensures err { IfErr result (λ f. (f ≡ LoadFault.Memory) ⊎ (row_asked (shown_standing self.old) (Some view) (Some cells.now) ≡ Err f)) }
        ensures same { shown_standing self.new ≡ shown_standing self.old }
    {
        let Some(own) = view_at(&self.views, view) else {
            return Ok(None);
        };
        let text = one_record(budget.alloc, &own.columns, cells)?;
        let before = self.texts.len();
        let read = read_table(budget, &own.columns, &text, &mut self.texts);
        self.texts.truncate(before);
        Ok(Some(sole_row(budget.alloc, &read?)?))
    }

    /// Reads the cells of the row that a page begins behind, if there are some.
    fn row_asked<R: Threads + Sync>(
        &mut self,
        budget: &ThreadBudget<'_, R>,
        view: Option<usize>,
        cells: Option<&[u8]>,
    ) -> Result<Option<Row>, LoadFault>
        ensures ok { IfOk result (λ row. row_asked (shown_standing self.old) view (option_map (λ own. own.now) cells.entry) ≡ Ok (option_map (λ own. own.items) row)) }
        ensures err { IfErr result (λ f. (f ≡ LoadFault.Memory) ⊎ (row_asked (shown_standing self.old) view (option_map (λ own. own.now) cells.entry) ≡ Err f)) }
        ensures same { shown_standing self.new ≡ shown_standing self.old }
    {
        match (view, cells) {
            (Some(view), Some(cells)) => self.read_row(budget, view, cells),
            _ => Ok(None),
        }
    }
}

impl<F: RowTest + Drop, G: RowValue + Drop> Live<F, G> {
    /// Answers a page of a view in the session of a desk: its first rows behind the row that these cells name, which need not be there, or
    /// from its beginning. The cells are those of a record, without its count. A text in them that is not known stands behind all that are.
    /// Nothing is changed, and no bookmark is moved.
    /// Fails with the fault of the cells, as of record 2 of a table, before anything is asked of the machine. Where the view is not there,
    /// they are not read.
    pub fn page<R: Threads + Sync>(
        &mut self,
        budget: &ThreadBudget<'_, R>,
        desk: usize,
        view: Option<usize>,
        limit: usize,
        cells: Option<&[u8]>,
    ) -> Result<Reply, LoadFault>
        requires { IsLive self.old }
        ensures live { IsLive self.new }
        ensures standing { standing_of self.new ≡ standing_of self.old }
        ensures core { core_of self.new ≡ core_of self.old }
        ensures told { (s : Setup) (log : Log) → StandsWith s log (core_of self.old)
            → IsPageTold s log (standing_of self.old) desk view limit (option_map (λ own. own.now) cells.entry) result }
    {
        let after = self.standing.row_asked(budget, view, cells)?;
        let number = view.unwrap_or(self.standing.names.len());
        match &after {
            Some(row) => Ok(self.core.page(desk, number, limit, Some(row.as_slice()))),
            None => Ok(self.core.page(desk, number, limit, None)),
        }
    }
}
