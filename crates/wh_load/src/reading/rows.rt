//! Reads the tables and the changes of base views.

ghost use Rattle.std.specs.Prelude.{◌≡◌, ◌≢◌, ◌⊎◌, [], map, option_copied, Ok, Err, IfOk, IfErr, IfSome, OnErr};
ghost use Rattle.wh_text_bundle.specs.Text.{text_of};
ghost use Rattle.wh_text_catalogue.specs.Definitions.{shown_view};
ghost use Rattle.wh_text_tables.specs.TableRead.{IsAhead};
ghost use Rattle.wh_load.specs.ReadingNight.{ChangeRows, TableRows, rows_after, rows_given, rows_written};
ghost use Rattle.wh_load.specs.Inner.ReadingRows.{IsAheadOfPart, content_of, shown_rows};

use super::ahead::{read_small_parts, take_next};
use super::found::{Rows, part_of};
use super::views::KnownViews;
use std::thread::Threads;
use wh_row::Bag;
use wh_text::{Column, Dict, LoadFault};
use wh_text_bundle::{Bundle, Part};
use wh_text_catalogue::WrittenView;
use wh_text_tables::{RowsAhead, read_changes, read_from, read_table};
use wh_threads::ThreadBudget;

/// What the text of a part of these rows gives.
fn read_anew<R: Threads + Sync>(
    budget: &ThreadBudget<'_, R>,
    rows: Rows,
    columns: &[Column],
    text: &[u8],
    texts: &mut Dict,
) -> Result<Bag, LoadFault>
    ensures ok { IfOk result (λ bag. rows_given (shown_rows rows) columns.now texts.old text.now ≡ Ok (bag, texts.new)) }
    ensures err { IfErr result (λ f. (f ≡ LoadFault.Memory) ⊎ (rows_given (shown_rows rows) columns.now texts.old text.now ≡ Err f)) }
{
    match rows {
        Rows::Tables => read_table(budget, columns, text, texts),
        Rows::Changes(_) => read_changes(budget, columns, text, texts),
    }
}

/// Reads a part of rows, of which some may have been read ahead by another thread.
fn read_begun<R: Threads + Sync>(
    budget: &ThreadBudget<'_, R>,
    rows: Rows,
    columns: &[Column],
    text: &[u8],
    ahead: Option<RowsAhead>,
    texts: &mut Dict,
) -> Result<Bag, LoadFault>
    requires { IfSome ahead (IsAhead (content_of (shown_rows rows)) columns.now text.now) }
    ensures ok { IfOk result (λ bag. rows_given (shown_rows rows) columns.now texts.old text.now ≡ Ok (bag, texts.new)) }
    ensures err { IfErr result (λ f. (f ≡ LoadFault.Memory) ⊎ (rows_given (shown_rows rows) columns.now texts.old text.now ≡ Err f)) }
{
    match ahead {
        Some(own) => read_from(budget, rows.content(), columns, text, own, texts),
        None => read_anew(budget, rows, columns, text, texts),
    }
}

/// What the part of a view writes, where it may have been read ahead.
fn part_rows<R: Threads + Sync>(
    budget: &ThreadBudget<'_, R>,
    rows: Rows,
    view: &WrittenView,
    part: &Part<'_>,
    ahead: Option<RowsAhead>,
    texts: &mut Dict,
) -> Result<Bag, LoadFault>
    requires { IfSome ahead (IsAhead (content_of (shown_rows rows)) (shown_view view.now).columns (text_of part.now)) }
    ensures ok { IfOk result (λ bag. rows_given (shown_rows rows) (shown_view view.now).columns texts.old (text_of part.now) ≡ Ok (bag, texts.new)) }
    ensures err { IfErr result (λ f. (f ≡ LoadFault.Memory) ⊎ (rows_given (shown_rows rows) (shown_view view.now).columns texts.old (text_of part.now) ≡ Err f)) }
{
    let text = part.text(budget.alloc)?;
    read_begun(budget, rows, &view.columns, &text, ahead, texts)
}

/// The rows of a view that has this part, and no rows where it has none.
fn rows_written<R: Threads + Sync>(
    budget: &ThreadBudget<'_, R>,
    rows: Rows,
    view: &WrittenView,
    part: Option<&Part<'_>>,
    ahead: Option<RowsAhead>,
    texts: &mut Dict,
) -> Result<Bag, LoadFault>
    requires { IfSome ahead (IsAheadOfPart (shown_rows rows) (shown_view view.now) (option_copied part)) }
    ensures ok { IfOk result (λ bag. rows_written (shown_rows rows) (shown_view view.now).columns (option_copied part.entry) texts.old ≡ Ok (bag, texts.new)) }
    ensures err { IfErr result (λ f. (f ≡ LoadFault.Memory) ⊎ (rows_written (shown_rows rows) (shown_view view.now).columns (option_copied part.entry) texts.old ≡ Err f)) }
{
    match part {
        Some(part) => part_rows(budget, rows, view, part, ahead, texts),
        None => Ok(Bag::new(budget.alloc)),
    }
}

/// These rows of the views, in the order of the views. Without views no memory is taken.
fn rows_of_views<R: Threads + Sync>(
    budget: &ThreadBudget<'_, R>,
    bundle: &Bundle<'_>,
    rows: Rows,
    known: &KnownViews<'_>,
    texts: &mut Dict,
) -> Result<Vec<Bag>, LoadFault>
    ensures ok { IfOk result (λ bags. rows_after (shown_rows rows) bundle.now known.now.names.now [] (map shown_view known.now.views.now) texts.old ≡ Ok (bags.items, texts.new)) }
    ensures err { IfErr result (λ f. (f ≡ LoadFault.Memory) ⊎ (rows_after (shown_rows rows) bundle.now known.now.names.now [] (map shown_view known.now.views.now) texts.old ≡ Err f)) }
    ensures memory { OnErr result (known.now.views.now ≢ []) }
{
    let mut ahead = read_small_parts(budget, bundle, rows, known);
    let mut all = Vec::new(budget.alloc);
    for view in known.views {
        let number = all.len();
        let part = part_of(bundle, rows, known.names.name(number).as_bytes(), view);
        let own = take_next(&mut ahead, number);
        let bag = rows_written(budget, rows, view, part, own, texts)?;
        all.push(bag)?;
    }
    Ok(all)
}

/// Reads the tables of these views, in their order.
/// Fails with the first fault, view by view. Memory may come at any point, but not without views.
pub fn tables_in<R: Threads + Sync>(
    budget: &ThreadBudget<'_, R>,
    bundle: &Bundle<'_>,
    known: &KnownViews<'_>,
    texts: &mut Dict,
) -> Result<Vec<Bag>, LoadFault>
    ensures ok { IfOk result (λ rows. rows_after TableRows bundle.now known.now.names.now [] (map shown_view known.now.views.now) texts.old ≡ Ok (rows.items, texts.new)) }
    ensures err { IfErr result (λ f. (f ≡ LoadFault.Memory) ⊎ (rows_after TableRows bundle.now known.now.names.now [] (map shown_view known.now.views.now) texts.old ≡ Err f)) }
    ensures memory { OnErr result (known.now.views.now ≢ []) }
{
    rows_of_views(budget, bundle, Rows::Tables, known, texts)
}

/// Reads the changes of these views in a night, which counts from 0, in the order of the views.
/// Fails with the first fault, view by view. Memory may come at any point, but not without views.
pub fn changes_in<R: Threads + Sync>(
    budget: &ThreadBudget<'_, R>,
    bundle: &Bundle<'_>,
    night: usize,
    known: &KnownViews<'_>,
    texts: &mut Dict,
) -> Result<Vec<Bag>, LoadFault>
    ensures ok { IfOk result (λ rows. rows_after (ChangeRows night) bundle.now known.now.names.now [] (map shown_view known.now.views.now) texts.old ≡ Ok (rows.items, texts.new)) }
    ensures err { IfErr result (λ f. (f ≡ LoadFault.Memory) ⊎ (rows_after (ChangeRows night) bundle.now known.now.names.now [] (map shown_view known.now.views.now) texts.old ≡ Err f)) }
    ensures memory { OnErr result (known.now.views.now ≢ []) }
{
    rows_of_views(budget, bundle, Rows::Changes(night), known, texts)
}
