//! Writes tables, by several threads where there are rows enough for two.
//!
//! The rows are cut into as many parts as there are threads. Each thread writes the lines of its part into a text of its own, as one thread
//! does of all. These texts, in the order of the parts, are chunks of what is written, so none is copied.

ghost use Rattle.std.specs.Prelude.{◌≡◌, ◌++◌, IsOk, IfOk, OnOk, OnErr};
ghost use Rattle.std.specs.List.{AllZip};
ghost use Rattle.csv.specs.Writing.{default_writer, row_text};
ghost use Rattle.wh_row.specs.Records.{joined};
ghost use Rattle.wh_text.specs.Columns.{names_of};
ghost use Rattle.wh_text_tables.specs.TableText.{counted_header};
ghost use Rattle.wh_text_tables.specs.TableWritten.{table_text};
ghost use Rattle.wh_text_tables.specs.Inner.TableWritten.{AreDone, rows_text, whole_text};

use crate::chunks::ChunkedText;
use crate::table::write::{append_rows, write_header};
use std::alloc::{AllocError, Global};
use std::thread::Threads;
use wh_row::{Bag, Rows};
use wh_text::{Column, Dict};
use wh_threads::{ThreadBudget, Work};

/// Appends the table as it is written: the header `#` and the columns' names, then each row's count and cells, in rising order of the rows,
/// a line each. Fields are in quotes where they have a comma, a quote, CR or LF. A cell of a text column is written as the text of its
/// number, and as nothing where the dictionary has no such number.
/// Where memory is refused, nothing is appended.
/// Takes O(b) time for b bytes of text, which the threads share.
pub fn write_table<R: Threads + Sync>(
    budget: &ThreadBudget<'_, R>,
    out: &mut ChunkedText,
    columns: &[Column],
    bag: &Bag,
    dict: &Dict,
) -> Result<(), AllocError>
    ensures ok { OnOk result (out.new ≡ out.old ++ table_text columns.now dict.now bag.now) }
    ensures err { OnErr result (out.new ≡ out.old) }
{
    let table = table_chunks(budget, columns, bag, dict)?;
    out.append_chunks(table)
}

/// The table line by line.
fn table_chunks<R: Threads + Sync>(
    budget: &ThreadBudget<'_, R>,
    columns: &[Column],
    bag: &Bag,
    dict: &Dict,
) -> Result<ChunkedText, AllocError>
    ensures { IfOk result (λ table. table ≡ table_text columns.now dict.now bag.now) }
{
    let mut lines = Vec::new(budget.alloc);
    write_header(&mut lines, columns)?;
    let count = budget.parts(Work::WrittenRows, bag.len());
    if count < 2 {
        append_rows(&mut lines, columns, bag.rows(), dict)?;
        return Ok(ChunkedText::of(lines));
    }
    let parts = bag.rows().in_parts(budget.alloc, count)?;
    let mut table = ChunkedText::of(lines);
    append_parts(budget, &mut table, columns, &parts, dict)?;
    Ok(table)
}

/// Appends the rows of these parts, a line each, each part written by a thread.
fn append_parts<R: Threads + Sync>(
    budget: &ThreadBudget<'_, R>,
    out: &mut ChunkedText,
    columns: &[Column],
    parts: &[Rows<'_>],
    dict: &Dict,
) -> Result<(), AllocError>
    ensures { OnOk result (out.new ≡ out.old ++ rows_text columns.now dict.now (joined parts.now)) }
{
    let texts = texts_of(budget, columns, parts, dict)?;
    append_each(out, texts)
}

/// The lines of the rows of each part in a text, each by a thread.
fn texts_of<R: Threads + Sync>(
    budget: &ThreadBudget<'_, R>,
    columns: &[Column],
    parts: &[Rows<'_>],
    dict: &Dict,
) -> Result<Vec<Result<Vec<u8>, AllocError>>, AllocError>
    ensures { IfOk result (λ texts. AllZip (λ part text. IfOk text (λ text. text.items ≡ rows_text columns.now dict.now part)) parts.now texts.items) }
{
    let alloc = budget.alloc;
    let write = move |part: &Rows<'_>| -> Result<Vec<u8>, AllocError>
        ensures { IfOk result (λ text. text.items ≡ rows_text columns.entry.now dict.entry.now part.now) }
    { text_of(alloc, columns, part.fork(), dict) };
    budget.each(parts, write)
}

/// The lines of these rows in one text.
fn text_of(
    alloc: Global,
    columns: &[Column],
    rows: Rows<'_>,
    dict: &Dict,
) -> Result<Vec<u8>, AllocError>
    ensures { IfOk result (λ text. text.items ≡ rows_text columns.now dict.now rows.entry) }
{
    let mut text = Vec::new(alloc);
    append_rows(&mut text, columns, rows, dict)?;
    Ok(text)
}

/// Appends the texts one after another, up to the first that was not written.
fn append_each(
    out: &mut ChunkedText,
    texts: Vec<Result<Vec<u8>, AllocError>>,
) -> Result<(), AllocError>
    ensures ok { OnOk result (out.new ≡ out.old ++ whole_text texts.items) }
    ensures done { OnOk result (AreDone texts.items) }
{
    for text in texts {
        out.append(text?)?;
    }
    Ok(())
}
