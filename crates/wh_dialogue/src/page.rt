//! Writes what is printed of replies to single events.

ghost use Rattle.std.specs.Prelude.{◌≡◌, ◌++◌, map, option_map, IfOk, OnOk};
ghost use Rattle.wh_core.specs.Laws.{IsSetup};
ghost use Rattle.wh_core.specs.Log.{Log};
ghost use Rattle.wh_core.specs.Nights.{Setup};
ghost use Rattle.wh_core.specs.Standing.{StandsWith};
ghost use Rattle.wh_dialogue.specs.Inner.Steps.{IsAnsweredIn};
ghost use Rattle.wh_dialogue.specs.Said.{columns_among, page_lines, page_told_text, said_line, said_of};
ghost use Rattle.wh_live.specs.Commands as command;
ghost use Rattle.wh_row.specs.Bag.{bag_of};
ghost use Rattle.wh_stay.specs.Standing.{IsLive, core_of, standing_of};
ghost use Rattle.wh_text_catalogue.specs.Definitions.{shown_view};
ghost use Rattle.wh_text_tables.specs.Chunks.{chunks_text};
ghost use Rattle.wh_text_tables.specs.TableWritten.{table_text};

use std::alloc::{AllocError, Global};
use std::thread::Threads;
use wh_core::{Cause, Reply};
use wh_formula::{RowTest, RowValue};
use wh_load::{
    ChunkedText, Column, Dict, LentChunks, LoadFault, ScheduledEvent, WrittenView, write_table,
};
use wh_replies::append_reply_line;
use wh_row::{Bag, Records};
use wh_stay::Live;
use wh_store::Page;
use wh_threads::ThreadBudget;

/// Appends the line of a reply. That memory was refused is told in one word.
pub(crate) fn append_said(alloc: Global, out: &mut Vec<u8>, reply: &Reply) -> Result<(), AllocError>
    ensures { OnOk result (out.new.items ≡ out.old.items ++ said_line reply.now) }
{
    if let Reply::Refused(Cause::Memory) = reply {
        return out.extend_from_slice(b"memory\n");
    }
    append_reply_line(alloc, out, reply)
}

/// The columns of a view, none where there is no such view.
fn columns_of(views: &[WrittenView], view: Option<usize>) -> &[Column]
    ensures { result.now ≡ columns_among (map shown_view views.now) view }
{
    match view {
        Some(view) => match views.get(view) {
            Some(own) => &own.columns,
            None => &[],
        },
        None => &[],
    }
}

/// The rows of a page as a table. A page has no row twice, so there is no other cause to have none than want of memory.
fn table_of<R: Threads + Sync>(
    budget: &ThreadBudget<'_, R>,
    rows: &Records,
) -> Result<Bag, AllocError>
    ensures { IfOk result (λ bag. bag ≡ bag_of rows.now) }
{
    Bag::from_records(budget, rows).map_err(|_| AllocError)
}

/// Appends a text that is kept in chunks.
fn append_chunks(out: &mut Vec<u8>, text: LentChunks<'_>) -> Result<(), AllocError>
    ensures { OnOk result (out.new.items ≡ out.old.items ++ chunks_text text.entry.finished.now ++ text.entry.last.now) }
{
    for chunk in text.finished {
        out.extend_from_slice(chunk)?;
    }
    out.extend_from_slice(text.last)
}

/// Appends rows of these columns, written as a table is.
pub(crate) fn append_table<R: Threads + Sync>(
    budget: &ThreadBudget<'_, R>,
    out: &mut Vec<u8>,
    columns: &[Column],
    rows: &Bag,
    texts: &Dict,
) -> Result<(), AllocError>
    ensures { OnOk result (out.new.items ≡ out.old.items ++ table_text columns.now texts.now rows.now) }
{
    let mut table = ChunkedText::new(budget.alloc);
    write_table(budget, &mut table, columns, rows, texts)?;
    append_chunks(out, table.chunks())
}

/// Appends a page of a view: its rows as a table, and a line that tells whether none follows.
fn append_page<F: RowTest + Drop, G: RowValue + Drop, R: Threads + Sync>(
    budget: &ThreadBudget<'_, R>,
    out: &mut Vec<u8>,
    live: &Live<F, G>,
    view: Option<usize>,
    page: &Page,
) -> Result<(), AllocError>
    ensures { OnOk result (out.new.items ≡ out.old.items ++ page_lines (standing_of live.now) view page.now) }
{
    let rows = table_of(budget, &page.rows)?;
    let columns = columns_of(live.views(), view);
    append_table(budget, out, columns, &rows, live.texts())?;
    if page.last {
        out.extend_from_slice(b"end\n")
    } else {
        out.extend_from_slice(b"more\n")
    }
}

/// Appends what is printed of the reply to an event of a schedule.
pub(crate) fn append_reply<F: RowTest + Drop, G: RowValue + Drop, R: Threads + Sync>(
    budget: &ThreadBudget<'_, R>,
    out: &mut Vec<u8>,
    live: &Live<F, G>,
    event: ScheduledEvent,
    reply: &Reply,
) -> Result<(), AllocError>
    ensures { OnOk result (out.new.items ≡ out.old.items ++ said_of (standing_of live.now) event reply.now) }
{
    match (event, reply) {
        (ScheduledEvent::Read { view, .. }, Reply::Page(page)) => {
            append_page(budget, out, live, view, page)
        }
        _ => append_said(budget.alloc, out, reply),
    }
}

/// Appends what is told of a page of a view.
fn append_page_told<F: RowTest + Drop, G: RowValue + Drop, R: Threads + Sync>(
    budget: &ThreadBudget<'_, R>,
    out: &mut Vec<u8>,
    live: &Live<F, G>,
    view: Option<usize>,
    told: &Result<Reply, LoadFault>,
) -> Result<(), AllocError>
    ensures { OnOk result (out.new.items ≡ out.old.items ++ page_told_text (standing_of live.now) view told.now) }
{
    match told {
        Ok(Reply::Page(page)) => append_page(budget, out, live, view, page),
        Ok(reply) => append_said(budget.alloc, out, reply),
        Err(fault) => {
            fault.append_text(budget.alloc, out)?;
            out.extend_from_slice(b"\n")
        }
    }
}

/// Returns what is printed of a page of a view, from its beginning or behind the row of these cells.
/// Fails for want of memory.
pub(crate) fn page_text<F: RowTest + Drop, G: RowValue + Drop, R: Threads + Sync>(
    budget: &ThreadBudget<'_, R>,
    live: &mut Live<F, G>,
    desk: usize,
    view: Option<usize>,
    limit: usize,
    after: Option<&[u8]>,
) -> Result<Vec<u8>, AllocError>
    requires { IsLive live.old }
    ensures live { IsLive live.new }
    ensures answered { IfOk result (λ text. (s : Setup) (log : Log) → IsSetup s → StandsWith s log (core_of live.old)
        → IsAnsweredIn s log (standing_of live.old) (command.Page desk view limit (option_map (λ own. own.now) after.entry)) text.items live.new) }
{
    let told = live.page(budget, desk, view, limit, after);
    let mut text = Vec::new(budget.alloc);
    append_page_told(budget, &mut text, live, view, &told)?;
    Ok(text)
}
