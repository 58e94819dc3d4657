//! Writes what is printed of a machine's replies.

ghost use Rattle.std.specs.Prelude.{◌≡◌, ◌++◌, decimal, flat_map, IfOk, OnOk};
ghost use Rattle.wh_replies.specs.ReplyText.{cause_name, cell_text, entry_text, expired_text, page_text, refusal_text, replies_text, reply_line, reply_text};

use std::alloc::{AllocError, Global};
use wh_core::{Cause, Reply};
use wh_row::Records;
use wh_store::Page;

/// Appends a cell.
fn append_cell(alloc: Global, out: &mut Vec<u8>, cell: i64) -> Result<(), AllocError>
    ensures { OnOk result (out.new.items ≡ out.old.items ++ cell_text cell) }
{
    let text = format!(in alloc; " {cell}")?;
    out.extend_from_slice(text.as_bytes())
}

/// Appends the cells of a row.
fn append_cells(alloc: Global, out: &mut Vec<u8>, row: &[i64]) -> Result<(), AllocError>
    ensures { OnOk result (out.new.items ≡ out.old.items ++ flat_map cell_text row.now) }
{
    for cell in row {
        append_cell(alloc, out, *cell)?;
    }
    Ok(())
}

/// Appends a row with its count.
fn append_entry(alloc: Global, out: &mut Vec<u8>, row: &[i64], count: i64) -> Result<(), AllocError>
    ensures { OnOk result (out.new.items ≡ out.old.items ++ entry_text (row.now, count)) }
{
    let text = format!(in alloc; " [{count}")?;
    out.extend_from_slice(text.as_bytes())?;
    append_cells(alloc, out, row)?;
    out.push(b']')?;
    Ok(())
}

/// Appends the rows of a page.
fn append_entries(alloc: Global, out: &mut Vec<u8>, rows: &Records) -> Result<(), AllocError>
    ensures { OnOk result (out.new.items ≡ out.old.items ++ flat_map entry_text rows.now) }
{
    for place in 0..rows.len() {
        let (row, count) = rows.get(place);
        append_entry(alloc, out, row, count)?;
    }
    Ok(())
}

/// Appends a page: its rows, and whether none follows.
fn append_page(alloc: Global, out: &mut Vec<u8>, page: &Page) -> Result<(), AllocError>
    ensures { OnOk result (out.new.items ≡ out.old.items ++ page_text page.now) }
{
    out.extend_from_slice(b"page")?;
    append_entries(alloc, out, &page.rows)?;
    if page.last {
        out.extend_from_slice(b" end")
    } else {
        out.extend_from_slice(b" more")
    }
}

/// The name of a cause.
fn name_of(cause: &Cause) -> &'static str
    ensures { result.now ≡ cause_name cause.now }
{
    match cause {
        Cause::NoSession => "NoSession",
        Cause::SessionOpen => "SessionOpen",
        Cause::Expired(_, _, _) => "Expired",
        Cause::NoView => "NoView",
        Cause::Memory => "Memory",
        Cause::NoDesk => "NoDesk",
        Cause::NoWorker => "NoWorker",
        Cause::Limit => "Limit",
        Cause::NightOpen => "NightOpen",
        Cause::NoNight => "NoNight",
        Cause::NotReady => "NotReady",
        Cause::NoJob => "NoJob",
        Cause::Busy => "Busy",
        Cause::Idle => "Idle",
        Cause::Large => "Large",
        Cause::Range => "Range",
        Cause::Absent => "Absent",
        Cause::LastVersion => "LastVersion",
    }
}

/// Appends a text and a number.
fn append_numbered(
    alloc: Global,
    out: &mut Vec<u8>,
    text: &[u8],
    number: u128,
) -> Result<(), AllocError>
    ensures { OnOk result (out.new.items ≡ out.old.items ++ text.now ++ decimal number) }
{
    let digits = format!(in alloc; "{number}")?;
    out.extend_from_slice(text)?;
    out.extend_from_slice(digits.as_bytes())
}

/// Appends that a session is expired, with the current version and whether a night is open.
fn append_expired(
    alloc: Global,
    out: &mut Vec<u8>,
    session: u64,
    current: u64,
    active: bool,
) -> Result<(), AllocError>
    ensures { OnOk result (out.new.items ≡ out.old.items ++ expired_text session current active) }
{
    append_numbered(alloc, out, b"expired ", u128::from(session))?;
    append_numbered(alloc, out, b" current ", u128::from(current))?;
    if active {
        out.extend_from_slice(b" active")
    } else {
        out.extend_from_slice(b" idle")
    }
}

/// Appends a refusal.
fn append_refusal(alloc: Global, out: &mut Vec<u8>, cause: &Cause) -> Result<(), AllocError>
    ensures { OnOk result (out.new.items ≡ out.old.items ++ refusal_text cause.now) }
{
    if let Cause::Expired(session, current, active) = cause {
        return append_expired(alloc, out, *session, *current, *active);
    }
    out.extend_from_slice(b"refused ")?;
    out.extend_from_slice(name_of(cause).as_bytes())
}

/// Appends a reply, without its line end.
fn append_reply(alloc: Global, out: &mut Vec<u8>, reply: &Reply) -> Result<(), AllocError>
    ensures { OnOk result (out.new.items ≡ out.old.items ++ reply_text reply.now) }
{
    match reply {
        Reply::Begun => out.extend_from_slice(b"begun"),
        Reply::Job(job) => append_numbered(alloc, out, b"job ", *job as u128),
        Reply::Done => out.extend_from_slice(b"done"),
        Reply::Paged(keys) => append_numbered(alloc, out, b"paged ", *keys as u128),
        Reply::Version(number) => append_numbered(alloc, out, b"version ", u128::from(*number)),
        Reply::Session(number) => append_numbered(alloc, out, b"session ", u128::from(*number)),
        Reply::Page(page) => append_page(alloc, out, page),
        Reply::Closed => out.extend_from_slice(b"closed"),
        Reply::Refused(cause) => append_refusal(alloc, out, cause),
    }
}

/// Appends the line of a reply: its text, and the LF that ends it.
/// Fails for want of memory; then nothing is said of what was appended.
pub fn append_reply_line(alloc: Global, out: &mut Vec<u8>, reply: &Reply) -> Result<(), AllocError>
    ensures { OnOk result (out.new.items ≡ out.old.items ++ reply_line reply.now) }
{
    append_reply(alloc, out, reply)?;
    out.push(b'\n')?;
    Ok(())
}

/// Returns what is printed of these replies: a line each.
/// Fails for want of memory.
pub fn replies_text(alloc: Global, replies: &[Reply]) -> Result<Vec<u8>, AllocError>
    ensures { IfOk result (λ text. text.items ≡ replies_text replies.now) }
{
    let mut text = Vec::new(alloc);
    for reply in replies {
        append_reply_line(alloc, &mut text, reply)?;
    }
    Ok(text)
}
