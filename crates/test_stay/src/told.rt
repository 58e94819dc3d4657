// What is told, in short.

use std::alloc::{AllocError, Global};
use wh_core::{Cause, Reply};
use wh_load::LoadFault;
use wh_store::Page;

/// The line of a fault.
pub(crate) fn fault_text(alloc: Global, fault: &LoadFault) -> Result<String, AllocError> {
    let mut line = Vec::new(alloc);
    fault.append_text(alloc, &mut line)?;
    let mut text = String::new(alloc);
    for byte in &line {
        text.push(char::from(*byte))?;
    }
    text.push(' ')?;
    Ok(text)
}

/// The rows of a page, each with its count and its first cell.
fn page_text(alloc: Global, page: &Page) -> Result<String, AllocError> {
    let mut text = String::new(alloc);
    for place in 0..page.rows.len() {
        let (row, count) = page.rows.get(place);
        let cell = row.first().copied().unwrap_or(-1);
        text.push_str(format!(in alloc; "{count}x{cell} ")?.as_str())?;
    }
    text.push_str(if page.last { "end " } else { "more " })?;
    Ok(text)
}

fn refusal_text(alloc: Global, cause: &Cause) -> Result<String, AllocError> {
    match cause {
        Cause::Expired(version, current, active) => {
            let open = if *active { "active" } else { "idle" };
            format!(in alloc; "expired {version} {current} {open} ")
        }
        Cause::NoNight => String::from_str(alloc, "NoNight "),
        Cause::NightOpen => String::from_str(alloc, "NightOpen "),
        Cause::Absent => String::from_str(alloc, "Absent "),
        Cause::NotReady => String::from_str(alloc, "NotReady "),
        Cause::NoJob => String::from_str(alloc, "NoJob "),
        Cause::NoDesk => String::from_str(alloc, "NoDesk "),
        _ => String::from_str(alloc, "refused "),
    }
}

/// A reply in short.
pub(crate) fn reply_text(alloc: Global, reply: &Reply) -> Result<String, AllocError> {
    match reply {
        Reply::Begun => String::from_str(alloc, "begun "),
        Reply::Job(job) => format!(in alloc; "job {job} "),
        Reply::Done => String::from_str(alloc, "done "),
        Reply::Paged(rows) => format!(in alloc; "paged {rows} "),
        Reply::Version(number) => format!(in alloc; "version {number} "),
        Reply::Session(number) => format!(in alloc; "session {number} "),
        Reply::Page(page) => page_text(alloc, page),
        Reply::Closed => String::from_str(alloc, "closed "),
        Reply::Refused(cause) => refusal_text(alloc, cause),
    }
}
