// A table of cases is one text. Lines `====` part the cases, and in each the line `----` parts what is wanted from the
// text that is read. Each character of a text that is read stands for one byte, so that "\u{ff}" is the byte 0xff.

use crate::texts::{
    bundles, catalogues, definitions, plans, replays, schedules, sizes, strategies, tables,
};
use std::alloc::{AllocError, Global};
use std::process::Abort;
use std::thread::Threads;
use wh_dag::Shape;
use wh_load::{ChunkedText, LoadFault, Names, Nights, read_shape};
use wh_threads::ThreadBudget;

/// What a text is read as.
#[derive(Clone, Copy)]
pub(crate) enum Reads {
    /// A bundle, of which these nights are read.
    Bundle(Nights),
    /// The shape of a catalogue.
    Shape,
    /// A catalogue.
    Catalogue,
    /// The sizes of A, B and V.
    Sizes,
    /// A strategy of A, B and V.
    Strategy,
    /// A plan of A, B and V.
    Plan,
    /// A schedule over a and v.
    Schedule,
    /// A bundle of several nights and a schedule.
    Replay,
    /// A table of these columns.
    Table(&'static str),
    /// Changes to a table of these columns.
    Changes(&'static str),
}

/// The bytes that the characters stand for.
pub(crate) fn bytes_of(alloc: Global, text: &str) -> Result<Vec<u8>, AllocError> {
    let mut bytes = Vec::new(alloc);
    for character in text.chars() {
        bytes.push(u8::try_from(u32::from(character)).unwrap_or(b'?'))?;
    }
    Ok(bytes)
}

/// The characters that stand for the bytes.
pub(crate) fn text_of(alloc: Global, bytes: &[u8]) -> Result<String, AllocError> {
    let mut text = String::new(alloc);
    for byte in bytes {
        text.push(char::from(*byte))?;
    }
    Ok(text)
}

/// The bytes of a text in chunks.
pub(crate) fn chunked_bytes(alloc: Global, text: &ChunkedText) -> Result<Vec<u8>, AllocError> {
    let chunks = text.chunks();
    let mut bytes = Vec::new(alloc);
    for chunk in chunks.finished {
        bytes.extend_from_slice(chunk)?;
    }
    bytes.extend_from_slice(chunks.last)?;
    Ok(bytes)
}

/// A fault as its number and the line that is printed for it.
pub(crate) fn fault_line(alloc: Global, fault: &LoadFault) -> Result<String, AllocError> {
    let number = fault.number();
    let mut line = Vec::new(alloc);
    fault.append_text(alloc, &mut line)?;
    let line = text_of(alloc, &line)?;
    Ok(format!(in alloc; "{number} {line}\n")?)
}

/// What a reader makes of a text, as lines.
fn outcome<R: Threads + Sync>(
    rt: &R,
    alloc: Global,
    reads: Reads,
    text: &[u8],
) -> Result<String, AllocError> {
    let budget = ThreadBudget {
        rt,
        alloc,
        threads: 2,
    };
    match reads {
        Reads::Bundle(nights) => bundles::outcome(alloc, nights, text),
        Reads::Shape => catalogues::outcome(alloc, text),
        Reads::Catalogue => definitions::outcome(alloc, text),
        Reads::Sizes => sizes::outcome(alloc, text),
        Reads::Strategy => strategies::outcome(alloc, text),
        Reads::Plan => plans::outcome(alloc, text),
        Reads::Schedule => schedules::outcome(alloc, text),
        Reads::Replay => replays::outcome(&budget, text),
        Reads::Table(columns) => tables::table_outcome(&budget, columns, text),
        Reads::Changes(columns) => tables::changes_outcome(&budget, columns, text),
    }
}

/// What is wanted of a case, and the text that is read.
fn parted(case: &str) -> (&str, &str) {
    match case.split_once("----\n") {
        Some(parts) => parts,
        None => ("a case has a line ----", case),
    }
}

/// Compares what a case says with what is wanted of it.
fn agree_in<R: Abort + Threads + Sync>(
    rt: &R,
    alloc: Global,
    reads: Reads,
    before: &str,
    case: &str,
) -> Result<(), AllocError> {
    let (want, text) = parted(case);
    let text = format!(in alloc; "{before}{text}")?;
    let bytes = bytes_of(alloc, &text)?;
    let found = outcome(rt, alloc, reads, &bytes)?;
    assert_eq!(rt; found.as_str(), want, "{text}");
    Ok(())
}

/// Each text of the table, with this text before it, says what is wanted of it.
pub(crate) fn agree<R: Abort + Threads + Sync>(
    rt: &R,
    alloc: Global,
    reads: Reads,
    before: &str,
    table: &str,
) -> Result<(), AllocError> {
    for case in table.split("====\n") {
        agree_in(rt, alloc, reads, before, case)?;
    }
    Ok(())
}

/// Bases A and B, and V over both.
pub(crate) fn two_children(alloc: Global) -> Result<Shape, LoadFault> {
    let text = b"view = [{name = \"A\"}, {name = \"B\"}, {name = \"V\", over = [\"A\", \"B\"]}]";
    read_shape(alloc, text)
}

/// The names of A, B and V.
pub(crate) fn two_children_names(alloc: Global) -> Result<Names, LoadFault> {
    let shape = two_children(alloc)?;
    Ok(Names::of(alloc, &shape)?)
}

/// This text so many times, one after another.
pub(crate) fn times(alloc: Global, count: usize, text: &str) -> Result<String, AllocError> {
    let mut all = String::new(alloc);
    for _ in 0..count {
        all.push_str(text)?;
    }
    Ok(all)
}

/// Whether it is what was read, which begins with no number, or a fault of one of these.
fn is_told(found: &str, faults: &[&str]) -> bool {
    for fault in faults {
        if found.starts_with(*fault) {
            return true;
        }
    }
    !found.contains(" fault ") && !found.contains("memory")
}

/// Each beginning of the text is read, or has a fault of one of these numbers.
pub(crate) fn beginnings<R: Abort + Threads + Sync>(
    rt: &R,
    alloc: Global,
    reads: Reads,
    text: &str,
    faults: &[&str],
) -> Result<(), AllocError> {
    for end in 0..=text.len() {
        let Some(cut) = text.as_bytes().get(..end) else {
            return Ok(());
        };
        let found = outcome(rt, alloc, reads, cut)?;
        assert!(rt; is_told(&found, faults), "{end}: {found}");
    }
    Ok(())
}
