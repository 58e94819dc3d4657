//! Reads tables and changes from CSV parts: a header, and a record for each row with its count.
ghost use Rattle.std.specs.Prelude.{◌≡◌, ◌⊎◌, ◌+◌, ◌<◌, ◌^◌, length, [], IfOk, IfErr, OnOk, OnErr, Ok, Err, None};
ghost use Rattle.std.specs.Result.{result_err};
ghost use Rattle.wh_row.specs.Bag.{HasWidth, IsTable, bag_of};
ghost use Rattle.wh_row.specs.Records.{EachSumFits};
ghost use Rattle.wh_text.specs.Inner.Dict.{BeginsWith};
ghost use Rattle.wh_text_tables.specs.ChangesReadBack.{ChangesReadBack};
ghost use Rattle.wh_text_tables.specs.TableReadsBack.{NamesAreText, TableReadsBack};
ghost use Rattle.wh_text_tables.specs.TableText.{text_gives};
ghost use Rattle.wh_text_tables.specs.Inner.TableText.{EndsSum};
ghost use Rattle.wh_text_tables.specs.declared.table.header.Content.TheVariants.{Table, Changes};

mod ahead;
mod answers;
mod entry;
mod header;
mod renumbered;
mod rows;
mod wide;
mod write;
mod written;

use crate::part::read_part;
use crate::table::rows::{RowsRead, RowsReader};
use crate::table::wide::read_beside;
pub use ahead::{RowsAhead, read_ahead, read_from};
pub use header::Content;
use std::mem;
use std::thread::Threads;
use wh_row::{Bag, Records, RecordsFault};
use wh_text::{Column, Dict, LoadFault};
use wh_threads::ThreadBudget;
pub use written::write_table;

/// The bag that the entries add up to, or the first fault: a sum that leaves i64 comes before a fault that ended the reading.
fn sum_up<R: Threads + Sync>(
    budget: &ThreadBudget<'_, R>,
    counted: &Records,
    read: Result<(), LoadFault>,
) -> Result<Bag, LoadFault>
    requires { length counted.now + 1 < 2 ^ 64 }
    ensures ok { IfOk result (λ bag. bag ≡ bag_of counted.now) }
    ensures fits { OnOk result (EachSumFits counted.now × (result_err read ≡ None)) }
    ensures err { IfErr result (λ f. (f ≡ LoadFault.Memory) ⊎ EndsSum counted.now (result_err read) f) }
{
    match Bag::from_records(budget, counted) {
        Ok(bag) => {
            read?;
            Ok(bag)
        }
        Err(RecordsFault::Memory) => Err(LoadFault::Memory),
        Err(RecordsFault::Large(place)) => Err(LoadFault::Number(place + 2)),
    }
}

/// What the text gives, read record by record; where it has a fault, some of its texts may have got numbers.
fn read_through<R: Threads + Sync>(
    budget: &ThreadBudget<'_, R>,
    reader: &RowsReader<'_>,
    text: &[u8],
    rows: &mut RowsRead,
) -> Result<Bag, LoadFault>
    requires { rows.old.counted ≡ [] }
    ensures ok { IfOk result (λ bag. text_gives reader.now.content reader.now.columns.now rows.old.dict text.now ≡ Ok (bag, rows.new.dict)) }
    ensures err { IfErr result (λ f. (f ≡ LoadFault.Memory) ⊎ (text_gives reader.now.content reader.now.columns.now rows.old.dict text.now ≡ Err f)) }
    ensures begins { BeginsWith rows.old.dict rows.new.dict }
{
    let read = read_part(budget.alloc, reader, text, rows);
    sum_up(budget, &rows.counted, read)
}

/// What the text gives, read record by record. Where it has a fault, the texts that it gave numbers lose them again.
fn read_singly<R: Threads + Sync>(
    budget: &ThreadBudget<'_, R>,
    reader: &RowsReader<'_>,
    text: &[u8],
    dict: &mut Dict,
) -> Result<Bag, LoadFault>
    ensures ok { IfOk result (λ bag. text_gives reader.now.content reader.now.columns.now dict.old text.now ≡ Ok (bag, dict.new)) }
    ensures err { IfErr result (λ f. (f ≡ LoadFault.Memory) ⊎ (text_gives reader.now.content reader.now.columns.now dict.old text.now ≡ Err f)) }
    ensures kept { OnErr result (dict.new ≡ dict.old) }
{
    let texts = dict.len();
    let mut rows = RowsRead {
        dict: mem::replace(dict, Dict::new(budget.alloc)),
        counted: Records::new(budget.alloc),
        row: Vec::new(budget.alloc),
    };
    let outcome = read_through(budget, reader, text, &mut rows);
    let RowsRead { dict: read, .. } = rows;
    *dict = read;
    if outcome.is_err() {
        dict.truncate(texts);
    }
    outcome
}

/// What the text of these columns gives, by several threads where it is large. After an error the dictionary is as before.
fn read_text<R: Threads + Sync>(
    budget: &ThreadBudget<'_, R>,
    content: Content,
    columns: &[Column],
    text: &[u8],
    dict: &mut Dict,
) -> Result<Bag, LoadFault>
    ensures ok { IfOk result (λ bag. text_gives content columns.now dict.old text.now ≡ Ok (bag, dict.new)) }
    ensures err { IfErr result (λ f. (f ≡ LoadFault.Memory) ⊎ (text_gives content columns.now dict.old text.now ≡ Err f)) }
    ensures kept { OnErr result (dict.new ≡ dict.old) }
{
    let reader = RowsReader {
        alloc: budget.alloc,
        content,
        columns,
    };
    match read_beside(budget, &reader, text, dict) {
        Some(bag) => Ok(bag),
        // One thread finds the first fault.
        None => read_singly(budget, &reader, text, dict),
    }
}

/// Reads the table of these columns that the text writes: a header of the columns' names, with or without `#` before them, and a record for
/// each row. Where the header has `#`, a count above zero stands first. Equal rows add up. A text cell is its number in the dictionary,
/// which gets new texts record by record, each from left to right.
///
/// Fails with the first fault, record by record, the header being record 1: `Csv` (its length or UTF-8), `Header`, then `Number`. The last
/// is of a cell of the wrong form, a count that is not allowed, or equal rows whose sum leaves i64 here. Memory may come at any point.
/// After an error the dictionary is as before.
pub fn read_table<R: Threads + Sync>(
    budget: &ThreadBudget<'_, R>,
    columns: &[Column],
    text: &[u8],
    dict: &mut Dict,
) -> Result<Bag, LoadFault>
    ensures ok { IfOk result (λ bag. text_gives Table columns.now dict.old text.now ≡ Ok (bag, dict.new)) }
    ensures table { IfOk result (λ bag. IsTable bag) }
    ensures width { IfOk result (λ bag. HasWidth bag (length columns.now)) }
    ensures err { IfErr result (λ f. (f ≡ LoadFault.Memory) ⊎ (text_gives Table columns.now dict.old text.now ≡ Err f)) }
    ensures kept { OnErr result (dict.new ≡ dict.old) }
{
    read_text(budget, Content::Table, columns, text, dict)
}

/// Reads the changes to a table of these columns that the text writes: a header of `#` and the columns' names, and a record for each row,
/// behind its count. A count is any number but zero, below zero for rows that leave. Equal rows add up, and a row whose counts cancel is
/// not among the changes. A text cell is its number in the dictionary, which gets new texts record by record.
/// Fails as [`read_table`] does. After an error the dictionary is as before.
pub fn read_changes<R: Threads + Sync>(
    budget: &ThreadBudget<'_, R>,
    columns: &[Column],
    text: &[u8],
    dict: &mut Dict,
) -> Result<Bag, LoadFault>
    ensures ok { IfOk result (λ bag. text_gives Changes columns.now dict.old text.now ≡ Ok (bag, dict.new)) }
    ensures width { IfOk result (λ bag. HasWidth bag (length columns.now)) }
    ensures err { IfErr result (λ f. (f ≡ LoadFault.Memory) ⊎ (text_gives Changes columns.now dict.old text.now ≡ Err f)) }
    ensures kept { OnErr result (dict.new ≡ dict.old) }
{
    read_text(budget, Content::Changes, columns, text, dict)
}

/// A law of the definitions: a table that was written is read back as it was, and leaves the dictionary as it is.
/// It asks that the columns' names are UTF-8, as those that are read of a catalogue are.
pub fn table_reads_back_law()
    ensures back { TableReadsBack }
    ensures names { NamesAreText }
{}

/// A law of the definitions: changes that were written, as [`write_table`] writes a bag of any sign, are read back as they were, and leave
/// the dictionary as it is.
/// It asks what [`table_reads_back_law`] asks, but for the sign.
pub fn changes_read_back_law()
    ensures { ChangesReadBack }
{}
