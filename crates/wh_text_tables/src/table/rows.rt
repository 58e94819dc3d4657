//! Takes the records of a table or of changes one by one.
ghost use Rattle.std.specs.Prelude.{◌≡◌, ◌⊎◌, ◌+◌, IfErr, OnOk, OnErr, Ok, Err, length};
ghost use Rattle.csv.specs.Records.{fields_of};
ghost use Rattle.wh_text.specs.Columns.{kinds_of, names_of};
ghost use Rattle.wh_text.specs.Inner.Dict.{BeginsWith};
ghost use Rattle.wh_text_tables.specs.TableText.{EntriesRead, count_cells};
ghost use Rattle.wh_text_tables.specs.Inner.TableText.{entered, entry_scheme};

use crate::part::PartReader;
use crate::table::entry::read_entry;
use crate::table::header::{Content, Counting, counting_of};
use csv::StringRecord;
use std::alloc::Global;
use wh_row::Records;
use wh_text::{Column, Dict, LoadFault};

/// What was read of a table or of changes.
#[derive(Drop)]
pub(crate) struct RowsRead {
    /// The texts that have numbers.
    pub(crate) dict: Dict,
    /// The rows, record by record, and how often each counts.
    pub(crate) counted: Records,
    /// Room for the row of the next record.
    pub(crate) row: Vec<i64>,
}

/// What reads the records of a table or of changes, each by itself.
#[derive(Drop)]
pub(crate) struct RowsReader<'a> {
    pub(crate) alloc: Global,
    pub(crate) content: Content,
    pub(crate) columns: &'a [Column],
}

impl<'a> PartReader for RowsReader<'a> {
    type Kind = Counting;

    type State = RowsRead;

    ghost Seen = { EntriesRead };

    ghost seen = { λ rows. record { texts = rows.dict; entries = rows.counted } };

    ghost scheme = { λ reader. entry_scheme reader.content reader.columns.now };

    ghost is_ready = { λ reader read number. length read.entries + 2 ≡ number };

    fn kind(&self, header: &StringRecord) -> Option<Counting> {
        counting_of(self.content, header, self.columns)
    }

    fn take(
        &self,
        kind: Counting,
        number: usize,
        cells: &StringRecord,
        state: &mut RowsRead,
    ) -> Result<(), LoadFault> {
        let texts = state.dict.len();
        let taken = add_entry(self, kind, number, cells, state);
        if taken.is_err() {
            state.dict.truncate(texts);
        }
        taken
    }
}

/// Adds the entry of this record; where it has a fault, some of its texts may have got numbers.
fn add_entry(
    reader: &RowsReader<'_>,
    counting: Counting,
    number: usize,
    cells: &StringRecord,
    rows: &mut RowsRead,
) -> Result<(), LoadFault>
    requires { length (fields_of cells.now) ≡ count_cells counting + length reader.now.columns.now }
    ensures ok { OnOk result (entered (kinds_of reader.now.columns.now) counting (record { texts = rows.old.dict; entries = rows.old.counted }) number (fields_of cells.now) ≡ Ok (record { texts = rows.new.dict; entries = rows.new.counted })) }
    ensures err { IfErr result (λ f. (f ≡ LoadFault.Memory) ⊎ (entered (kinds_of reader.now.columns.now) counting (record { texts = rows.old.dict; entries = rows.old.counted }) number (fields_of cells.now) ≡ Err f)) }
    ensures begins { BeginsWith rows.old.dict rows.new.dict }
    ensures kept { OnErr result (rows.new.counted ≡ rows.old.counted) }
    ensures more { OnOk result (length rows.new.counted ≡ length rows.old.counted + 1) }
{
    let RowsRead { dict, counted, row } = rows;
    let count = read_entry(reader, counting, number, cells, dict, row)?;
    counted.push(row, count)?;
    Ok(())
}
