//! Reads one record of a table or of changes: its count, and the cells of its row.
ghost use Rattle.std.specs.Prelude.{◌≡◌, ◌⊎◌, ◌+◌, ◌≤◌, drop, length, List, ℕ, ℤ, IfOk, IfErr, OnOk, OnErr, Some, None};
ghost use Rattle.csv.specs.Records.{fields_of};
ghost use Rattle.wh_text.specs.Dict.{with_texts};
ghost use Rattle.wh_text.specs.Inner.Dict.{BeginsWith};
ghost use Rattle.wh_text.specs.Columns.{kinds_of};
ghost use Rattle.wh_text_tables.specs.TableText.{cell_number, count_cells, count_of, entry_of, non_zero, positive, row_cells, row_of, text_in, texts_in_row};

use crate::records::{cell, whole_number};
use crate::table::header::Counting;
use crate::table::rows::RowsReader;
use csv::StringRecord;
use std::alloc::Global;
use wh_text::{Dict, Kind, LoadFault};

/// How often the record counts, where its count is allowed.
fn count_of(counting: Counting, cells: &StringRecord) -> Option<i64>
    ensures { result ≡ count_of counting (fields_of cells.now) }
{
    match counting {
        Counting::Once => Some(1),
        Counting::Positive => {
            let count = whole_number(cell(cells, 0))?;
            if count > 0 { Some(count) } else { None }
        }
        Counting::NonZero => {
            let count = whole_number(cell(cells, 0))?;
            if count != 0 { Some(count) } else { None }
        }
    }
}

/// The number that a cell stands for: a text gets its number.
#[tactic(auto, unfolding(wh_text::specs::Dict::with_texts))]
fn number_of(
    alloc: Global,
    kind: Kind,
    text: &str,
    number: usize,
    dict: &mut Dict,
) -> Result<i64, LoadFault>
    ensures ok { IfOk result (λ n. cell_number dict.old kind text.now ≡ Some n) }
    ensures texts { OnOk result (dict.new ≡ with_texts dict.old (text_in kind text.now)) }
    ensures err { IfErr result (λ f. (f ≡ LoadFault.Memory) ⊎ ((f ≡ LoadFault.Number number) × ((texts : List (List ℕ)) → cell_number texts kind text.now ≡ None))) }
    ensures kept { OnErr result (dict.new ≡ dict.old) }
{
    match kind {
        Kind::Int => match whole_number(text) {
            Some(value) => Ok(value),
            None => Err(LoadFault::Number(number)),
        },
        Kind::Text => Ok(dict.intern(alloc, text)?),
    }
}

/// Puts the row that the cells write into `row`; its texts get their numbers.
fn read_row(
    reader: &RowsReader<'_>,
    from: usize,
    number: usize,
    cells: &StringRecord,
    dict: &mut Dict,
    row: &mut Vec<i64>,
) -> Result<(), LoadFault>
    requires cells { length (fields_of cells.now) ≡ from + length reader.now.columns.now }
    requires few { from ≤ 1 }
    ensures ok { OnOk result ((more : List (List ℕ)) → row_of (with_texts dict.new more) (kinds_of reader.now.columns.now) (drop from (fields_of cells.now)) ≡ Some row.new.items) }
    ensures texts { OnOk result (dict.new ≡ with_texts dict.old (texts_in_row (kinds_of reader.now.columns.now) (drop from (fields_of cells.now)))) }
    ensures err { IfErr result (λ f. (f ≡ LoadFault.Memory) ⊎ ((f ≡ LoadFault.Number number) × ((texts : List (List ℕ)) → row_of texts (kinds_of reader.now.columns.now) (drop from (fields_of cells.now)) ≡ None))) }
    ensures begins { BeginsWith dict.old dict.new }
{
    row.clear();
    for (place, column) in reader.columns.iter().enumerate() {
        let text = cell(cells, from + place);
        let value = number_of(reader.alloc, column.kind(), text, number, dict)?;
        row.push(value)?;
    }
    Ok(())
}

/// Puts the row of the record of this number into `row`, and says how often it counts; its texts get their numbers.
pub(crate) fn read_entry(
    reader: &RowsReader<'_>,
    counting: Counting,
    number: usize,
    cells: &StringRecord,
    dict: &mut Dict,
    row: &mut Vec<i64>,
) -> Result<i64, LoadFault>
    requires { length (fields_of cells.now) ≡ count_cells counting + length reader.now.columns.now }
    ensures ok { IfOk result (λ count. (more : List (List ℕ)) → entry_of counting (with_texts dict.new more) (kinds_of reader.now.columns.now) (fields_of cells.now) ≡ Some (row.new.items, count)) }
    ensures texts { OnOk result (dict.new ≡ with_texts dict.old (texts_in_row (kinds_of reader.now.columns.now) (row_cells counting (fields_of cells.now)))) }
    ensures err { IfErr result (λ f. (f ≡ LoadFault.Memory) ⊎ ((f ≡ LoadFault.Number number) × ((texts : List (List ℕ)) → entry_of counting texts (kinds_of reader.now.columns.now) (fields_of cells.now) ≡ None))) }
    ensures begins { BeginsWith dict.old dict.new }
{
    let Some(count) = count_of(counting, cells) else {
        return Err(LoadFault::Number(number));
    };
    read_row(reader, counting.cells(), number, cells, dict, row)?;
    Ok(count)
}
