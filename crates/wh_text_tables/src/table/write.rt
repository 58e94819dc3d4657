//! Writes the lines of a table: its header, and a line for each row.
ghost use Rattle.std.specs.Prelude.{◌≡◌, ◌+◌, ◌++◌, ◌∷◌, ℕ, List, [], drop, OnOk};
ghost use Rattle.std.specs.Fmt.{signed_decimal};
ghost use Rattle.std.specs.List.{list_any};
ghost use Rattle.csv.specs.Writing.{default_writer, escaped, field_text, fields_text, needs_byte, quoted, row_text};
ghost use Rattle.wh_text.specs.Columns.{kinds_of, names_of};
ghost use Rattle.wh_text_tables.specs.TableText.{counted_header};
ghost use Rattle.wh_text_tables.specs.Inner.TableWritten.{rows_text};
ghost use Rattle.wh_text_tables.specs.TableWritten.{cell_text, cell_texts, record_of};

use itoa::Buffer;
use std::alloc::AllocError;
use wh_row::Rows;
use wh_text::{Column, Dict, Kind};

/// Whether the text has to stand in quotes.
fn needs_quotes(text: &[u8]) -> bool
    ensures { result ≡ list_any (needs_byte default_writer) text.now }
{
    for byte in text {
        if matches!(*byte, b',' | b'"' | b'\r' | b'\n') {
            return true;
        }
    }
    false
}

/// Appends a byte of a field in quotes, where a quote is written twice.
fn append_byte(out: &mut Vec<u8>, byte: u8) -> Result<(), AllocError>
    ensures { OnOk result ((rest : List ℕ) → out.new.items ++ escaped default_writer rest ≡ out.old.items ++ escaped default_writer (byte ∷ rest)) }
{
    if byte == b'"' {
        out.extend_from_slice(b"\"\"")?;
        return Ok(());
    }
    out.push(byte)?;
    Ok(())
}

/// Appends a text as a field in quotes.
fn append_quoted(out: &mut Vec<u8>, text: &[u8]) -> Result<(), AllocError>
    ensures { OnOk result (out.new.items ≡ out.old.items ++ quoted default_writer text.now) }
{
    out.push(b'"')?;
    for byte in text {
        append_byte(out, *byte)?;
    }
    out.push(b'"')?;
    Ok(())
}

/// Appends a text as a field, in quotes where it needs them.
fn append_text(out: &mut Vec<u8>, text: &[u8]) -> Result<(), AllocError>
    ensures { OnOk result (out.new.items ≡ out.old.items ++ field_text default_writer text.now) }
{
    if needs_quotes(text) {
        append_quoted(out, text)
    } else {
        out.extend_from_slice(text)
    }
}

/// Appends a number as a field, which never needs quotes.
fn append_number(out: &mut Vec<u8>, number: i64) -> Result<(), AllocError>
    ensures { OnOk result (out.new.items ≡ out.old.items ++ field_text default_writer (signed_decimal number)) }
{
    let mut digits = Buffer::new();
    out.extend_from_slice(digits.format(number).as_bytes())?;
    Ok(())
}

/// Appends a cell of this kind as a field.
fn append_cell(out: &mut Vec<u8>, kind: Kind, number: i64, dict: &Dict) -> Result<(), AllocError>
    ensures { OnOk result (out.new.items ≡ out.old.items ++ field_text default_writer (cell_text dict.now kind number)) }
{
    match kind {
        Kind::Int => append_number(out, number),
        Kind::Text => append_text(out, dict.text(number).unwrap_or("").as_bytes()),
    }
}

/// Appends the header: `#` and the columns' names.
pub(crate) fn write_header(out: &mut Vec<u8>, columns: &[Column]) -> Result<(), AllocError>
    ensures { OnOk result (out.new.items ≡ out.old.items ++ row_text default_writer (counted_header (names_of columns.now))) }
{
    out.push(b'#')?;
    for column in columns {
        out.push(b',')?;
        append_text(out, column.name().as_bytes())?;
    }
    out.push(b'\n')?;
    Ok(())
}

/// Appends a comma and the row's cell at this place, of this kind; the comma alone where the row has no cell there.
fn append_next(
    out: &mut Vec<u8>,
    kind: Kind,
    row: &[i64],
    place: usize,
    dict: &Dict,
) -> Result<(), AllocError>
    ensures { OnOk result ((kinds : List Kind)
        → out.new.items ++ (fields_text default_writer (cell_texts dict.now kinds (drop (place + 1) row.now)) ++ 10 ∷ [])
        ≡ out.old.items ++ (fields_text default_writer (cell_texts dict.now (kind ∷ kinds) (drop place row.now)) ++ 10 ∷ [])) }
{
    out.push(b',')?;
    if place < row.len() {
        append_cell(out, kind, row[place], dict)?;
    }
    Ok(())
}

/// Appends a row and its count as a record.
fn write_row(
    out: &mut Vec<u8>,
    columns: &[Column],
    row: &[i64],
    count: i64,
    dict: &Dict,
) -> Result<(), AllocError>
    ensures { OnOk result (out.new.items ≡ out.old.items ++ row_text default_writer (record_of dict.now (kinds_of columns.now) (row.now, count))) }
{
    append_number(out, count)?;
    for (place, column) in columns.iter().enumerate() {
        append_next(out, column.kind(), row, place, dict)?;
    }
    out.push(b'\n')?;
    Ok(())
}

/// Appends these rows, a line each.
pub(crate) fn append_rows(
    out: &mut Vec<u8>,
    columns: &[Column],
    rows: Rows<'_>,
    dict: &Dict,
) -> Result<(), AllocError>
    ensures { OnOk result (out.new.items ≡ out.old.items ++ rows_text columns.now dict.now rows.entry) }
{
    for (row, count) in rows {
        write_row(out, columns, row, count, dict)?;
    }
    Ok(())
}
