//! Reads the columns of a base view.
ghost use Rattle.std.specs.Prelude.{◌≡◌, ◌⊎◌, [], map, option_map, Ok, Err, IfOk, IfErr};
ghost use Rattle.toml.specs.View.{view};
ghost use Rattle.wh_text_catalogue.specs.BaseColumns.{base_columns, column_in, columns_in, columns_written, is_few, kind_named, kinded_column};

use super::column_names::distinct_columns;
use crate::catalogue::array_of;
use crate::name_form::is_name;
use std::alloc::{AllocError, Global};
use toml::Value;
use wh_dag::MAX_COLUMNS;
use wh_text::{Column, Key, Kind, LoadFault};

/// The kind that the word means, if it means one.
fn kind_named(word: &str) -> Option<Kind>
    ensures { result ≡ kind_named word.now }
{
    if word == "int" {
        return Some(Kind::Int);
    }
    if word == "text" {
        return Some(Kind::Text);
    }
    None
}

/// The column of this name and of the kind that the word means; none where one of them has another form.
fn kinded_column(alloc: Global, name: &str, word: &str) -> Result<Option<Column>, AllocError>
    ensures { IfOk result (λ column. column ≡ kinded_column name.now word.now) }
{
    if !is_name(name) {
        return Ok(None);
    }
    let Some(kind) = kind_named(word) else {
        return Ok(None);
    };
    let name = String::from_str(alloc, name)?;
    Ok(Some(Column::new(name, kind)))
}

/// The column that a text says, `NAME` or `NAME:KIND`; none where it has another form.
fn column_in(alloc: Global, text: &str) -> Result<Option<Column>, AllocError>
    ensures { IfOk result (λ column. column ≡ column_in text.now) }
{
    if is_name(text) {
        let name = String::from_str(alloc, text)?;
        return Ok(Some(Column::new(name, Kind::Int)));
    }
    match text.split_once(':') {
        Some((name, word)) => kinded_column(alloc, name, word),
        None => Ok(None),
    }
}

/// The columns that these values say; none where one of them says none.
fn columns_in(alloc: Global, values: &[Value]) -> Result<Option<Vec<Column>>, AllocError>
    ensures { IfOk result (λ found. option_map (λ columns. columns.items) found ≡ columns_in [] (map view values.now)) }
{
    let mut columns = Vec::new(alloc);
    for value in values {
        let Some(text) = value.as_str() else {
            return Ok(None);
        };
        let Some(column) = column_in(alloc, text)? else {
            return Ok(None);
        };
        columns.push(column)?;
    }
    Ok(Some(columns))
}

/// Tells whether a view may have so many columns: 1 to 64.
pub(crate) fn is_few(count: usize) -> bool
    ensures { result ≡ is_few count }
{
    1 <= count && count <= MAX_COLUMNS
}

/// The columns of an array, else Key(Columns).
fn columns_written(alloc: Global, value: &Value) -> Result<Vec<Column>, LoadFault>
    ensures ok { IfOk result (λ columns. columns_written (view value.now) ≡ Ok columns.items) }
    ensures err { IfErr result (λ f. (f ≡ LoadFault.Memory) ⊎ (columns_written (view value.now) ≡ Err f)) }
{
    let Some(values) = array_of(value) else {
        return Err(LoadFault::Key(Key::Columns));
    };
    let Some(columns) = columns_in(alloc, values)? else {
        return Err(LoadFault::Key(Key::Columns));
    };
    if !is_few(columns.len()) {
        return Err(LoadFault::Key(Key::Columns));
    }
    Ok(columns)
}

/// Returns the columns of a base view, or its first fault: Key(Columns), then Column.
pub(crate) fn base_columns(alloc: Global, table: &Value) -> Result<Vec<Column>, LoadFault>
    ensures ok { IfOk result (λ columns. base_columns (view table.now) ≡ Ok columns.items) }
    ensures err { IfErr result (λ f. (f ≡ LoadFault.Memory) ⊎ (base_columns (view table.now) ≡ Err f)) }
{
    let Some(value) = table.get("columns") else {
        return Err(LoadFault::Key(Key::Columns));
    };
    let columns = columns_written(alloc, value)?;
    distinct_columns(alloc, &columns)?;
    Ok(columns)
}
