// Catalogues: what each view is made of, and of catalogues with two faults the first.

mod faults;
mod limits;
mod read;

use crate::texts::cases::{Reads, agree, fault_line};
use faults::{OPEN_VIEW, TWO_BASES, TWO_FAULTS, TWO_KEY_FAULTS};
use read::CATALOGUES;
use std::alloc::{AllocError, Global};
use wh_formula::{Expr, Pred};
use wh_load::{
    Column, Dict, Kind, LoadFault, Written, WrittenDefinition, WrittenOutput, read_definitions,
    read_shape,
};

/// Adds a line of the columns and their kinds.
fn append_columns(text: &mut String, columns: &[Column]) -> Result<(), AllocError> {
    for column in columns {
        text.push_str(column.name())?;
        text.push_str(match column.kind() {
            Kind::Int => ":int ",
            Kind::Text => ":text ",
        })?;
    }
    text.push_str("\n")
}

/// The combined row whose cells are their own places.
fn places(alloc: Global, width: usize) -> Result<Vec<i64>, AllocError> {
    let mut row = Vec::new(alloc);
    for place in 0..width {
        row.push(i64::try_from(place).unwrap_or(-1))?;
    }
    Ok(row)
}

/// The value of the expression on the row, if it has one.
pub(crate) fn value(expr: &Expr, row: &[i64]) -> Option<i64> {
    if expr.fits(row.len()) {
        expr.value(row)
    } else {
        None
    }
}

/// Whether the predicate holds of the row.
pub(crate) fn holds(pred: &Pred, row: &[i64]) -> bool {
    pred.fits(row.len()) && pred.holds(row)
}

/// Adds a line of the values that expressions have over the row.
fn append_values(
    alloc: Global,
    text: &mut String,
    key: &str,
    exprs: &[Expr],
    row: &[i64],
) -> Result<(), AllocError> {
    text.push_str(key)?;
    for expr in exprs {
        match value(expr, row) {
            Some(number) => text.push_str(format!(in alloc; " {number}")?.as_str())?,
            None => text.push_str(" none")?,
        }
    }
    text.push_str("\n")
}

/// Adds a line of the places by which a summary groups.
fn append_group(alloc: Global, text: &mut String, group: &[usize]) -> Result<(), AllocError> {
    text.push_str(" group")?;
    for place in group {
        text.push_str(format!(in alloc; " {place}")?.as_str())?;
    }
    text.push_str("\n")
}

/// Adds a line of the pairs of places that are equal.
fn append_join(
    alloc: Global,
    text: &mut String,
    join: &[(usize, usize)],
) -> Result<(), AllocError> {
    text.push_str(" join")?;
    for (left, right) in join {
        text.push_str(format!(in alloc; " {left}={right}")?.as_str())?;
    }
    text.push_str("\n")
}

/// Adds the lines of a definition: its join, the filter's answer and its columns' values over a row of places.
fn append_definition(
    alloc: Global,
    text: &mut String,
    definition: &WrittenDefinition,
) -> Result<(), AllocError> {
    append_join(alloc, text, &definition.join)?;
    let row = places(alloc, definition.width)?;
    let truth = holds(&definition.filter, &row);
    text.push_str(if truth {
        " where true\n"
    } else {
        " where false\n"
    })?;
    match &definition.output {
        WrittenOutput::Keep(exprs) => append_values(alloc, text, " keep", exprs, &row),
        WrittenOutput::Sums { group, sums } => {
            append_group(alloc, text, group)?;
            append_values(alloc, text, " sum", sums, &row)
        }
    }
}

/// The lines of all views that were read.
fn written_lines(alloc: Global, written: &Written) -> Result<String, AllocError> {
    let mut text = String::new(alloc);
    for view in &written.views {
        append_columns(&mut text, &view.columns)?;
        if let Some(definition) = &view.definition {
            append_definition(alloc, &mut text, definition)?;
        }
    }
    Ok(text)
}

/// The texts of the dictionary, a line each.
pub(crate) fn dict_lines(alloc: Global, dict: &Dict) -> Result<String, AllocError> {
    let mut text = String::new(alloc);
    for number in 0..1000 {
        let Some(word) = dict.text(number) else {
            return Ok(text);
        };
        text.push_str(word)?;
        text.push_str("\n")?;
    }
    Ok(text)
}

/// Reads a whole catalogue: its shape, and then its definitions.
pub(crate) fn read_catalogue(
    alloc: Global,
    text: &[u8],
    dict: &mut Dict,
) -> Result<Written, LoadFault> {
    let shape = read_shape(alloc, text)?;
    read_definitions(alloc, text, &shape, dict)
}

/// The lines of all views that were read, and then those of the texts.
fn catalogue_lines(alloc: Global, written: &Written, dict: &Dict) -> Result<String, AllocError> {
    let mut lines = written_lines(alloc, written)?;
    lines.push_str(dict_lines(alloc, dict)?.as_str())?;
    Ok(lines)
}

/// What a catalogue says, or the fault.
pub(crate) fn outcome(alloc: Global, text: &[u8]) -> Result<String, AllocError> {
    let mut dict = Dict::new(alloc);
    match read_catalogue(alloc, text, &mut dict) {
        Ok(written) => catalogue_lines(alloc, &written, &dict),
        Err(fault) => fault_line(alloc, &fault),
    }
}

#[test]
fn catalogues_are_read(rt: HostRuntime) -> Result<(), AllocError> {
    agree(&rt, rt.alloc(), Reads::Catalogue, "", CATALOGUES)
}

#[test]
fn of_two_faults_of_catalogues_the_first_is_told(rt: HostRuntime) -> Result<(), AllocError> {
    let alloc = rt.alloc();
    agree(&rt, alloc, Reads::Catalogue, TWO_BASES, TWO_FAULTS)?;
    let open = format!(in alloc; "{TWO_BASES}{OPEN_VIEW}")?;
    agree(&rt, alloc, Reads::Catalogue, &open, TWO_KEY_FAULTS)
}
