//! Writes what is printed of a night.

ghost use Rattle.std.specs.Prelude.{◌≡◌, ◌++◌, ℕ, codes, decimal, drop, flat_map, length, map, sum_by, IfOk, OnOk};
ghost use Rattle.wh_text_catalogue.specs.Definitions.{shown_view};
ghost use Rattle.wh_maint.specs.Comp.{bag_at};
ghost use Rattle.whview.specs.CheckOutput.{line};
ghost use Rattle.whview.specs.NightOutput.{left_text, reader_text, readers_text, report_text, shown_text, step_text, view_text, views_text, work_in};
ghost use Rattle.whview.specs.Inner.NightOutput.{IsShownWhole};

use super::shown::Shown;
use crate::answer::cause_text;
use std::alloc::{AllocError, Global};
use std::thread::Threads;
use wh_carry::{CarryFault, Report};
use wh_dag::Shape;
use wh_load::{ChunkedText, Dict, Names, WrittenView, write_expression, write_table};
use wh_night::Served;
use wh_row::Bag;
use wh_strategy::Expression;
use wh_threads::ThreadBudget;

/// Appends a line of this text and number.
fn append_line(
    alloc: Global,
    out: &mut Vec<u8>,
    text: &[u8],
    number: u128,
) -> Result<(), AllocError>
    ensures { OnOk result (out.new.items ≡ out.old.items ++ line (text.now ++ decimal number)) }
{
    let digits = format!(in alloc; "{number}\n")?;
    out.extend_from_slice(text)?;
    out.extend_from_slice(digits.as_bytes())
}

/// Appends an expression and its rows.
fn append_step(
    alloc: Global,
    out: &mut Vec<u8>,
    names: &Names,
    expression: &Expression,
    rows: u128,
) -> Result<(), AllocError>
    ensures { OnOk result (out.new.items ≡ out.old.items ++ step_text names.now (expression.now, rows)) }
{
    write_expression(out, names, expression)?;
    append_line(alloc, out, b": ", rows)
}

/// Appends the expressions and their rows, a line each.
fn append_steps(
    alloc: Global,
    out: &mut Vec<u8>,
    names: &Names,
    steps: &[(Expression, u128)],
) -> Result<(), AllocError>
    ensures { OnOk result (out.new.items ≡ out.old.items ++ flat_map (step_text names.now) steps.now) }
{
    for (expression, rows) in steps {
        append_step(alloc, out, names, expression, *rows)?;
    }
    Ok(())
}

/// The rows of all steps together, or 2^128 - 1 where they are more.
fn work_of(steps: &[(Expression, u128)]) -> u128
    ensures { result ≡ work_in steps.now }
{
    let mut work = 0u128;
    for (_, rows) in steps {
        work = work.saturating_add(*rows);
    }
    work
}

/// Appends the steps, their work and the version.
fn append_report(
    alloc: Global,
    out: &mut Vec<u8>,
    names: &Names,
    report: &Report,
) -> Result<(), AllocError>
    requires { report.now.version ≡ 1 }
    ensures { OnOk result (out.new.items ≡ out.old.items ++ report_text names.now report.now.steps.items) }
{
    append_steps(alloc, out, names, &report.steps)?;
    append_line(alloc, out, b"work ", work_of(&report.steps))?;
    append_line(alloc, out, b"version ", u128::from(report.version))
}

/// With what the rows of views are printed.
#[derive(Drop)]
pub(crate) struct Printing<'p, R: Threads + Sync> {
    /// Much is written by several threads.
    pub(crate) budget: &'p ThreadBudget<'p, R>,
    pub(crate) shape: &'p Shape,
    /// The views, in the order of their numbers.
    pub(crate) views: &'p [WrittenView],
    /// The texts that cells stand for.
    pub(crate) texts: &'p Dict,
}

/// Appends these rows of a derived view, written as a table is, under what they are and its name; nothing of a base view.
fn append_view<R: Threads + Sync>(
    printing: &Printing<'_, R>,
    out: &mut ChunkedText,
    word: &[u8],
    name: &str,
    view: &WrittenView,
    rows: &Bag,
) -> Result<(), AllocError>
    ensures { OnOk result (out.new ≡ out.old ++ view_text word.now printing.now.texts.now name.now (shown_view view.now) rows.now) }
{
    if view.definition.is_none() {
        return Ok(());
    }
    out.extend_from_slice(word)?;
    out.extend_from_slice(name.as_bytes())?;
    out.extend_from_slice(b"\n")?;
    write_table(printing.budget, out, &view.columns, rows, printing.texts)
}

/// Appends these rows of the derived views, which are their new tables or their changes.
fn append_views<R: Threads + Sync>(
    printing: &Printing<'_, R>,
    out: &mut ChunkedText,
    word: &[u8],
    rows: &[Bag],
) -> Result<(), AllocError>
    requires views { length printing.now.views.now ≡ length printing.now.shape.now.children }
    requires rows { length rows.now ≡ length printing.now.shape.now.children }
    ensures { OnOk result (out.new ≡ out.old ++ views_text word.now printing.now.texts.now printing.now.shape.now.names 0 (map shown_view printing.now.views.now) (bag_at rows.now)) }
{
    let shape = printing.shape;
    let views = printing.views;
    for view in 0..shape.len() {
        append_view(
            printing,
            out,
            word,
            shape.name(view),
            &views[view],
            &rows[view],
        )?;
    }
    Ok(())
}

/// Appends what is shown of the derived views.
fn append_shown<R: Threads + Sync>(
    printing: &Printing<'_, R>,
    out: &mut ChunkedText,
    tables: &[Bag],
    shown: &Shown,
) -> Result<(), AllocError>
    requires views { length printing.now.views.now ≡ length printing.now.shape.now.children }
    requires tables { length tables.now ≡ length printing.now.shape.now.children }
    requires changes { IsShownWhole printing.now.shape.now shown.now }
    ensures { OnOk result (out.new ≡ out.old ++ shown_text shown.now printing.now.texts.now printing.now.shape.now.names (map shown_view printing.now.views.now) tables.now) }
{
    match shown {
        Shown::NewTables => append_views(printing, out, b"view ", tables),
        Shown::ChangesOf(changes) => append_views(printing, out, b"changes ", changes),
    }
}

/// Appends how many rows a reader was given.
fn append_reader(
    alloc: Global,
    out: &mut Vec<u8>,
    reader: usize,
    rows: usize,
) -> Result<(), AllocError>
    ensures { OnOk result (out.new.items ≡ out.old.items ++ reader_text reader rows) }
{
    let text = format!(in alloc; "reader {reader} version 0 rows {rows}\n")?;
    out.extend_from_slice(text.as_bytes())
}

/// Appends the lines of the readers.
fn append_readers(alloc: Global, out: &mut Vec<u8>, rows: &[usize]) -> Result<(), AllocError>
    ensures { OnOk result (out.new.items ≡ out.old.items ++ readers_text 0 rows.now) }
{
    for reader in 0..rows.len() {
        append_reader(alloc, out, reader, rows[reader])?;
    }
    Ok(())
}

/// Returns what is printed of a night that was carried out, by several threads where much is.
pub(crate) fn carried_text<R: Threads + Sync>(
    printing: &Printing<'_, R>,
    carried: &Served,
    shown: &Shown,
) -> Result<ChunkedText, AllocError>
    requires version { carried.now.report.version ≡ 1 }
    requires views { length printing.now.views.now ≡ length printing.now.shape.now.children }
    requires tables { length carried.now.tables.items ≡ length printing.now.shape.now.children }
    requires changes { IsShownWhole printing.now.shape.now shown.now }
    ensures { IfOk result (λ text. text ≡ (report_text printing.now.shape.now.names carried.now.report.steps.items
        ++ shown_text shown.now printing.now.texts.now printing.now.shape.now.names (map shown_view printing.now.views.now) carried.now.tables.items) ++ readers_text 0 carried.now.rows.items) }
{
    let alloc = printing.budget.alloc;
    let names = Names::of(alloc, printing.shape)?;
    let mut steps = Vec::new(alloc);
    append_report(alloc, &mut steps, &names, &carried.report)?;
    let mut text = ChunkedText::of(steps);
    append_shown(printing, &mut text, &carried.tables, shown)?;
    let mut readers = Vec::new(alloc);
    append_readers(alloc, &mut readers, &carried.rows)?;
    text.append(readers)?;
    Ok(text)
}

/// Returns what is printed of a night that was refused.
pub(crate) fn refused_text(
    alloc: Global,
    shape: &Shape,
    refused: &CarryFault,
) -> Result<Vec<u8>, AllocError>
    ensures { IfOk result (λ text. text.items ≡ left_text shape.now.names refused.now) }
{
    let mut text = cause_text(alloc, shape, &refused.fault)?;
    if refused.started {
        text.extend_from_slice(b"left given-up\n")?;
    } else {
        text.extend_from_slice(b"left untouched\n")?;
    }
    Ok(text)
}
