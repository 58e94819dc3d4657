//! Gives rows whose texts were numbered by themselves the numbers that these texts have in a dictionary.

ghost use Rattle.std.specs.Prelude.{◌≡◌, ◌<◌, List, ℕ, IfSome, IfOk, OnOk, Some, length, map, slice_get, false, true};
ghost use Rattle.std.specs.List.{AllZip};
ghost use Rattle.wh_text.specs.Columns.{kinds_of};
ghost use Rattle.wh_text.specs.Dict.{with_texts};
ghost use Rattle.wh_text.specs.Inner.Dict.{BeginsWith};
ghost use Rattle.wh_text_tables.specs.Inner.Pieces.{AreNumbers, AreWholeNumbers, IsCellRenumbered, IsNumbered, IsPartRenumbered, IsRenumbered, IsRenumberedBy, all_texts};

use crate::table::answers::all_of;
use crate::table::rows::RowsRead;
use std::alloc::{AllocError, Global};
use std::thread::Threads;
use wh_row::Records;
use wh_text::{Column, Dict, Kind};
use wh_threads::ThreadBudget;

/// Records whose texts were numbered by themselves, and the number of each of these texts in a dictionary.
#[derive(Drop)]
pub(crate) struct Numbered {
    records: Records,
    numbers: Vec<i64>,
}

/// Returns what was read of each piece, with the numbers of its texts in a dictionary, which gets those that it lacks.
pub(crate) fn number_texts(
    alloc: Global,
    pieces: Vec<RowsRead>,
    dict: &mut Dict,
) -> Result<Vec<Numbered>, AllocError>
    ensures texts { OnOk result (dict.new ≡ with_texts dict.old (all_texts pieces.items)) }
    ensures numbers { IfOk result (λ all. AllZip (IsNumbered dict.new) pieces.items all.items) }
    ensures begins { BeginsWith dict.old dict.new }
{
    let mut all = Vec::new(alloc);
    for piece in pieces {
        let RowsRead {
            dict: texts,
            counted: records,
            ..
        } = piece;
        let numbers = numbers_of(alloc, &texts, dict)?;
        all.push(Numbered { records, numbers })?;
    }
    Ok(all)
}

/// The numbers that the texts of one dictionary have in another, which gets those that it lacks.
fn numbers_of(alloc: Global, texts: &Dict, dict: &mut Dict) -> Result<Vec<i64>, AllocError>
    ensures texts { OnOk result (dict.new ≡ with_texts dict.old texts.now) }
    ensures numbers { IfOk result (λ numbers. AreNumbers dict.new texts.now numbers.items) }
    ensures begins { BeginsWith dict.old dict.new }
{
    let mut numbers = Vec::new(alloc);
    for place in 0..texts.len() {
        let number = dict.intern(alloc, text_at(texts, place))?;
        numbers.push(number)?;
    }
    Ok(numbers)
}

/// The text at this place.
fn text_at(texts: &Dict, place: usize) -> &str
    requires { place < length texts.now }
    ensures { slice_get texts.now place ≡ Some result.now }
{
    texts.texts_are_numbered();
    texts.text(place as i64).unwrap_or("")
}

/// Returns the records of all parts with the numbers of their texts in the dictionary. Where no column is of texts they are as they were.
pub(crate) fn renumbered_parts<R: Threads + Sync>(
    budget: &ThreadBudget<'_, R>,
    columns: &[Column],
    parts: Vec<Numbered>,
) -> Option<Vec<Records>>
    ensures { IfSome result (λ all. AllZip (IsRenumberedBy (kinds_of columns.now)) parts.items all.items) }
{
    if have_texts(columns) {
        renumbered_beside(budget, columns, &parts)
    } else {
        as_read(budget.alloc, parts)
    }
}

/// The records of all parts as they were read.
fn as_read(alloc: Global, parts: Vec<Numbered>) -> Option<Vec<Records>>
    ensures { IfSome result (λ all. all.items ≡ map (λ own. own.records) parts.items) }
{
    parts
        .into_iter()
        .map(|part| part.records)
        .collect(alloc)
        .ok()
}

/// Whether a column is of texts.
fn have_texts(columns: &[Column]) -> bool
    ensures { result ≡ false → AreWholeNumbers (kinds_of columns.now) }
{
    for column in columns {
        match column.kind() {
            Kind::Text => return true,
            Kind::Int => {}
        }
    }
    false
}

/// The records of each part with the numbers of their texts in the dictionary, each part by a thread.
fn renumbered_beside<R: Threads + Sync>(
    budget: &ThreadBudget<'_, R>,
    columns: &[Column],
    parts: &[Numbered],
) -> Option<Vec<Records>>
    ensures { IfSome result (λ all. AllZip (IsRenumberedBy (kinds_of columns.now)) parts.now all.items) }
{
    let alloc = budget.alloc;
    let renumber = move |part: &Numbered| -> Option<Records>
        ensures { IfSome result (λ all. IsRenumberedBy (kinds_of columns.entry.now) part.now all) }
    { renumbered(alloc, columns, &part.numbers, &part.records) };
    let Ok(answers) = budget.each(parts, renumber) else {
        return None;
    };
    all_of(alloc, answers)
}

/// The records with the numbers of their texts turned into these.
fn renumbered(
    alloc: Global,
    columns: &[Column],
    numbers: &[i64],
    records: &Records,
) -> Option<Records>
    ensures { IfSome result (λ all. (dict texts : List (List ℕ)) → AreNumbers dict texts numbers.now → IsPartRenumbered (kinds_of columns.now) dict texts records.now all) }
{
    let mut all = Records::new(alloc);
    let Ok(()) = all.reserve(columns.len(), records.len()) else {
        return None;
    };
    let mut row = Vec::new(alloc);
    for place in 0..records.len() {
        let (cells, count) = records.get(place);
        if !renumber(columns, numbers, cells, &mut row) {
            return None;
        }
        let Ok(()) = all.push(&row, count) else {
            return None;
        };
    }
    Some(all)
}

/// Puts the row into `out`, with the numbers of its texts turned into these, and says whether that went.
fn renumber(columns: &[Column], numbers: &[i64], row: &[i64], out: &mut Vec<i64>) -> bool
    ensures { result ≡ true → (texts dict : List (List ℕ)) → AreNumbers dict texts numbers.now → IsRenumbered (kinds_of columns.now) dict texts row.now out.new.items }
{
    if row.len() != columns.len() {
        return false;
    }
    out.clear();
    for (place, column) in columns.iter().enumerate() {
        let Some(cell) = renumbered_cell(column.kind(), numbers, row[place]) else {
            return false;
        };
        let Ok(()) = out.push(cell) else {
            return false;
        };
    }
    true
}

/// The cell of this kind, with the number of a text turned into that among these.
fn renumbered_cell(kind: Kind, numbers: &[i64], cell: i64) -> Option<i64>
    ensures { IfSome result (λ other. (texts dict : List (List ℕ)) → AreNumbers dict texts numbers.now → IsCellRenumbered kind dict texts cell other) }
{
    match kind {
        Kind::Int => Some(cell),
        Kind::Text => numbers.get(usize::try_from(cell).ok()?).copied(),
    }
}
