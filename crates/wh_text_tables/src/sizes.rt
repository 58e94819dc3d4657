//! Reads the sizes of the views from a CSV part: a header, and a row of each view, in any order.
//! What a row weighs stands in a fifth column, or is 1 where there is none.

ghost use Rattle.std.specs.Prelude.{◌≡◌, ◌⊎◌, ◌<◌, List, length, replicate, IfOk, IfErr, IfSome, FitsSigned, OnOk, OnErr, Option, Ok, Err, Some, None, vec_len};
ghost use Rattle.std.specs.Int.{w64};
ghost use Rattle.std.specs.List.{filter_map};
ghost use Rattle.csv.specs.Records.{fields_of};
ghost use Rattle.wh_dag.specs.Written.{number_of};
ghost use Rattle.wh_strategy.specs.declared.sizes.SizeRow.{SizeRow};
ghost use Rattle.wh_text_tables.specs.RowSizes.{counts_of, size_within, weight_of};
ghost use Rattle.wh_text_tables.specs.SizesReadBack.{SizesReadBack};
ghost use Rattle.wh_text_tables.specs.SizesText.{fresh_view, missing_fault, placed, size_written, sizes_of_text, sizes_scheme};

mod header;

use crate::part::{PartReader, read_part};
use crate::records::{cell, whole_number};
use crate::sizes::header::{Columns, columns_of};
use csv::StringRecord;
use std::alloc::{AllocError, Global};
use wh_dag::Shape;
use wh_strategy::{SizeRow, Sizes};
use wh_text::{LoadFault, Word};

/// The numbers of a row, as they are written.
#[derive(Clone, Copy)]
struct Counts {
    pre: i64,
    post: i64,
    change: i64,
    weight: i64,
}

/// The weight of a row as a number: what its fifth cell writes, if that is one, or 1 where there is no such column.
fn weight_of(columns: Columns, row: &StringRecord) -> Option<i64>
    ensures value { result ≡ weight_of columns (fields_of row.now) }
    ensures fits { IfSome result (λ number. FitsSigned w64 number) }
{
    match columns {
        Columns::Plain => Some(1),
        Columns::Weighted => whole_number(cell(row, 4)),
    }
}

/// The numbers that a row writes, where each is one.
#[tactic(auto, using(wh_text::proofs::WholeNumbers::whole_numbers), unfolding(crate::specs::RowSizes::counts_of))]
fn written_counts(columns: Columns, row: &StringRecord) -> Option<Counts>
    ensures { result ≡ counts_of columns (fields_of row.now) }
{
    let pre = whole_number(cell(row, 1))?;
    let post = whole_number(cell(row, 2))?;
    let change = whole_number(cell(row, 3))?;
    let weight = weight_of(columns, row)?;
    Some(Counts {
        pre,
        post,
        change,
        weight,
    })
}

/// The sizes of these numbers, where they are within their limits.
#[tactic(auto, unfolding(crate::specs::RowSizes::size_within))]
fn size_within(counts: Counts) -> Option<SizeRow>
    ensures { result ≡ size_within counts }
{
    let size = SizeRow {
        pre: u64::try_from(counts.pre).ok()?,
        post: u64::try_from(counts.post).ok()?,
        change: u64::try_from(counts.change).ok()?,
        weight: u64::try_from(counts.weight).ok()?,
    };
    if size.is_within() { Some(size) } else { None }
}

/// The fault of the sizes of this name, or Memory.
fn sizes_fault(alloc: Global, name: &str) -> LoadFault
    ensures { (result ≡ LoadFault.Memory) ⊎ (result ≡ LoadFault.Sizes name.now) }
{
    match Word::new(alloc, name.as_bytes()) {
        Ok(word) => LoadFault::Sizes(word),
        Err(_) => LoadFault::Memory,
    }
}

/// The sizes that a row writes: its numbers are judged before their ranges.
fn written_size(
    alloc: Global,
    columns: Columns,
    number: usize,
    row: &StringRecord,
) -> Result<SizeRow, LoadFault>
    ensures ok { IfOk result (λ size. size_written columns number (fields_of row.now) ≡ Ok size) }
    ensures err { IfErr result (λ f. (f ≡ LoadFault.Memory) ⊎ (size_written columns number (fields_of row.now) ≡ Err f)) }
{
    let Some(counts) = written_counts(columns, row) else {
        return Err(LoadFault::Number(number));
    };
    let Some(size) = size_within(counts) else {
        return Err(sizes_fault(alloc, cell(row, 0)));
    };
    Ok(size)
}

/// The view of this name.
fn view_named(shape: &Shape, name: &str) -> Option<usize>
    ensures value { result ≡ number_of shape.now.names name.now }
    ensures within { IfSome result (λ view. view < length shape.now.children) }
{
    for view in 0..shape.len() {
        if shape.name(view) == name {
            return Some(view);
        }
    }
    None
}

/// The view of this name, which must not have been given sizes.
fn fresh_view(
    alloc: Global,
    shape: &Shape,
    given: &[Option<SizeRow>],
    name: &str,
) -> Result<usize, LoadFault>
    requires { length given.now ≡ length shape.now.children }
    ensures ok { IfOk result (λ view. fresh_view shape.now.names given.now name.now ≡ Ok view) }
    ensures within { IfOk result (λ view. view < length given.now) }
    ensures err { IfErr result (λ f. (f ≡ LoadFault.Memory) ⊎ (fresh_view shape.now.names given.now name.now ≡ Err f)) }
{
    let Some(view) = view_named(shape, name) else {
        return Err(sizes_fault(alloc, name));
    };
    if given[view].is_some() {
        return Err(sizes_fault(alloc, name));
    }
    Ok(view)
}

/// Gives the view of this row the sizes that it writes.
fn place_row(
    alloc: Global,
    shape: &Shape,
    given: &mut [Option<SizeRow>],
    columns: Columns,
    number: usize,
    row: &StringRecord,
) -> Result<(), LoadFault>
    requires { length given.old ≡ length shape.now.children }
    ensures ok { OnOk result (placed shape.now.names columns given.old number (fields_of row.now) ≡ Ok given.new) }
    ensures err { IfErr result (λ f. (f ≡ LoadFault.Memory) ⊎ (placed shape.now.names columns given.old number (fields_of row.now) ≡ Err f)) }
    ensures kept { OnErr result (given.new ≡ given.old) }
{
    let view = fresh_view(alloc, shape, given, cell(row, 0))?;
    let size = written_size(alloc, columns, number, row)?;
    given[view] = Some(size);
    Ok(())
}

/// What reads the sizes of the shape's views.
#[derive(Drop)]
struct SizesReader<'a> {
    alloc: Global,
    shape: &'a Shape,
}

impl<'a> PartReader for SizesReader<'a> {
    type Kind = Columns;

    type State = Vec<Option<SizeRow>>;

    ghost Seen = { List (Option SizeRow) };

    ghost seen = { λ given. given.items };

    ghost scheme = { λ reader. sizes_scheme reader.shape.now.names };

    ghost is_ready = { λ reader given number. length given ≡ length reader.shape.now.children };

    fn kind(&self, header: &StringRecord) -> Option<Columns> {
        columns_of(header)
    }

    fn take(
        &self,
        columns: Columns,
        number: usize,
        cells: &StringRecord,
        state: &mut Vec<Option<SizeRow>>,
    ) -> Result<(), LoadFault> {
        place_row(self.alloc, self.shape, state, columns, number, cells)
    }
}

/// No sizes of so many views.
fn no_sizes(alloc: Global, views: usize) -> Result<Vec<Option<SizeRow>>, AllocError>
    ensures { IfOk result (λ given. given.items ≡ replicate views None) }
{
    let mut given = Vec::new(alloc);
    for _view in 0..views {
        given.push(None)?;
    }
    Ok(given)
}

/// The sizes of all views, of which each must have been given its own.
fn covered(
    alloc: Global,
    shape: &Shape,
    given: &[Option<SizeRow>],
) -> Result<Vec<SizeRow>, LoadFault>
    requires { length given.now ≡ length shape.now.children }
    ensures ok { IfOk result (λ rows. rows.items ≡ filter_map (λ size. size) given.now) }
    ensures len { IfOk result (λ rows. vec_len rows ≡ length given.now) }
    ensures faultless { OnOk result (missing_fault shape.now.names given.now ≡ None) }
    ensures err { IfErr result (λ f. (f ≡ LoadFault.Memory) ⊎ (missing_fault shape.now.names given.now ≡ Some f)) }
{
    let mut rows = Vec::new(alloc);
    for (view, size) in given.iter().enumerate() {
        let Some(size) = size else {
            return Err(sizes_fault(alloc, shape.name(view)));
        };
        rows.push(*size)?;
    }
    Ok(rows)
}

/// Reads the sizes of the shape's views, by their numbers.
/// Fails with the first fault, record by record: `Csv` (the record's form), then `Header`. Of a row it is `Sizes` (no view's name, or a
/// second row of a view), then `Number` (its weight's too). Then comes `Sizes` again (out of range, pre and post too far apart, or a weight
/// that is not 1 to 1,000). After the last record it is `Sizes` of the first view without a row. Memory may come at any point.
#[tactic(auto, unfolding(crate::specs::SizesText::sizes_of_text))]
pub fn read_sizes(alloc: Global, shape: &Shape, text: &[u8]) -> Result<Sizes, LoadFault>
    ensures sizes { IfOk result (λ sizes. sizes_of_text shape.now.names text.now ≡ Ok sizes) }
    ensures len { IfOk result (λ sizes. length sizes ≡ length shape.now.children) }
    ensures fault { IfErr result (λ f. (f ≡ LoadFault.Memory) ⊎ (sizes_of_text shape.now.names text.now ≡ Err f)) }
{
    let mut given = no_sizes(alloc, shape.len())?;
    read_part(alloc, &SizesReader { alloc, shape }, text, &mut given)?;
    let rows = covered(alloc, shape, &given)?;
    match Sizes::new(rows) {
        Ok(sizes) => Ok(sizes),
        Err(_) => unreachable!(),
    }
}

/// A law of the definitions: sizes that are written as a header and a record for each view, in the order of their numbers, are read back as
/// they were. This holds with a column of weights, and without it where each weight is 1.
/// It asks for distinct names in UTF-8, as a shape has, and for sizes within their limits.
pub fn sizes_read_back_law()
    ensures { SizesReadBack }
{}
