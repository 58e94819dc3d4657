//! Reads the rows of a part in two steps, the first of which knows no dictionary, so that several threads can take it.
//!
//! The text below the header of a large part is cut into as many pieces as there are threads, each at the end of a record. A smaller part
//! is one piece. A piece is read as if no text had a number yet. Then the texts get their numbers, piece by piece in the order of the text,
//! which are those that one thread would give them. Only a part without a fault is read so. Of any other, one thread reads the text anew,
//! and finds its first fault.

ghost use Rattle.std.specs.Prelude.{◌≡◌, ℕ, List, [], IfSome, None, Ok, flat_map};
ghost use Rattle.std.specs.List.{AllZip};
ghost use Rattle.wh_text.specs.Columns.{kinds_of};
ghost use Rattle.wh_text.specs.Dict.{with_texts};
ghost use Rattle.wh_text.specs.Inner.Dict.{BeginsWith};
ghost use Rattle.wh_text_tables.specs.Part.{below_header};
ghost use Rattle.wh_text_tables.specs.Records.{records_of};
ghost use Rattle.wh_text_tables.specs.TableText.{text_gives};
ghost use Rattle.wh_text_tables.specs.Inner.Part.{IsWidthOf};
ghost use Rattle.wh_text_tables.specs.Inner.Pieces.{IsBagOf, IsPieceRead, IsReadAlone, all_texts};
ghost use Rattle.wh_text_tables.specs.Inner.TableText.{entry_scheme};
ghost use Rattle.wh_text_tables.specs.declared.table.header.Content.{Content};

use crate::cut::{record_end, without_mark};
use crate::part::{read_kind, read_rows};
use crate::records::CsvRecords;
use crate::table::answers::all_of;
use crate::table::header::Counting;
use crate::table::renumbered::{number_texts, renumbered_parts};
use crate::table::rows::{RowsRead, RowsReader};
use csv::StringRecord;
use std::alloc::Global;
use std::thread::Threads;
use wh_row::{Bag, Records as Counted};
use wh_text::{Column, Dict};
use wh_threads::{ThreadBudget, Work};

/// What a header tells of the records below it.
#[derive(Clone, Copy)]
struct Layout {
    counting: Counting,
    /// How many cells each record has.
    width: usize,
}

/// Returns the rows of a part, read by several threads; none where it is small, has a fault, or memory is refused.
pub(crate) fn read_beside<R: Threads + Sync>(
    budget: &ThreadBudget<'_, R>,
    reader: &RowsReader<'_>,
    text: &[u8],
    dict: &mut Dict,
) -> Option<Bag>
    ensures ok { IfSome result (λ bag. text_gives reader.now.content reader.now.columns.now dict.old text.now ≡ Ok (bag, dict.new)) }
    ensures none { result ≡ None → dict.new ≡ dict.old }
    ensures begins { BeginsWith dict.old dict.new }
{
    let count = budget.parts(Work::Bytes, text.len());
    if count < 2 {
        return None;
    }
    let pieces = read_part_beside(budget, reader, text, count)?;
    bag_from(budget, reader.columns, pieces, dict)
}

/// Returns the bag of what pieces gave, whose texts get numbers in the dictionary; where there is none, they lose them again.
pub(crate) fn bag_from<R: Threads + Sync>(
    budget: &ThreadBudget<'_, R>,
    columns: &[Column],
    pieces: Vec<RowsRead>,
    dict: &mut Dict,
) -> Option<Bag>
    ensures ok { (content : Content) (text : List ℕ) → IsReadAlone content columns.now (records_of text) pieces.items
        → IfSome result (λ bag. text_gives content columns.now dict.old text ≡ Ok (bag, dict.new)) }
    ensures none { result ≡ None → dict.new ≡ dict.old }
    ensures begins { BeginsWith dict.old dict.new }
{
    let texts = dict.len();
    match bag_of(budget, columns, pieces, dict) {
        Some(bag) => Some(bag),
        None => {
            dict.truncate(texts);
            None
        }
    }
}

/// The bag of what pieces gave; where there is none, some of their texts may have got numbers.
fn bag_of<R: Threads + Sync>(
    budget: &ThreadBudget<'_, R>,
    columns: &[Column],
    pieces: Vec<RowsRead>,
    dict: &mut Dict,
) -> Option<Bag>
    ensures texts { IfSome result (λ bag. dict.new ≡ with_texts dict.old (all_texts pieces.items)) }
    ensures bag { IfSome result (λ bag. IsBagOf (kinds_of columns.now) dict.new pieces.items bag) }
    ensures begins { BeginsWith dict.old dict.new }
{
    let Ok(numbered) = number_texts(budget.alloc, pieces, dict) else {
        return None;
    };
    let parts = renumbered_parts(budget, columns, numbered)?;
    Bag::from_parts(budget, &parts).ok()
}

/// What the records of a part give in so many pieces, each read by a thread, if that goes.
fn read_part_beside<R: Threads + Sync>(
    budget: &ThreadBudget<'_, R>,
    reader: &RowsReader<'_>,
    text: &[u8],
    count: usize,
) -> Option<Vec<RowsRead>>
    ensures { IfSome result (λ pieces. IsReadAlone reader.now.content reader.now.columns.now (records_of text.now) pieces.items) }
{
    let (layout, below) = below_of(reader, text)?;
    let texts = pieces_of(budget.alloc, below, count)?;
    read_pieces(budget, reader, layout, &texts)
}

/// Returns what the records of a part give as one piece, if that goes.
pub(crate) fn read_part_alone(reader: &RowsReader<'_>, text: &[u8]) -> Option<Vec<RowsRead>>
    ensures { IfSome result (λ pieces. IsReadAlone reader.now.content reader.now.columns.now (records_of text.now) pieces.items) }
{
    let (layout, below) = below_of(reader, text)?;
    let rows = read_piece(reader, layout, below)?;
    let mut pieces = Vec::new(reader.alloc);
    let Ok(()) = pieces.push(rows) else {
        return None;
    };
    Some(pieces)
}

/// What the header of a part tells, and the text below it.
fn below_of<'a>(reader: &RowsReader<'_>, text: &'a [u8]) -> Option<(Layout, &'a [u8])>
    ensures { IfSome result (λ own. below_header (entry_scheme reader.now.content reader.now.columns.now) (records_of text.now)
        ≡ Ok (record { kind = own.0.counting; width = own.0.width; rows = records_of own.1.now })) }
{
    let body = without_mark(text);
    let end = record_end(body, 0)?;
    let (head, below) = body.split_at(end);
    let layout = layout_of(reader, head)?;
    Some((layout, below))
}

/// What the header tells, where it is the only record of this text.
fn layout_of(reader: &RowsReader<'_>, head: &[u8]) -> Option<Layout>
    ensures { IfSome result (λ l. below_header (entry_scheme reader.now.content reader.now.columns.now) (records_of head.now) ≡ Ok (record { kind = l.counting; width = l.width; rows = [] })) }
{
    let alloc = reader.alloc;
    let mut records = CsvRecords::new(alloc, head);
    let mut cells = StringRecord::new(alloc);
    let Ok(counting) = read_kind(reader, &mut records, &mut cells) else {
        return None;
    };
    let width = cells.len();
    match records.read(&mut cells) {
        Ok(false) => Some(Layout { counting, width }),
        _ => None,
    }
}

/// This text in so many pieces that follow each other, or in fewer where there is no more place to cut it.
fn pieces_of<'a>(alloc: Global, text: &'a [u8], count: usize) -> Option<Vec<&'a [u8]>>
    ensures { IfSome result (λ pieces. records_of text.now ≡ flat_map (λ piece. records_of piece.now) pieces.items) }
{
    let mut pieces = Vec::new(alloc);
    let mut rest = text;
    for piece in 1..count {
        let Some(end) = record_end(rest, rest.len() / (count - piece + 1)) else {
            break;
        };
        let (first, others) = rest.split_at(end);
        pieces.push(first).ok()?;
        rest = others;
    }
    pieces.push(rest).ok()?;
    Some(pieces)
}

/// What the records of each piece give, each piece by a thread, if none has a fault and there is memory.
fn read_pieces<R: Threads + Sync>(
    budget: &ThreadBudget<'_, R>,
    reader: &RowsReader<'_>,
    layout: Layout,
    texts: &[&[u8]],
) -> Option<Vec<RowsRead>>
    requires { IsWidthOf (entry_scheme reader.now.content reader.now.columns.now) layout.counting layout.width }
    ensures { IfSome result (λ pieces. AllZip (λ text read. IsPieceRead layout.counting (kinds_of reader.now.columns.now) layout.width (records_of text.now) read.dict read.counted) texts.now pieces.items) }
{
    let read = move |text: &&[u8]| -> Option<RowsRead>
        requires { IsWidthOf (entry_scheme reader.now.content reader.now.columns.now) layout.counting layout.width }
        ensures { IfSome result (λ read. IsPieceRead layout.counting (kinds_of reader.entry.now.columns.now) layout.width (records_of text.now.now) read.dict read.counted) }
    { read_piece(reader, layout, text) };
    let Ok(answers) = budget.each(texts, read) else {
        return None;
    };
    all_of(budget.alloc, answers)
}

/// What the records of this text below a header give, if none has a fault and there is memory.
fn read_piece(reader: &RowsReader<'_>, layout: Layout, text: &[u8]) -> Option<RowsRead>
    requires { IsWidthOf (entry_scheme reader.now.content reader.now.columns.now) layout.counting layout.width }
    ensures { IfSome result (λ read. IsPieceRead layout.counting (kinds_of reader.now.columns.now) layout.width (records_of text.now) read.dict read.counted) }
{
    let alloc = reader.alloc;
    let mut records = CsvRecords::below_header(alloc, text);
    let mut cells = StringRecord::new(alloc);
    let mut rows = RowsRead {
        dict: Dict::new(alloc),
        counted: Counted::new(alloc),
        row: Vec::new(alloc),
    };
    let Layout { counting, width } = layout;
    match read_rows(reader, counting, width, &mut records, &mut cells, &mut rows) {
        Ok(()) => Some(rows),
        Err(_) => None,
    }
}
