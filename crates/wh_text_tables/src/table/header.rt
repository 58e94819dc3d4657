//! Reads the header of a table or of changes.
ghost use Rattle.std.specs.Prelude.{◌≡◌, ◌≤◌, drop, length};
ghost use Rattle.std.specs.Cmp.Lexicographic.{pointwise};
ghost use Rattle.std.specs.Str.{bytes_eq};
ghost use Rattle.csv.specs.Records.{fields_of};
ghost use Rattle.wh_text.specs.Columns.{names_of};
ghost use Rattle.wh_text_tables.specs.TableText.{count_cells, counted_header, counting_of};

use crate::records::cell;
use csv::StringRecord;
use wh_text::Column;

/// The two things that a part of rows may tell.
#[derive(Clone, Copy)]
pub enum Content {
    /// The rows of a table.
    Table,
    /// The changes to a table.
    Changes,
}

/// How a record tells how often its row counts.
#[derive(Clone, Copy)]
pub(crate) enum Counting {
    /// It tells no count: each record counts one.
    Once,
    /// Its first cell is the count, above zero.
    Positive,
    /// Its first cell is the count, which is not zero.
    NonZero,
}

impl Counting {
    /// Returns how many cells of a record tell its count.
    pub(crate) fn cells(self) -> usize
        ensures { result ≡ count_cells self }
    {
        match self {
            Counting::Once => 0,
            Counting::Positive | Counting::NonZero => 1,
        }
    }
}

/// Whether these are the columns' names.
fn are_names(cells: &StringRecord, from: usize, columns: &[Column]) -> bool
    requires { from ≤ length (fields_of cells.now) }
    ensures { result ≡ pointwise bytes_eq (drop from (fields_of cells.now)) (names_of columns.now) }
{
    if cells.len() - from != columns.len() {
        return false;
    }
    for (place, column) in columns.iter().enumerate() {
        if cell(cells, from + place) != column.name() {
            return false;
        }
    }
    true
}

/// Whether this is `#` and the columns' names.
fn is_counted_header(cells: &StringRecord, columns: &[Column]) -> bool
    ensures { result ≡ pointwise bytes_eq (fields_of cells.now) (counted_header (names_of columns.now)) }
{
    if cells.len() == 0 {
        return false;
    }
    if cell(cells, 0) != "#" {
        return false;
    }
    are_names(cells, 1, columns)
}

/// Tells how the records below this header tell their counts, if it is a header of these columns.
pub(crate) fn counting_of(
    content: Content,
    cells: &StringRecord,
    columns: &[Column],
) -> Option<Counting>
    ensures { result ≡ counting_of content (names_of columns.now) (fields_of cells.now) }
{
    match content {
        Content::Table => {
            if are_names(cells, 0, columns) {
                Some(Counting::Once)
            } else if is_counted_header(cells, columns) {
                Some(Counting::Positive)
            } else {
                None
            }
        }
        Content::Changes => {
            if is_counted_header(cells, columns) {
                Some(Counting::NonZero)
            } else {
                None
            }
        }
    }
}
