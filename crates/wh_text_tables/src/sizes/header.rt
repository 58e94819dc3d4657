//! Reads the header of sizes.
ghost use Rattle.std.specs.Prelude.{◌≡◌};
ghost use Rattle.csv.specs.Records.{fields_of};
ghost use Rattle.wh_text_tables.specs.SizesText.{columns_of};

use crate::records::are_cells;
use csv::StringRecord;

const PLAIN: [&str; 4] = ["view", "pre", "post", "change"];

const WEIGHTED: [&str; 5] = ["view", "pre", "post", "change", "weight"];

/// Which columns the rows have.
#[derive(Clone, Copy)]
pub(crate) enum Columns {
    /// None for weights: each row weighs 1.
    Plain,
    /// A fifth one, of weights.
    Weighted,
}

/// Returns the columns below this header, if it is one of sizes.
pub(crate) fn columns_of(header: &StringRecord) -> Option<Columns>
    ensures { result ≡ columns_of (fields_of header.now) }
{
    if are_cells(header, &PLAIN) {
        Some(Columns::Plain)
    } else if are_cells(header, &WEIGHTED) {
        Some(Columns::Weighted)
    } else {
        None
    }
}
