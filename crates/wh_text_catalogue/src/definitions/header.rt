//! Finds columns in the combined row of a derived view by their references.
ghost use Rattle.std.specs.Prelude.{◌≡◌, ◌⊎◌, ◌<◌, length, string_bytes, IfSome};
ghost use Rattle.wh_text_catalogue.specs.Header.{cell_of, place_of};

use std::alloc::Global;
use std::marker::Model;
use wh_text::{Column, Kind, LoadFault, Word};

/// A cell of the combined row.
#[derive(Clone, Copy)]
pub(crate) struct Cell {
    /// The cell's place in the row, from 0.
    pub place: usize,
    /// The kind of the cell's column.
    pub kind: Kind,
}

/// The columns of the combined row of a derived view, each under the reference that names it, and the view's name.
#[derive(Drop)]
pub(crate) struct Header {
    view: String,
    columns: Vec<Column>,
}

impl Model for Header {
    ghost use Rattle.std.specs.Prelude.{string_bytes};
    ghost use Rattle.wh_text_catalogue.specs.Header.{HeaderOf};

    ghost Value = { HeaderOf };

    ghost view = { λ h. record { view = string_bytes h.view; columns = h.columns.items } };
}

/// Where the first column of this reference stands.
fn place_of(columns: &[Column], reference: &str) -> Option<usize>
    ensures value { result ≡ place_of columns.now reference.now }
    ensures within { IfSome result (λ place. place < length columns.now) }
{
    columns.iter().position(|column| column.name() == reference)
}

/// The cell of the first column of this reference.
fn cell_of(columns: &[Column], reference: &str) -> Option<Cell>
    ensures { result ≡ cell_of columns.now reference.now }
{
    let place = place_of(columns, reference)?;
    let kind = columns[place].kind();
    Some(Cell { place, kind })
}

impl Header {
    /// Returns the combined row of these columns, under the view of this name.
    pub(crate) fn new(view: String, columns: Vec<Column>) -> Header
        ensures view { result.view ≡ string_bytes view }
        ensures columns { result.columns ≡ columns.items }
    {
        Header { view, columns }
    }

    /// Returns how many cells a combined row has.
    pub(crate) fn width(&self) -> usize
        ensures { result ≡ length self.now.columns }
    {
        self.columns.len()
    }

    /// Returns the cell that a reference names, or `None` where it names none.
    pub(crate) fn cell(&self, reference: &str) -> Option<Cell>
        ensures { result ≡ cell_of self.now.columns reference.now }
    {
        cell_of(&self.columns, reference)
    }

    /// Returns the fault of a formula whose kinds do not fit, or Memory.
    pub(crate) fn unfit(&self, alloc: Global) -> LoadFault
        ensures { (result ≡ LoadFault.Memory) ⊎ (result ≡ LoadFault.Kind self.now.view) }
    {
        match Word::new(alloc, self.view.as_bytes()) {
            Ok(view) => LoadFault::Kind(view),
            Err(_) => LoadFault::Memory,
        }
    }
}
