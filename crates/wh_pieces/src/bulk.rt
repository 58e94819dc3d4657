//! Cuts pieces from rows that stand side by side, so that a map of many rows is made without a search for each.

ghost use Rattle.std.specs.Prelude.{◌≡◌, ◌≢◌, ◌*◌, [], length, IfOk, OnErr};
ghost use Rattle.wh_pieces.specs.Flat.{flat};
ghost use Rattle.wh_pieces.specs.Pieces.{all_of};
ghost use Rattle.wh_pieces.specs.Inner.Pieces.{AreNotEmpty};

use crate::piece::Piece;
use std::alloc::{AllocError, Global};

/// How many rows a piece gets: some room is left for rows in between.
const FILLED: usize = 192;

/// Cuts rows of one width, whose cells stand side by side, into pieces.
pub(crate) fn cut<T: Copy + Drop>(
    alloc: Global,
    width: usize,
    cells: &[i64],
    values: &[T],
) -> Result<Vec<Piece<T>>, AllocError>
    requires { length cells.now ≡ width * length values.now }
    ensures all { IfOk result (λ pieces. all_of pieces.items ≡ flat width cells.now values.now) }
    ensures some { IfOk result (λ pieces. AreNotEmpty pieces.items) }
    ensures memory { OnErr result (values.now ≢ []) }
{
    let mut pieces = Vec::new(alloc);
    let mut cells = cells;
    let mut values = values;
    while !values.is_empty() {
        let many = values.len().min(FILLED);
        let (first_cells, other_cells) = cells.split_at(width * many);
        let (first_values, other_values) = values.split_at(many);
        let piece = Piece::of(alloc, width, first_cells, first_values)?;
        let Ok(()) = pieces.push(piece) else {
            return Err(AllocError);
        };
        cells = other_cells;
        values = other_values;
    }
    Ok(pieces)
}
