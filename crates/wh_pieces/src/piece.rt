//! A piece of a map: rows of one width, side by side, so that a row is no object of its own.

ghost use Rattle.std.specs.Prelude.{◌≡◌, ◌<◌, ◌≤◌, ◌+◌, ◌*◌, ◌↔◌, [], ◌∷◌, ◌++◌, length, take, drop, slice_get, Some, IfOk, OnOk, OnErr, IsTrue, MatchResult, cond};
ghost use Rattle.std.specs.List.{insert, remove};
ghost use Rattle.std.specs.Map.{keys_of};
ghost use Rattle.wh_pieces.specs.Flat.{flat};
ghost use Rattle.wh_pieces.specs.Pieces.{AreRevalued, AreWide};
ghost use Rattle.wh_pieces.specs.Place.{AreRisingRows};
ghost use Rattle.wh_pieces.specs.Inner.Place.{IsAt, IsGapFor, set_at};

use crate::near::{likely_place, longer, place_to_ask};
use std::alloc::{AllocError, Global};
use std::cmp::Ordering;
use std::marker::Model;

/// Rows of one width side by side, each with a value.
#[derive(Drop)]
pub(crate) struct Piece<T> {
    width: usize,
    cells: Vec<i64>,
    values: Vec<T>,
}

impl<T> Model for Piece<T> {
    ghost use Rattle.std.specs.Prelude.{List, ℤ, ◌≡◌, ◌*◌, length};
    ghost use Rattle.std.specs.Coded.{coded_list, coded×, coded_ℤ};

    ghost Value = { List (List ℤ × T) };

    ghost coded = { coded_list (coded× (coded_list coded_ℤ) T.code) };

    ghost use Rattle.wh_pieces.specs.Flat.{flat};

    ghost view = { λ l. flat l.width l.cells.items l.values.items };

    ghost invariant = { λ l. length l.cells.items ≡ l.width * length l.values.items };
}

impl<T: Copy + Drop> Piece<T> {
    /// Makes a piece of one row, with room for `room` of them.
    pub(crate) fn one(alloc: Global, room: usize, row: &[i64], value: T) -> Result<Self, AllocError>
        ensures { IfOk result (λ l. l ≡ (row.now, value) ∷ []) }
    {
        let mut cells = Vec::with_capacity(alloc, row.len().saturating_mul(room))?;
        cells.extend_from_slice(row)?;
        let mut values = Vec::with_capacity(alloc, room)?;
        values.push(value)?;
        Ok(Piece {
            width: row.len(),
            cells,
            values,
        })
    }

    /// Makes a piece of rows of one width, whose cells stand side by side. Some room is left behind them.
    pub(crate) fn of(
        alloc: Global,
        width: usize,
        cells: &[i64],
        values: &[T],
    ) -> Result<Self, AllocError>
        requires { length cells.now ≡ width * length values.now }
        ensures { IfOk result (λ l. l ≡ flat width cells.now values.now) }
    {
        let cells = with_room(alloc, cells)?;
        let values = with_room(alloc, values)?;
        Ok(Piece {
            width,
            cells,
            values,
        })
    }

    /// Returns the number of rows.
    pub(crate) fn len(&self) -> usize
        ensures { result ≡ length self.now }
    {
        self.values.len()
    }

    /// Returns whether each row has this many cells.
    pub(crate) fn has_width(&self, width: usize) -> bool
        ensures { IsTrue result ↔ AreWide width self.now }
    {
        self.width == width || self.values.is_empty()
    }

    /// Returns the row at a place.
    pub(crate) fn row(&self, place: usize) -> &[i64]
        requires { place < length self.now }
        ensures { slice_get (keys_of self.now) place ≡ Some result.now }
    {
        let start = self.width * place;
        &self.cells[start..start + self.width]
    }

    /// Returns the row at a place, and its value.
    pub(crate) fn get(&self, place: usize) -> (&[i64], T)
        requires { place < length self.now }
        ensures { slice_get self.now place ≡ Some (result.0.now, result.1) }
    {
        (self.row(place), self.values[place])
    }

    /// Returns the `count` rows from a place on: their width, their cells side by side, and their values.
    pub(crate) fn run(&self, place: usize, count: usize) -> (usize, &[i64], &[T])
        requires { place + count ≤ length self.now }
        ensures rows { flat result.0 result.1.now result.2.now ≡ take count (drop place self.now) }
        ensures cells { length result.1.now ≡ result.0 * length result.2.now }
        ensures count { length result.2.now ≡ count }
    {
        let start = self.width * place;
        let end = place + count;
        let cells = &self.cells[start..self.width * end];
        (self.width, cells, &self.values[place..end])
    }

    /// Returns where the row stands, or as an error where it would go. Takes O(w log n) time for n rows of w cells.
    pub(crate) fn find(&self, row: &[i64]) -> Result<usize, usize>
        requires { AreRisingRows self.now }
        ensures { MatchResult result (IsAt row.now self.now) (IsGapFor row.now self.now) }
    {
        let mut low = 0;
        let mut high = self.len();
        let mut likely = self.likely_place(row);
        let mut step = 1;
        while low < high {
            let asked = place_to_ask(low, high, likely);
            match row.cmp(self.row(asked)) {
                Ordering::Less => {
                    high = asked;
                    likely = asked.saturating_sub(step);
                    step = longer(step);
                }
                Ordering::Equal => return Ok(asked),
                Ordering::Greater => {
                    low = asked + 1;
                    likely = asked.saturating_add(step);
                    step = longer(step);
                }
            }
        }
        Err(low)
    }

    /// Returns about where the row stands.
    fn likely_place(&self, row: &[i64]) -> usize {
        let count = self.len();
        if count == 0 {
            return 0;
        }
        likely_place(row, self.row(0), self.row(count - 1), count)
    }

    /// Sets the value at a place.
    pub(crate) fn set(&mut self, place: usize, value: T)
        requires { place < length self.old }
        ensures { self.new ≡ set_at self.old place value }
    {
        self.values[place] = value;
    }

    /// Puts a row to a place, if it has the width of the others and there are fewer than `most`. Returns whether it did. An error, for want
    /// of memory, leaves the piece as it was.
    pub(crate) fn insert(
        &mut self,
        most: usize,
        place: usize,
        row: &[i64],
        value: T,
    ) -> Result<bool, AllocError>
        requires { place ≤ length self.old }
        ensures { MatchResult result
            (λ done. self.new ≡ cond done (insert self.old place (row.now, value)) self.old)
            (λ _. self.new ≡ self.old) }
    {
        if row.len() != self.width || self.values.len() >= most {
            return Ok(false);
        }
        self.values.reserve(1)?;
        put_in(&mut self.cells, self.width * place, row)?;
        let Ok(()) = self.values.insert(place, value) else {
            return Err(AllocError);
        };
        Ok(true)
    }

    /// Puts a row behind the others, if it has their width and there are fewer than `most`. Returns whether it did. An error, for want of
    /// memory, leaves the piece as it was. No cell is moved for it.
    pub(crate) fn push(&mut self, most: usize, row: &[i64], value: T) -> Result<bool, AllocError>
        ensures { MatchResult result
            (λ done. self.new ≡ cond done (self.old ++ (row.now, value) ∷ []) self.old)
            (λ _. self.new ≡ self.old) }
    {
        if row.len() != self.width || self.values.len() >= most {
            return Ok(false);
        }
        self.values.reserve(1)?;
        self.cells.extend_from_slice(row)?;
        let Ok(()) = self.values.push(value) else {
            return Err(AllocError);
        };
        Ok(true)
    }

    /// Removes the row at a place.
    pub(crate) fn remove(&mut self, place: usize)
        requires { place < length self.old }
        ensures { self.new ≡ remove self.old place }
    {
        take_out(&mut self.cells, self.width * place, self.width);
        let _ = self.values.remove(place);
    }

    /// Makes a copy of the rows from a place on, with their values.
    pub(crate) fn tail(&self, alloc: Global, place: usize) -> Result<Self, AllocError>
        requires { place ≤ length self.now }
        ensures { IfOk result (λ l. l ≡ drop place self.now) }
    {
        let cells = with_room(alloc, &self.cells[self.width * place..])?;
        let values = with_room(alloc, &self.values[place..])?;
        Ok(Piece {
            width: self.width,
            cells,
            values,
        })
    }

    /// Makes a piece of these rows, with values that `value_of` makes of theirs.
    pub(crate) fn with_values<U: Copy + Drop, F: Fn(T) -> U>(
        &self,
        alloc: Global,
        value_of: &F,
    ) -> Result<Piece<U>, AllocError>
        requires { F.IsAlwaysCallable value_of.now }
        ensures { IfOk result (AreRevalued (λ old new. F.post value_of.now old new) self.now) }
    {
        let mut values = Vec::with_capacity(alloc, and_room(self.values.len()))?;
        for value in &self.values {
            values.push(value_of(*value))?;
        }
        let cells = with_room(alloc, &self.cells)?;
        Ok(Piece {
            width: self.width,
            cells,
            values,
        })
    }

    /// Keeps the rows before a place, and drops the others.
    pub(crate) fn truncate(&mut self, place: usize)
        requires { place ≤ length self.old }
        ensures { self.new ≡ take place self.old }
    {
        self.cells.truncate(self.width * place);
        self.values.truncate(place);
    }
}

/// How many times the room that is left goes into what stands there.
const ROOM: usize = 16;

/// Returns `many`, and some room.
pub(crate) fn and_room(many: usize) -> usize {
    many.saturating_add(many / ROOM)
}

/// Makes a copy of items with some room behind it, so that the first rows that come in between do not have all moved to another place.
fn with_room<T: Copy + Drop>(alloc: Global, items: &[T]) -> Result<Vec<T>, AllocError>
    ensures items { IfOk result (λ copy. copy.items ≡ items.now) }
{
    let mut copy = Vec::with_capacity(alloc, and_room(items.len()))?;
    copy.extend_from_slice(items)?;
    Ok(copy)
}

/// Puts cells before a place. An error, for want of memory, leaves them as they were.
fn put_in(cells: &mut Vec<i64>, start: usize, row: &[i64]) -> Result<(), AllocError>
    requires { start ≤ length cells.old.items }
    ensures ok { OnOk result (cells.new.items ≡ take start cells.old.items ++ (row.now ++ drop start cells.old.items)) }
    ensures err { OnErr result (cells.new.items ≡ cells.old.items) }
{
    let end = cells.len();
    cells.extend_from_slice(row)?;
    cells.copy_within(start..end, start + row.len());
    cells[start..start + row.len()].copy_from_slice(row);
    Ok(())
}

/// Takes out `width` cells from a place on.
fn take_out(cells: &mut Vec<i64>, start: usize, width: usize)
    requires { start + width ≤ length cells.old.items }
    ensures { cells.new.items ≡ take start cells.old.items ++ drop (start + width) cells.old.items }
{
    let kept = cells.len() - width;
    cells.copy_within(start + width.., start);
    cells.truncate(kept);
}
