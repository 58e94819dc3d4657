//! A map's pieces, one after another, and the calls of a map on them.

ghost use Rattle.std.specs.Prelude.{◌≡◌, ◌≢◌, ◌<◌, ◌≤◌, ◌+◌, ◌*◌, ◌^◌, ◌↔◌, [], ◌∷◌, ◌++◌, length, take, drop, set, List, ℤ, cond, Option, Some, None, IsSome, IfOk, OnOk, OnErr, IsTrue, suc, false};
ghost use Rattle.std.specs.List.{insert, remove};
ghost use Rattle.wh_pieces.specs.Flat.{flat};
ghost use Rattle.wh_pieces.specs.Row.{is_row};
ghost use Rattle.wh_pieces.specs.Place.{AreRisingRows, IsAbove};
ghost use Rattle.wh_pieces.specs.Pieces.{found, with_entry, without_entry, remade, above, from, all_of, AreRevalued, AreWide};
ghost use Rattle.wh_pieces.specs.Inner.Pieces.{AreNotEmpty, ArePieces, AreCounted, IsPieceFor, piece_at, before, after};

use crate::bulk::cut;
use crate::entries::Entries;
use crate::near::{likely_place, longer, place_to_ask};
use crate::piece::{Piece, and_room};
use std::alloc::{AllocError, Global};
use std::cmp::Ordering;
use std::marker::Model;

/// A finite map from rows to values, in rising order of the rows.
#[derive(Drop)]
pub struct RowMap<T> {
    alloc: Global,
    /// How many rows a piece has at most, where it is made by inserts.
    most: usize,
    pieces: Vec<Piece<T>>,
    len: usize,
}

impl<T> Model for RowMap<T> {
    ghost use Rattle.std.specs.Prelude.{List, ℤ};
    ghost use Rattle.std.specs.Coded.{coded_list, coded×, coded_ℤ};

    ghost Value = { List (List ℤ × T) };

    ghost coded = { coded_list (coded× (coded_list coded_ℤ) T.code) };

    ghost use Rattle.wh_pieces.specs.Pieces.{all_of};
    ghost use Rattle.wh_pieces.specs.Inner.Pieces.{AreCounted};

    ghost view = { λ r. all_of r.pieces.items };

    ghost invariant = { λ r. AreCounted r.pieces.items r.len };
}

impl<T: Copy + Drop> RowMap<T> {
    /// Makes a map without rows. Takes no memory.
    pub fn new(alloc: Global) -> Self
        ensures { result ≡ [] }
    {
        RowMap::with_most(alloc, MOST)
    }

    /// Makes a map without rows, whose pieces have about `most` rows at most. The number makes calls faster or slower and changes no
    /// answer. Takes no memory.
    pub fn with_most(alloc: Global, most: usize) -> Self
        ensures { result ≡ [] }
    {
        RowMap {
            alloc,
            most,
            pieces: Vec::new(alloc),
            len: 0,
        }
    }

    /// Makes a map of rows of one width, whose cells stand side by side, each with its value. They have to rise, so pieces are cut from
    /// them and no row is looked at. Fails for want of memory alone. Takes O(n w) time for n rows of w cells.
    pub fn from_rising(
        alloc: Global,
        width: usize,
        cells: &[i64],
        values: &[T],
    ) -> Result<Self, AllocError>
        requires cells { length cells.now ≡ width * length values.now }
        requires rising { AreRisingRows (flat width cells.now values.now) }
        ensures ok { IfOk result (λ map. map ≡ flat width cells.now values.now) }
        ensures memory { OnErr result (values.now ≢ []) }
    {
        let len = values.len();
        if len > LARGEST {
            return Err(AllocError);
        }
        let pieces = cut(alloc, width, cells, values)?;
        Ok(RowMap {
            alloc,
            most: MOST,
            pieces,
            len,
        })
    }

    /// Makes a map without rows, with the memory and the size of pieces of this one.
    pub(crate) fn none(&self) -> Self
        ensures { result ≡ [] }
    {
        RowMap::with_most(self.alloc, self.most)
    }

    /// Returns what the map takes its memory from.
    pub(crate) fn alloc(&self) -> Global {
        self.alloc
    }

    /// Returns the number of rows.
    pub fn len(&self) -> usize
        ensures len { result ≡ length self.now }
        ensures small { result < 2 ^ 63 }
        ensures rising { AreRisingRows self.now }
    {
        self.len
    }

    /// Returns whether each row has this many cells. Pieces are asked, and no rows. Takes O(p) time for p pieces.
    pub fn has_width(&self, width: usize) -> bool
        ensures { IsTrue result ↔ AreWide width self.now }
    {
        for place in 0..self.pieces.len() {
            if !self.pieces[place].has_width(width) {
                return false;
            }
        }
        true
    }

    /// Returns whether there are no rows.
    pub fn is_empty(&self) -> bool
        ensures { IsTrue result ↔ (self.now ≡ []) }
    {
        self.len() == 0
    }

    /// Returns the value at a row, or none where the map has no such row. Takes O(w log n) time for n rows of w cells.
    pub fn get(&self, row: &[i64]) -> Option<T>
        ensures { result ≡ found row.now self.now }
    {
        if self.pieces.is_empty() {
            return None;
        }
        let piece = &self.pieces[find_piece(&self.pieces, row)];
        match piece.find(row) {
            Ok(place) => Some(piece.get(place).1),
            Err(_) => None,
        }
    }

    /// Returns the entries in rising order. Takes O(1) time and no memory.
    pub fn entries(&self) -> Entries<'_, T>
        ensures entries { result ≡ self.now }
        ensures few { length result < 2 ^ 63 }
        ensures rising { AreRisingRows result }
    {
        Entries::new(&self.pieces, 0)
    }

    /// Returns the entries above this row, in rising order. Those below it are not walked through. Takes O(w log n) time for n rows of w
    /// cells.
    pub fn entries_after(&self, row: &[i64]) -> Entries<'_, T>
        ensures entries { result ≡ above row.now self.now }
        ensures few { length result < 2 ^ 63 }
    {
        if self.pieces.is_empty() {
            return self.entries();
        }
        let nth = find_piece(&self.pieces, row);
        let place = match self.pieces[nth].find(row) {
            Ok(place) => place + 1,
            Err(place) => place,
        };
        Entries::new(&self.pieces[nth..], place)
    }

    /// Returns the entries from this row on, in rising order. Those below it are not walked through. Takes O(w log n) time for n rows of w
    /// cells.
    pub fn entries_from(&self, row: &[i64]) -> Entries<'_, T>
        ensures { result ≡ from row.now self.now }
    {
        if self.pieces.is_empty() {
            return self.entries();
        }
        let nth = find_piece(&self.pieces, row);
        let place = match self.pieces[nth].find(row) {
            Ok(place) => place,
            Err(place) => place,
        };
        Entries::new(&self.pieces[nth..], place)
    }

    /// Sets the value at a row, and returns the one that stood there. It takes memory only for a row that is new. An error leaves the map
    /// as it was. Takes O(w log n) time for n rows of w cells, and moves at most a piece's rows; where a full piece is cut, O(n) more at
    /// worst.
    pub fn insert(&mut self, row: &[i64], value: T) -> Result<Option<T>, AllocError>
        ensures gives { IfOk result (λ r. r ≡ found row.now self.old) }
        ensures ok { OnOk result (self.new ≡ with_entry self.old row.now value) }
        ensures err { OnErr result (self.new ≡ self.old) }
        ensures memory { OnErr result (found row.now self.old ≡ None) }
    {
        self.insert_or(
            row,
            value,
            &move |_old: T| -> Option<T>
                ensures { result ≡ Some value }
            { Some(value) },
        )
    }

    /// Puts a value at a row that is new, or changes the one that stands there to what `change` makes of it. Returns what stood there.
    /// Where `change` gives none, the row is removed. It takes memory only for a row that is new. An error leaves the map as it was. Takes
    /// O(w log n) time for n rows of w cells, and moves at most a piece's rows. Where a full piece is cut or one is emptied, it takes O(n)
    /// more at worst.
    pub fn insert_or<F: Fn(T) -> Option<T>>(
        &mut self,
        row: &[i64],
        value: T,
        change: &F,
    ) -> Result<Option<T>, AllocError>
        requires { F.IsAlwaysCallable change.now }
        ensures gives { IfOk result (λ r. r ≡ found row.now self.old) }
        ensures new { found row.now self.old ≡ None → OnOk result (self.new ≡ with_entry self.old row.now value) }
        ensures there { (old : T) → found row.now self.old ≡ Some old
            → (made : Option T) × (F.post change.now old made) × (self.new ≡ remade self.old row.now made)
            × (found row.now self.new ≡ made) }
        ensures err { OnErr result (self.new ≡ self.old) }
        ensures memory { OnErr result (found row.now self.old ≡ None) }
    {
        // Rows that come in order are looked for nowhere.
        if is_above_all(&self.pieces, row) {
            self.push(row, value)?;
            return Ok(None);
        }
        let nth = find_piece(&self.pieces, row);
        match self.pieces[nth].find(row) {
            Ok(here) => {
                let stood = self.pieces[nth].get(here).1;
                match change(stood) {
                    Some(made) => {
                        self.pieces[nth].set(here, made);
                        Ok(Some(stood))
                    }
                    None => {
                        take_from(&mut self.pieces, nth, here);
                        self.len -= 1;
                        Ok(Some(stood))
                    }
                }
            }
            Err(place) => {
                if self.len >= LARGEST {
                    return Err(AllocError);
                }
                let spot = Spot { nth, place };
                put(self.alloc, self.most, &mut self.pieces, spot, row, value)?;
                self.len += 1;
                Ok(None)
            }
        }
    }

    /// Returns whether all rows of another map are above these. Takes O(w log n) time for n rows of w cells.
    pub fn is_below(&self, other: &RowMap<T>) -> bool
        ensures { IsTrue result ↔ AreRisingRows (self.now ++ other.now) }
    {
        // Told by the map: its rows rise.
        let _ = self.len();
        let Some((row, _)) = other.entries().first() else {
            return true;
        };
        match self.entries_from(row).first() {
            Some(_) => false,
            None => true,
        }
    }

    /// Puts another map's rows, which are all above these, behind them. Its pieces are moved, and no row is looked at. An error, for want
    /// of memory, leaves this map as it was. Takes O(p) time, amortised, for its p pieces.
    pub fn put_above(&mut self, other: RowMap<T>) -> Result<(), AllocError>
        requires { AreRisingRows (self.old ++ other) }
        ensures ok { OnOk result (self.new ≡ self.old ++ other) }
        ensures err { OnErr result (self.new ≡ self.old) }
        ensures memory { OnErr result (other ≢ []) }
    {
        let more = other.len();
        if more == 0 {
            return Ok(());
        }
        if LARGEST - self.len < more {
            return Err(AllocError);
        }
        let mut pieces = other.pieces;
        self.pieces.append(&mut pieces)?;
        self.len += more;
        Ok(())
    }

    /// Adds a row that is above all others. An error, for want of memory, leaves the map as it was. Takes O(w) time, amortised, for a row
    /// of w cells.
    pub fn push(&mut self, row: &[i64], value: T) -> Result<(), AllocError>
        requires { IsAbove row.now self.old }
        ensures ok { OnOk result (self.new ≡ self.old ++ (row.now, value) ∷ []) }
        ensures err { OnErr result (self.new ≡ self.old) }
    {
        if self.len >= LARGEST {
            return Err(AllocError);
        }
        put_last(self.alloc, self.most, &mut self.pieces, row, value)?;
        self.len += 1;
        Ok(())
    }

    /// Removes a row, and returns its value; none where the map has no such row. Takes O(w log n) time for n rows of w cells, and moves at
    /// most a piece's rows; where it empties a piece, O(n) more at worst.
    pub fn remove(&mut self, row: &[i64]) -> Option<T>
        ensures gives { result ≡ found row.now self.old }
        ensures entries { self.new ≡ without_entry self.old row.now }
        ensures gone { found row.now self.new ≡ None }
    {
        if self.pieces.is_empty() {
            return None;
        }
        let nth = find_piece(&self.pieces, row);
        match self.pieces[nth].find(row) {
            Ok(place) => {
                let old = self.pieces[nth].get(place).1;
                take_from(&mut self.pieces, nth, place);
                self.len -= 1;
                Some(old)
            }
            Err(_) => None,
        }
    }

    /// Combines the value at a row that is here with another. Where `combine` gives none, the row is removed.
    pub(crate) fn combine_at<F: Fn(T, T) -> Option<T>>(&mut self, row: &[i64], more: T, combine: &F)
        requires callable { F.IsAlwaysCallable combine.now }
        requires there { found row.now self.old ≢ None }
        ensures { (v : T) → found row.now self.old ≡ Some v → (o : Option T) × (F.post combine.now v more o)
            × ((q : List ℤ) → found q self.new ≡ cond (is_row q row.now) o (found q self.old)) }
    {
        let Ok(_) = self.insert_or(
            row,
            more,
            &move |stood: T| -> Option<T>
                requires { F.IsAlwaysCallable combine.now }
                ensures { F.post combine.entry.now stood more result }
            { combine(stood, more) },
        ) else {
            unreachable!()
        };
    }

    /// Makes a map with the same entries, whose memory `alloc` gives. Fails for want of memory alone. Takes O(n w) time for n rows of w
    /// cells.
    pub fn copy(&self, alloc: Global) -> Result<Self, AllocError>
        ensures ok { IfOk result (λ copy. copy ≡ self.now) }

        // Memory only where there is a row.
        ensures memory { OnErr result (self.now ≢ []) }
    {
        let mut pieces = Vec::new(alloc);
        for piece in &self.pieces {
            let Ok(()) = pieces.push(piece.tail(alloc, 0)?) else {
                return Err(AllocError);
            };
        }
        Ok(RowMap {
            alloc,
            most: self.most,
            pieces,
            len: self.len,
        })
    }

    /// Makes a map of these rows, each with a value that `value_of` makes of the one there. No row is looked at. Fails for want of memory
    /// alone. Takes O(n w) time for n rows of w cells.
    pub fn with_values<U: Copy + Drop, F: Fn(T) -> U>(
        &self,
        alloc: Global,
        value_of: &F,
    ) -> Result<RowMap<U>, AllocError>
        requires { F.IsAlwaysCallable value_of.now }
        ensures ok { IfOk result (AreRevalued (λ old new. F.post value_of.now old new) self.now) }

        // Memory only where there is a row.
        ensures memory { OnErr result (self.now ≢ []) }
    {
        let mut pieces = Vec::new(alloc);
        for piece in &self.pieces {
            let Ok(()) = pieces.push(piece.with_values(alloc, value_of)?) else {
                return Err(AllocError);
            };
        }
        Ok(RowMap {
            alloc,
            most: self.most,
            pieces,
            len: self.len,
        })
    }
}

/// How many rows a piece has at most.
const MOST: usize = 256;

/// How many rows there can be at most.
const LARGEST: usize = 9223372036854775807;

/// Takes a row out of a piece, and the piece too if it was its only one.
fn take_from<T: Copy + Drop>(pieces: &mut Vec<Piece<T>>, nth: usize, place: usize)
    requires nth { nth < length pieces.old.items }
    requires place { place < length (piece_at pieces.old.items nth) }
    requires some { AreNotEmpty pieces.old.items }
    ensures all { all_of pieces.new.items ≡ all_of (set pieces.old.items nth (remove (piece_at pieces.old.items nth) place)) }
    ensures some { AreNotEmpty pieces.new.items }
{
    pieces[nth].remove(place);
    if pieces[nth].len() == 0 {
        let _ = pieces.remove(nth);
    }
}

/// Returns whether the row is above all rows, by one look at the last of them.
fn is_above_all<T: Copy + Drop>(pieces: &Vec<Piece<T>>, row: &[i64]) -> bool
    requires pieces { ArePieces pieces.now.items }
    ensures above { IsTrue result → IsAbove row.now (all_of pieces.now.items) }
    ensures some { result ≡ false → 0 < length pieces.now.items }
{
    let count = pieces.len();
    if count == 0 {
        return true;
    }
    let last = &pieces[count - 1];
    match row.cmp(last.row(last.len() - 1)) {
        Ordering::Greater => true,
        _ => false,
    }
}

/// Returns about which piece the row stands in.
fn likely_piece<T: Copy + Drop>(pieces: &Vec<Piece<T>>, row: &[i64]) -> usize
    requires some { 0 < length pieces.now.items }
    requires pieces { ArePieces pieces.now.items }
{
    let last = pieces.len() - 1;
    likely_place(row, pieces[0].row(0), pieces[last].row(0), last + 1)
}

/// Returns the piece in which the row stands or would go.
fn find_piece<T: Copy + Drop>(pieces: &Vec<Piece<T>>, row: &[i64]) -> usize
    requires some { 0 < length pieces.now.items }
    requires pieces { ArePieces pieces.now.items }
    ensures { IsPieceFor row.now pieces.now.items result }
{
    let mut low = 0;
    let mut high = pieces.len();
    let mut likely = likely_piece(pieces, row);
    let mut step = 1;
    while 1 < high - low {
        let asked = place_to_ask(low + 1, high, likely);
        match row.cmp(pieces[asked].row(0)) {
            Ordering::Less => {
                high = asked;
                likely = asked.saturating_sub(step);
                step = longer(step);
            }
            _ => {
                low = asked;
                likely = asked.saturating_add(step);
                step = longer(step);
            }
        }
    }
    low
}

/// Puts a piece of one row before a piece, with room for `room` of them.
fn put_piece<T: Copy + Drop>(
    alloc: Global,
    pieces: &mut Vec<Piece<T>>,
    nth: usize,
    room: usize,
    row: &[i64],
    value: T,
) -> Result<(), AllocError>
    requires within { nth ≤ length pieces.old.items }
    requires some { AreNotEmpty pieces.old.items }
    ensures ok { OnOk result (all_of pieces.new.items
        ≡ all_of (take nth pieces.old.items) ++ (row.now, value) ∷ all_of (drop nth pieces.old.items)) }
    ensures err { OnErr result (all_of pieces.new.items ≡ all_of pieces.old.items) }
    ensures some { AreNotEmpty pieces.new.items }
{
    let piece = Piece::one(alloc, room, row, value)?;
    let Ok(()) = pieces.insert(nth, piece) else {
        return Err(AllocError);
    };
    Ok(())
}

/// Puts a row behind all rows of a piece.
fn put_behind<T: Copy + Drop>(
    alloc: Global,
    most: usize,
    pieces: &mut Vec<Piece<T>>,
    nth: usize,
    row: &[i64],
    value: T,
) -> Result<(), AllocError>
    requires within { nth < length pieces.old.items }
    requires some { AreNotEmpty pieces.old.items }
    ensures ok { OnOk result (all_of pieces.new.items
        ≡ all_of (take (suc nth) pieces.old.items) ++ (row.now, value) ∷ all_of (drop (suc nth) pieces.old.items)) }
    ensures err { OnErr result (all_of pieces.new.items ≡ all_of pieces.old.items) }
    ensures some { AreNotEmpty pieces.new.items }
{
    if pieces[nth].push(most, row, value)? {
        return Ok(());
    }
    put_piece(alloc, pieces, nth + 1, 1, row, value)
}

/// Cuts a piece in two.
fn split<T: Copy + Drop>(
    alloc: Global,
    pieces: &mut Vec<Piece<T>>,
    nth: usize,
    place: usize,
) -> Result<(), AllocError>
    requires within { nth < length pieces.old.items }
    requires low { 0 < place }
    requires high { place < length (piece_at pieces.old.items nth) }
    ensures ok { OnOk result (pieces.new.items
        ≡ take nth pieces.old.items ++ take place (piece_at pieces.old.items nth)
        ∷ drop place (piece_at pieces.old.items nth) ∷ drop (suc nth) pieces.old.items) }
    ensures err { OnErr result (pieces.new.items ≡ pieces.old.items) }
{
    let tail = pieces[nth].tail(alloc, place)?;
    let Ok(()) = pieces.insert(nth + 1, tail) else {
        return Err(AllocError);
    };
    pieces[nth].truncate(place);
    Ok(())
}

/// Where a row goes: before the row at a place in a piece, or behind its last.
#[derive(Clone, Copy)]
struct Spot {
    nth: usize,
    place: usize,
}

/// Puts a row to a place in a piece. Where it does not go there, the piece is cut at the place.
fn put_at<T: Copy + Drop>(
    alloc: Global,
    most: usize,
    pieces: &mut Vec<Piece<T>>,
    spot: Spot,
    row: &[i64],
    value: T,
) -> Result<(), AllocError>
    requires nth { spot.nth < length pieces.old.items }
    requires place { spot.place ≤ length (piece_at pieces.old.items spot.nth) }
    requires some { AreNotEmpty pieces.old.items }
    ensures ok { OnOk result (all_of pieces.new.items
        ≡ before pieces.old.items spot.nth spot.place ++ (row.now, value) ∷ after pieces.old.items spot.nth spot.place) }
    ensures err { OnErr result (all_of pieces.new.items ≡ all_of pieces.old.items) }
    ensures some { AreNotEmpty pieces.new.items }
{
    let Spot { nth, place } = spot;
    if pieces[nth].insert(most, place, row, value)? {
        return Ok(());
    }
    if place == 0 {
        return put_piece(alloc, pieces, nth, 1, row, value);
    }
    if place == pieces[nth].len() {
        return put_behind(alloc, most, pieces, nth, row, value);
    }
    split(alloc, pieces, nth, place)?;
    put_behind(alloc, most, pieces, nth, row, value)
}

/// Puts a row to a place in a piece, which is cut in halves first where it is full.
///
/// At either end of the map a new piece is begun instead, so that rows that come in order fill theirs.
fn put<T: Copy + Drop>(
    alloc: Global,
    most: usize,
    pieces: &mut Vec<Piece<T>>,
    spot: Spot,
    row: &[i64],
    value: T,
) -> Result<(), AllocError>
    requires nth { spot.nth < length pieces.old.items }
    requires place { spot.place ≤ length (piece_at pieces.old.items spot.nth) }
    requires some { AreNotEmpty pieces.old.items }
    ensures ok { OnOk result (all_of pieces.new.items
        ≡ before pieces.old.items spot.nth spot.place ++ (row.now, value) ∷ after pieces.old.items spot.nth spot.place) }
    ensures err { OnErr result (all_of pieces.new.items ≡ all_of pieces.old.items) }
    ensures some { AreNotEmpty pieces.new.items }
{
    let Spot { nth, place } = spot;
    let len = pieces[nth].len();
    let half = len / 2;
    if place == len && nth + 1 == pieces.len() {
        return put_at(alloc, filled(most), pieces, spot, row, value);
    }
    if len < most || half == 0 || place == 0 {
        return put_at(alloc, most, pieces, spot, row, value);
    }
    split(alloc, pieces, nth, half)?;
    if place <= half {
        return put_at(alloc, most, pieces, spot, row, value);
    }
    let later = Spot {
        nth: nth + 1,
        place: place - half,
    };
    put_at(alloc, most, pieces, later, row, value)
}

/// Puts a row behind all rows. Behind a piece that has enough another is begun with room for as many, as more are likely to come.
fn put_last<T: Copy + Drop>(
    alloc: Global,
    most: usize,
    pieces: &mut Vec<Piece<T>>,
    row: &[i64],
    value: T,
) -> Result<(), AllocError>
    requires some { AreNotEmpty pieces.old.items }
    ensures ok { OnOk result (all_of pieces.new.items ≡ all_of pieces.old.items ++ (row.now, value) ∷ []) }
    ensures err { OnErr result (all_of pieces.new.items ≡ all_of pieces.old.items) }
    ensures some { AreNotEmpty pieces.new.items }
{
    let count = pieces.len();
    if count == 0 {
        return put_piece(alloc, pieces, 0, 1, row, value);
    }
    let enough = filled(most);
    if pieces[count - 1].push(enough, row, value)? {
        return Ok(());
    }
    let room = if pieces[count - 1].len() < enough {
        1
    } else {
        and_room(enough)
    };
    put_piece(alloc, pieces, count, room, row, value)
}

/// Returns how many rows a piece gets from rows that come in order. Some room is left for rows in between.
fn filled(most: usize) -> usize
    ensures { result ≤ most }
{
    most - most / 4
}
