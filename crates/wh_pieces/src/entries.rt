//! Lends the entries of a map one after another, so that they are walked through without a copy.

ghost use Rattle.std.specs.Prelude.{◌≡◌, ◌<◌, ◌≤◌, ◌↔◌, [], ◌∷◌, ◌++◌, length, drop, IsTrue, MatchOption};
ghost use Rattle.std.specs.Iterator.{YieldsFirstBy, item_count};
ghost use Rattle.wh_pieces.specs.Flat.{IsRun};
ghost use Rattle.wh_pieces.specs.Lent.{lent};
ghost use Rattle.wh_pieces.specs.Pieces.{all_of};
ghost use Rattle.wh_pieces.specs.Inner.Pieces.{AreNotEmpty, piece_at, BeginsAt};
ghost use Rattle.wh_pieces.specs.Inner.Place.{IsFirst};

use crate::piece::Piece;
use std::cmp::Ordering;
use std::marker::Model;

/// The entries of a map that are still to come, in rising order: each row with its value.
#[derive(Drop)]
pub struct Entries<'a, T> {
    pieces: &'a [Piece<T>],
    /// The place in the first piece at which the entries begin.
    place: usize,
}

impl<'a, T> Model for Entries<'a, T> {
    ghost use Rattle.std.specs.Prelude.{List, ℤ, drop};
    ghost use Rattle.std.specs.Coded.{coded_list, coded×, coded_ℤ};

    ghost Value = { List (List ℤ × T) };

    ghost coded = { coded_list (coded× (coded_list coded_ℤ) T.code) };

    ghost use Rattle.wh_pieces.specs.Pieces.{all_of};
    ghost use Rattle.wh_pieces.specs.Inner.Pieces.{BeginsAt};

    ghost view = { λ e. drop e.place (all_of e.pieces.now) };

    ghost invariant = { λ e. BeginsAt e.pieces.now e.place };
}

impl<'a, T: Copy + Drop> Entries<'a, T> {
    /// Makes a walk over no entries. Takes no memory.
    pub fn none() -> Self
        ensures { result ≡ [] }
    {
        Entries {
            pieces: &[],
            place: 0,
        }
    }

    /// Makes a walk over the entries of pieces, from a place in the first of them on.
    pub(crate) fn new(pieces: &'a [Piece<T>], place: usize) -> Self
        requires some { AreNotEmpty pieces.now }
        requires within { place ≤ length (piece_at pieces.now 0) }
        ensures { result ≡ drop place (all_of pieces.now) }
    {
        let Some((piece, rest)) = pieces.split_first() else {
            return Entries { pieces, place: 0 };
        };
        if place == piece.len() {
            return Entries {
                pieces: rest,
                place: 0,
            };
        }
        Entries { pieces, place }
    }

    /// Returns the first of these entries, which stays; none where there are no more.
    pub fn first(&self) -> Option<(&'a [i64], T)>
        ensures { MatchOption result (self.now ≡ []) (λ e. self.now ≡ lent e ∷ drop 1 self.now) }
    {
        let piece = self.pieces.first()?;
        Some(piece.get(self.place))
    }

    /// Returns whether the first of these entries is that of the row.
    pub(crate) fn begin_with(&self, row: &[i64]) -> bool
        ensures { IsTrue result ↔ IsFirst row.now self.now }
    {
        let Some((first, _)) = self.first() else {
            return false;
        };
        match row.cmp(first) {
            Ordering::Equal => true,
            _ => false,
        }
    }

    /// Leaves behind the next of these entries that stand side by side, at most `most`, and returns their width, their cells and their
    /// values. None where no entry is left. Takes O(1) time and no memory.
    pub fn run(&mut self, most: usize) -> Option<(usize, &'a [i64], &'a [T])>
        requires { 0 < most }
        ensures { MatchOption result ((self.old ≡ []) × (self.new ≡ [])) (λ r. IsRun most self.old self.new r.0 r.1.now r.2.now) }
    {
        let Some((piece, rest)) = self.pieces.split_first() else {
            return None;
        };
        let left = piece.len() - self.place;
        if most < left {
            let run = piece.run(self.place, most);
            self.place += most;
            return Some(run);
        }
        let run = piece.run(self.place, left);
        self.pieces = rest;
        self.place = 0;
        Some(run)
    }

    /// Makes a second walk over the entries that are left of this one. Takes no memory.
    pub fn fork(&self) -> Self
        ensures { result ≡ self.now }
    {
        Entries {
            pieces: self.pieces,
            place: self.place,
        }
    }

    /// Cuts these entries in two: those up to a border of pieces near this part of all pieces, and those from there on. Either may be none.
    /// Takes O(1) time and no memory.
    pub fn split(self, part: usize, of: usize) -> (Self, Self)
        ensures { self.entry ≡ result.0 ++ result.1 }
    {
        let count = self.pieces.len();
        let border = count.min(count.saturating_mul(part) / of.max(1));
        if border == 0 {
            return (Entries::none(), self);
        }
        let (front, back) = self.pieces.split_at(border);
        let sooner = Entries {
            pieces: front,
            place: self.place,
        };
        let later = Entries {
            pieces: back,
            place: 0,
        };
        (sooner, later)
    }

    /// Leaves the first of these entries behind; does nothing where none is left.
    pub fn pass(&mut self)
        ensures { self.new ≡ drop 1 self.old }
    {
        let Some((piece, rest)) = self.pieces.split_first() else {
            return;
        };
        let len = piece.len();
        if self.place + 1 < len {
            self.place += 1;
            return;
        }
        self.pieces = rest;
        self.place = 0;
    }
}

impl<'a, T: Copy + Drop> Iterator for Entries<'a, T> {
    type Item = (&'a [i64], T);

    ghost next_gives = { YieldsFirstBy lent (λ s. s) };

    ghost remaining = { item_count (λ s. s) };

    fn next(&mut self) -> Option<(&'a [i64], T)> {
        let entry = self.first()?;
        self.pass();
        Some(entry)
    }
}
