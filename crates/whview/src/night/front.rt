//! Goes through the rows of a bag with the first of them in hand.

ghost use Rattle.std.specs.Prelude.{◌≡◌, [], ◌∷◌, drop, MatchOption};
ghost use Rattle.wh_row.specs.Lent.{lent};

use std::marker::Model;
use wh_row::Rows;

/// The rows of a bag that are still to come, the first of which is in hand.
#[derive(Drop)]
pub(crate) struct Front<'a> {
    first: Option<(&'a [i64], i64)>,
    rest: Rows<'a>,
}

impl<'a> Model for Front<'a> {
    ghost use Rattle.std.specs.Prelude.{List, ℤ};
    ghost use Rattle.whview.specs.Inner.Front.{IsFront, in_hand};

    ghost Value = { List (List ℤ × ℤ) };

    ghost view = { λ f. in_hand f.first f.rest };

    ghost invariant = { λ f. IsFront f.first f.rest };
}

impl<'a> Front<'a> {
    /// Takes these rows.
    pub(crate) fn new(rows: Rows<'a>) -> Self
        ensures { result ≡ rows.entry }
    {
        let mut rest = rows;
        let first = rest.next();
        Front { first, rest }
    }

    /// Returns the first of them, with its count.
    pub(crate) fn first(&self) -> Option<(&'a [i64], i64)>
        ensures { MatchOption result (self.now ≡ []) (λ e. self.now ≡ lent e ∷ drop 1 self.now) }
    {
        self.first
    }

    /// Leaves the first of them behind.
    pub(crate) fn pass(&mut self)
        ensures { self.new ≡ drop 1 self.old }
    {
        self.first = self.rest.next();
    }
}
