//! Lends the rows of sums one after another, so that they are walked through without a copy.

ghost use Rattle.std.specs.Prelude.{◌≡◌};
ghost use Rattle.std.specs.Iterator.{YieldsFirstBy, item_count};
ghost use Rattle.wh_row.specs.Lent.{lent};

use std::marker::Model;
use wh_pieces::Entries;

/// The rows of sums that are still to come, in rising order, each with its sum.
#[derive(Drop)]
pub struct SumRows<'a> {
    entries: Entries<'a, i128>,
}

impl<'a> Model for SumRows<'a> {
    ghost use Rattle.std.specs.Prelude.{List, ℤ};

    ghost Value = { List (List ℤ × ℤ) };

    ghost view = { λ r. r.entries };
}

impl<'a> SumRows<'a> {
    /// Makes a walk over the rows of these entries.
    pub(crate) fn new(entries: Entries<'a, i128>) -> Self
        ensures { result ≡ entries.entry }
    {
        SumRows { entries }
    }
}

impl<'a> Iterator for SumRows<'a> {
    type Item = (&'a [i64], i128);

    ghost next_gives = { YieldsFirstBy lent (λ s. s) };

    ghost remaining = { item_count (λ s. s) };

    fn next(&mut self) -> Option<(&'a [i64], i128)> {
        self.entries.next()
    }
}
