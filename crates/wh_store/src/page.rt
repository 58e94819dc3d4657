//! Gives pages of a table.

use std::marker::Model;
use wh_row::Records;

/// Some rows of a table in rising order, each with its count, and whether none follows.
#[derive(Drop)]
pub struct Page {
    /// The rows, rising, each with its count.
    pub rows: Records,
    /// Whether the table has no row after these.
    pub last: bool,
}

impl Model for Page {
    ghost use Rattle.wh_store.specs.Pages.{Shown};
    ghost use Rattle.wh_store.specs.Inner.Pages.{coded_shown};

    ghost Value = { Shown };

    ghost coded = { coded_shown };

    ghost view = { λ p. record { rows = p.rows; last = p.last } };
}
