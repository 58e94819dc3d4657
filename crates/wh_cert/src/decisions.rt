//! Decided couples, looked up in one step: which view is installed before which.

ghost use Rattle.std.specs.Prelude.{◌≡◌};
ghost use Rattle.wh_cert.specs.Graph.{decides};

use crate::relation::Relation;
use std::marker::Model;
use wh_dag::MAX_VIEWS;

/// Decided couples, with a table in which two views are looked up in one step.
#[derive(Drop)]
pub(crate) struct Decisions<'a> {
    couples: &'a [(usize, usize)],
    first: Relation,
}

impl<'a> Model for Decisions<'a> {
    ghost use Rattle.std.specs.Prelude.{◌≡◌, ◌<◌, List, ℕ};
    ghost use Rattle.wh_cert.specs.Graph.{decides};
    ghost use Rattle.wh_cert.specs.Relations.{related};

    ghost Value = { List (ℕ × ℕ) };

    ghost view = { λ d. d.couples.now };

    ghost invariant = { λ d. (u w : ℕ) → u < 64 → w < 64 → related d.first u w ≡ decides d.couples.now u w };
}

impl<'a> Decisions<'a> {
    /// Makes the table of these couples. Takes no memory.
    pub(crate) fn of(couples: &'a [(usize, usize)]) -> Decisions<'a>
        ensures { result ≡ couples.now }
    {
        Decisions {
            couples,
            first: Relation::of_couples(couples),
        }
    }

    /// Returns whether it is decided that the first view is installed before the second.
    pub(crate) fn decides(&self, first: usize, second: usize) -> bool
        ensures { result ≡ decides self.now first second }
    {
        // Numbers that no view has stand in no table, but may stand among the couples.
        if first < MAX_VIEWS && second < MAX_VIEWS {
            self.first.has(first, second)
        } else {
            decides(self.couples, first, second)
        }
    }
}

/// Returns whether it is decided that the first view is installed before the second, by going over the couples. For one question this takes
/// less than making a table.
#[tactic(auto, unfolding(crate::specs::Graph::decides))]
pub(crate) fn decides(decided: &[(usize, usize)], first: usize, second: usize) -> bool
    ensures { result ≡ decides decided.now first second }
{
    decided.iter().any(|d| d.0 == first && d.1 == second)
}
