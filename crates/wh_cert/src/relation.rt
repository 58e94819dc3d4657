//! Relations between views, as tables, so that two views are looked up in one step.

ghost use Rattle.std.specs.Prelude.{◌≡◌, ◌<◌, ◌==◌, ◌&&◌, ◌||◌, ℕ, false, All};
ghost use Rattle.wh_dag.specs.Shape.{has, children_of};
ghost use Rattle.wh_dag.specs.Siblings.{have_parent};
ghost use Rattle.wh_cert.specs.Graph.{decides};
ghost use Rattle.wh_cert.specs.Relations.{related};

use std::marker::Model;
use wh_dag::{ChildLists, MAX_VIEWS};

/// A row of [`MAX_VIEWS`] for each view.
const CELLS: usize = MAX_VIEWS * MAX_VIEWS;

/// A relation between views, as a table of 4 KB: looking two views up takes one step. It lies where it is made, and takes
/// no memory besides.
#[derive(Drop)]
pub struct Relation {
    cells: [bool; CELLS],
}

impl Model for Relation {
    ghost use Rattle.std.specs.Prelude.{List, Bool};

    ghost Value = { List Bool };

    ghost view = { λ r. r.cells };
}

impl Relation {
    /// Makes the relation in which no two views are related.
    fn new() -> Relation
        ensures { (u w : ℕ) → related result u w ≡ false }
    {
        Relation {
            cells: [false; CELLS],
        }
    }

    /// Makes the relation of views and their children: a view is related to each view that it is over. Takes O(V C) for V views of at most
    /// C children each, besides the table.
    pub fn of_children(children: &ChildLists) -> Relation
        ensures { (v u : ℕ) → related result v u ≡ has (children_of children.now v) u }
    {
        let mut over = Relation::new();
        for view in 0..children.len() {
            over.insert_row(view, children.of(view));
        }
        over
    }

    /// Makes the relation of the views that have a common parent, a child of a view being related to itself too. Takes O(V C²) for V views
    /// of at most C children each, besides the table.
    pub fn of_siblings(children: &ChildLists) -> Relation
        ensures { (u w : ℕ) → related result u w ≡ have_parent children.now u w }
    {
        let mut siblings = Relation::new();
        for view in 0..children.len() {
            siblings.insert_all(children.of(view));
        }
        siblings
    }

    /// Makes the relation of these couples: the first view of each is related to the second. Numbers that no view has are left out. Takes
    /// O(n) for n couples, besides the table.
    pub fn of_couples(couples: &[(usize, usize)]) -> Relation
        ensures { (u w : ℕ) → u < 64 → w < 64 → related result u w ≡ decides couples.now u w }
    {
        let mut first = Relation::new();
        for (u, w) in couples {
            if *u < MAX_VIEWS && *w < MAX_VIEWS {
                first.insert(*u, *w);
            }
        }
        first
    }

    /// Returns whether the two are related, in this order. A number above 63, which no view can have, is related to none.
    #[tactic(auto, unfolding(crate::specs::Relations::related))]
    pub fn has(&self, u: usize, w: usize) -> bool
        ensures { result ≡ related self.now u w }
    {
        u < MAX_VIEWS && w < MAX_VIEWS && self.cells[MAX_VIEWS * u + w]
    }

    fn insert(&mut self, u: usize, w: usize)
        requires u { u < 64 }
        requires w { w < 64 }
        ensures { (a b : ℕ) → related self.new a b ≡ (((u == a) && (w == b)) || related self.old a b) }
    {
        self.cells[MAX_VIEWS * u + w] = true;
    }

    fn insert_row(&mut self, u: usize, row: &[usize])
        requires u { u < 64 }
        requires row { All (λ w. w < 64) row.now }
        ensures { (a b : ℕ) → related self.new a b ≡ (((u == a) && has row.now b) || related self.old a b) }
    {
        for w in row {
            self.insert(u, *w);
        }
    }

    fn insert_all(&mut self, row: &[usize])
        requires { All (λ w. w < 64) row.now }
        ensures { (a b : ℕ) → related self.new a b ≡ ((has row.now a && has row.now b) || related self.old a b) }
    {
        for u in row {
            self.insert_row(*u, row);
        }
    }
}
