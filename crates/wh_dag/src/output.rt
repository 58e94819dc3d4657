//! The columns of a derived view: those of a joined view, or of a summary.
ghost use Rattle.std.specs.Prelude.{◌≡◌, ◌<◌, ◌↔◌, ◌==◌, ◌&&◌, IsTrue, All, nat_lt};
ghost use Rattle.std.specs.List.{list_all};
ghost use Rattle.wh_formula.specs.Expr.{fits};
ghost use Rattle.wh_dag.specs.Catalog.{columns, sums_in};
ghost use Rattle.wh_dag.specs.Output.{output_of, IsOver};

use wh_formula::{Combiner, RowValue};

/// The columns of a derived view, from its combined rows: the rows of its children, one after
/// another.
#[derive(Drop)]
pub enum Output<G: RowValue> {
    /// Of a joined view: in each column the value of an expression.
    Keep(Vec<Combiner<G>>),
    /// Of a summary: the cells by which it groups, then the count of the group, then its sums.
    Sums {
        /// The places of these cells, from 0.
        group: Vec<usize>,
        /// What each sum adds up.
        sums: Vec<Combiner<G>>,
    },
}

impl<G: RowValue> Output<G> {
    /// Returns how many columns there are.
    pub fn columns(&self) -> usize
        ensures { result ≡ columns (output_of self.now) }
    {
        match self {
            Output::Keep(kept) => kept.len(),
            Output::Sums { group, sums } => group.len() + 1 + sums.len(),
        }
    }

    /// Returns how many sums there are: a joined view has none.
    pub fn sums(&self) -> usize
        ensures { result ≡ sums_in (output_of self.now) }
    {
        match self {
            Output::Keep(_) => 0,
            Output::Sums { group: _, sums } => sums.len(),
        }
    }

    /// Returns whether the combiners are for rows of this width, and each place that is read lies in them.
    pub fn is_over(&self, width: usize) -> bool
        ensures { IsTrue result ↔ IsOver width self.now }
    {
        match self {
            Output::Keep(kept) => are_over(kept, width),
            Output::Sums { group, sums } => are_within(group, width) && are_over(sums, width),
        }
    }
}

fn are_over<G: RowValue>(combiners: &[Combiner<G>], width: usize) -> bool
    ensures { result ≡ list_all (λ c. (c.width == width) && fits width c.expr) combiners.now }
{
    combiners.iter().all(|combiner| combiner.width() == width && combiner.expr().fits(width))
}

fn are_within(places: &[usize], width: usize) -> bool
    ensures { result ≡ list_all (λ place. nat_lt place width) places.now }
{
    places.iter().all(|place| *place < width)
}
