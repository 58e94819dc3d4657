//! How a derived view is made of combined rows.
ghost use Rattle.std.specs.Prelude.{◌≡◌, ◌<◌, ◌↔◌, ◌&&◌, IsTrue, All, nat_lt};
ghost use Rattle.std.specs.List.{list_all};
ghost use Rattle.wh_dag.specs.Catalog.{columns, IsDefinition};
ghost use Rattle.wh_dag.specs.Output.{output_of, combiners_of, definition_from, OfOneWidth};

use crate::output::Output;
use std::marker::Model;
use wh_formula::{Filter, RowTest, RowValue};

/// How a derived view is made of combined rows. Those that meet the equalities and pass the filter give this output. The rows have the
/// filter's width, and each place lies in them.
#[derive(Drop)]
pub struct Definition<F: RowTest, G: RowValue> {
    join: Vec<(usize, usize)>,
    filter: Filter<F>,
    out: Output<G>,
}

impl<F: RowTest, G: RowValue> Model for Definition<F, G> {
    ghost use Rattle.wh_dag.specs.Catalog.{DefinitionOf};
    ghost use Rattle.wh_dag.specs.Inner.CatalogCode.{definition_code};
    ghost use Rattle.wh_dag.specs.Output.{definition_from, OfOneWidth};

    ghost Value = { DefinitionOf };

    ghost coded = { definition_code };

    ghost view = { λ d. definition_from d.join.items d.filter d.out };

    ghost invariant = { λ d. OfOneWidth d.join.items d.filter d.out };
}

impl<F: RowTest, G: RowValue> Definition<F, G> {
    /// Makes the definition with these equalities, each of two places of a row. The combiners have to be for rows of the filter's width, in
    /// which all places lie; [`Definition::fits`] tests it.
    pub fn new(join: Vec<(usize, usize)>, filter: Filter<F>, out: Output<G>) -> Definition<F, G>
        requires { OfOneWidth join.items filter out }
        ensures { result ≡ definition_from join.items filter out }
    {
        Definition { join, filter, out }
    }

    /// Returns whether these parts make a definition: the combiners are for rows of the filter's width, in which all places lie.
    pub fn fits(join: &[(usize, usize)], filter: &Filter<F>, out: &Output<G>) -> bool
        ensures { IsTrue result ↔ OfOneWidth join.now filter.now out.now }
    {
        let width = filter.width();
        let _pred = filter.pred();
        are_within(join, width) && out.is_over(width)
    }

    /// Returns how many cells the combined rows have.
    pub fn width(&self) -> usize
        ensures width { result ≡ self.now.width }
        ensures within { IsDefinition self.now }
    {
        self.filter.width()
    }

    /// Returns how many columns the view has.
    pub fn columns(&self) -> usize
        ensures columns { result ≡ columns self.now.output }
        ensures within { IsDefinition self.now }
    {
        self.out.columns()
    }

    /// Returns the equalities: at each pair of places a row has equal cells.
    pub fn join(&self) -> &[(usize, usize)]
        ensures join { result.now ≡ self.now.join }
        ensures within { IsDefinition self.now }
    {
        &self.join
    }

    /// Returns the filter that a combined row passes.
    pub fn filter(&self) -> &Filter<F>
        ensures pred { result.now.pred ≡ self.now.filter }
        ensures width { result.now.width ≡ self.now.width }
        ensures within { IsDefinition self.now }
    {
        &self.filter
    }

    /// Returns the view's columns, whose combiners are for combined rows.
    pub fn output(&self) -> &Output<G>
        ensures output { output_of result.now ≡ self.now.output }
        ensures widths { All (λ c. c.width ≡ self.now.width) (combiners_of result.now) }
        ensures within { IsDefinition self.now }
    {
        &self.out
    }
}

fn are_within(join: &[(usize, usize)], width: usize) -> bool
    ensures { result ≡ list_all (λ pair. nat_lt pair.0 width && nat_lt pair.1 width) join.now }
{
    join.iter()
        .all(|(left, right)| *left < width && *right < width)
}
