//! Makes the catalogue of what was read: each formula stored with a closure that answers it.

ghost use Rattle.std.specs.Prelude.{◌≡◌, ◌++◌, ◌∷◌, [], All, IsTrue, IfOk, OnOk, map, length};
ghost use Rattle.wh_dag.specs.Catalog.{FitsOutput, IsDefinition};
ghost use Rattle.wh_dag.specs.CatalogParts.{given_definitions, given_widths};
ghost use Rattle.wh_dag.specs.Output.{combiners_of, exprs_of, output_of};
ghost use Rattle.wh_formula.specs.Expr.{fits};
ghost use Rattle.wh_formula.specs.Pred.{fits as fits_rows};
ghost use Rattle.wh_text_catalogue.specs.Definitions.{shown_definition, shown_view};
ghost use Rattle.wh_text_catalogue.specs.Output.{shown_output};
ghost use Rattle.wh_text_catalogue.specs.ReadCatalog.{AreDefinitions, catalog_of};
ghost use Rattle.whview.specs.Inner.StoredClosures.{AnswersTests, AnswersValues, AreSound};

use std::alloc::{AllocError, Global};
use wh_dag::{Catalog, Definition, Output, Shape};
use wh_formula::{Combiner, Expr, Filter, Pred, RowTest, RowValue};
use wh_load::{WrittenDefinition, WrittenOutput, WrittenView};

/// An expression with what is made of it.
fn combiner<G: RowValue + Drop, V: Fn(Expr) -> G>(
    alloc: Global,
    expr: &Expr,
    width: usize,
    value: &V,
) -> Result<Combiner<G>, AllocError>
    requires fits { IsTrue (fits width expr.now) }
    requires callable { V.IsAlwaysCallable value.now }
    requires answers { AnswersValues (V.post value.now) G.can_combine G.combines }
    ensures expr { IfOk result (λ c. c.expr ≡ expr.now) }
    ensures width { IfOk result (λ c. c.width ≡ width) }
{
    let kept = expr.copy(alloc)?;
    let called = expr.copy(alloc)?;
    Ok(Combiner::new(kept, width, value(called)))
}

/// These expressions, each with what is made of it.
fn combiners<G: RowValue + Drop, V: Fn(Expr) -> G>(
    alloc: Global,
    exprs: &[Expr],
    width: usize,
    value: &V,
) -> Result<Vec<Combiner<G>>, AllocError>
    requires fits { All (λ e. IsTrue (fits width e)) exprs.now }
    requires callable { V.IsAlwaysCallable value.now }
    requires answers { AnswersValues (V.post value.now) G.can_combine G.combines }
    ensures exprs { IfOk result (λ cs. exprs_of cs.items ≡ exprs.now) }
    ensures widths { IfOk result (λ cs. All (λ c. c.width ≡ width) cs.items) }
{
    let mut combiners = Vec::new(alloc);
    for expr in exprs {
        combiners.push(combiner(alloc, expr, width, value)?)?;
    }
    Ok(combiners)
}

/// What the columns of a view are made of, each expression with what is made of it.
fn output<G: RowValue + Drop, V: Fn(Expr) -> G>(
    alloc: Global,
    written: &WrittenOutput,
    width: usize,
    value: &V,
) -> Result<Output<G>, AllocError>
    requires fits { FitsOutput width (shown_output written.now) }
    requires callable { V.IsAlwaysCallable value.now }
    requires answers { AnswersValues (V.post value.now) G.can_combine G.combines }
    ensures output { IfOk result (λ out. output_of out ≡ shown_output written.now) }
    ensures widths { IfOk result (λ out. All (λ c. c.width ≡ width) (combiners_of out)) }
{
    match written {
        WrittenOutput::Keep(exprs) => {
            let kept = combiners(alloc, exprs, width, value)?;
            Ok(Output::Keep(kept))
        }
        WrittenOutput::Sums { group, sums } => {
            let group = Vec::from_slice(alloc, group)?;
            let sums = combiners(alloc, sums, width, value)?;
            Ok(Output::Sums { group, sums })
        }
    }
}

/// A predicate with what is made of it.
fn filter<F: RowTest + Drop, T: Fn(Pred) -> F>(
    alloc: Global,
    pred: &Pred,
    width: usize,
    test: &T,
) -> Result<Filter<F>, AllocError>
    requires fits { IsTrue (fits_rows width pred.now) }
    requires callable { T.IsAlwaysCallable test.now }
    requires answers { AnswersTests (T.post test.now) F.can_test F.tests }
    ensures pred { IfOk result (λ f. f.pred ≡ pred.now) }
    ensures width { IfOk result (λ f. f.width ≡ width) }
{
    let kept = pred.copy(alloc)?;
    let called = pred.copy(alloc)?;
    Ok(Filter::new(kept, width, test(called)))
}

/// A view's definition, each formula with what is made of it.
fn definition<F: RowTest + Drop, G: RowValue + Drop, T: Fn(Pred) -> F, V: Fn(Expr) -> G>(
    alloc: Global,
    written: &WrittenDefinition,
    test: &T,
    value: &V,
) -> Result<Definition<F, G>, AllocError>
    requires sound { IsDefinition (shown_definition written.now) }
    requires callable_test { T.IsAlwaysCallable test.now }
    requires callable_value { V.IsAlwaysCallable value.now }
    requires tests { AnswersTests (T.post test.now) F.can_test F.tests }
    requires values { AnswersValues (V.post value.now) G.can_combine G.combines }
    ensures { IfOk result (λ d. d ≡ shown_definition written.now) }
{
    let join = Vec::from_slice(alloc, &written.join)?;
    let filter = filter(alloc, &written.filter, written.width, test)?;
    let output = output(alloc, &written.output, written.width, value)?;
    Ok(Definition::new(join, filter, output))
}

/// Appends the definition of a derived view; nothing of a base view.
fn append_definition<F: RowTest + Drop, G: RowValue + Drop, T: Fn(Pred) -> F, V: Fn(Expr) -> G>(
    alloc: Global,
    definitions: &mut Vec<Definition<F, G>>,
    view: &WrittenView,
    test: &T,
    value: &V,
) -> Result<(), AllocError>
    requires sound { AreSound ((shown_view view.now).definition ∷ []) }
    requires callable_test { T.IsAlwaysCallable test.now }
    requires callable_value { V.IsAlwaysCallable value.now }
    requires tests { AnswersTests (T.post test.now) F.can_test F.tests }
    requires values { AnswersValues (V.post value.now) G.can_combine G.combines }
    ensures { OnOk result (definitions.new.items ≡ definitions.old.items ++ given_definitions ((shown_view view.now).definition ∷ [])) }
{
    match &view.definition {
        Some(written) => {
            let own = definition(alloc, written, test, value)?;
            definitions.push(own)?;
            Ok(())
        }
        None => Ok(()),
    }
}

/// The definitions of the derived views, in order.
fn definitions<F: RowTest + Drop, G: RowValue + Drop, T: Fn(Pred) -> F, V: Fn(Expr) -> G>(
    alloc: Global,
    views: &[WrittenView],
    test: &T,
    value: &V,
) -> Result<Vec<Definition<F, G>>, AllocError>
    requires sound { AreSound (map (λ view. (shown_view view).definition) views.now) }
    requires callable_test { T.IsAlwaysCallable test.now }
    requires callable_value { V.IsAlwaysCallable value.now }
    requires tests { AnswersTests (T.post test.now) F.can_test F.tests }
    requires values { AnswersValues (V.post value.now) G.can_combine G.combines }
    ensures { IfOk result (λ ds. ds.items ≡ given_definitions (map (λ view. (shown_view view).definition) views.now)) }
{
    let mut definitions = Vec::new(alloc);
    for view in views {
        append_definition(alloc, &mut definitions, view, test, value)?;
    }
    Ok(definitions)
}

/// How many columns each base view has, in order.
fn base_widths(alloc: Global, views: &[WrittenView]) -> Result<Vec<usize>, AllocError>
    ensures { IfOk result (λ widths. widths.items ≡ given_widths (map (λ view. (shown_view view).definition) views.now)
        (map (λ view. length (shown_view view).columns) views.now)) }
{
    let mut widths = Vec::new(alloc);
    for view in views {
        if view.definition.is_none() {
            widths.push(view.columns.len())?;
        }
    }
    Ok(widths)
}

/// Returns the catalogue of these views, each formula stored with what these make of it.
pub(crate) fn catalog_with<
    F: RowTest + Drop,
    G: RowValue + Drop,
    T: Fn(Pred) -> F,
    V: Fn(Expr) -> G,
>(
    alloc: Global,
    shape: Shape,
    views: &[WrittenView],
    test: T,
    value: V,
) -> Result<Catalog<F, G>, AllocError>
    requires definitions { AreDefinitions shape (map shown_view views.now) }
    requires callable_test { T.IsAlwaysCallable test }
    requires callable_value { V.IsAlwaysCallable value }
    requires tests { AnswersTests (T.post test) F.can_test F.tests }
    requires values { AnswersValues (V.post value) G.can_combine G.combines }
    ensures { IfOk result (λ c. c ≡ catalog_of shape (map shown_view views.now)) }
{
    let widths = base_widths(alloc, views)?;
    let definitions = definitions(alloc, views, &test, &value)?;
    Catalog::new(alloc, shape, widths, definitions)
}
