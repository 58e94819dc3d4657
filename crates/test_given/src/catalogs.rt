//! Catalogues of base views of two columns and one view over them, and a strategy.

ghost use Rattle.std.specs.Prelude.{◌≡◌, ◌<◌, true, Some, pos, length, slice_index_or};

use crate::shapes::shaped;
use std::alloc::Global;
use std::test::Fail;
use wh_dag::{Catalog, Definition, Output, Shape};
use wh_formula::{Combiner, Expr, Filter, Pred, RowTest, RowValue};
use wh_strategy::{Expression, Sources, Strategy};

/// Every row passes.
#[derive(Drop)]
pub struct Every;

impl RowTest for Every {
    ghost can_test = { λ _ _. Unit {0} };

    ghost tests = { λ _ _ answer. answer ≡ true };

    fn test(&self, _row: &[i64]) -> bool {
        true
    }
}

/// The cell at a place.
#[derive(Drop)]
pub struct Cell {
    pub place: usize,
}

impl RowValue for Cell {
    ghost can_combine = { λ cell row. cell.place < length row };

    ghost combines = { λ cell row answer. answer ≡ Some (slice_index_or row cell.place (pos 0)) };

    fn number(&self, row: &[i64]) -> Option<i64> {
        Some(row[self.place])
    }
}

/// The catalogue of this shape, whose last view alone is over others, by this join, filter and output.
pub fn catalog<F: RowTest + Drop, G: RowValue + Drop>(
    alloc: Global,
    shape: Shape,
    join: Vec<(usize, usize)>,
    filter: Filter<F>,
    out: Output<G>,
) -> Result<Catalog<F, G>, Fail> {
    let mut widths = Vec::new(alloc);
    for _base in 1..shape.len() {
        widths.push(2)?;
    }
    if !Definition::fits(&join, &filter, &out) {
        return Err(Fail::new("a definition that does not fit"));
    }
    let mut definitions = Vec::new(alloc);
    definitions.push(Definition::new(join, filter, out))?;
    if !Catalog::fits(&shape, &widths, &definitions) {
        return Err(Fail::new("definitions that do not fit the shape"));
    }
    Ok(Catalog::new(alloc, shape, widths, definitions)?)
}

/// a, and v over it.
pub fn over_one(alloc: Global) -> Result<Shape, Fail> {
    Ok(shaped(alloc, &[("a", "-"), ("v", "a")])?)
}

/// a and b, and v over both.
pub fn over_two(alloc: Global) -> Result<Shape, Fail> {
    Ok(shaped(alloc, &[("a", "-"), ("b", "-"), ("v", "a b")])?)
}

/// The first and the fourth cell.
pub fn first_and_fourth(alloc: Global) -> Result<Vec<Combiner<Cell>>, Fail> {
    let mut kept = Vec::new(alloc);
    kept.push(Combiner::new(Expr::column(0), 4, Cell { place: 0 }))?;
    kept.push(Combiner::new(Expr::column(3), 4, Cell { place: 3 }))?;
    Ok(kept)
}

/// a(x,y) and b(y,z), and v, which keeps a.x and b.z where a.y = b.y.
pub fn joined(alloc: Global) -> Result<Catalog<Every, Cell>, Fail> {
    let out = Output::Keep(first_and_fourth(alloc)?);
    let join = vec![in alloc; (1, 2)]?;
    let filter = Filter::new(Pred::always(), 4, Every);
    let shape = over_two(alloc)?;
    catalog(alloc, shape, join, filter, out)
}

/// For [`joined`]: comp v from a; inst a; comp v from b; inst b; inst v
pub fn one_way(alloc: Global) -> Result<Strategy, Fail> {
    let mut list = Vec::new(alloc);
    list.push(Expression::Comp(2, Sources::new(vec![in alloc; 0]?)))?;
    list.push(Expression::Inst(0))?;
    list.push(Expression::Comp(2, Sources::new(vec![in alloc; 1]?)))?;
    list.push(Expression::Inst(1))?;
    list.push(Expression::Inst(2))?;
    Ok(Strategy::new(list))
}

/// The second of two cells.
pub fn second(alloc: Global) -> Result<Vec<Combiner<Cell>>, Fail> {
    let mut cells = Vec::new(alloc);
    cells.push(Combiner::new(Expr::column(1), 2, Cell { place: 1 }))?;
    Ok(cells)
}

/// a(g,x), and v with the sum of a.x for each a.g.
pub fn summed(alloc: Global) -> Result<Catalog<Every, Cell>, Fail> {
    let sums = second(alloc)?;
    let group = vec![in alloc; 0]?;
    let filter = Filter::new(Pred::always(), 2, Every);
    let shape = over_one(alloc)?;
    catalog(
        alloc,
        shape,
        Vec::new(alloc),
        filter,
        Output::Sums { group, sums },
    )
}

/// a(g,x), and v, which keeps a.x.
pub fn kept(alloc: Global) -> Result<Catalog<Every, Cell>, Fail> {
    let out = Output::Keep(second(alloc)?);
    let filter = Filter::new(Pred::always(), 2, Every);
    let shape = over_one(alloc)?;
    catalog(alloc, shape, Vec::new(alloc), filter, out)
}
