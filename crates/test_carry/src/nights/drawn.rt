//! Views that are drawn, with the tables and the changes that they are over: each run draws the same.

ghost use Rattle.std.specs.Prelude.{◌≡◌, ◌<◌, length};
ghost use Rattle.wh_formula.specs.Expr.{Column, Number};
ghost use Rattle.wh_formula.specs.Pred.{Cmp, holds};
ghost use Rattle.wh_formula.specs.declared.comparison.Comparison.TheVariants.{Less};

use std::alloc::Global;
use std::process::Abort;
use std::test::Fail;
use test_given::catalogs::{Cell, catalog};
use test_given::shapes::shaped;
use wh_dag::{Catalog, Output};
use wh_formula::{Combiner, Comparison, Expr, Filter, Pred, RowTest};
use wh_row::Bag;

/// Numbers that look drawn.
#[derive(Drop)]
pub(crate) struct Draw {
    state: u64,
}

impl Draw {
    /// The numbers that follow this one.
    pub(crate) fn new(state: u64) -> Draw {
        Draw { state }
    }

    /// The next number below a limit; 0 where that is 0.
    fn below(&mut self, limit: u32) -> u32 {
        self.state = self
            .state
            .wrapping_mul(0x5851_F42D_4C95_7F2D)
            .wrapping_add(0x1405_7B7E_F767_814F);
        let drawn = (self.state >> 33) as u32;
        drawn.checked_rem(limit).unwrap_or(0)
    }

    /// The next place in a row of this width.
    fn place(&mut self, width: u32) -> usize {
        self.below(width) as usize
    }

    /// The next of so many numbers, of which this is the least.
    fn number(&mut self, least: i64, many: u32) -> i64 {
        least.wrapping_add(i64::from(self.below(many)))
    }
}

/// Passes a row whose cell at a place is below a limit.
#[derive(Clone, Copy)]
pub(crate) struct Below {
    pub(crate) place: usize,
    pub(crate) limit: i64,
}

impl RowTest for Below {
    ghost can_test = { λ below row. below.place < length row };

    ghost tests = { λ below row answer. answer ≡ holds row (Cmp Less (Column below.place) (Number below.limit)) };

    fn test(&self, row: &[i64]) -> bool {
        row[self.place] < self.limit
    }
}

/// Views of which the last alone is over others: their names, and the numbers of those that it is over.
pub(crate) struct Layout {
    names: &'static [(&'static str, &'static str)],
    /// The number of the last.
    pub(crate) view: usize,
    pub(crate) children: &'static [usize],
    /// How many cells its combined rows have.
    width: u32,
}

/// Two tables, and three, in their order and in another; and three of which one is left out.
pub(crate) static LAYOUTS: [Layout; 5] = [
    Layout {
        names: &[("a", "-"), ("b", "-"), ("v", "a b")],
        view: 2,
        children: &[0, 1],
        width: 4,
    },
    Layout {
        names: &[("a", "-"), ("b", "-"), ("v", "b a")],
        view: 2,
        children: &[1, 0],
        width: 4,
    },
    Layout {
        names: &[("a", "-"), ("b", "-"), ("c", "-"), ("v", "a b c")],
        view: 3,
        children: &[0, 1, 2],
        width: 6,
    },
    Layout {
        names: &[("a", "-"), ("b", "-"), ("c", "-"), ("v", "c a b")],
        view: 3,
        children: &[2, 0, 1],
        width: 6,
    },
    Layout {
        names: &[("a", "-"), ("b", "-"), ("c", "-"), ("v", "c a")],
        view: 3,
        children: &[2, 0],
        width: 4,
    },
];

/// The parts of three tables that have members, which are written in no order.
pub(crate) static PARTS: [&[usize]; 7] = [&[0], &[1], &[1, 0], &[2], &[0, 2], &[2, 1], &[1, 2, 0]];

/// How many rows tables and changes have at most, and how many numbers their cells are of.
#[derive(Clone, Copy)]
struct Size {
    rows: u32,
    changed: u32,
    cells: u32,
}

/// Small tables of which all may change.
const SMALL: Size = Size {
    rows: 8,
    changed: 8,
    cells: 4,
};

/// Larger ones of which little does, so that most rows find none of a change.
const LARGE: Size = Size {
    rows: 32,
    changed: 3,
    cells: 8,
};

/// A view that is drawn, with a table and a change of each view.
#[derive(Drop)]
pub(crate) struct Drawn {
    pub(crate) layout: &'static Layout,
    pub(crate) join: Vec<(usize, usize)>,
    pub(crate) filter: Below,
    /// The place of the cell that is kept first, or grouped by.
    pub(crate) first: usize,
    /// The place of the cell that is kept second, or summed.
    pub(crate) second: usize,
    pub(crate) tables: Vec<Bag>,
    pub(crate) changes: Vec<Bag>,
}

impl Drawn {
    /// Draws a view of this layout.
    pub(crate) fn new(
        alloc: Global,
        draw: &mut Draw,
        layout: &'static Layout,
    ) -> Result<Drawn, Fail> {
        let width = layout.width;
        let join = drawn_join(alloc, draw, width)?;
        let filter = Below {
            place: draw.place(width),
            limit: draw.number(2, 4),
        };
        let first = draw.place(width);
        let second = draw.place(width);
        let size = if draw.below(2) == 0 { SMALL } else { LARGE };
        let tables = drawn_bags(alloc, draw, layout, size, size.rows, (1, 2))?;
        let changes = drawn_bags(alloc, draw, layout, size, size.changed, (-2, 5))?;
        Ok(Drawn {
            layout,
            join,
            filter,
            first,
            second,
            tables,
            changes,
        })
    }

    /// The catalogue where the view keeps both cells.
    pub(crate) fn keeping(
        &self,
        rt: &impl Abort,
        alloc: Global,
    ) -> Result<Catalog<Below, Cell>, Fail> {
        let mut kept = Vec::new(alloc);
        kept.push(self.cell(rt, self.first))?;
        kept.push(self.cell(rt, self.second))?;
        self.catalog(rt, alloc, Output::Keep(kept))
    }

    /// The catalogue where the view has the sums of the second cell by the first.
    pub(crate) fn summing(
        &self,
        rt: &impl Abort,
        alloc: Global,
    ) -> Result<Catalog<Below, Cell>, Fail> {
        let mut sums = Vec::new(alloc);
        sums.push(self.cell(rt, self.second))?;
        let group = vec![in alloc; self.first]?;
        self.catalog(rt, alloc, Output::Sums { group, sums })
    }

    /// The cell at a place of the combined rows.
    fn cell(&self, rt: &impl Abort, place: usize) -> Combiner<Cell> {
        let width = self.layout.width as usize;
        assert!(rt; place < width);
        Combiner::new(Expr::column(place), width, Cell { place })
    }

    /// The catalogue where the view has this output.
    fn catalog(
        &self,
        rt: &impl Abort,
        alloc: Global,
        out: Output<Cell>,
    ) -> Result<Catalog<Below, Cell>, Fail> {
        let shape = shaped(alloc, self.layout.names)?;
        let join = Vec::from_slice(alloc, &self.join)?;
        let width = self.layout.width as usize;
        let Below { place, limit } = self.filter;
        assert!(rt; place < width);
        let pred = Pred::compare(Comparison::Less, Expr::column(place), Expr::number(limit));
        let filter = Filter::new(pred, width, self.filter);
        catalog(alloc, shape, join, filter, out)
    }
}

/// Draws up to three equalities between places of rows of this width.
fn drawn_join(alloc: Global, draw: &mut Draw, width: u32) -> Result<Vec<(usize, usize)>, Fail> {
    let mut join = Vec::new(alloc);
    for _equality in 0..draw.below(4) {
        join.push((draw.place(width), draw.place(width)))?;
    }
    Ok(join)
}

/// Draws a bag of at most so many rows for each view but the last, which has no rows. Each row counts one of so many numbers from the
/// least on.
fn drawn_bags(
    alloc: Global,
    draw: &mut Draw,
    layout: &Layout,
    size: Size,
    most: u32,
    counts: (i64, u32),
) -> Result<Vec<Bag>, Fail> {
    let mut bags = Vec::new(alloc);
    for _base in 1..layout.names.len() {
        bags.push(drawn_bag(alloc, draw, size, most, counts)?)?;
    }
    bags.push(Bag::new(alloc))?;
    Ok(bags)
}

/// Draws up to so many rows of two cells.
fn drawn_bag(
    alloc: Global,
    draw: &mut Draw,
    size: Size,
    most: u32,
    counts: (i64, u32),
) -> Result<Bag, Fail> {
    let mut bag = Bag::new(alloc);
    for _row in 0..draw.below(most.saturating_add(1)) {
        let row = [draw.number(0, size.cells), draw.number(0, size.cells)];
        bag.add(&row, draw.number(counts.0, counts.1))?;
    }
    Ok(bag)
}
