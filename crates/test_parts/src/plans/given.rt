//! Shapes, sizes and lists from the texts of examples.

use std::alloc::{AllocError, Global};
use std::process::Abort;
use test_given::shapes::shaped;
use wh_dag::{Shape, ShapeFault};
use wh_strategy::{Expression, OutOfRange, SizeRow, Sizes, Sources, Strategy};

pub(crate) static TWO_BASES: [(&str, &str); 3] = [("A", "-"), ("B", "-"), ("V", "A B")];

pub(crate) static TWO_BASES_SIZES: [(u64, u64, u64); 3] = [(10, 12, 4), (100, 70, 30), (50, 44, 6)];

/// B and C, V1 over both, V2 over B and V1.
pub(crate) static CYCLIC: [(&str, &str); 4] = [
    ("B", "-"),
    ("C", "-"),
    ("V1", "B C"),
    ("V2", "B V1"),
];

pub(crate) static CYCLIC_SIZES: [(u64, u64, u64); 4] = [
    (100, 90, 20),
    (50, 55, 5),
    (80, 60, 40),
    (200, 190, 30),
];

/// C shrinks as much as B.
pub(crate) static TIED_SIZES: [(u64, u64, u64); 4] = [
    (100, 90, 20),
    (50, 40, 10),
    (80, 60, 40),
    (200, 190, 30),
];

pub(crate) static SIX: [(&str, &str); 7] = [
    ("A1", "-"),
    ("A2", "-"),
    ("A3", "-"),
    ("A4", "-"),
    ("A5", "-"),
    ("A6", "-"),
    ("V", "A1 A2 A3 A4 A5 A6"),
];

/// Six bases of 10 rows of which one changes.
pub(crate) static SIX_SIZES: [(u64, u64, u64); 7] = [
    (10, 10, 1),
    (10, 10, 1),
    (10, 10, 1),
    (10, 10, 1),
    (10, 10, 1),
    (10, 10, 1),
    (5, 5, 1),
];

/// A shrinks by 2 rows and B by 3, so that B comes first; where each row of A weighs 2, A does.
pub(crate) static SHRINKING_SIZES: [(u64, u64, u64); 3] = [(10, 8, 2), (100, 97, 3), (50, 50, 0)];

/// Sizes from rows of pre, post and change, and what the rows of each view weigh.
pub(crate) fn weighed(
    alloc: Global,
    rows: &[(u64, u64, u64)],
    weights: &[u64],
) -> Result<Result<Sizes, OutOfRange>, AllocError> {
    let mut all = Vec::new(alloc);
    for ((pre, post, change), weight) in rows.iter().zip(weights) {
        all.push(SizeRow {
            pre: *pre,
            post: *post,
            change: *change,
            weight: *weight,
        })?;
    }
    Ok(Sizes::new(all))
}

/// Sizes from rows of pre, post and change, of at most 64 views, each row weighing 1.
pub(crate) fn sized(
    alloc: Global,
    rows: &[(u64, u64, u64)],
) -> Result<Result<Sizes, OutOfRange>, AllocError> {
    weighed(alloc, rows, &[1; 64])
}

/// A shape with the sizes of its views.
#[derive(Drop)]
pub(crate) struct Measured {
    pub(crate) shape: Shape,
    pub(crate) sizes: Sizes,
}

/// These views with these sizes, each row weighing 1.
pub(crate) fn given(
    rt: &impl Abort,
    alloc: Global,
    views: &[(&str, &str)],
    rows: &[(u64, u64, u64)],
) -> Result<Measured, ShapeFault> {
    let shape = shaped(alloc, views)?;
    let sizes = sized(alloc, rows)?.expect(rt, "sizes");
    Ok(Measured { shape, sizes })
}

/// V over A and B with these sizes, the rows of A, B and V weighing so much.
pub(crate) fn given_weighed(
    rt: &impl Abort,
    alloc: Global,
    rows: &[(u64, u64, u64)],
    weights: &[u64],
) -> Result<Measured, ShapeFault> {
    let shape = shaped(alloc, &TWO_BASES)?;
    let sizes = weighed(alloc, rows, weights)?.expect(rt, "sizes");
    Ok(Measured { shape, sizes })
}

/// The view of this name, or 99 for a name that is no view's.
fn view(shape: &Shape, name: &str) -> usize {
    for view in 0..shape.len() {
        if shape.name(view) == name {
            return view;
        }
    }
    99
}

/// The list that `V<A+B B` writes: a Comp of V from A and B, and an Inst of B.
pub(crate) fn listed(alloc: Global, shape: &Shape, steps: &str) -> Result<Strategy, AllocError> {
    let mut list = Vec::new(alloc);
    for step in steps.split_whitespace() {
        let step = match step.split_once('<') {
            Some((target, names)) => {
                let mut sources = Vec::new(alloc);
                for name in names.split('+') {
                    sources.push(view(shape, name))?;
                }
                Expression::Comp(view(shape, target), Sources::new(sources))
            }
            None => Expression::Inst(view(shape, step)),
        };
        list.push(step)?;
    }
    Ok(Strategy::new(list))
}

/// The name of the view, or `?` where there is none of this number.
fn name(shape: &Shape, view: usize) -> &str {
    if view < shape.len() {
        shape.name(view)
    } else {
        "?"
    }
}

/// The text of which [`listed`] makes this list.
pub(crate) fn written(
    alloc: Global,
    shape: &Shape,
    list: &[Expression],
) -> Result<String, AllocError> {
    let mut text = String::new(alloc);
    for expression in list {
        if !text.is_empty() {
            text.push_str(" ")?;
        }
        match expression {
            Expression::Comp(target, sources) => {
                text.push_str(name(shape, *target))?;
                for (i, source) in sources.as_slice().iter().enumerate() {
                    text.push_str(if i == 0 { "<" } else { "+" })?;
                    text.push_str(name(shape, *source))?;
                }
            }
            Expression::Inst(view) => text.push_str(name(shape, *view))?,
        }
    }
    Ok(text)
}
