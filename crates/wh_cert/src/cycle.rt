//! Tests the graph of decided couples: its nodes, its edges and its cycles of expressions.

ghost use Rattle.std.specs.Prelude.{◌≡◌, ◌↔◌, ◌∷◌, [], ℕ, IsTrue, true};
ghost use Rattle.wh_dag.specs.Shape.{has, children_of};
ghost use Rattle.wh_cert.specs.Graph.{decides, IsNode, HasEdge, IsCycle};

use crate::decisions::decides;
use wh_dag::ChildLists;
use wh_strategy::{Expression, Sources};

/// Returns whether the sources are this view alone.
fn is_just(sources: &Sources, view: usize) -> bool
    ensures { IsTrue result ↔ (sources.now ≡ view ∷ []) }
{
    match sources.as_slice() {
        [only] => *only == view,
        _ => false,
    }
}

/// Returns whether the expression is a node: a Comp of a view from one child of it, or an Inst of a view.
fn is_node(children: &ChildLists, expression: &Expression) -> bool
    ensures { IsTrue result ↔ IsNode children.now expression.now }
{
    match expression {
        Expression::Comp(view, sources) => match sources.as_slice() {
            [source] => children.is_over(*view, *source),
            _ => false,
        },
        Expression::Inst(view) => *view < children.len(),
    }
}

/// Returns whether the Inst of a view has to stand before this Comp by a decision.
fn waits_for_inst(
    children: &ChildLists,
    decided: &[(usize, usize)],
    installed: usize,
    view: usize,
    sources: &Sources,
) -> bool
    ensures { IsTrue result ↔ ((w : ℕ) × (sources.now ≡ w ∷ []) × (has (children_of children.now view) installed ≡ true) × (decides decided.now installed w ≡ true)) }
{
    match sources.as_slice() {
        [source] => children.is_over(view, installed) && decides(decided, installed, *source),
        _ => false,
    }
}

/// Returns whether the first expression has to stand before the second, by the rules or by a decision.
fn leads(
    children: &ChildLists,
    decided: &[(usize, usize)],
    first: &Expression,
    second: &Expression,
) -> bool
    ensures { IsTrue result ↔ HasEdge children.now decided.now first.now second.now }
{
    match first {
        Expression::Comp(view, sources) => match second {
            Expression::Comp(_, others) => is_just(others, *view),
            Expression::Inst(installed) => is_just(sources, *installed) || installed == view,
        },
        Expression::Inst(installed) => match second {
            Expression::Comp(view, sources) => {
                waits_for_inst(children, decided, *installed, *view, sources)
            }
            Expression::Inst(_) => false,
        },
    }
}

/// Returns whether the expressions are a cycle of the graph of these decisions.
pub(crate) fn is_cycle(
    children: &ChildLists,
    decided: &[(usize, usize)],
    list: &[Expression],
) -> bool
    ensures { IsTrue result ↔ IsCycle children.now decided.now list.now }
{
    let [first, rest @ ..] = list else {
        return false;
    };
    let mut last = first;
    for next in rest {
        if !is_node(children, next) || !leads(children, decided, last, next) {
            return false;
        }
        last = next;
    }
    is_node(children, first) && leads(children, decided, last, first)
}
