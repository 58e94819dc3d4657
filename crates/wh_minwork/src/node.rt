//! The nodes of a graph, in the order in which the smallest is placed first.

ghost use Rattle.std.specs.Prelude.{◌≡◌, ◌<◌, length, IfOk, OnErr, map};
ghost use Rattle.wh_minwork.specs.Inner.Nodes.{expression_of};

use std::alloc::{AllocError, Global};
use wh_strategy::{Expression, Sources};

/// A one-way expression: a Comp of a view from one child, or an Inst of a view.
#[derive(Clone, Copy, PartialEq, Eq)]
pub(crate) enum Node {
    Comp(usize, usize),
    Inst(usize),
}

impl Node {
    fn expression(self, alloc: Global) -> Result<Expression, AllocError>
        ensures { IfOk result (λ e. e ≡ expression_of self) }
    {
        match self {
            Node::Comp(v, u) => {
                let mut sources = Vec::new(alloc);
                sources.push(u)?;
                Ok(Expression::Comp(v, Sources::new(sources)))
            }
            Node::Inst(v) => Ok(Expression::Inst(v)),
        }
    }
}

/// Makes the expressions of these nodes, in their order.
pub(crate) fn expressions(alloc: Global, nodes: &[Node]) -> Result<Vec<Expression>, AllocError>
    ensures list { IfOk result (λ list. list.items ≡ map expression_of nodes.now) }
    ensures memory { OnErr result (0 < length nodes.now) }
{
    let mut list = Vec::new(alloc);
    for node in nodes {
        list.push(node.expression(alloc)?)?;
    }
    Ok(list)
}
