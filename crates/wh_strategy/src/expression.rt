//! Expressions and lists of them, of which strategies are made, correct or not.

ghost use Rattle.std.specs.Prelude.{◌≡◌, ◌≢◌, [], IfOk, OnErr};
ghost use Rattle.wh_strategy.specs.Expression.{HasSources};

use std::alloc::{AllocError, Global};
use std::marker::Model;

/// The views whose changes a Comp reads, in the order written. Seen as the list of their numbers.
#[derive(Debug, Drop)]
pub struct Sources {
    views: Vec<usize>,
}

impl Model for Sources {
    ghost use Rattle.std.specs.Prelude.{List, ℕ};

    ghost Value = { List ℕ };

    ghost view = { λ s. s.views.items };
}

impl Sources {
    /// Takes the views as they are: whether they may stand in a Comp is for `check` to judge.
    pub fn new(views: Vec<usize>) -> Sources
        ensures { result ≡ views.items }
    {
        Sources { views }
    }

    /// Returns the views in their order.
    pub fn as_slice(&self) -> &[usize]
        ensures { result.now ≡ self.now }
    {
        &self.views
    }

    /// Makes a copy of the views. Takes no memory where there is none.
    pub fn copy(&self, alloc: Global) -> Result<Sources, AllocError>
        ensures copy { IfOk result (λ copy. copy ≡ self.now) }
        ensures memory { OnErr result (self.now ≢ []) }
    {
        let mut views = Vec::with_capacity(alloc, self.views.len())?;
        views.extend_from_slice(&self.views)?;
        Ok(Sources { views })
    }

    /// Gives the views back.
    pub fn into_vec(self) -> Vec<usize>
        ensures { result.items ≡ self }
    {
        self.views
    }
}

/// One step of a strategy. Views are numbers, counted from 0.
#[derive(Debug, Drop)]
pub enum Expression {
    /// Computes changes of a view from the changes of the views in its sources.
    Comp(usize, Sources),
    /// Installs the changes of a view.
    Inst(usize),
}

impl Expression {
    /// Makes another expression of the same form. An Inst and a Comp without sources take no memory.
    pub fn copy(&self, alloc: Global) -> Result<Expression, AllocError>
        ensures copy { IfOk result (λ copy. copy ≡ self.now) }
        ensures memory { OnErr result (HasSources self.now) }
    {
        match self {
            Expression::Comp(view, sources) => Ok(Expression::Comp(*view, sources.copy(alloc)?)),
            Expression::Inst(view) => Ok(Expression::Inst(*view)),
        }
    }
}

/// A list of expressions, correct or not.
#[derive(Debug, Drop)]
pub struct Strategy {
    list: Vec<Expression>,
}

impl Model for Strategy {
    ghost use Rattle.std.specs.Prelude.{List};
    ghost use Rattle.wh_strategy.specs.declared.expression.Expression.{Expression};

    ghost Value = { List Expression };

    ghost view = { λ s. s.list.items };
}

impl Strategy {
    /// Takes the list as it is.
    pub fn new(list: Vec<Expression>) -> Strategy
        ensures { result ≡ list.items }
    {
        Strategy { list }
    }

    /// Returns the expressions in their order.
    pub fn as_slice(&self) -> &[Expression]
        ensures { result.now ≡ self.now }
    {
        &self.list
    }

    /// Gives the list back.
    pub fn into_vec(self) -> Vec<Expression>
        ensures { result.items ≡ self }
    {
        self.list
    }
}
