//! Judges strategies, so that whatever is carried out or reckoned with has a type that says that it is correct.

ghost use Rattle.std.specs.Prelude.{◌≡◌, ◌↔◌, ◌<◌, ℕ, List, [], length, Some, IfOk, IfErr, IsTrue, IfNone, IfSome, MatchOption};
ghost use Rattle.wh_dag.specs.Shape.{IsShape};
ghost use Rattle.wh_strategy.specs.Rules.{IsCorrect, IsOneWay, IsFirstBroken, IsFirstPlace, IsReason, Keeps};
ghost use Rattle.wh_strategy.specs.Tests.{Passes, place_from};
ghost use Rattle.wh_strategy.specs.Inner.Tests.{PassEach, IsFirstFailed};
ghost use Rattle.wh_strategy.specs.declared.expression.Expression.{Expression};
ghost use Rattle.wh_strategy.specs.declared.rule.Rule.{Rule};

use crate::expression::{Expression, Strategy};
use crate::prefix::first_place;
use crate::rule::Rule;
use std::alloc::{AllocError, Global};
use std::marker::Model;
use wh_dag::{ChildLists, Shape};

/// Why a strategy was refused.
#[derive(Debug, Clone, Copy, PartialEq, Eq)]
pub enum CheckFault {
    /// The first rule that is broken, in the order S1 to S6, at its first place, counted from 1. Where
    /// an expression is missing, the place is the length of the list plus 1.
    Broken { rule: Rule, place: usize },
    /// The list is correct, and memory for the copy of the child lists was refused.
    Memory,
}

/// A strategy that keeps the rules over the child lists that it was judged by.
#[derive(Drop)]
pub struct Correct {
    children: ChildLists,
    strategy: Strategy,
}

impl Model for Correct {
    ghost use Rattle.wh_strategy.specs.Rules.{Judged, IsCorrect};

    ghost Value = { Judged };

    ghost view = { λ c. record { children = c.children; list = c.strategy } };

    ghost invariant = { λ c. IsCorrect c.children c.strategy };
}

impl Correct {
    /// Returns the list.
    pub fn strategy(&self) -> &Strategy
        ensures list { result.now ≡ self.now.list }
        ensures rules { IsCorrect self.now.children self.now.list }
    {
        &self.strategy
    }

    /// Returns the child lists of the shape that the list was judged over.
    pub fn children(&self) -> &ChildLists
        ensures { result.now ≡ self.now.children }
    {
        &self.children
    }

    /// Returns whether the list was judged over this shape's child lists. Takes O(V C) for V views of at most C children each.
    pub fn is_of(&self, shape: &Shape) -> bool
        ensures { IsTrue result ↔ (self.now.children ≡ shape.now.children) }
    {
        self.children.is_same(shape.child_lists())
    }

    /// Returns whether each Comp is from one view. Takes O(E) for E expressions.
    pub fn is_one_way(&self) -> bool
        ensures { IsTrue result ↔ IsOneWay self.now.list }
    {
        each_from_one(self.strategy.as_slice())
    }
}

fn each_from_one(list: &[Expression]) -> bool
    ensures { IsTrue result ↔ IsOneWay list.now }
{
    list.iter().all(|e| match e {
        Expression::Comp(_, ys) => ys.as_slice().len() == 1,
        Expression::Inst(_) => true,
    })
}

/// Returns the first of these rules that the list breaks, and the first place where it does.
fn first_of(rules: &[Rule], children: &ChildLists, list: &[Expression]) -> Option<(Rule, usize)>
    ensures none { IfNone result (PassEach rules.now children.now list.now) }
    ensures some { IfSome result (λ f. IsFirstFailed rules.now children.now list.now f.0 f.1) }
{
    for rule in rules {
        if let Some(place) = first_place(*rule, children, list) {
            return Some((*rule, place));
        }
    }
    None
}

fn first_broken(children: &ChildLists, list: &[Expression]) -> Option<(Rule, usize)>
    requires { IsShape children.now }
    ensures { MatchOption result (IsCorrect children.now list.now) (λ f. IsFirstBroken children.now list.now f.0 f.1) }
{
    let rules = [Rule::S1, Rule::S2, Rule::S3, Rule::S4, Rule::S5, Rule::S6];
    first_of(&rules, children, list)
}

/// Judges a strategy over a shape. A refused one is dropped. The first rule that is broken is told before want of memory. Takes O(E² + (S +
/// V) C) for E expressions with S sources in all, over V views of at most C children each.
pub fn check(alloc: Global, shape: &Shape, strategy: Strategy) -> Result<Correct, CheckFault>
    ensures ok { IfOk result (λ c. (c.children ≡ shape.now.children) × (c.list ≡ strategy) × IsCorrect shape.now.children strategy) }
    ensures err { IfErr result (IsReason shape.now.children strategy) }

    // Without a view there are no lists to copy.
    ensures memory { result ≡ Err CheckFault.Memory → 0 < length shape.now.children }
{
    if let Some((rule, place)) = first_broken(shape.child_lists(), strategy.as_slice()) {
        return Err(CheckFault::Broken { rule, place });
    }
    match shape.child_lists().copy(alloc) {
        Ok(children) => Ok(Correct { children, strategy }),
        Err(AllocError) => Err(CheckFault::Memory),
    }
}

/// A law of the definitions: a list is correct exactly where it breaks no rule at any place, so one that is refused is not. It keeps a rule
/// exactly where the tests along the list pass, and the first test that fails is at the first place that breaks it.
pub fn rules_agree()
    ensures places { (shape : List (List ℕ)) (list : List Expression) → IsShape shape → (IsCorrect shape list ↔ ((rule : Rule) → Keeps rule shape list)) }
    ensures tests { (rule : Rule) (shape : List (List ℕ)) (list : List Expression) → (Keeps rule shape list ↔ Passes shape list rule) }
    ensures first { (rule : Rule) (shape : List (List ℕ)) (list : List Expression) (place : ℕ) → place_from rule shape [] list ≡ Some place → IsFirstPlace rule shape list place }
    ensures refused { (rule : Rule) (shape : List (List ℕ)) (list : List Expression) (place : ℕ) → IsShape shape → IsFirstBroken shape list rule place → IsCorrect shape list → ⊥ }
{}
