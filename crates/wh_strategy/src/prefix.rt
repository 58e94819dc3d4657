//! The rules as tests of an expression and those that stand before it, which find the first place that breaks one.

ghost use Rattle.std.specs.Prelude.{◌≡◌, [], not};
ghost use Rattle.std.specs.List.{list_any};
ghost use Rattle.wh_dag.specs.Shape.{has, children_of};
ghost use Rattle.wh_strategy.specs.Earlier.{Tells, TellsInstalled, TellsTaken};
ghost use Rattle.wh_strategy.specs.Tests.{is_doubled, is_installed, is_taken, leaves_open, is_stray, is_broken, lacks_comp, lacks_inst, lacks, place_from};

use crate::earlier::{Installed, Tables, Taken};
use crate::expression::Expression;
use crate::rule::Rule;
use wh_dag::{ChildLists, has_view};

#[tactic(auto, unfolding(crate::specs::Tests::is_doubled))]
fn doubled(views: &[usize]) -> bool
    ensures { result ≡ is_doubled views.now }
{
    for (i, u) in views.iter().enumerate() {
        if has_view(&views[i + 1..], *u) {
            return true;
        }
    }
    false
}

fn any_not_installed(installed: &Installed, before: &[Expression], views: &[usize]) -> bool
    requires { TellsInstalled installed.now.flags before.now }
    ensures { result ≡ list_any (λ u. not (is_installed before.now u)) views.now }
{
    views.iter().any(|u| !installed.has(before, *u))
}

fn left_open(installed: &Installed, before: &[Expression], v: usize) -> bool
    requires { TellsInstalled installed.now.flags before.now }
    ensures { result ≡ list_any (leaves_open before.now v) before.now }
{
    before.iter().any(|e| match e {
        Expression::Comp(w, ys) => *w == v && any_not_installed(installed, before, ys.as_slice()),
        Expression::Inst(_) => false,
    })
}

fn any_not_in(own: &[usize], views: &[usize]) -> bool
    ensures { result ≡ list_any (λ u. not (has own.now u)) views.now }
{
    views.iter().any(|u| !has_view(own, *u))
}

fn any_taken(taken: &Taken, before: &[Expression], v: usize, views: &[usize]) -> bool
    requires { TellsTaken taken.now.rows before.now }
    ensures { result ≡ list_any (is_taken before.now v) views.now }
{
    views.iter().any(|u| taken.has(before, v, *u))
}

fn any_not_taken(taken: &Taken, all: &[Expression], v: usize, own: &[usize]) -> bool
    requires { TellsTaken taken.now.rows all.now }
    ensures { result ≡ list_any (λ u. not (is_taken all.now v u)) own.now }
{
    own.iter().any(|u| !taken.has(all, v, *u))
}

fn any_installed(installed: &Installed, before: &[Expression], views: &[usize]) -> bool
    requires { TellsInstalled installed.now.flags before.now }
    ensures { result ≡ list_any (is_installed before.now) views.now }
{
    views.iter().any(|u| installed.has(before, *u))
}

fn stray(taken: &Taken, before: &[Expression], own: &[usize], v: usize, ys: &[usize]) -> bool
    requires { TellsTaken taken.now.rows before.now }
    ensures { result ≡ is_stray before.now own.now v ys.now }
{
    ys.is_empty() || any_not_in(own, ys) || doubled(ys) || any_taken(taken, before, v, ys)
}

#[tactic(auto, using(crate::proofs::Lacking::children_past))]
fn stray_in(
    children: &ChildLists,
    taken: &Taken,
    before: &[Expression],
    v: usize,
    ys: &[usize],
) -> bool
    requires { TellsTaken taken.now.rows before.now }
    ensures { result ≡ is_stray before.now (children_of children.now v) v ys.now }
{
    if v < children.len() {
        stray(taken, before, children.of(v), v, ys)
    } else {
        stray(taken, before, &[], v, ys)
    }
}

fn broken(
    rule: Rule,
    children: &ChildLists,
    tables: &Tables,
    before: &[Expression],
    e: &Expression,
) -> bool
    requires { Tells tables.now before.now }
    ensures { result ≡ is_broken rule children.now before.now e.now }
{
    let Tables {
        installed,
        taken,
        read,
    } = tables;
    match e {
        Expression::Comp(v, ys) => match rule {
            Rule::S1 => stray_in(children, taken, before, *v, ys.as_slice()),
            Rule::S2 => false,
            Rule::S3 => any_installed(installed, before, ys.as_slice()),
            Rule::S4 => left_open(installed, before, *v),
            Rule::S5 => installed.has(before, *v),
            Rule::S6 => read.has(before, *v),
        },
        Expression::Inst(v) => match rule {
            Rule::S2 => children.len() <= *v || installed.has(before, *v),
            _ => false,
        },
    }
}

#[tactic(auto, using(crate::proofs::Lacking::lacks_comp_drop), unfolding(crate::specs::Tests::lacks_comp))]
fn no_comp(taken: &Taken, all: &[Expression], children: &ChildLists) -> bool
    requires { TellsTaken taken.now.rows all.now }
    ensures { result ≡ lacks_comp all.now 0 children.now }
{
    for v in 0..children.len() {
        if any_not_taken(taken, all, v, children.of(v)) {
            return true;
        }
    }
    false
}

#[tactic(auto, using(crate::proofs::Lacking::lacks_inst_drop), unfolding(crate::specs::Tests::lacks_inst))]
fn no_inst(installed: &Installed, all: &[Expression], children: &ChildLists) -> bool
    requires { TellsInstalled installed.now.flags all.now }
    ensures { result ≡ lacks_inst all.now 0 children.now }
{
    for v in 0..children.len() {
        if !installed.has(all, v) {
            return true;
        }
    }
    false
}

fn lacking(rule: Rule, children: &ChildLists, tables: &Tables, list: &[Expression]) -> bool
    requires { Tells tables.now list.now }
    ensures { result ≡ lacks rule children.now list.now }
{
    match rule {
        Rule::S1 => no_comp(&tables.taken, list, children),
        Rule::S2 => no_inst(&tables.installed, list, children),
        _ => false,
    }
}

/// Returns the first place at which the list breaks the rule, counted from 1.
#[tactic(auto, unfolding(crate::specs::Tests::place_from))]
pub fn first_place(rule: Rule, children: &ChildLists, list: &[Expression]) -> Option<usize>
    ensures { result ≡ place_from rule children.now [] list.now }
{
    let mut tables = Tables::new();
    for (i, e) in list.iter().enumerate() {
        if broken(rule, children, &tables, &list[..i], e) {
            return Some(i + 1);
        }
        tables.note(e);
    }
    if lacking(rule, children, &tables, list) {
        Some(list.len() + 1)
    } else {
        None
    }
}
