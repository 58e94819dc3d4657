//! Reads the lines of a plan, each by itself.
ghost use Rattle.std.specs.Prelude.{◌≡◌, map, IfOk};
ghost use Rattle.wh_text_lines.specs.PlanLine.{is_pair, is_scope, is_work, listed_by, pair_from, pair_in, paired_by, plan_line_of, scope_named, scoped_by, searched_by, worked_by};

use super::node::node_of;
use crate::expression::expression_of;
use crate::natural::natural;
use crate::words::word_at;
use std::alloc::{AllocError, Global};
use wh_cert::{PairMin, Scope, TreeNode};
use wh_strategy::Expression;
use wh_text::Names;

/// What a line of a plan says.
#[derive(Drop)]
pub(crate) enum PlanLine {
    /// The strategies that the plan's is least among.
    Scoped(Scope),
    /// The work of the strategy.
    Worked(u128),
    /// An expression of the strategy.
    Listed(Expression),
    /// A line of a certificate by pairs.
    Paired(PairMin),
    /// A node of the tree of a certificate by search.
    Searched(TreeNode),
}

/// Returns the scope of this name.
fn scope_named(word: &[u8]) -> Option<Scope>
    ensures { result ≡ scope_named word.now }
{
    if word == b"all".as_slice() {
        Some(Scope::All)
    } else if word == b"one-way".as_slice() {
        Some(Scope::OneWay)
    } else {
        None
    }
}

/// Returns whether the words have the form `scope S`.
fn is_scope(words: &[&[u8]]) -> bool
    ensures { result ≡ is_scope (map (λ word. word.now) words.now) }
{
    match words {
        [first, _] => *first == b"scope".as_slice(),
        _ => false,
    }
}

/// Returns whether the words have the form `work N`.
fn is_work(words: &[&[u8]]) -> bool
    ensures { result ≡ is_work (map (λ word. word.now) words.now) }
{
    match words {
        [first, _] => *first == b"work".as_slice(),
        _ => false,
    }
}

/// Returns whether the words have the form `pair V U W N`.
fn is_pair(words: &[&[u8]]) -> bool
    ensures { result ≡ is_pair (map (λ word. word.now) words.now) }
{
    match words {
        [first, _, _, _, _] => *first == b"pair".as_slice(),
        _ => false,
    }
}

/// Returns what the words say of the scope, if they do.
fn scoped_by(words: &[&[u8]]) -> Option<PlanLine>
    ensures { result ≡ scoped_by (map (λ word. word.now) words.now) }
{
    if !is_scope(words) {
        return None;
    }
    Some(PlanLine::Scoped(scope_named(word_at(words, 1))?))
}

/// Returns what the words say of the work, if they do.
fn worked_by(words: &[&[u8]]) -> Option<PlanLine>
    ensures { result ≡ worked_by (map (λ word. word.now) words.now) }
{
    if !is_work(words) {
        return None;
    }
    Some(PlanLine::Worked(natural(word_at(words, 1))?))
}

/// Makes the pair of these parts, where each is one.
fn pair_from(
    parent: Option<usize>,
    first: Option<usize>,
    second: Option<usize>,
    least: Option<u128>,
) -> Option<PairMin>
    ensures { result ≡ pair_from parent first second least }
{
    match (parent, first, second, least) {
        (Some(parent), Some(first), Some(second), Some(least)) => Some(PairMin {
            parent,
            first,
            second,
            least,
        }),
        _ => None,
    }
}

/// Returns the pair that these words name, after the first of them.
fn pair_in(names: &Names, words: &[&[u8]]) -> Option<PairMin>
    ensures { result ≡ pair_in names.now (map (λ word. word.now) words.now) }
{
    pair_from(
        names.position(word_at(words, 1)),
        names.position(word_at(words, 2)),
        names.position(word_at(words, 3)),
        natural(word_at(words, 4)),
    )
}

/// Returns the pair that the words say, if they do.
fn paired_by(names: &Names, words: &[&[u8]]) -> Option<PlanLine>
    ensures { result ≡ paired_by names.now (map (λ word. word.now) words.now) }
{
    if !is_pair(words) {
        return None;
    }
    Some(PlanLine::Paired(pair_in(names, words)?))
}

/// Returns the expression that the words say, if they do.
fn listed_by(alloc: Global, names: &Names, words: &[&[u8]]) -> Result<Option<PlanLine>, AllocError>
    ensures { IfOk result (λ line. line ≡ listed_by names.now (map (λ word. word.now) words.now)) }
{
    match expression_of(alloc, names, words)? {
        Some(expression) => Ok(Some(PlanLine::Listed(expression))),
        None => Ok(None),
    }
}

/// Returns the node that a line of these words says, if it does.
fn searched_by(
    alloc: Global,
    names: &Names,
    line: &[u8],
    words: &[&[u8]],
) -> Result<Option<PlanLine>, AllocError>
    ensures { IfOk result (λ own. own ≡ searched_by names.now line.now (map (λ word. word.now) words.now)) }
{
    match node_of(alloc, names, line, words)? {
        Some(node) => Ok(Some(PlanLine::Searched(node))),
        None => Ok(None),
    }
}

/// Returns what a line of these words says in a plan over these views, or `None` where it says nothing there.
pub(crate) fn plan_line_of(
    alloc: Global,
    names: &Names,
    line: &[u8],
    words: &[&[u8]],
) -> Result<Option<PlanLine>, AllocError>
    ensures { IfOk result (λ own. own ≡ plan_line_of names.now line.now (map (λ word. word.now) words.now)) }
{
    if let Some(own) = scoped_by(words) {
        return Ok(Some(own));
    }
    if let Some(own) = worked_by(words) {
        return Ok(Some(own));
    }
    if let Some(own) = listed_by(alloc, names, words)? {
        return Ok(Some(own));
    }
    if let Some(own) = paired_by(names, words) {
        return Ok(Some(own));
    }
    searched_by(alloc, names, line, words)
}
