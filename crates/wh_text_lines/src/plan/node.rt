//! Reads the lines of a plan's tree, each by itself.
ghost use Rattle.std.specs.Prelude.{◌≡◌, ◌<◌, ◌++◌, ◌∷◌, length, map, option_map, IfOk, IsTrue};
ghost use Rattle.std.specs.List.{slice_split};
ghost use Rattle.wh_text_lines.specs.NodeLine.{bounded_by, branched_by, couple_in, cycle_from, cycle_in, cycled_by, expressions_of, is_bound, is_branch, is_cycle, is_parting, node_of};
ghost use Rattle.wh_text_lines.specs.Words.{words_of};

use crate::expression::expression_of;
use crate::words::{word_at, words_of};
use std::alloc::{AllocError, Global};
use wh_cert::TreeNode;
use wh_dag::Couple;
use wh_strategy::{Expression, Strategy};
use wh_text::Names;

/// Returns whether the words have the form `bound`.
fn is_bound(words: &[&[u8]]) -> bool
    ensures { result ≡ is_bound (map (λ word. word.now) words.now) }
{
    match words {
        [first] => *first == b"bound".as_slice(),
        _ => false,
    }
}

/// Returns whether the words have the form `branch U W`.
fn is_branch(words: &[&[u8]]) -> bool
    ensures { result ≡ is_branch (map (λ word. word.now) words.now) }
{
    match words {
        [first, _, _] => *first == b"branch".as_slice(),
        _ => false,
    }
}

/// Returns whether the words begin with `cycle`.
fn is_cycle(words: &[&[u8]]) -> bool
    ensures { result ≡ is_cycle (map (λ word. word.now) words.now) }
{
    match words {
        [] => false,
        [first, ..] => *first == b"cycle".as_slice(),
    }
}

/// Returns the couple that these words name, after the first of them.
fn couple_in(names: &Names, words: &[&[u8]]) -> Option<Couple>
    ensures { result ≡ couple_in names.now (map (λ word. word.now) words.now) }
{
    Some(Couple {
        lower: names.position(word_at(words, 1))?,
        higher: names.position(word_at(words, 2))?,
    })
}

/// Returns the node that the words `bound` are.
fn bounded_by(words: &[&[u8]]) -> Option<TreeNode>
    ensures { result ≡ bounded_by (map (λ word. word.now) words.now) }
{
    if is_bound(words) {
        Some(TreeNode::Bound)
    } else {
        None
    }
}

/// Returns the node that the words `branch U W` are.
fn branched_by(names: &Names, words: &[&[u8]]) -> Option<TreeNode>
    ensures { result ≡ branched_by names.now (map (λ word. word.now) words.now) }
{
    if !is_branch(words) {
        return None;
    }
    Some(TreeNode::Branch(couple_in(names, words)?))
}

/// Returns whether the byte parts the expressions of a cycle.
fn is_parting(byte: u8) -> bool
    ensures { result ≡ is_parting byte }
{
    byte == b';'
}

/// Returns the parts of a line between its semicolons.
fn parts_of(alloc: Global, line: &[u8]) -> Result<Vec<&[u8]>, AllocError>
    ensures { IfOk result (λ parts. map (λ part. part.now) parts.items ≡ slice_split is_parting line.now) }
{
    line.split(|byte| is_parting(*byte)).collect(alloc)
}

/// Returns the list with the expressions in the parts behind it, one in each, or `None` where a part is none.
fn with_parts(
    alloc: Global,
    names: &Names,
    list: Vec<Expression>,
    parts: &[&[u8]],
) -> Result<Option<Vec<Expression>>, AllocError>
    ensures { IfOk result (λ all. option_map (λ v. v.items) all
        ≡ option_map (λ more. list.items ++ more) (expressions_of names.now (map words_of (map (λ part. part.now) parts.now)))) }
{
    let mut list = list;
    for part in parts {
        let words = words_of(alloc, *part)?;
        let Some(expression) = expression_of(alloc, names, &words)? else {
            return Ok(None);
        };
        list.push(expression)?;
    }
    Ok(Some(list))
}

/// Returns the expressions in these words, and in each of the parts.
fn expressions_in(
    alloc: Global,
    names: &Names,
    words: &[&[u8]],
    parts: &[&[u8]],
) -> Result<Option<Vec<Expression>>, AllocError>
    ensures { IfOk result (λ all. option_map (λ v. v.items) all
        ≡ expressions_of names.now (map (λ word. word.now) words.now ∷ map words_of (map (λ part. part.now) parts.now))) }
{
    let Some(expression) = expression_of(alloc, names, words)? else {
        return Ok(None);
    };
    let mut list = Vec::new(alloc);
    list.push(expression)?;
    with_parts(alloc, names, list, parts)
}

/// Returns the expressions in these parts, the first of which has the word `cycle` before its own.
fn cycle_from(
    alloc: Global,
    names: &Names,
    part: &[u8],
    parts: &[&[u8]],
) -> Result<Option<Vec<Expression>>, AllocError>
    ensures { IfOk result (λ all. option_map (λ v. v.items) all ≡ cycle_from names.now part.now (map (λ part. part.now) parts.now)) }
{
    let words = words_of(alloc, part)?;
    if !is_cycle(&words) {
        return Ok(None);
    }
    expressions_in(alloc, names, &words[1..], parts)
}

/// Returns the expressions in the parts of a line `cycle E; E; ..`.
fn cycle_in(
    alloc: Global,
    names: &Names,
    parts: &[&[u8]],
) -> Result<Option<Vec<Expression>>, AllocError>
    ensures { IfOk result (λ all. option_map (λ v. v.items) all ≡ cycle_in names.now (map (λ part. part.now) parts.now)) }
{
    match parts {
        [] => Ok(None),
        [part, rest @ ..] => cycle_from(alloc, names, *part, rest),
    }
}

/// Returns the node that a line `cycle E; E; ..` is.
fn cycled_by(alloc: Global, names: &Names, line: &[u8]) -> Result<Option<TreeNode>, AllocError>
    ensures { IfOk result (λ node. node ≡ cycled_by names.now line.now) }
{
    let parts = parts_of(alloc, line)?;
    match cycle_in(alloc, names, &parts)? {
        Some(list) => Ok(Some(TreeNode::Cycle(Strategy::new(list)))),
        None => Ok(None),
    }
}

/// Returns the node that a line of these words says, over these views, `bound`, `branch U W` or `cycle E; E; ..`, or `None`.
pub(super) fn node_of(
    alloc: Global,
    names: &Names,
    line: &[u8],
    words: &[&[u8]],
) -> Result<Option<TreeNode>, AllocError>
    ensures { IfOk result (λ node. node ≡ node_of names.now line.now (map (λ word. word.now) words.now)) }
{
    if let Some(node) = bounded_by(words) {
        return Ok(Some(node));
    }
    if let Some(node) = branched_by(names, words) {
        return Ok(Some(node));
    }
    cycled_by(alloc, names, line)
}
