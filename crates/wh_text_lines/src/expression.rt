//! Reads and writes expressions as words, of which strategies and plans have a line each.
ghost use Rattle.std.specs.Prelude.{◌≡◌, ◌<◌, ◌++◌, ◌∷◌, length, map, flat_map, option_map, IfOk, IsTrue, OnOk, OnErr};
ghost use Rattle.wh_dag.specs.Written.{name_of};
ghost use Rattle.wh_text_lines.specs.ExpressionText.{views_of, is_comp, is_inst, comp_of, inst_of, expression_of, expression_text};

use std::alloc::{AllocError, Global};
use wh_strategy::{Expression, Sources};
use wh_text::Names;

/// Returns the numbers of the views of these names, or `None` where one is no view's.
fn views_of(alloc: Global, names: &Names, words: &[&[u8]]) -> Result<Option<Vec<usize>>, AllocError>
    ensures { IfOk result (λ views. option_map (λ v. v.items) views ≡ views_of names.now (map (λ word. word.now) words.now)) }
{
    let mut views = Vec::new(alloc);
    for word in words {
        let Some(view) = names.position(*word) else {
            return Ok(None);
        };
        views.push(view)?;
    }
    Ok(Some(views))
}

/// Returns whether the words have the form `comp V from U ..`, with one U or more.
fn is_comp(words: &[&[u8]]) -> bool
    ensures value { result ≡ is_comp (map (λ word. word.now) words.now) }
    ensures long { IsTrue result → 3 < length words.now }
{
    match words {
        [first, _, from, _, ..] => *first == b"comp".as_slice() && *from == b"from".as_slice(),
        _ => false,
    }
}

/// Returns whether the words have the form `inst V`.
fn is_inst(words: &[&[u8]]) -> bool
    ensures value { result ≡ is_inst (map (λ word. word.now) words.now) }
    ensures long { IsTrue result → 1 < length words.now }
{
    match words {
        [first, _] => *first == b"inst".as_slice(),
        _ => false,
    }
}

/// Returns the Comp that these words are, or `None`.
fn comp_of(alloc: Global, names: &Names, words: &[&[u8]]) -> Result<Option<Expression>, AllocError>
    ensures { IfOk result (λ comp. comp ≡ comp_of names.now (map (λ word. word.now) words.now)) }
{
    if !is_comp(words) {
        return Ok(None);
    }
    let Some(target) = names.position(words[1]) else {
        return Ok(None);
    };
    let Some(sources) = views_of(alloc, names, &words[3..])? else {
        return Ok(None);
    };
    Ok(Some(Expression::Comp(target, Sources::new(sources))))
}

/// Returns the Inst that these words are, or `None`.
fn inst_of(names: &Names, words: &[&[u8]]) -> Option<Expression>
    ensures { result ≡ inst_of names.now (map (λ word. word.now) words.now) }
{
    if !is_inst(words) {
        return None;
    }
    let target = names.position(words[1])?;
    Some(Expression::Inst(target))
}

/// Returns the expression that these words are, `comp V from U ..` or `inst V` with names of views, or `None`.
pub(crate) fn expression_of(
    alloc: Global,
    names: &Names,
    words: &[&[u8]],
) -> Result<Option<Expression>, AllocError>
    ensures { IfOk result (λ expression. expression ≡ expression_of names.now (map (λ word. word.now) words.now)) }
{
    if let Some(comp) = comp_of(alloc, names, words)? {
        return Ok(Some(comp));
    }
    Ok(inst_of(names, words))
}

/// Appends the name of the view; of a number that is no view's it appends nothing.
pub(crate) fn append_name(out: &mut Vec<u8>, names: &Names, view: usize) -> Result<(), AllocError>
    ensures { OnOk result (out.new.items ≡ out.old.items ++ name_of names.now view) }
{
    if view >= names.len() {
        return Ok(());
    }
    out.extend_from_slice(names.name(view).as_bytes())
}

/// Appends a space and the name of each of these views.
fn append_sources(out: &mut Vec<u8>, names: &Names, sources: &[usize]) -> Result<(), AllocError>
    ensures { OnOk result (out.new.items ≡ out.old.items ++ flat_map (λ view. 32 ∷ name_of names.now view) sources.now) }
{
    for view in sources {
        out.push(b' ')?;
        append_name(out, names, *view)?;
    }
    Ok(())
}

/// Appends the expression as it is written. Where memory fails, a part of it may have been appended.
pub(crate) fn append_expression(
    out: &mut Vec<u8>,
    names: &Names,
    expression: &Expression,
) -> Result<(), AllocError>
    ensures { OnOk result (out.new.items ≡ out.old.items ++ expression_text names.now expression.now) }
{
    match expression {
        Expression::Comp(target, sources) => {
            out.extend_from_slice(b"comp ")?;
            append_name(out, names, *target)?;
            out.extend_from_slice(b" from")?;
            append_sources(out, names, sources.as_slice())
        }
        Expression::Inst(target) => {
            out.extend_from_slice(b"inst ")?;
            append_name(out, names, *target)
        }
    }
}

/// Appends the expression as it is written, `comp V from U ..` or `inst V`, with one space between words and no LF. A number that is no
/// view's is written as an empty name. Where memory fails, nothing is appended. Takes O(n) for n bytes that are written.
pub fn write_expression(
    out: &mut Vec<u8>,
    names: &Names,
    expression: &Expression,
) -> Result<(), AllocError>
    ensures ok { OnOk result (out.new.items ≡ out.old.items ++ expression_text names.now expression.now) }
    ensures err { OnErr result (out.new.items ≡ out.old.items) }
{
    let mut text = Vec::new(*out.allocator());
    append_expression(&mut text, names, expression)?;
    out.extend_from_slice(&text)
}
