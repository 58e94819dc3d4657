//! Makes formulas whose kinds fit, and numbers their texts.
ghost use Rattle.std.specs.Prelude.{◌≡◌, ◌⊎◌, ◌<◌, ◌≤◌, [], All, ◌+◌, map, Ok, Err, IfOk, IfErr};
ghost use Rattle.toml.specs.View.{view};
ghost use Rattle.wh_formula.specs.Expr as expr_tree;
ghost use Rattle.wh_formula.specs.Pred as pred_tree;
ghost use Rattle.wh_text.specs.Inner.Dict.{Grows};
ghost use Rattle.wh_text_catalogue.specs.FormulaKinds.{combined, compared, compares_texts, fits_kinds, is_int, operation, typed_all, typed_any, typed_column, typed_comparison, typed_expr, typed_literal, typed_not, typed_operation, typed_parts, typed_pred};

use super::expr_form::{ExprForm, Sign, expr_form};
use super::header::Header;
use super::pred_form::{PredForm, pred_form};
use std::alloc::{AllocError, Global};
use toml::Value;
use wh_formula::{Comparison, Expr, MAX_DEPTH, Pred};
use wh_text::{Dict, Kind, LoadFault};

/// An expression, and what its values are.
#[derive(Drop)]
pub(crate) struct TypedExpr {
    /// The kind of its values.
    pub kind: Kind,
    /// The expression.
    pub expr: Expr,
}

/// Tells whether the kind is that of whole numbers.
pub(crate) fn is_int(kind: Kind) -> bool
    ensures { result ≡ is_int kind }
{
    match kind {
        Kind::Int => true,
        Kind::Text => false,
    }
}

/// The operation on these two.
fn operation(alloc: Global, sign: Sign, left: Expr, right: Expr) -> Result<Expr, AllocError>
    requires left { expr_tree.depth left < MAX_DEPTH }
    requires right { expr_tree.depth right < MAX_DEPTH }
    ensures { IfOk result (λ expr. expr ≡ operation sign left right) }
{
    match sign {
        Sign::Plus => Expr::add(alloc, left, right),
        Sign::Minus => Expr::sub(alloc, left, right),
        Sign::Times => Expr::mul(alloc, left, right),
    }
}

/// The operation on two expressions of whole numbers, else Kind.
fn combined(
    alloc: Global,
    header: &Header,
    sign: Sign,
    left: TypedExpr,
    right: TypedExpr,
) -> Result<Expr, LoadFault>
    requires left { expr_tree.depth left.expr < MAX_DEPTH }
    requires right { expr_tree.depth right.expr < MAX_DEPTH }
    ensures ok { IfOk result (λ expr. combined header.now sign left right ≡ Ok expr) }
    ensures value { IfOk result (λ expr. expr ≡ operation sign left.expr right.expr) }
    ensures err { IfErr result (λ f. (f ≡ LoadFault.Memory) ⊎ (combined header.now sign left right ≡ Err f)) }
{
    if !is_int(left.kind) || !is_int(right.kind) {
        return Err(header.unfit(alloc));
    }
    Ok(operation(alloc, sign, left.expr, right.expr)?)
}

/// A text as an expression: its number.
fn literal(alloc: Global, texts: &mut Dict, text: &str) -> Result<TypedExpr, LoadFault>
    ensures ok { IfOk result (λ typed. typed_literal texts.old text.now ≡ Ok (typed, texts.new)) }
    ensures within { IfOk result (λ typed. expr_tree.depth typed.expr ≡ 1) }
    ensures err { IfErr result (λ f. f ≡ LoadFault.Memory) }
    ensures grows { Grows texts.old texts.new }
{
    let number = texts.intern(alloc, text)?;
    Ok(TypedExpr {
        kind: Kind::Text,
        expr: Expr::number(number),
    })
}

/// The column that a reference names, else Kind.
fn column(alloc: Global, header: &Header, reference: &str) -> Result<TypedExpr, LoadFault>
    ensures ok { IfOk result (λ typed. typed_column header.now reference.now ≡ Ok typed) }
    ensures within { IfOk result (λ typed. expr_tree.depth typed.expr ≡ 1) }
    ensures err { IfErr result (λ f. (f ≡ LoadFault.Memory) ⊎ (typed_column header.now reference.now ≡ Err f)) }
{
    let Some(cell) = header.cell(reference) else {
        return Err(header.unfit(alloc));
    };
    Ok(TypedExpr {
        kind: cell.kind,
        expr: Expr::column(cell.place),
    })
}

/// Reads an expression of at most so many levels, which may be one of texts; its texts get numbers from left to right.
#[cycle(expr_kinds)]
pub(crate) fn typed_expr(
    alloc: Global,
    header: &Header,
    texts: &mut Dict,
    value: &Value,
    levels: usize,
) -> Result<TypedExpr, LoadFault>
    requires { levels ≤ MAX_DEPTH }
    ensures ok { IfOk result (λ typed. typed_expr header.now levels (view value.now) texts.old ≡ Ok (typed, texts.new)) }
    ensures within { IfOk result (λ typed. expr_tree.depth typed.expr ≤ levels) }
    ensures err { IfErr result (λ f. (f ≡ LoadFault.Memory) ⊎ (typed_expr header.now levels (view value.now) texts.old ≡ Err f)) }
    ensures grows { Grows texts.old texts.new }
{
    if levels == 0 {
        return Err(header.unfit(alloc));
    }
    match expr_form(value) {
        None => Err(header.unfit(alloc)),
        Some(ExprForm::Number(number)) => Ok(TypedExpr {
            kind: Kind::Int,
            expr: Expr::number(number),
        }),
        Some(ExprForm::Literal(text)) => literal(alloc, texts, text),
        Some(ExprForm::Reference(text)) => column(alloc, header, text),
        Some(ExprForm::Operation(sign, left, right)) => {
            typed_operation(alloc, header, texts, sign, (left, right), levels - 1)
        }
    }
}

/// An operation on two parts of at most so many levels.
#[cycle(expr_kinds)]
fn typed_operation(
    alloc: Global,
    header: &Header,
    texts: &mut Dict,
    sign: Sign,
    sides: (&Value, &Value),
    levels: usize,
) -> Result<TypedExpr, LoadFault>
    requires { levels < MAX_DEPTH }
    ensures ok { IfOk result (λ typed. typed_operation header.now (typed_expr header.now levels) sign (view sides.entry.0.now) (view sides.entry.1.now) texts.old ≡ Ok (typed, texts.new)) }
    ensures within { IfOk result (λ typed. expr_tree.depth typed.expr ≤ levels + 1) }
    ensures err { IfErr result (λ f. (f ≡ LoadFault.Memory) ⊎ (typed_operation header.now (typed_expr header.now levels) sign (view sides.entry.0.now) (view sides.entry.1.now) texts.old ≡ Err f)) }
    ensures grows { Grows texts.old texts.new }
{
    let left = typed_expr(alloc, header, texts, sides.0, levels)?;
    let right = typed_expr(alloc, header, texts, sides.1, levels)?;
    let expr = combined(alloc, header, sign, left, right)?;
    Ok(TypedExpr {
        kind: Kind::Int,
        expr,
    })
}

/// Whether texts may be compared so.
fn compares_texts(comparison: Comparison) -> bool
    ensures { result ≡ compares_texts comparison }
{
    match comparison {
        Comparison::Equal | Comparison::NotEqual => true,
        _ => false,
    }
}

/// Whether values of these kinds may be compared so.
fn fits_kinds(comparison: Comparison, left: Kind, right: Kind) -> bool
    ensures { result ≡ fits_kinds comparison left right }
{
    match (left, right) {
        (Kind::Int, Kind::Int) => true,
        (Kind::Text, Kind::Text) => compares_texts(comparison),
        _ => false,
    }
}

/// The comparison of two expressions, where their kinds fit, else Kind.
fn compared(
    alloc: Global,
    header: &Header,
    comparison: Comparison,
    left: TypedExpr,
    right: TypedExpr,
) -> Result<Pred, LoadFault>
    requires left { expr_tree.depth left.expr < MAX_DEPTH }
    requires right { expr_tree.depth right.expr < MAX_DEPTH }
    ensures ok { IfOk result (λ pred. compared header.now comparison left right ≡ Ok pred) }
    ensures value { IfOk result (λ pred. pred ≡ pred_tree.Cmp comparison left.expr right.expr) }
    ensures err { IfErr result (λ f. (f ≡ LoadFault.Memory) ⊎ (compared header.now comparison left right ≡ Err f)) }
{
    if !fits_kinds(comparison, left.kind, right.kind) {
        return Err(header.unfit(alloc));
    }
    Ok(Pred::compare(comparison, left.expr, right.expr))
}

/// A comparison of two parts of at most so many levels.
fn typed_comparison(
    alloc: Global,
    header: &Header,
    texts: &mut Dict,
    comparison: Comparison,
    sides: (&Value, &Value),
    levels: usize,
) -> Result<Pred, LoadFault>
    requires { levels < MAX_DEPTH }
    ensures ok { IfOk result (λ pred. typed_comparison header.now (typed_expr header.now levels) comparison (view sides.entry.0.now) (view sides.entry.1.now) texts.old ≡ Ok (pred, texts.new)) }
    ensures within { IfOk result (λ pred. pred_tree.depth pred ≤ levels + 1) }
    ensures err { IfErr result (λ f. (f ≡ LoadFault.Memory) ⊎ (typed_comparison header.now (typed_expr header.now levels) comparison (view sides.entry.0.now) (view sides.entry.1.now) texts.old ≡ Err f)) }
    ensures grows { Grows texts.old texts.new }
{
    let left = typed_expr(alloc, header, texts, sides.0, levels)?;
    let right = typed_expr(alloc, header, texts, sides.1, levels)?;
    compared(alloc, header, comparison, left, right)
}

/// Reads a predicate of at most so many levels; its texts get numbers from left to right.
#[cycle(pred_kinds)]
pub(crate) fn typed_pred(
    alloc: Global,
    header: &Header,
    texts: &mut Dict,
    value: &Value,
    levels: usize,
) -> Result<Pred, LoadFault>
    requires { levels ≤ MAX_DEPTH }
    ensures ok { IfOk result (λ pred. typed_pred header.now levels (view value.now) texts.old ≡ Ok (pred, texts.new)) }
    ensures within { IfOk result (λ pred. pred_tree.depth pred ≤ levels) }
    ensures err { IfErr result (λ f. (f ≡ LoadFault.Memory) ⊎ (typed_pred header.now levels (view value.now) texts.old ≡ Err f)) }
    ensures grows { Grows texts.old texts.new }
{
    if levels == 0 {
        return Err(header.unfit(alloc));
    }
    match pred_form(value) {
        None => Err(header.unfit(alloc)),
        Some(PredForm::Always) => Ok(Pred::always()),
        Some(PredForm::Compare(comparison, left, right)) => {
            typed_comparison(alloc, header, texts, comparison, (left, right), levels - 1)
        }
        Some(PredForm::All(parts)) => typed_all(alloc, header, texts, parts, levels - 1),
        Some(PredForm::Any(parts)) => typed_any(alloc, header, texts, parts, levels - 1),
        Some(PredForm::Not(part)) => typed_not(alloc, header, texts, part, levels - 1),
    }
}

/// All of these predicates of at most so many levels.
#[cycle(pred_kinds)]
fn typed_all(
    alloc: Global,
    header: &Header,
    texts: &mut Dict,
    values: &[Value],
    levels: usize,
) -> Result<Pred, LoadFault>
    requires { levels < MAX_DEPTH }
    ensures ok { IfOk result (λ pred. typed_all (typed_pred header.now levels) (map view values.now) texts.old ≡ Ok (pred, texts.new)) }
    ensures within { IfOk result (λ pred. pred_tree.depth pred ≤ levels + 1) }
    ensures err { IfErr result (λ f. (f ≡ LoadFault.Memory) ⊎ (typed_all (typed_pred header.now levels) (map view values.now) texts.old ≡ Err f)) }
    ensures grows { Grows texts.old texts.new }
{
    let parts = typed_parts(alloc, header, texts, values, levels)?;
    Ok(Pred::all(parts))
}

/// Any of these predicates of at most so many levels.
#[cycle(pred_kinds)]
fn typed_any(
    alloc: Global,
    header: &Header,
    texts: &mut Dict,
    values: &[Value],
    levels: usize,
) -> Result<Pred, LoadFault>
    requires { levels < MAX_DEPTH }
    ensures ok { IfOk result (λ pred. typed_any (typed_pred header.now levels) (map view values.now) texts.old ≡ Ok (pred, texts.new)) }
    ensures within { IfOk result (λ pred. pred_tree.depth pred ≤ levels + 1) }
    ensures err { IfErr result (λ f. (f ≡ LoadFault.Memory) ⊎ (typed_any (typed_pred header.now levels) (map view values.now) texts.old ≡ Err f)) }
    ensures grows { Grows texts.old texts.new }
{
    let parts = typed_parts(alloc, header, texts, values, levels)?;
    Ok(Pred::any(parts))
}

/// The contrary of a predicate of at most so many levels.
#[cycle(pred_kinds)]
fn typed_not(
    alloc: Global,
    header: &Header,
    texts: &mut Dict,
    value: &Value,
    levels: usize,
) -> Result<Pred, LoadFault>
    requires { levels < MAX_DEPTH }
    ensures ok { IfOk result (λ pred. typed_not (typed_pred header.now levels) (view value.now) texts.old ≡ Ok (pred, texts.new)) }
    ensures within { IfOk result (λ pred. pred_tree.depth pred ≤ levels + 1) }
    ensures err { IfErr result (λ f. (f ≡ LoadFault.Memory) ⊎ (typed_not (typed_pred header.now levels) (view value.now) texts.old ≡ Err f)) }
    ensures grows { Grows texts.old texts.new }
{
    let part = typed_pred(alloc, header, texts, value, levels)?;
    Ok(Pred::not(alloc, part)?)
}

/// Predicates of at most so many levels, in order.
#[cycle(pred_kinds)]
fn typed_parts(
    alloc: Global,
    header: &Header,
    texts: &mut Dict,
    values: &[Value],
    levels: usize,
) -> Result<Vec<Pred>, LoadFault>
    requires { levels ≤ MAX_DEPTH }
    ensures ok { IfOk result (λ parts. typed_parts (typed_pred header.now levels) [] (map view values.now) texts.old ≡ Ok (parts.items, texts.new)) }
    ensures within { IfOk result (λ parts. All (λ part. pred_tree.depth part ≤ levels) parts.items) }
    ensures err { IfErr result (λ f. (f ≡ LoadFault.Memory) ⊎ (typed_parts (typed_pred header.now levels) [] (map view values.now) texts.old ≡ Err f)) }
    ensures grows { Grows texts.old texts.new }
{
    let mut parts = Vec::new(alloc);
    for value in values {
        let part = typed_pred(alloc, header, texts, value, levels)?;
        parts.push(part)?;
    }
    Ok(parts)
}
