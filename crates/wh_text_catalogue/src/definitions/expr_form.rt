//! Tests the form of an expression, level by level.
ghost use Rattle.std.specs.Prelude.{◌≡◌, ◌==◌, map, option_map};
ghost use Rattle.toml.specs.View.{table_view, view};
ghost use Rattle.wh_text_catalogue.specs.ExprForm.{expr_form, is_expr, literal_of, member_count, operation_of, sign_of};
ghost use Rattle.wh_text_catalogue.specs.Inner.ExprForm.{seen};

use super::reference::is_reference;
use crate::catalogue::member;
use toml::{Table, Value};

/// An operation of arithmetic.
#[derive(Clone, Copy)]
pub(crate) enum Sign {
    /// `+`
    Plus,
    /// `-`
    Minus,
    /// `*`
    Times,
}

/// The first level of an expression.
#[derive(Drop)]
pub(crate) enum ExprForm<'a> {
    /// A whole number.
    Number(i64),
    /// A column of a child.
    Reference(&'a str),
    /// A text.
    Literal(&'a str),
    /// An operation on two parts.
    Operation(Sign, &'a Value, &'a Value),
}

/// The operation of this sign.
fn sign_of(text: &str) -> Option<Sign>
    ensures { result ≡ sign_of text.now }
{
    if text == "+" {
        return Some(Sign::Plus);
    }
    if text == "-" {
        return Some(Sign::Minus);
    }
    if text == "*" {
        return Some(Sign::Times);
    }
    None
}

/// An operation on two parts, where these are its sign and them.
fn operation_of(parts: &[Value]) -> Option<ExprForm<'_>>
    ensures { option_map seen result ≡ operation_of (map view parts.now) }
{
    match parts {
        [sign, left, right] => {
            let sign = sign_of(sign.as_str()?)?;
            Some(ExprForm::Operation(sign, left, right))
        }
        _ => None,
    }
}

/// Whether the table has one key.
fn has_one_key(members: &Table) -> bool
    ensures { result ≡ (member_count (table_view members.now) == 1) }
{
    members.len() == 1
}

/// The text of a table `{text = ..}`.
fn literal_of(members: &Table) -> Option<ExprForm<'_>>
    ensures { option_map seen result ≡ literal_of (table_view members.now) }
{
    if !has_one_key(members) {
        return None;
    }
    let text = member(members, "text")?.as_str()?;
    Some(ExprForm::Literal(text))
}

/// Returns the first level of the expression, or `None` where it has another form.
pub(crate) fn expr_form(value: &Value) -> Option<ExprForm<'_>>
    ensures { option_map seen result ≡ expr_form (view value.now) }
{
    match value {
        Value::Integer(number) => Some(ExprForm::Number(*number)),
        Value::String(text) => {
            if is_reference(text.as_str()) {
                Some(ExprForm::Reference(text.as_str()))
            } else {
                None
            }
        }
        Value::Array(parts) => operation_of(parts.as_slice()),
        Value::Table(members) => literal_of(members),
        _ => None,
    }
}

/// Tells whether the value is an expression of at most so many levels.
pub(crate) fn is_expr(value: &Value, levels: usize) -> bool
    ensures { result ≡ is_expr levels (view value.now) }
{
    if levels == 0 {
        return false;
    }
    match expr_form(value) {
        None => false,
        Some(ExprForm::Operation(_, left, right)) => {
            is_expr(left, levels - 1) && is_expr(right, levels - 1)
        }
        Some(_) => true,
    }
}
