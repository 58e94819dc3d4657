//! Finds the first reference of a formula that names no column.
ghost use Rattle.std.specs.Prelude.{◌≡◌, map};
ghost use Rattle.std.specs.Option.{option_copied};
ghost use Rattle.toml.specs.View.{view};
ghost use Rattle.wh_text_catalogue.specs.FormulaColumns.{first_unknown, unknown, unknown_in_expr, unknown_in_pred};

use super::expr_form::{ExprForm, expr_form};
use super::header::Header;
use super::pred_form::{PredForm, pred_form};
use toml::Value;

/// Returns the reference itself, where it names no column.
pub(crate) fn unknown<'a>(header: &Header, reference: &'a str) -> Option<&'a str>
    ensures { option_copied result ≡ unknown header.now.columns reference.now }
{
    if header.cell(reference).is_some() {
        None
    } else {
        Some(reference)
    }
}

/// Returns the first reference of an expression of so many levels that names no column.
pub(crate) fn unknown_in_expr<'a>(
    header: &Header,
    value: &'a Value,
    levels: usize,
) -> Option<&'a str>
    ensures { option_copied result ≡ unknown_in_expr header.now.columns levels (view value.now) }
{
    if levels == 0 {
        return None;
    }
    match expr_form(value) {
        Some(ExprForm::Reference(text)) => unknown(header, text),
        Some(ExprForm::Operation(_, left, right)) => {
            match unknown_in_expr(header, left, levels - 1) {
                Some(text) => Some(text),
                None => unknown_in_expr(header, right, levels - 1),
            }
        }
        _ => None,
    }
}

/// Returns the first reference of a predicate of so many levels that names no column.
#[cycle(pred_columns)]
pub(crate) fn unknown_in_pred<'a>(
    header: &Header,
    value: &'a Value,
    levels: usize,
) -> Option<&'a str>
    ensures { option_copied result ≡ unknown_in_pred header.now.columns levels (view value.now) }
{
    if levels == 0 {
        return None;
    }
    match pred_form(value) {
        Some(PredForm::Compare(_, left, right)) => {
            match unknown_in_expr(header, left, levels - 1) {
                Some(text) => Some(text),
                None => unknown_in_expr(header, right, levels - 1),
            }
        }
        Some(PredForm::All(parts)) | Some(PredForm::Any(parts)) => {
            unknown_in_preds(header, parts, levels - 1)
        }
        Some(PredForm::Not(part)) => unknown_in_pred(header, part, levels - 1),
        _ => None,
    }
}

/// The first reference of these predicates that names no column.
#[cycle(pred_columns)]
fn unknown_in_preds<'a>(header: &Header, values: &'a [Value], levels: usize) -> Option<&'a str>
    ensures { option_copied result ≡ first_unknown (unknown_in_pred header.now.columns levels) (map view values.now) }
{
    for value in values {
        if let Some(text) = unknown_in_pred(header, value, levels) {
            return Some(text);
        }
    }
    None
}
