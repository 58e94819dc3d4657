//! Tests the form of a predicate, level by level.
ghost use Rattle.std.specs.Prelude.{◌≡◌, map, option_map};
ghost use Rattle.std.specs.List.{list_all};
ghost use Rattle.toml.specs.View.{view};
ghost use Rattle.wh_text_catalogue.specs.PredForm.{comparison_of, compare_of, compound_of, headed, is_pred, not_of, pred_form};
ghost use Rattle.wh_text_catalogue.specs.Inner.PredForm.{seen};

use super::expr_form::is_expr;
use toml::Value;
use wh_formula::Comparison;

/// The first level of a predicate.
#[derive(Drop)]
pub(crate) enum PredForm<'a> {
    /// What every row meets.
    Always,
    /// A comparison of two expressions.
    Compare(Comparison, &'a Value, &'a Value),
    /// All of these predicates.
    All(&'a [Value]),
    /// Any of these predicates.
    Any(&'a [Value]),
    /// The contrary of a predicate.
    Not(&'a Value),
}

/// The comparison of this sign.
fn comparison_of(text: &str) -> Option<Comparison>
    ensures { result ≡ comparison_of text.now }
{
    if text == "=" {
        return Some(Comparison::Equal);
    }
    if text == "<>" {
        return Some(Comparison::NotEqual);
    }
    if text == "<" {
        return Some(Comparison::Less);
    }
    if text == "<=" {
        return Some(Comparison::LessOrEqual);
    }
    if text == ">" {
        return Some(Comparison::Greater);
    }
    if text == ">=" {
        return Some(Comparison::GreaterOrEqual);
    }
    None
}

/// A comparison, where the text is its sign and these are its two sides.
fn compare_of<'a>(text: &str, parts: &'a [Value]) -> Option<PredForm<'a>>
    ensures { option_map seen result ≡ compare_of text.now (map view parts.now) }
{
    match parts {
        [left, right] => {
            let comparison = comparison_of(text)?;
            Some(PredForm::Compare(comparison, left, right))
        }
        _ => None,
    }
}

/// The contrary of a predicate, where there is one part.
fn not_of(parts: &[Value]) -> Option<PredForm<'_>>
    ensures { option_map seen result ≡ not_of (map view parts.now) }
{
    match parts {
        [part] => Some(PredForm::Not(part)),
        _ => None,
    }
}

/// What begins with this word and has these parts.
fn headed<'a>(word: &str, parts: &'a [Value]) -> Option<PredForm<'a>>
    ensures { option_map seen result ≡ headed word.now (map view parts.now) }
{
    if word == "all" {
        return Some(PredForm::All(parts));
    }
    if word == "any" {
        return Some(PredForm::Any(parts));
    }
    if word == "not" {
        return not_of(parts);
    }
    compare_of(word, parts)
}

/// What an array of these values is: a word, and the parts after it.
fn compound_of(parts: &[Value]) -> Option<PredForm<'_>>
    ensures { option_map seen result ≡ compound_of (map view parts.now) }
{
    match parts {
        [word, parts @ ..] => headed(word.as_str()?, parts),
        [] => None,
    }
}

/// Returns the first level of the predicate, or `None` where it has another form.
pub(crate) fn pred_form(value: &Value) -> Option<PredForm<'_>>
    ensures { option_map seen result ≡ pred_form (view value.now) }
{
    match value {
        Value::Boolean(holds) => { if *holds { Some(PredForm::Always) } else { None } }
        Value::Array(parts) => compound_of(parts.as_slice()),
        _ => None,
    }
}

/// Tells whether the value is a predicate of at most so many levels, those of its expressions among them.
#[cycle(pred_levels)]
pub(crate) fn is_pred(value: &Value, levels: usize) -> bool
    ensures { result ≡ is_pred levels (view value.now) }
{
    if levels == 0 {
        return false;
    }
    match pred_form(value) {
        None => false,
        Some(PredForm::Always) => true,
        Some(PredForm::Compare(_, left, right)) => {
            is_expr(left, levels - 1) && is_expr(right, levels - 1)
        }
        Some(PredForm::All(parts)) | Some(PredForm::Any(parts)) => { are_preds(parts, levels - 1) }
        Some(PredForm::Not(part)) => is_pred(part, levels - 1),
    }
}

/// Whether the values are predicates of at most so many levels.
#[cycle(pred_levels)]
fn are_preds(values: &[Value], levels: usize) -> bool
    ensures { result ≡ list_all (is_pred levels) (map view values.now) }
{
    for value in values {
        if !is_pred(value, levels) {
            return false;
        }
    }
    true
}
