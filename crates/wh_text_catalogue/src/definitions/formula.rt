//! Reads whole formulas: their form, then their columns, then their kinds.
ghost use Rattle.std.specs.Prelude.{◌≡◌, ◌⊎◌, Ok, Err, IfOk, IfErr};
ghost use Rattle.std.specs.Option.{option_copied};
ghost use Rattle.toml.specs.View.{view};
ghost use Rattle.wh_text.specs.Inner.Dict.{Grows};
ghost use Rattle.wh_text_catalogue.specs.Formula.{is_whole_expr, is_whole_pred, unknown_column, unknown_in_test, whole_expr, whole_pred};

use super::expr_form::is_expr;
use super::formula_columns::{unknown_in_expr, unknown_in_pred};
use super::formula_kinds::{TypedExpr, typed_expr, typed_pred};
use super::header::Header;
use super::pred_form::is_pred;
use std::alloc::Global;
use toml::Value;
use wh_formula::{MAX_DEPTH, Pred};
use wh_text::{Dict, LoadFault};

/// Tells whether the value has the form of an expression.
#[tactic(auto, unfolding(crate::specs::Formula::is_whole_expr))]
pub(crate) fn is_whole_expr(value: &Value) -> bool
    ensures { result ≡ is_whole_expr (view value.now) }
{
    is_expr(value, MAX_DEPTH)
}

/// Returns the first reference of an expression that names no column.
#[tactic(auto, unfolding(crate::specs::Formula::unknown_column))]
pub(crate) fn unknown_column<'a>(header: &Header, value: &'a Value) -> Option<&'a str>
    ensures { option_copied result ≡ unknown_column header.now.columns (view value.now) }
{
    unknown_in_expr(header, value, MAX_DEPTH)
}

/// Reads an expression and its kind; its texts get numbers from left to right.
#[tactic(auto, unfolding(crate::specs::Formula::whole_expr))]
pub(crate) fn whole_expr(
    alloc: Global,
    header: &Header,
    texts: &mut Dict,
    value: &Value,
) -> Result<TypedExpr, LoadFault>
    ensures ok { IfOk result (λ typed. whole_expr header.now (view value.now) texts.old ≡ Ok (typed, texts.new)) }
    ensures err { IfErr result (λ f. (f ≡ LoadFault.Memory) ⊎ (whole_expr header.now (view value.now) texts.old ≡ Err f)) }
    ensures grows { Grows texts.old texts.new }
{
    typed_expr(alloc, header, texts, value, MAX_DEPTH)
}

/// Tells whether the value has the form of a predicate.
#[tactic(auto, unfolding(crate::specs::Formula::is_whole_pred))]
pub(crate) fn is_whole_pred(value: &Value) -> bool
    ensures { result ≡ is_whole_pred (view value.now) }
{
    is_pred(value, MAX_DEPTH)
}

/// Returns the first reference of a predicate that names no column.
#[tactic(auto, unfolding(crate::specs::Formula::unknown_in_test))]
pub(crate) fn unknown_in_test<'a>(header: &Header, value: &'a Value) -> Option<&'a str>
    ensures { option_copied result ≡ unknown_in_test header.now.columns (view value.now) }
{
    unknown_in_pred(header, value, MAX_DEPTH)
}

/// Reads a predicate; its texts get numbers from left to right.
#[tactic(auto, unfolding(crate::specs::Formula::whole_pred))]
pub(crate) fn whole_pred(
    alloc: Global,
    header: &Header,
    texts: &mut Dict,
    value: &Value,
) -> Result<Pred, LoadFault>
    ensures ok { IfOk result (λ pred. whole_pred header.now (view value.now) texts.old ≡ Ok (pred, texts.new)) }
    ensures err { IfErr result (λ f. (f ≡ LoadFault.Memory) ⊎ (whole_pred header.now (view value.now) texts.old ≡ Err f)) }
    ensures grows { Grows texts.old texts.new }
{
    typed_pred(alloc, header, texts, value, MAX_DEPTH)
}
