//! Reads the predicate that the rows of a derived view meet.
ghost use Rattle.std.specs.Prelude.{◌≡◌, ◌⊎◌, Ok, Err, IfOk, IfErr};
ghost use Rattle.toml.specs.View.{view};
ghost use Rattle.wh_text.specs.Inner.Dict.{Grows};
ghost use Rattle.wh_text_catalogue.specs.Filter.{filter_of, filter_written};

use super::column_names::column_fault;
use super::formula::{is_whole_pred, unknown_in_test, whole_pred};
use super::header::Header;
use std::alloc::Global;
use toml::Value;
use wh_formula::Pred;
use wh_text::{Dict, Key, LoadFault};

/// The predicate that stands at the key, or its first fault.
fn filter_written(
    alloc: Global,
    header: &Header,
    texts: &mut Dict,
    value: &Value,
) -> Result<Pred, LoadFault>
    ensures ok { IfOk result (λ pred. filter_written header.now (view value.now) texts.old ≡ Ok (pred, texts.new)) }
    ensures err { IfErr result (λ f. (f ≡ LoadFault.Memory) ⊎ (filter_written header.now (view value.now) texts.old ≡ Err f)) }
    ensures grows { Grows texts.old texts.new }
{
    if !is_whole_pred(value) {
        return Err(LoadFault::Key(Key::Where));
    }
    if let Some(text) = unknown_in_test(header, value) {
        return Err(column_fault(alloc, text));
    }
    whole_pred(alloc, header, texts, value)
}

/// Returns the predicate of a view, or its first fault: Key(Where), then Column, then Kind.
pub(crate) fn filter_of(
    alloc: Global,
    header: &Header,
    texts: &mut Dict,
    table: &Value,
) -> Result<Pred, LoadFault>
    ensures ok { IfOk result (λ pred. filter_of header.now (view table.now) texts.old ≡ Ok (pred, texts.new)) }
    ensures err { IfErr result (λ f. (f ≡ LoadFault.Memory) ⊎ (filter_of header.now (view table.now) texts.old ≡ Err f)) }
    ensures grows { Grows texts.old texts.new }
{
    match table.get("where") {
        Some(value) => filter_written(alloc, header, texts, value),
        None => Ok(Pred::always()),
    }
}
