//! Reads arrays of pairs of a name and a formula.
ghost use Rattle.std.specs.Prelude.{◌≡◌, ◌⊎◌, [], map, option_map, None, Some, Ok, Err, IfOk, IfErr, OnOk};
ghost use Rattle.std.specs.Option.{option_copied};
ghost use Rattle.toml.specs.View.{view};
ghost use Rattle.wh_text_catalogue.specs.Formula.{unknown_column};
ghost use Rattle.wh_text_catalogue.specs.Pairs.{are_exprs, are_references, known_pairs, pair_of, pairs_in, pairs_written, reference_in};
ghost use Rattle.wh_text_catalogue.specs.Inner.Pairs.{seen_pair, unknown_fault};

use super::column_names::{column_fault, fresh_name};
use super::formula::{is_whole_expr, unknown_column};
use super::header::Header;
use super::reference::is_reference;
use crate::catalogue::array_of;
use crate::name_form::is_name;
use indexmap::IndexSet;
use std::alloc::{AllocError, Global};
use toml::Value;
use wh_text::{Key, LoadFault};

/// A column's name, and the formula that gives its cells.
#[derive(Clone, Copy)]
pub(crate) struct Pair<'a> {
    /// The name, which has the form of a name.
    pub name: &'a str,
    /// The value that stands beside the name.
    pub value: &'a Value,
}

/// The name and the formula that these values are, if they are.
fn pair_of(values: &[Value]) -> Option<Pair<'_>>
    ensures { option_map seen_pair result ≡ pair_of (map view values.now) }
{
    match values {
        [name, value] => {
            let name = name.as_str()?;
            if is_name(name) {
                Some(Pair { name, value })
            } else {
                None
            }
        }
        _ => None,
    }
}

/// The pairs that these values are; none where one of them is none.
fn pairs_in(alloc: Global, values: &[Value]) -> Result<Option<Vec<Pair<'_>>>, AllocError>
    ensures { IfOk result (λ found. option_map (λ pairs. map seen_pair pairs.items) found ≡ pairs_in [] (map view values.now)) }
{
    let mut pairs = Vec::new(alloc);
    for value in values {
        let Some(parts) = array_of(value) else {
            return Ok(None);
        };
        let Some(pair) = pair_of(parts) else {
            return Ok(None);
        };
        pairs.push(pair)?;
    }
    Ok(Some(pairs))
}

/// Returns the pairs of an array, else the key's fault.
pub(crate) fn pairs_written(
    alloc: Global,
    key: Key,
    value: &Value,
) -> Result<Vec<Pair<'_>>, LoadFault>
    ensures ok { IfOk result (λ pairs. pairs_written key (view value.now) ≡ Ok (map seen_pair pairs.items)) }
    ensures err { IfErr result (λ f. (f ≡ LoadFault.Memory) ⊎ (pairs_written key (view value.now) ≡ Err f)) }
{
    let Some(values) = array_of(value) else {
        return Err(LoadFault::Key(key));
    };
    match pairs_in(alloc, values)? {
        Some(pairs) => Ok(pairs),
        None => Err(LoadFault::Key(key)),
    }
}

/// Tells whether the formula of each pair is an expression.
pub(crate) fn are_exprs(pairs: &[Pair<'_>]) -> bool
    ensures { result ≡ are_exprs (map seen_pair pairs.now) }
{
    for pair in pairs {
        if !is_whole_expr(pair.value) {
            return false;
        }
    }
    true
}

/// Returns the text of a reference, or `None` where the value has another form.
pub(crate) fn reference_in(value: &Value) -> Option<&str>
    ensures { option_copied result ≡ reference_in (view value.now) }
{
    let text = value.as_str()?;
    if is_reference(text) { Some(text) } else { None }
}

/// Tells whether the formula of each pair is a reference.
pub(crate) fn are_references(pairs: &[Pair<'_>]) -> bool
    ensures { result ≡ are_references (map seen_pair pairs.now) }
{
    for pair in pairs {
        if reference_in(pair.value).is_none() {
            return false;
        }
    }
    true
}

/// Whether each reference of a formula names a column, else the fault of the first that does not.
fn known_formula(alloc: Global, header: &Header, value: &Value) -> Result<(), LoadFault>
    ensures ok { OnOk result (unknown_column header.now.columns (view value.now) ≡ None) }
    ensures err { IfErr result (λ f. (f ≡ LoadFault.Memory) ⊎ (unknown_fault header.now.columns (view value.now) ≡ Some f)) }
{
    match unknown_column(header, value) {
        Some(text) => Err(column_fault(alloc, text)),
        None => Ok(()),
    }
}

/// Notes the names of the pairs, or the first fault, pair by pair: its name stood earlier, or a reference names no column.
pub(crate) fn known_pairs<'a>(
    alloc: Global,
    header: &Header,
    seen: &mut IndexSet<&'a str>,
    pairs: &[Pair<'a>],
) -> Result<(), LoadFault>
    ensures ok { OnOk result (known_pairs header.now.columns (map (λ n. n.now) seen.old.keys) (map seen_pair pairs.now) ≡ Ok (map (λ n. n.now) seen.new.keys)) }
    ensures err { IfErr result (λ f. (f ≡ LoadFault.Memory) ⊎ (known_pairs header.now.columns (map (λ n. n.now) seen.old.keys) (map seen_pair pairs.now) ≡ Err f)) }
{
    for pair in pairs {
        fresh_name(alloc, seen, pair.name)?;
        known_formula(alloc, header, pair.value)?;
    }
    Ok(())
}
