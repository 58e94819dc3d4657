//! Reads the columns of a derived view, and what they are made of.
ghost use Rattle.std.specs.Prelude.{◌≡◌, ◌⊎◌, [], codes, map, Ok, Err, IfOk, IfErr};
ghost use Rattle.toml.specs.Data.{get};
ghost use Rattle.toml.specs.View.{view};
ghost use Rattle.wh_text.specs.Inner.Dict.{Grows};
ghost use Rattle.wh_text_catalogue.specs.Output.{count_column, count_written, group_written, groups, groups_of, joined_columns, joined_columns_alone, output_of, summary_columns, summary_columns_if_grouped, sum_pairs_at, sum_pairs_in, sum_columns};
ghost use Rattle.wh_text_catalogue.specs.Inner.Output.{shown_outcome};
ghost use Rattle.wh_text_catalogue.specs.Pairs.{typed_columns};
ghost use Rattle.wh_text_catalogue.specs.Inner.Pairs.{seen_pair};

use super::base_columns::is_few;
use super::column_names::fresh_name;
use super::header::Header;
use super::pairs::{Pair, are_exprs, are_references, known_pairs, pairs_written};
use super::typed_pairs::{KindRule, grouped, typed_pairs};
use crate::name_form::is_name;
use indexmap::IndexSet;
use std::alloc::Global;
use toml::Value;
use wh_dag::MAX_COLUMNS;
use wh_formula::Expr;
use wh_text::{Column, Dict, Key, Kind, LoadFault};

/// The source of a derived view's columns: kept values, or groups with a count and sums.
#[derive(Debug, Drop)]
pub enum WrittenOutput {
    /// The expressions of a joined view, which keeps the value of one in each column.
    Keep(Vec<Expr>),
    /// The cells by which a summary groups, behind which stand the group's count and these sums.
    Sums {
        /// The places, in the combined row, of the cells by which the summary groups.
        group: Vec<usize>,
        /// The expressions that are added up.
        sums: Vec<Expr>,
    },
}

/// The columns of a derived view, and what they are made of.
#[derive(Drop)]
pub(crate) struct Outcome {
    /// The columns, in their order.
    pub columns: Vec<Column>,
    /// The source of the columns.
    pub output: WrittenOutput,
}

/// The columns that `keep` says, or the first fault.
fn joined_columns(
    alloc: Global,
    header: &Header,
    texts: &mut Dict,
    value: &Value,
) -> Result<Outcome, LoadFault>
    ensures ok { IfOk result (λ outcome. joined_columns header.now (view value.now) texts.old ≡ Ok (shown_outcome outcome, texts.new)) }
    ensures err { IfErr result (λ f. (f ≡ LoadFault.Memory) ⊎ (joined_columns header.now (view value.now) texts.old ≡ Err f)) }
    ensures grows { Grows texts.old texts.new }
{
    let pairs = pairs_written(alloc, Key::Keep, value)?;
    if !is_few(pairs.len()) || !are_exprs(&pairs) {
        return Err(LoadFault::Key(Key::Keep));
    }
    let mut seen = IndexSet::new(alloc);
    known_pairs(alloc, header, &mut seen, &pairs)?;
    let mut columns = Vec::new(alloc);
    let exprs = typed_pairs(
        alloc,
        header,
        texts,
        KindRule::AnyKind,
        &mut columns,
        &pairs,
    )?;
    Ok(Outcome {
        columns,
        output: WrittenOutput::Keep(exprs),
    })
}

/// The pairs of `group`, else Key(Group).
fn group_written(alloc: Global, value: &Value) -> Result<Vec<Pair<'_>>, LoadFault>
    ensures ok { IfOk result (λ pairs. group_written (view value.now) ≡ Ok (map seen_pair pairs.items)) }
    ensures err { IfErr result (λ f. (f ≡ LoadFault.Memory) ⊎ (group_written (view value.now) ≡ Err f)) }
{
    let pairs = pairs_written(alloc, Key::Group, value)?;
    if !are_references(&pairs) {
        return Err(LoadFault::Key(Key::Group));
    }
    Ok(pairs)
}

/// The name that `count` says, else Key(Count).
fn count_written(table: &Value) -> Result<&str, LoadFault>
    ensures ok { IfOk result (λ name. count_written (view table.now) ≡ Ok name.now) }
    ensures err { IfErr result (λ f. count_written (view table.now) ≡ Err f) }
{
    let Some(value) = table.get("count") else {
        return Err(LoadFault::Key(Key::Count));
    };
    let Some(name) = value.as_str() else {
        return Err(LoadFault::Key(Key::Count));
    };
    if !is_name(name) {
        return Err(LoadFault::Key(Key::Count));
    }
    Ok(name)
}

/// The pairs of `sum`, else Key(Sum).
fn sum_pairs_in(alloc: Global, value: &Value) -> Result<Vec<Pair<'_>>, LoadFault>
    ensures ok { IfOk result (λ pairs. sum_pairs_in (view value.now) ≡ Ok (map seen_pair pairs.items)) }
    ensures err { IfErr result (λ f. (f ≡ LoadFault.Memory) ⊎ (sum_pairs_in (view value.now) ≡ Err f)) }
{
    let pairs = pairs_written(alloc, Key::Sum, value)?;
    if !are_exprs(&pairs) {
        return Err(LoadFault::Key(Key::Sum));
    }
    Ok(pairs)
}

/// The pairs of `sum`, none where the key is missing.
fn sum_pairs_at(alloc: Global, table: &Value) -> Result<Vec<Pair<'_>>, LoadFault>
    ensures ok { IfOk result (λ pairs. sum_pairs_at (get (codes "sum") (view table.now)) ≡ Ok (map seen_pair pairs.items)) }
    ensures err { IfErr result (λ f. (f ≡ LoadFault.Memory) ⊎ (sum_pairs_at (get (codes "sum") (view table.now)) ≡ Err f)) }
{
    match table.get("sum") {
        Some(value) => sum_pairs_in(alloc, value),
        None => Ok(Vec::new(alloc)),
    }
}

/// The places of a summary's groups, whose columns and names are noted.
fn groups_of<'a>(
    alloc: Global,
    header: &Header,
    seen: &mut IndexSet<&'a str>,
    columns: &mut Vec<Column>,
    value: &'a Value,
) -> Result<Vec<usize>, LoadFault>
    requires seen { seen.old.keys ≡ [] }
    requires columns { columns.old.items ≡ [] }
    ensures ok { IfOk result (λ places. groups_of header.now (view value.now)
        ≡ Ok (groups (map (λ n. n.now) seen.new.keys) columns.new.items places.items)) }
    ensures err { IfErr result (λ f. (f ≡ LoadFault.Memory) ⊎ (groups_of header.now (view value.now) ≡ Err f)) }
{
    let pairs = group_written(alloc, value)?;
    known_pairs(alloc, header, seen, &pairs)?;
    grouped(alloc, header, columns, &pairs)
}

/// The expressions of a summary's sums, whose columns and names are noted.
fn sum_columns<'a>(
    alloc: Global,
    header: &Header,
    texts: &mut Dict,
    seen: &mut IndexSet<&'a str>,
    columns: &mut Vec<Column>,
    table: &'a Value,
) -> Result<Vec<Expr>, LoadFault>
    ensures ok { IfOk result (λ exprs. sum_columns header.now (map (λ n. n.now) seen.old.keys) columns.old.items (view table.now) texts.old
        ≡ Ok (typed_columns columns.new.items exprs.items, texts.new)) }
    ensures err { IfErr result (λ f. (f ≡ LoadFault.Memory)
        ⊎ (sum_columns header.now (map (λ n. n.now) seen.old.keys) columns.old.items (view table.now) texts.old ≡ Err f)) }
    ensures grows { Grows texts.old texts.new }
{
    let pairs = sum_pairs_at(alloc, table)?;
    known_pairs(alloc, header, seen, &pairs)?;
    typed_pairs(alloc, header, texts, KindRule::Numbers, columns, &pairs)
}

/// The column that counts the rows of a group.
fn count_column(alloc: Global, name: &str) -> Result<Column, LoadFault>
    ensures ok { IfOk result (λ column. column ≡ count_column name.now) }
    ensures err { IfErr result (λ f. f ≡ LoadFault.Memory) }
{
    let name = String::from_str(alloc, name)?;
    Ok(Column::new(name, Kind::Int))
}

/// The columns of a summary with this `group`, or the first fault.
fn summary_columns(
    alloc: Global,
    header: &Header,
    texts: &mut Dict,
    table: &Value,
    value: &Value,
) -> Result<Outcome, LoadFault>
    ensures ok { IfOk result (λ outcome. summary_columns header.now (view table.now) (view value.now) texts.old ≡ Ok (shown_outcome outcome, texts.new)) }
    ensures err { IfErr result (λ f. (f ≡ LoadFault.Memory) ⊎ (summary_columns header.now (view table.now) (view value.now) texts.old ≡ Err f)) }
    ensures grows { Grows texts.old texts.new }
{
    let mut seen = IndexSet::new(alloc);
    let mut columns = Vec::new(alloc);
    let group = groups_of(alloc, header, &mut seen, &mut columns, value)?;
    let count = count_written(table)?;
    fresh_name(alloc, &mut seen, count)?;
    let column = count_column(alloc, count)?;
    columns.push(column)?;
    let sums = sum_columns(alloc, header, texts, &mut seen, &mut columns, table)?;
    if columns.len() > MAX_COLUMNS {
        return Err(LoadFault::Key(Key::Group));
    }
    Ok(Outcome {
        columns,
        output: WrittenOutput::Sums { group, sums },
    })
}

/// The columns that `keep` says, where there is no `group` beside it, else Key(Group).
fn joined_columns_alone(
    alloc: Global,
    header: &Header,
    texts: &mut Dict,
    table: &Value,
    value: &Value,
) -> Result<Outcome, LoadFault>
    ensures ok { IfOk result (λ outcome. joined_columns_alone header.now (view value.now) (get (codes "group") (view table.now)) texts.old ≡ Ok (shown_outcome outcome, texts.new)) }
    ensures err { IfErr result (λ f. (f ≡ LoadFault.Memory) ⊎ (joined_columns_alone header.now (view value.now) (get (codes "group") (view table.now)) texts.old ≡ Err f)) }
    ensures grows { Grows texts.old texts.new }
{
    let outcome = joined_columns(alloc, header, texts, value)?;
    match table.get("group") {
        Some(_) => Err(LoadFault::Key(Key::Group)),
        None => Ok(outcome),
    }
}

/// The columns of a summary, where there is a `group`, else Key(Keep).
fn summary_columns_if_grouped(
    alloc: Global,
    header: &Header,
    texts: &mut Dict,
    table: &Value,
) -> Result<Outcome, LoadFault>
    ensures ok { IfOk result (λ outcome. summary_columns_if_grouped header.now (view table.now) (get (codes "group") (view table.now)) texts.old ≡ Ok (shown_outcome outcome, texts.new)) }
    ensures err { IfErr result (λ f. (f ≡ LoadFault.Memory) ⊎ (summary_columns_if_grouped header.now (view table.now) (get (codes "group") (view table.now)) texts.old ≡ Err f)) }
    ensures grows { Grows texts.old texts.new }
{
    match table.get("group") {
        Some(value) => summary_columns(alloc, header, texts, table, value),
        None => Err(LoadFault::Key(Key::Keep)),
    }
}

/// Returns the columns of a derived view, or its first fault, key by key: its form (Key), then Column, then Kind. The keys are `keep`;
/// where it is missing `group`, `count` and `sum`. One of `keep` and `group` is missing.
pub(crate) fn output_of(
    alloc: Global,
    header: &Header,
    texts: &mut Dict,
    table: &Value,
) -> Result<Outcome, LoadFault>
    ensures ok { IfOk result (λ outcome. output_of header.now (view table.now) texts.old ≡ Ok (shown_outcome outcome, texts.new)) }
    ensures err { IfErr result (λ f. (f ≡ LoadFault.Memory) ⊎ (output_of header.now (view table.now) texts.old ≡ Err f)) }
    ensures grows { Grows texts.old texts.new }
{
    match table.get("keep") {
        Some(value) => joined_columns_alone(alloc, header, texts, table, value),
        None => summary_columns_if_grouped(alloc, header, texts, table),
    }
}
