//! Makes the columns that pairs of a name and a formula write.
ghost use Rattle.std.specs.Prelude.{◌≡◌, ◌⊎◌, [], map, Ok, Err, IfOk, IfErr};
ghost use Rattle.toml.specs.View.{view};
ghost use Rattle.wh_text.specs.Inner.Dict.{Grows};
ghost use Rattle.wh_text_catalogue.specs.Pairs.{group_cell, group_columns, grouped, takes_kind, typed_cell, typed_columns, typed_pairs};
ghost use Rattle.wh_text_catalogue.specs.Inner.Pairs.{seen_pair};

use super::formula::whole_expr;
use super::formula_kinds::{TypedExpr, is_int};
use super::header::{Cell, Header};
use super::pairs::{Pair, reference_in};
use std::alloc::Global;
use toml::Value;
use wh_formula::Expr;
use wh_text::{Column, Dict, Kind, LoadFault};

/// The kinds that a key takes.
#[derive(Clone, Copy)]
pub(crate) enum KindRule {
    /// Whole numbers and texts.
    AnyKind,
    /// Whole numbers alone.
    Numbers,
}

/// Whether the key takes the kind.
fn takes_kind(rule: KindRule, kind: Kind) -> bool
    ensures { result ≡ takes_kind rule kind }
{
    match rule {
        KindRule::AnyKind => true,
        KindRule::Numbers => is_int(kind),
    }
}

/// An expression of a kind that the key takes, else Kind.
fn typed_cell(
    alloc: Global,
    header: &Header,
    texts: &mut Dict,
    rule: KindRule,
    value: &Value,
) -> Result<TypedExpr, LoadFault>
    ensures ok { IfOk result (λ typed. typed_cell header.now rule (view value.now) texts.old ≡ Ok (typed, texts.new)) }
    ensures err { IfErr result (λ f. (f ≡ LoadFault.Memory) ⊎ (typed_cell header.now rule (view value.now) texts.old ≡ Err f)) }
    ensures grows { Grows texts.old texts.new }
{
    let typed = whole_expr(alloc, header, texts, value)?;
    if !takes_kind(rule, typed.kind) {
        return Err(header.unfit(alloc));
    }
    Ok(typed)
}

/// Returns the expressions of the pairs, whose columns are added to the others; texts get numbers from left to right.
pub(crate) fn typed_pairs(
    alloc: Global,
    header: &Header,
    texts: &mut Dict,
    rule: KindRule,
    columns: &mut Vec<Column>,
    pairs: &[Pair<'_>],
) -> Result<Vec<Expr>, LoadFault>
    ensures ok { IfOk result (λ exprs. typed_pairs header.now rule (typed_columns columns.old.items []) (map seen_pair pairs.now) texts.old
        ≡ Ok (typed_columns columns.new.items exprs.items, texts.new)) }
    ensures err { IfErr result (λ f. (f ≡ LoadFault.Memory)
        ⊎ (typed_pairs header.now rule (typed_columns columns.old.items []) (map seen_pair pairs.now) texts.old ≡ Err f)) }
    ensures grows { Grows texts.old texts.new }
{
    let mut exprs = Vec::new(alloc);
    for pair in pairs {
        let typed = typed_cell(alloc, header, texts, rule, pair.value)?;
        let name = String::from_str(alloc, pair.name)?;
        columns.push(Column::new(name, typed.kind))?;
        exprs.push(typed.expr)?;
    }
    Ok(exprs)
}

/// The cell that a reference names, else Kind.
fn group_cell(alloc: Global, header: &Header, value: &Value) -> Result<Cell, LoadFault>
    ensures ok { IfOk result (λ cell. group_cell header.now (view value.now) ≡ Ok cell) }
    ensures err { IfErr result (λ f. (f ≡ LoadFault.Memory) ⊎ (group_cell header.now (view value.now) ≡ Err f)) }
{
    let Some(text) = reference_in(value) else {
        return Err(header.unfit(alloc));
    };
    match header.cell(text) {
        Some(cell) => Ok(cell),
        None => Err(header.unfit(alloc)),
    }
}

/// Returns the places of the cells that the pairs name, whose columns are added to the others.
pub(crate) fn grouped(
    alloc: Global,
    header: &Header,
    columns: &mut Vec<Column>,
    pairs: &[Pair<'_>],
) -> Result<Vec<usize>, LoadFault>
    ensures ok { IfOk result (λ places. grouped header.now (group_columns columns.old.items []) (map seen_pair pairs.now)
        ≡ Ok (group_columns columns.new.items places.items)) }
    ensures err { IfErr result (λ f. (f ≡ LoadFault.Memory)
        ⊎ (grouped header.now (group_columns columns.old.items []) (map seen_pair pairs.now) ≡ Err f)) }
{
    let mut places = Vec::new(alloc);
    for pair in pairs {
        let cell = group_cell(alloc, header, pair.value)?;
        let name = String::from_str(alloc, pair.name)?;
        columns.push(Column::new(name, cell.kind))?;
        places.push(cell.place)?;
    }
    Ok(places)
}
