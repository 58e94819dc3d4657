//! Reads the columns of a catalogue's views, and what its derived views are made of.
ghost use Rattle.std.specs.Prelude.{◌≡◌, ◌⊎◌, [], length, map, Ok, Err, IfOk, IfErr, OnErr};
ghost use Rattle.toml.specs.View.{view};
ghost use Rattle.wh_text.specs.Inner.Dict.{BeginsWith, Grows};
ghost use Rattle.wh_text_catalogue.specs.Catalogue.{shape_of};
ghost use Rattle.wh_text_catalogue.specs.Definitions.{definitions_of, shown_view, views_after};
ghost use Rattle.wh_text_catalogue.specs.ReadCatalog.{AreDefinitions, DefinitionsFit};

mod base_columns;
mod column_names;
mod expr_form;
mod filter;
mod formula;
mod formula_columns;
mod formula_kinds;
mod header;
mod header_of;
mod join;
pub mod output;
mod pairs;
mod pred_form;
mod reference;
mod typed_pairs;
mod view;
pub mod views;
pub mod written_law;

use crate::catalogue::{document, views_of};
use std::alloc::Global;
use toml::Value;
use views::{Written, WrittenView};
use wh_dag::Shape;
use wh_text::{Dict, Key, LoadFault};

/// The views that these tables are, in order, or the first fault; texts get numbers view by view.
fn views_after(
    alloc: Global,
    shape: &Shape,
    texts: &mut Dict,
    tables: &[Value],
) -> Result<Vec<WrittenView>, LoadFault>
    requires { length tables.now ≡ length shape.now.children }
    ensures ok { IfOk result (λ views. views_after shape.now [] (map view tables.now) texts.old ≡ Ok (map shown_view views.items, texts.new)) }
    ensures err { IfErr result (λ f. (f ≡ LoadFault.Memory) ⊎ (views_after shape.now [] (map view tables.now) texts.old ≡ Err f)) }
    ensures grows { Grows texts.old texts.new }
{
    let mut views = Vec::new(alloc);
    for table in tables {
        let own = view::next_view(alloc, shape, &views, texts, table)?;
        views.push(own)?;
    }
    Ok(views)
}

/// What the text gives; where it has a fault, some of its texts may have got numbers.
fn read_views(
    alloc: Global,
    text: &[u8],
    shape: &Shape,
    texts: &mut Dict,
) -> Result<Written, LoadFault>
    requires { shape_of text.now ≡ Ok shape.now }
    ensures ok { IfOk result (λ written. definitions_of shape.now text.now texts.old ≡ Ok (map shown_view written.views.items, texts.new)) }
    ensures fit { IfOk result (λ written. AreDefinitions shape.now (map shown_view written.views.items)) }
    ensures err { IfErr result (λ f. (f ≡ LoadFault.Memory) ⊎ (definitions_of shape.now text.now texts.old ≡ Err f)) }
    ensures begins { BeginsWith texts.old texts.new }
{
    let document = document(alloc, text)?;
    let Some(tables) = views_of(&document) else {
        return Err(LoadFault::Key(Key::View));
    };
    let views = views_after(alloc, shape, texts, tables)?;
    Ok(Written { views })
}

/// Reads the views of a catalogue whose shape was read: their columns, and how each derived view is defined, with formulas in place of
/// closures.
/// Texts in formulas get numbers in the order of the views and, within a view, of `where`, then `keep`, from left to right.
/// Fails with the first fault, view by view and key by key in the order `columns`, or `join`, `where`, `keep`, `group`, `count`, `sum`. Of
/// a key the form of the whole comes first (Key), then Column, then Kind. Memory may come at any point. After an error the dictionary is as
/// before.
///
/// What is read makes a catalogue over the shape. Each view has 1 to 64 columns of distinct names. Each derived view is defined over its
/// combined rows, in which each place that the definition reads lies.
pub fn read_definitions(
    alloc: Global,
    text: &[u8],
    shape: &Shape,
    texts: &mut Dict,
) -> Result<Written, LoadFault>
    requires { shape_of text.now ≡ Ok shape.now }
    ensures ok { IfOk result (λ written. definitions_of shape.now text.now texts.old ≡ Ok (map shown_view written.views.items, texts.new)) }
    ensures fit { IfOk result (λ written. AreDefinitions shape.now (map shown_view written.views.items)) }
    ensures err { IfErr result (λ f. (f ≡ LoadFault.Memory) ⊎ (definitions_of shape.now text.now texts.old ≡ Err f)) }
    ensures kept { OnErr result (texts.new ≡ texts.old) }
{
    let before = texts.len();
    let outcome = read_views(alloc, text, shape, texts);
    if outcome.is_err() {
        texts.truncate(before);
    }
    outcome
}

/// A law of the definitions: what is read of a catalogue's text is a catalogue over its shape, where each place that a definition reads
/// lies in its combined row.
pub fn definitions_fit_law()
    ensures { DefinitionsFit }
{}
