//! Reads one view of a catalogue.
ghost use Rattle.std.specs.Prelude.{◌≡◌, ◌⊎◌, ◌<◌, length, map, Ok, Err, IfOk, IfErr};
ghost use Rattle.toml.specs.View.{view};
ghost use Rattle.wh_text.specs.Inner.Dict.{Grows};
ghost use Rattle.wh_text_catalogue.specs.FormulaKinds.{Texts};
ghost use Rattle.wh_text_catalogue.specs.Definitions.{base_view, derived_view, next_view, shown_view};

use super::base_columns::base_columns;
use super::filter::filter_of;
use super::header::Header;
use super::header_of::header_of;
use super::join::join_of;
use super::output::output_of;
use super::views::{WrittenDefinition, WrittenView};
use std::alloc::Global;
use toml::Value;
use wh_dag::Shape;
use wh_text::{Dict, LoadFault};

/// A derived view over this combined row, or its first fault.
fn derived_view(
    alloc: Global,
    header: &Header,
    texts: &mut Dict,
    table: &Value,
) -> Result<WrittenView, LoadFault>
    ensures ok { IfOk result (λ own. derived_view header.now (view table.now) texts.old ≡ Ok (shown_view own, texts.new)) }
    ensures err { IfErr result (λ f. (f ≡ LoadFault.Memory) ⊎ (derived_view header.now (view table.now) texts.old ≡ Err f)) }
    ensures grows { Grows texts.old texts.new }
{
    let join = join_of(alloc, header, table)?;
    let filter = filter_of(alloc, header, texts, table)?;
    let outcome = output_of(alloc, header, texts, table)?;
    let width = header.width();
    Ok(WrittenView {
        columns: outcome.columns,
        definition: Some(WrittenDefinition {
            width,
            join,
            filter,
            output: outcome.output,
        }),
    })
}

/// A base view, or its first fault.
fn base_view(alloc: Global, table: &Value) -> Result<WrittenView, LoadFault>
    ensures ok { IfOk result (λ own. (texts : Texts) → base_view (view table.now) texts ≡ Ok (shown_view own, texts)) }
    ensures err { IfErr result (λ f. (f ≡ LoadFault.Memory) ⊎ ((texts : Texts) → base_view (view table.now) texts ≡ Err f)) }
{
    let columns = base_columns(alloc, table)?;
    Ok(WrittenView {
        columns,
        definition: None,
    })
}

/// Returns the view after these, or its first fault.
pub(crate) fn next_view(
    alloc: Global,
    shape: &Shape,
    views: &[WrittenView],
    texts: &mut Dict,
    table: &Value,
) -> Result<WrittenView, LoadFault>
    requires { length views.now < length shape.now.children }
    ensures ok { IfOk result (λ own. next_view shape.now (map shown_view views.now) (view table.now) texts.old ≡ Ok (shown_view own, texts.new)) }
    ensures err { IfErr result (λ f. (f ≡ LoadFault.Memory) ⊎ (next_view shape.now (map shown_view views.now) (view table.now) texts.old ≡ Err f)) }
    ensures grows { Grows texts.old texts.new }
{
    if table.get("over").is_none() {
        return base_view(alloc, table);
    }
    let header = header_of(alloc, shape, views, views.len())?;
    derived_view(alloc, &header, texts, table)
}
