//! Reads the opening of a warehouse that stays.

ghost use Rattle.std.specs.Prelude.{◌≡◌, ◌⊎◌, length, map, option_map, Ok, Err, IfOk, IfErr};
ghost use Rattle.wh_load.specs.ReadingNight.{AreReadRows, TableRows};
ghost use Rattle.wh_text_catalogue.specs.Definitions.{shown_view};
ghost use Rattle.wh_text_catalogue.specs.ReadCatalog.{AreDefinitions};
ghost use Rattle.wh_opening.specs.OpeningRead.{IsReadOpening, opening_in, opening_of, opening_over, opening_with, shown_opening_input};

use crate::input::OpeningInput;
use crate::opened::OpenedViews;
use crate::parts::{catalogue_text, parts_of};
use crate::strategy::strategy_in;
use crate::tables::tables_in;
use std::thread::Threads;
use wh_dag::Shape;
use wh_load::{
    Bundle, Dict, LoadFault, Names, Opening, Written, WrittenView, read_definitions, read_shape,
};
use wh_row::Bag;
use wh_threads::ThreadBudget;

/// What is read beside a catalogue.
#[derive(Drop)]
struct Beside {
    tables: Vec<Bag>,
    strategy: Option<Vec<u8>>,
}

/// The tables of these views, and the strategy of nights that write none.
fn beside_catalogue<R: Threads + Sync>(
    budget: &ThreadBudget<'_, R>,
    bundle: &Bundle<'_>,
    shape: &Shape,
    views: &[WrittenView],
    texts: &mut Dict,
) -> Result<Beside, LoadFault>
    requires { length views.now ≡ length shape.now.children }
    ensures ok { IfOk result (λ b. opening_over bundle.now shape.now (map shown_view views.now) texts.old
        ≡ Ok (opening_with shape.now (map shown_view views.now) texts.new b.tables.items (option_map (λ own. own.items) b.strategy))) }
    ensures tables { IfOk result (λ b. AreReadRows TableRows (map shown_view views.now) b.tables.items) }
    ensures err { IfErr result (λ f. (f ≡ LoadFault.Memory) ⊎ (opening_over bundle.now shape.now (map shown_view views.now) texts.old ≡ Err f)) }
{
    let names = Names::of(budget.alloc, shape)?;
    prove!(names.len() == shape.len());
    let opened = OpenedViews {
        names: &names,
        views,
    };
    let tables = tables_in(budget, bundle, &opened, texts)?;
    let strategy = strategy_in(budget.alloc, bundle, &names)?;
    Ok(Beside { tables, strategy })
}

/// What the parts give over these views.
fn opening_over<R: Threads + Sync>(
    budget: &ThreadBudget<'_, R>,
    bundle: &Bundle<'_>,
    shape: Shape,
    views: Vec<WrittenView>,
    texts: Dict,
) -> Result<OpeningInput, LoadFault>
    requires definitions { AreDefinitions shape (map shown_view views.items) }
    requires each { length views.items ≡ length shape.children }
    ensures ok { IfOk result (λ o. opening_over bundle.now shape (map shown_view views.items) texts ≡ Ok (shown_opening_input o)) }
    ensures fit { IfOk result IsReadOpening }
    ensures err { IfErr result (λ f. (f ≡ LoadFault.Memory) ⊎ (opening_over bundle.now shape (map shown_view views.items) texts ≡ Err f)) }
{
    let mut texts = texts;
    let beside = beside_catalogue(budget, bundle, &shape, &views, &mut texts)?;
    let Beside { tables, strategy } = beside;
    Ok(OpeningInput {
        shape,
        opening: Opening {
            views,
            texts,
            tables,
        },
        strategy,
    })
}

/// What the parts of an opening give, or their first fault.
fn opening_in<R: Threads + Sync>(
    budget: &ThreadBudget<'_, R>,
    bundle: &Bundle<'_>,
) -> Result<OpeningInput, LoadFault>
    ensures ok { IfOk result (λ o. opening_in bundle.now ≡ Ok (shown_opening_input o)) }
    ensures fit { IfOk result IsReadOpening }
    ensures err { IfErr result (λ f. (f ≡ LoadFault.Memory) ⊎ (opening_in bundle.now ≡ Err f)) }
{
    let alloc = budget.alloc;
    let catalogue = catalogue_text(alloc, bundle)?;
    let shape = read_shape(alloc, &catalogue)?;
    let mut texts = Dict::new(alloc);
    let written = read_definitions(alloc, &catalogue, &shape, &mut texts)?;
    let Written { views } = written;
    let opening = opening_over(budget, bundle, shape, views, texts)?;
    Ok(opening)
}

/// Reads the opening of a warehouse that stays: a bundle with `@catalogue`, the tables `@data NAME` of base views, and `@strategy` where
/// nights may write none of their own. Texts of the catalogue's formulas get their numbers first, then those of the tables, view by view.
///
/// Fails with the first fault: of the headings, from the top, a further night among them; the catalogue that is missing; of the catalogue's
/// text. Then come the first part that no opening has, as changes or the table of a view that is no base view, and the faults of the tables,
/// view by view, and of the strategy's text. Memory may come at any point.
///
/// What is read makes a catalogue over the shape, and there is a table of each view, of its columns.
pub fn read_opening<R: Threads + Sync>(
    budget: &ThreadBudget<'_, R>,
    bytes: &[u8],
) -> Result<OpeningInput, LoadFault>
    ensures ok { IfOk result (λ o. opening_of bytes.now ≡ Ok (shown_opening_input o)) }
    ensures fit { IfOk result IsReadOpening }
    ensures err { IfErr result (λ f. (f ≡ LoadFault.Memory) ⊎ (opening_of bytes.now ≡ Err f)) }
{
    let bundle = parts_of(budget.alloc, bytes)?;
    opening_in(budget, &bundle)
}
