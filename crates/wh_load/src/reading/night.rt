//! Reads what `night` works on: views, their definitions and tables, and the changes and the strategy of a night.

ghost use Rattle.std.specs.Prelude.{◌≡◌, ◌⊎◌, length, map, Ok, Err, IfOk, IfErr};
ghost use Rattle.wh_text_catalogue.specs.Definitions.{shown_view};
ghost use Rattle.wh_text_catalogue.specs.ReadCatalog.{AreDefinitions};
ghost use Rattle.wh_load.specs.ReadingNight.{AreReadRows, ChangeRows, TableRows, night_in, night_read, night_over, night_with};
ghost use Rattle.wh_load.specs.ReadingShown.{IsReadNight, shown_given, shown_night};

use super::given::{given_of, tables_of};
use super::inputs::{GivenNight, NightInput, Opening};
use super::parts::{bundle_of, text_of};
use super::views::KnownViews;
use std::thread::Threads;
use wh_dag::Shape;
use wh_row::Bag;
use wh_text::{Dict, LoadFault, Names};
use wh_text_bundle::{Bundle, Heading, Nights};
use wh_text_catalogue::{Written, WrittenView, read_definitions, read_shape};
use wh_threads::ThreadBudget;

/// What is read beside a catalogue.
#[derive(Drop)]
struct Rows {
    tables: Vec<Bag>,
    given: GivenNight,
}

/// The tables of these views, and what is given of the night.
fn rows_in<R: Threads + Sync>(
    budget: &ThreadBudget<'_, R>,
    bundle: &Bundle<'_>,
    shape: &Shape,
    views: &[WrittenView],
    texts: &mut Dict,
    strategy: &[u8],
) -> Result<Rows, LoadFault>
    requires { length views.now ≡ length shape.now.children }
    ensures ok { IfOk result (λ r. night_over bundle.now shape.now (map shown_view views.now) texts.old strategy.now
        ≡ Ok (night_with shape.now (map shown_view views.now) texts.new r.tables.items (shown_given r.given))) }
    ensures tables { IfOk result (λ r. AreReadRows TableRows (map shown_view views.now) r.tables.items) }
    ensures changes { IfOk result (λ r. AreReadRows (ChangeRows 0) (map shown_view views.now) r.given.changes.items) }
    ensures err { IfErr result (λ f. (f ≡ LoadFault.Memory) ⊎ (night_over bundle.now shape.now (map shown_view views.now) texts.old strategy.now ≡ Err f)) }
{
    let names = Names::of(budget.alloc, shape)?;
    prove!(names.len() == shape.len());
    let known = KnownViews {
        names: &names,
        views,
    };
    let tables = tables_of(budget, bundle, &known, texts)?;
    let given = given_of(budget, bundle, 0, &known, texts, strategy)?;
    Ok(Rows { tables, given })
}

/// What a night over these views is given.
fn night_over<R: Threads + Sync>(
    budget: &ThreadBudget<'_, R>,
    bundle: &Bundle<'_>,
    shape: Shape,
    views: Vec<WrittenView>,
    texts: Dict,
    strategy: &[u8],
) -> Result<NightInput, LoadFault>
    requires definitions { AreDefinitions shape (map shown_view views.items) }
    requires each { length views.items ≡ length shape.children }
    ensures ok { IfOk result (λ n. night_over bundle.now shape (map shown_view views.items) texts strategy.now ≡ Ok (shown_night n)) }
    ensures fit { IfOk result IsReadNight }
    ensures err { IfErr result (λ f. (f ≡ LoadFault.Memory) ⊎ (night_over bundle.now shape (map shown_view views.items) texts strategy.now ≡ Err f)) }
{
    let mut texts = texts;
    let rows = rows_in(budget, bundle, &shape, &views, &mut texts, strategy)?;
    let Rows { tables, given } = rows;
    Ok(NightInput {
        shape,
        opening: Opening {
            views,
            texts,
            tables,
        },
        given,
    })
}

/// What the parts of a bundle say of its first night, or the first fault.
fn night_in<R: Threads + Sync>(
    budget: &ThreadBudget<'_, R>,
    bundle: &Bundle<'_>,
) -> Result<NightInput, LoadFault>
    ensures ok { IfOk result (λ n. night_in bundle.now ≡ Ok (shown_night n)) }
    ensures fit { IfOk result IsReadNight }
    ensures err { IfErr result (λ f. (f ≡ LoadFault.Memory) ⊎ (night_in bundle.now ≡ Err f)) }
{
    let alloc = budget.alloc;
    let catalogue = text_of(alloc, bundle, &Heading::Catalogue, 0)?;
    let strategy = text_of(alloc, bundle, &Heading::Strategy, 0)?;
    let shape = read_shape(alloc, &catalogue)?;
    let mut texts = Dict::new(alloc);
    let written = read_definitions(alloc, &catalogue, &shape, &mut texts)?;
    let Written { views } = written;
    let night = night_over(budget, bundle, shape, views, texts, &strategy)?;
    Ok(night)
}

/// Reads what a bundle of one night has to be carried out.
/// Fails with the first fault: of the headings, from the top, a further night among them; the catalogue or the strategy that are missing;
/// of the catalogue's text. Then come rows of no base view, and the faults of the tables, view by view, of the changes, and of the
/// strategy's text. Memory may come at any point.
///
/// What is read makes a catalogue over the shape, and there are a table and changes of each view, of its columns.
pub fn read_for_night<R: Threads + Sync>(
    budget: &ThreadBudget<'_, R>,
    bytes: &[u8],
) -> Result<NightInput, LoadFault>
    ensures ok { IfOk result (λ n. night_read bytes.now ≡ Ok (shown_night n)) }
    ensures fit { IfOk result IsReadNight }
    ensures err { IfErr result (λ f. (f ≡ LoadFault.Memory) ⊎ (night_read bytes.now ≡ Err f)) }
{
    let bundle = bundle_of(budget.alloc, bytes, Nights::First)?;
    night_in(budget, &bundle)
}
