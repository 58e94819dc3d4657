//! Reads what `replay` works on: views, their definitions and tables, the changes and the strategy of each night, and a schedule.

ghost use Rattle.std.specs.Cow.{cow_slice_items};
ghost use Rattle.std.specs.Prelude.{◌≡◌, ◌⊎◌, [], length, map, Ok, Err, IfOk, IfErr};
ghost use Rattle.wh_text_catalogue.specs.Definitions.{shown_view};
ghost use Rattle.wh_text_catalogue.specs.ReadCatalog.{AreDefinitions};
ghost use Rattle.wh_load.specs.ReadingNight.{AreReadRows, TableRows};
ghost use Rattle.wh_load.specs.ReadingReplay.{AreReadNights, nights_after, replay_in, replay_of, replay_over, replay_with, strategies_in};
ghost use Rattle.wh_load.specs.ReadingShown.{IsReadReplay, shown_given, shown_replay};

use super::given::{given_of, tables_of};
use super::inputs::{GivenNight, Opening, ReplayInput};
use super::parts::{bundle_of, text_of};
use super::texts::ReplayTexts;
use super::views::KnownViews;
use std::alloc::Global;
use std::borrow::CowSlice;
use std::thread::Threads;
use wh_dag::Shape;
use wh_row::Bag;
use wh_text::{Dict, LoadFault, Names};
use wh_text_bundle::{Bundle, Heading, Nights};
use wh_text_catalogue::{Written, WrittenView, read_definitions, read_shape};
use wh_text_lines::{Schedule, read_schedule};
use wh_threads::ThreadBudget;

/// The texts of the strategies of all nights, in order.
fn strategies_in<'a>(alloc: Global, bundle: &Bundle<'a>) -> Result<Vec<CowSlice<'a, u8>>, LoadFault>
    ensures ok { IfOk result (λ texts. strategies_in bundle.now ≡ Ok (map cow_slice_items texts.items)) }
    ensures err { IfErr result (λ f. (f ≡ LoadFault.Memory) ⊎ (strategies_in bundle.now ≡ Err f)) }
{
    let mut texts = Vec::new(alloc);
    for night in 0..bundle.nights() {
        let text = text_of(alloc, bundle, &Heading::Strategy, night)?;
        texts.push(text)?;
    }
    Ok(texts)
}

/// What is given of the nights with these strategies, in order.
fn nights_in<R: Threads + Sync>(
    budget: &ThreadBudget<'_, R>,
    bundle: &Bundle<'_>,
    known: &KnownViews<'_>,
    texts: &mut Dict,
    strategies: &[CowSlice<'_, u8>],
) -> Result<Vec<GivenNight>, LoadFault>
    ensures ok { IfOk result (λ nights. nights_after bundle.now known.now.names.now (map shown_view known.now.views.now) [] (map cow_slice_items strategies.now) texts.old
        ≡ Ok (map shown_given nights.items, texts.new)) }
    ensures fit { IfOk result (λ nights. AreReadNights (map shown_view known.now.views.now) (map shown_given nights.items)) }
    ensures err { IfErr result (λ f. (f ≡ LoadFault.Memory)
        ⊎ (nights_after bundle.now known.now.names.now (map shown_view known.now.views.now) [] (map cow_slice_items strategies.now) texts.old ≡ Err f)) }
{
    let mut nights = Vec::new(budget.alloc);
    for strategy in strategies {
        let own = given_of(budget, bundle, nights.len(), known, texts, strategy)?;
        nights.push(own)?;
    }
    Ok(nights)
}

/// What is read beside a catalogue.
#[derive(Drop)]
struct Rows {
    tables: Vec<Bag>,
    nights: Vec<GivenNight>,
    schedule: Schedule,
}

/// The tables of these views, what is given of the nights, and the schedule.
fn rows_in<R: Threads + Sync>(
    budget: &ThreadBudget<'_, R>,
    bundle: &Bundle<'_>,
    shape: &Shape,
    views: &[WrittenView],
    texts: &mut Dict,
    replayed: &ReplayTexts<'_>,
) -> Result<Rows, LoadFault>
    requires { length views.now ≡ length shape.now.children }
    ensures ok { IfOk result (λ r. replay_over bundle.now shape.now (map shown_view views.now) texts.old (map cow_slice_items replayed.now.strategies.items) (cow_slice_items replayed.now.schedule)
        ≡ Ok (replay_with shape.now (map shown_view views.now) texts.new r.tables.items (map shown_given r.nights.items) r.schedule)) }
    ensures tables { IfOk result (λ r. AreReadRows TableRows (map shown_view views.now) r.tables.items) }
    ensures nights { IfOk result (λ r. AreReadNights (map shown_view views.now) (map shown_given r.nights.items)) }
    ensures err { IfErr result (λ f. (f ≡ LoadFault.Memory)
        ⊎ (replay_over bundle.now shape.now (map shown_view views.now) texts.old (map cow_slice_items replayed.now.strategies.items) (cow_slice_items replayed.now.schedule) ≡ Err f)) }
{
    let names = Names::of(budget.alloc, shape)?;
    prove!(names.len() == shape.len());
    let known = KnownViews {
        names: &names,
        views,
    };
    let tables = tables_of(budget, bundle, &known, texts)?;
    let nights = nights_in(budget, bundle, &known, texts, &replayed.strategies)?;
    let schedule = read_schedule(budget.alloc, &names, &replayed.schedule)?;
    Ok(Rows {
        tables,
        nights,
        schedule,
    })
}

/// What is replayed over these views.
fn replay_over<R: Threads + Sync>(
    budget: &ThreadBudget<'_, R>,
    bundle: &Bundle<'_>,
    shape: Shape,
    views: Vec<WrittenView>,
    texts: Dict,
    replayed: &ReplayTexts<'_>,
) -> Result<ReplayInput, LoadFault>
    requires definitions { AreDefinitions shape (map shown_view views.items) }
    requires each { length views.items ≡ length shape.children }
    ensures ok { IfOk result (λ r. replay_over bundle.now shape (map shown_view views.items) texts (map cow_slice_items replayed.now.strategies.items) (cow_slice_items replayed.now.schedule) ≡ Ok (shown_replay r)) }
    ensures fit { IfOk result IsReadReplay }
    ensures err { IfErr result (λ f. (f ≡ LoadFault.Memory)
        ⊎ (replay_over bundle.now shape (map shown_view views.items) texts (map cow_slice_items replayed.now.strategies.items) (cow_slice_items replayed.now.schedule) ≡ Err f)) }
{
    let mut texts = texts;
    let rows = rows_in(budget, bundle, &shape, &views, &mut texts, replayed)?;
    let Rows {
        tables,
        nights,
        schedule,
    } = rows;
    Ok(ReplayInput {
        shape,
        opening: Opening {
            views,
            texts,
            tables,
        },
        nights,
        schedule,
    })
}

/// What the parts of a bundle say of its nights, or the first fault.
fn replay_in<R: Threads + Sync>(
    budget: &ThreadBudget<'_, R>,
    bundle: &Bundle<'_>,
) -> Result<ReplayInput, LoadFault>
    ensures ok { IfOk result (λ r. replay_in bundle.now ≡ Ok (shown_replay r)) }
    ensures fit { IfOk result IsReadReplay }
    ensures err { IfErr result (λ f. (f ≡ LoadFault.Memory) ⊎ (replay_in bundle.now ≡ Err f)) }
{
    let alloc = budget.alloc;
    let catalogue = text_of(alloc, bundle, &Heading::Catalogue, 0)?;
    let strategies = strategies_in(alloc, bundle)?;
    let schedule = text_of(alloc, bundle, &Heading::Schedule, 0)?;
    let replayed = ReplayTexts {
        strategies,
        schedule,
    };
    let shape = read_shape(alloc, &catalogue)?;
    let mut texts = Dict::new(alloc);
    let written = read_definitions(alloc, &catalogue, &shape, &mut texts)?;
    let Written { views } = written;
    replay_over(budget, bundle, shape, views, texts, &replayed)
}

/// Reads what a bundle of any nights has to be replayed.
/// Fails with the first fault: of the headings, from the top, a line that is not blank in an `@night` among them. Then come the catalogue,
/// a night's strategy or the schedule that are missing, in this order, and the faults of the catalogue's text. Then come rows of no base
/// view, and the faults of the tables, view by view; of each night in order, its changes before its strategy; of the schedule. Memory may
/// come at any point.
///
/// What is read makes a catalogue over the shape, and there are a table and, in each night, changes of each view, of its columns.
pub fn read_for_replay<R: Threads + Sync>(
    budget: &ThreadBudget<'_, R>,
    bytes: &[u8],
) -> Result<ReplayInput, LoadFault>
    ensures ok { IfOk result (λ r. replay_of bytes.now ≡ Ok (shown_replay r)) }
    ensures fit { IfOk result IsReadReplay }
    ensures err { IfErr result (λ f. (f ≡ LoadFault.Memory) ⊎ (replay_of bytes.now ≡ Err f)) }
{
    let bundle = bundle_of(budget.alloc, bytes, Nights::All)?;
    replay_in(budget, &bundle)
}
