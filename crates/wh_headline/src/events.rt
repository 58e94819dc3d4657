//! Goes through a warehouse's events, from the first to the last.

ghost use Rattle.std.specs.Prelude.{IfOk};
ghost use Rattle.wh_core.specs.Headline.{ComesTrue};
ghost use Rattle.wh_core.specs.Laws.{IsSetup};
ghost use Rattle.wh_core.specs.Nights.{setup_of};
ghost use Rattle.wh_core.specs.Replies.{IsLegalRun};
ghost use Rattle.wh_core.specs.Standing.{AreJudged, nights_of};

use std::alloc::{AllocError, Global};
use wh_core::{Core, Event, MachineOptions, Reply};
use wh_dag::Catalog;
use wh_formula::{RowTest, RowValue};
use wh_row::Bag;
use wh_strategy::Correct;

/// Goes through the events of workers, readers and the writer, from a warehouse of these tables and nights, and returns a reply for each.
/// The strategies were judged over this catalogue's shape.
/// Fails for want of memory.
pub fn carry_out<F: RowTest + Drop, G: RowValue + Drop>(
    alloc: Global,
    catalog: Catalog<F, G>,
    tables: Vec<Bag>,
    nights: Vec<(Vec<Bag>, Correct)>,
    options: MachineOptions,
    events: &[Event],
) -> Result<Vec<Reply>, AllocError>
    requires setup { IsSetup (setup_of catalog options tables.items (nights_of nights.items)) }
    requires judged { AreJudged catalog nights.items }
    ensures legal { IfOk result (λ replies. IsLegalRun (setup_of catalog options tables.items (nights_of nights.items)) events.now replies.items) }
    ensures comes_true { IfOk result (λ replies. ComesTrue (setup_of catalog options tables.items (nights_of nights.items)) events.now replies.items) }
{
    let mut core = Core::new(alloc, catalog, tables, nights, options)?;
    core.run(events)
}
