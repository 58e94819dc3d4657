//! A night over whatever publishes, once all that it asks for was tested.

ghost use Rattle.std.specs.Prelude.{◌≤◌};

use std::sync::Wait;
use std::test::Fail;
use std::thread::Threads;
use wh_carry::Report;
use wh_formula::{RowTest, RowValue};
use wh_maint::are_bags;
use wh_night::{NightFault, NightRequest, NoGate, are_fit_for, current_tables, night};
use wh_store::Publish;

/// Carries a night out. None where something is held, or one of these does not belong to the other: what is published, the catalogue,
/// the changes, the strategy.
pub(crate) fn tested_night<P: Publish, F: RowTest, G: RowValue, R: Threads + Wait + Sync>(
    writer: &mut P,
    asked: &NightRequest<'_, F, G, NoGate, R>,
) -> Result<Option<Result<Report, NightFault>>, Fail>
    requires workers { (1 ≤ asked.now.budget.now.threads) × (asked.now.budget.now.threads ≤ 16) }
    requires page_keys { (1 ≤ asked.now.page_keys) × (asked.now.page_keys ≤ 256) }
{
    let alloc = asked.budget.alloc;
    let catalog = asked.catalog;
    let views = catalog.shape().len();
    if writer.held() || writer.views() != views {
        return Ok(None);
    }
    let tables = current_tables(alloc, writer, views)?;
    if !asked.correct.is_of(catalog.shape())
        || !are_bags(catalog, asked.changes)
        || !are_bags(catalog, &tables)
    {
        return Ok(None);
    }
    let Ok(true) = are_fit_for(alloc, catalog, &tables, asked.changes, asked.correct) else {
        return Ok(None);
    };
    Ok(Some(night(writer, asked)))
}
