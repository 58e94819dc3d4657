//! Reads the tables that nights begin from, and what is given of one night.

ghost use Rattle.std.specs.Prelude.{◌≡◌, ◌⊎◌, map, Ok, Err, IfOk, IfErr};
ghost use Rattle.wh_text_catalogue.specs.Definitions.{shown_view};
ghost use Rattle.wh_load.specs.ReadingNight.{AreReadRows, ChangeRows, TableRows, given_of, tables_of};
ghost use Rattle.wh_load.specs.ReadingShown.{shown_given};

use super::base::only_base_parts;
use super::inputs::GivenNight;
use super::rows::{changes_in, tables_in};
use super::views::KnownViews;
use std::thread::Threads;
use wh_row::Bag;
use wh_text::{Dict, LoadFault};
use wh_text_bundle::Bundle;
use wh_text_lines::read_strategy;
use wh_threads::ThreadBudget;

/// Reads the tables of these views.
/// Fails with the fault of the first part whose rows are of no base view, and then with the tables' first fault, view by view. Memory may
/// come at any point.
pub fn tables_of<R: Threads + Sync>(
    budget: &ThreadBudget<'_, R>,
    bundle: &Bundle<'_>,
    known: &KnownViews<'_>,
    texts: &mut Dict,
) -> Result<Vec<Bag>, LoadFault>
    ensures ok { IfOk result (λ rows. tables_of bundle.now known.now.names.now (map shown_view known.now.views.now) texts.old ≡ Ok (rows.items, texts.new)) }
    ensures fit { IfOk result (λ rows. AreReadRows TableRows (map shown_view known.now.views.now) rows.items) }
    ensures err { IfErr result (λ f. (f ≡ LoadFault.Memory) ⊎ (tables_of bundle.now known.now.names.now (map shown_view known.now.views.now) texts.old ≡ Err f)) }
{
    only_base_parts(budget.alloc, bundle, known)?;
    let tables = tables_in(budget, bundle, known, texts)?;
    Ok(tables)
}

/// Reads what is given of the night of this number, which counts from 0: its changes, and the strategy that the text says.
/// Fails with the first fault of the changes, view by view, and then with the strategy's. Memory may come at any point.
pub fn given_of<R: Threads + Sync>(
    budget: &ThreadBudget<'_, R>,
    bundle: &Bundle<'_>,
    night: usize,
    known: &KnownViews<'_>,
    texts: &mut Dict,
    strategy: &[u8],
) -> Result<GivenNight, LoadFault>
    ensures ok { IfOk result (λ given. given_of bundle.now known.now.names.now (map shown_view known.now.views.now) night strategy.now texts.old ≡ Ok (shown_given given, texts.new)) }
    ensures fit { IfOk result (λ given. AreReadRows (ChangeRows 0) (map shown_view known.now.views.now) given.changes.items) }
    ensures err { IfErr result (λ f. (f ≡ LoadFault.Memory) ⊎ (given_of bundle.now known.now.names.now (map shown_view known.now.views.now) night strategy.now texts.old ≡ Err f)) }
{
    let changes = changes_in(budget, bundle, night, known, texts)?;
    let strategy = read_strategy(budget.alloc, known.names, strategy)?;
    Ok(GivenNight { changes, strategy })
}
