//! Reads the tables of base views in an opening.

ghost use Rattle.std.specs.Prelude.{◌≡◌, ◌⊎◌, [], map, option_copied, Ok, Err, IfOk, IfErr};
ghost use Rattle.wh_load.specs.ReadingNight.{AreReadRows, TableRows, rows_after, rows_written};
ghost use Rattle.wh_text_catalogue.specs.Definitions.{shown_view};
ghost use Rattle.wh_opening.specs.OpeningRead.{tables_in};

use crate::opened::OpenedViews;
use crate::parts::{only_opening_parts, table_part};
use std::thread::Threads;
use wh_load::{Bundle, Dict, LoadFault, Part, WrittenView, read_table};
use wh_row::Bag;
use wh_threads::ThreadBudget;

/// The table of a view that has this part, and no rows where it has no part.
fn rows_written<R: Threads + Sync>(
    budget: &ThreadBudget<'_, R>,
    view: &WrittenView,
    part: Option<&Part<'_>>,
    texts: &mut Dict,
) -> Result<Bag, LoadFault>
    ensures ok { IfOk result (λ bag. rows_written TableRows (shown_view view.now).columns (option_copied part.entry) texts.old ≡ Ok (bag, texts.new)) }
    ensures err { IfErr result (λ f. (f ≡ LoadFault.Memory) ⊎ (rows_written TableRows (shown_view view.now).columns (option_copied part.entry) texts.old ≡ Err f)) }
{
    match part {
        Some(part) => {
            let text = part.text(budget.alloc)?;
            read_table(budget, &view.columns, &text, texts)
        }
        None => Ok(Bag::new(budget.alloc)),
    }
}

/// The tables of these views, in the order of the views.
fn rows_of_views<R: Threads + Sync>(
    budget: &ThreadBudget<'_, R>,
    bundle: &Bundle<'_>,
    opened: &OpenedViews<'_>,
    texts: &mut Dict,
) -> Result<Vec<Bag>, LoadFault>
    ensures ok { IfOk result (λ rows. rows_after TableRows bundle.now opened.now.names.now [] (map shown_view opened.now.views.now) texts.old ≡ Ok (rows.items, texts.new)) }
    ensures err { IfErr result (λ f. (f ≡ LoadFault.Memory) ⊎ (rows_after TableRows bundle.now opened.now.names.now [] (map shown_view opened.now.views.now) texts.old ≡ Err f)) }
{
    let mut all = Vec::new(budget.alloc);
    for view in opened.views {
        let number = all.len();
        let part = table_part(bundle, opened.names.name(number).as_bytes(), view);
        let bag = rows_written(budget, view, part, texts)?;
        all.push(bag)?;
    }
    Ok(all)
}

/// Reads the tables of these views, in the order of the views.
/// Fails with the fault of the first part that no opening has, and then with the tables' first fault, view by view. Memory may come at any
/// point.
pub(crate) fn tables_in<R: Threads + Sync>(
    budget: &ThreadBudget<'_, R>,
    bundle: &Bundle<'_>,
    opened: &OpenedViews<'_>,
    texts: &mut Dict,
) -> Result<Vec<Bag>, LoadFault>
    ensures ok { IfOk result (λ rows. tables_in bundle.now opened.now.names.now (map shown_view opened.now.views.now) texts.old ≡ Ok (rows.items, texts.new)) }
    ensures fit { IfOk result (λ rows. AreReadRows TableRows (map shown_view opened.now.views.now) rows.items) }
    ensures err { IfErr result (λ f. (f ≡ LoadFault.Memory) ⊎ (tables_in bundle.now opened.now.names.now (map shown_view opened.now.views.now) texts.old ≡ Err f)) }
{
    only_opening_parts(budget.alloc, bundle, opened)?;
    let tables = rows_of_views(budget, bundle, opened, texts)?;
    Ok(tables)
}
