//! Reads the changes of base views in a later night.

ghost use Rattle.std.specs.Prelude.{◌≡◌, ◌⊎◌, [], map, option_copied, Ok, Err, IfOk, IfErr, OnErr};
ghost use Rattle.wh_load.specs.ReadingNight.{ChangeRows, rows_after, rows_written};
ghost use Rattle.wh_text.specs.Inner.Dict.{BeginsWith};
ghost use Rattle.wh_text_catalogue.specs.Definitions.{shown_view};

use crate::parts::changes_part;
use crate::standing::StandingViews;
use std::thread::Threads;
use wh_load::{Bundle, Dict, LoadFault, Part, WrittenView, read_changes};
use wh_row::Bag;
use wh_threads::ThreadBudget;

/// The changes of a view that has this part, and none where it has no part.
fn rows_written<R: Threads + Sync>(
    budget: &ThreadBudget<'_, R>,
    view: &WrittenView,
    part: Option<&Part<'_>>,
    texts: &mut Dict,
) -> Result<Bag, LoadFault>
    ensures ok { IfOk result (λ bag. rows_written (ChangeRows 0) (shown_view view.now).columns (option_copied part.entry) texts.old ≡ Ok (bag, texts.new)) }
    ensures err { IfErr result (λ f. (f ≡ LoadFault.Memory) ⊎ (rows_written (ChangeRows 0) (shown_view view.now).columns (option_copied part.entry) texts.old ≡ Err f)) }
    ensures begins { BeginsWith texts.old texts.new }
{
    match part {
        Some(part) => {
            let text = part.text(budget.alloc)?;
            read_changes(budget, &view.columns, &text, texts)
        }
        None => Ok(Bag::new(budget.alloc)),
    }
}

/// Reads the changes of the views that stand, in the order of the views.
/// Fails with the first fault, view by view. Memory may come at any point. The texts keep their numbers, also after an error.
#[tactic(auto, using(crate::proofs::TextsGrow::begins_self, crate::proofs::TextsGrow::begins_more))]
pub(crate) fn changes_in<R: Threads + Sync>(
    budget: &ThreadBudget<'_, R>,
    bundle: &Bundle<'_>,
    standing: &StandingViews<'_>,
    texts: &mut Dict,
) -> Result<Vec<Bag>, LoadFault>
    ensures ok { IfOk result (λ rows. rows_after (ChangeRows 0) bundle.now standing.now.names.now [] (map shown_view standing.now.views.now) texts.old ≡ Ok (rows.items, texts.new)) }
    ensures err { IfErr result (λ f. (f ≡ LoadFault.Memory) ⊎ (rows_after (ChangeRows 0) bundle.now standing.now.names.now [] (map shown_view standing.now.views.now) texts.old ≡ Err f)) }
    ensures begins { BeginsWith texts.old texts.new }
{
    let mut all = Vec::new(budget.alloc);
    for view in standing.views {
        let number = all.len();
        let part = changes_part(bundle, standing.names.name(number).as_bytes(), view);
        let bag = rows_written(budget, view, part, texts)?;
        all.push(bag)?;
    }
    Ok(all)
}
