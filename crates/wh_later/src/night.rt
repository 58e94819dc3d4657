//! Reads what is given of a later night.

ghost use Rattle.std.specs.Prelude.{◌≡◌, ◌⊎◌, map, option_map, Ok, Err, IfOk, IfErr, OnErr, OnOk};
ghost use Rattle.wh_load.specs.ReadingNight.{AreReadRows, ChangeRows};
ghost use Rattle.wh_load.specs.ReadingShown.{shown_given};
ghost use Rattle.wh_text.specs.Inner.Dict.{BeginsWith};
ghost use Rattle.wh_text_catalogue.specs.Definitions.{shown_view};
ghost use Rattle.wh_later.specs.LaterNight.{later_in, later_of};

use crate::changes::changes_in;
use crate::parts::{only_later_parts, parts_of, strategy_text};
use crate::standing::StandingViews;
use std::thread::Threads;
use wh_load::{Bundle, Dict, GivenNight, LoadFault, read_strategy};
use wh_threads::ThreadBudget;

/// What these parts give. The texts keep their numbers, also after an error.
#[tactic(auto, using(crate::proofs::TextsGrow::begins_self))]
fn later_in<R: Threads + Sync>(
    budget: &ThreadBudget<'_, R>,
    bundle: &Bundle<'_>,
    standing: &StandingViews<'_>,
    texts: &mut Dict,
) -> Result<GivenNight, LoadFault>
    ensures ok { IfOk result (λ given. later_in standing.now.names.now (map shown_view standing.now.views.now) (option_map (λ own. own.now) standing.now.strategy) texts.old bundle.now ≡ Ok (shown_given given, texts.new)) }
    ensures fit { IfOk result (λ given. AreReadRows (ChangeRows 0) (map shown_view standing.now.views.now) given.changes.items) }
    ensures err { IfErr result (λ f. (f ≡ LoadFault.Memory) ⊎ (later_in standing.now.names.now (map shown_view standing.now.views.now) (option_map (λ own. own.now) standing.now.strategy) texts.old bundle.now ≡ Err f)) }
    ensures begins { BeginsWith texts.old texts.new }
{
    let strategy = strategy_text(budget.alloc, bundle, standing.strategy)?;
    only_later_parts(budget.alloc, bundle, standing)?;
    let changes = changes_in(budget, bundle, standing, texts)?;
    let strategy = read_strategy(budget.alloc, standing.names, &strategy)?;
    Ok(GivenNight { changes, strategy })
}

/// Reads what is given of a later night: parts `@changes NAME` of base views, and `@strategy`. Where the night writes no strategy, it has the
/// one that stands. Cells of texts are numbers in the dictionary, which gets those that are new.
///
/// Fails with the first fault: of the headings, from the top, a further night among them; the strategy that is missing. Then come parts that
/// no later night has, and the faults of the changes, view by view, and of the strategy's text. Memory may come at any point. After an error
/// the dictionary is as before, and otherwise its texts keep their numbers.
#[tactic(auto, using(crate::proofs::TextsGrow::taken_back))]
pub fn read_later_night<R: Threads + Sync>(
    budget: &ThreadBudget<'_, R>,
    standing: &StandingViews<'_>,
    texts: &mut Dict,
    bytes: &[u8],
) -> Result<GivenNight, LoadFault>
    ensures ok { IfOk result (λ given. later_of standing.now.names.now (map shown_view standing.now.views.now) (option_map (λ own. own.now) standing.now.strategy) texts.old bytes.now ≡ Ok (shown_given given, texts.new)) }
    ensures fit { IfOk result (λ given. AreReadRows (ChangeRows 0) (map shown_view standing.now.views.now) given.changes.items) }
    ensures err { IfErr result (λ f. (f ≡ LoadFault.Memory) ⊎ (later_of standing.now.names.now (map shown_view standing.now.views.now) (option_map (λ own. own.now) standing.now.strategy) texts.old bytes.now ≡ Err f)) }
    ensures begins { OnOk result (BeginsWith texts.old texts.new) }
    ensures kept { OnErr result (texts.new ≡ texts.old) }
{
    let bundle = parts_of(budget.alloc, bytes)?;
    let before = texts.len();
    let given = later_in(budget, &bundle, standing, texts);
    if given.is_err() {
        texts.truncate(before);
    }
    given
}
