//! Reads the parts of a night over what stands.

ghost use Rattle.std.specs.Prelude.{◌≡◌, ◌⊎◌, option_map, Ok, Err, IfOk, IfErr};
ghost use Rattle.wh_load.specs.ReadingNight.{AreReadRows, ChangeRows};
ghost use Rattle.wh_load.specs.ReadingShown.{shown_given};
ghost use Rattle.wh_text.specs.Inner.Dict.{BeginsWith};
ghost use Rattle.wh_stay.specs.Standing.{shown_standing, with_texts};
ghost use Rattle.wh_stay.specs.Told.{night_in};

use crate::standing::Standing;
use std::thread::Threads;
use wh_later::{StandingViews, read_later_night};
use wh_load::{GivenNight, LoadFault};
use wh_threads::ThreadBudget;

/// The text of the strategy that stands, if one does.
fn own_text(strategy: &Option<Vec<u8>>) -> Option<&[u8]>
    ensures { option_map (λ own. own.now) result ≡ option_map (λ own. own.items) strategy.now }
{
    strategy.as_deref()
}

impl Standing {
    /// Reads what the parts of a night give. The texts get those that are new, and after an error none.
    pub(crate) fn read_night<R: Threads + Sync>(
        &mut self,
        budget: &ThreadBudget<'_, R>,
        parts: &[u8],
    ) -> Result<GivenNight, LoadFault>
        ensures ok { IfOk result (λ given. night_in (shown_standing self.old) parts.now ≡ Ok (shown_given given, self.new.texts)) }
        ensures fit { IfOk result (λ given. AreReadRows (ChangeRows 0) (shown_standing self.old).views given.changes.items) }
        ensures err { IfErr result (λ f. (f ≡ LoadFault.Memory) ⊎ (night_in (shown_standing self.old) parts.now ≡ Err f)) }
        ensures begins { BeginsWith self.old.texts self.new.texts }
        ensures others { shown_standing self.new ≡ with_texts (shown_standing self.old) self.new.texts }
    {
        let standing = StandingViews {
            names: &self.names,
            views: &self.views,
            strategy: own_text(&self.strategy),
        };
        read_later_night(budget, &standing, &mut self.texts, parts)
    }
}
