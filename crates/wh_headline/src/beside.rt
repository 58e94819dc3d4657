//! Runs a night while readers ask, and states the one legal run that it is with them.

ghost use Rattle.std.specs.Prelude.{◌≡◌, ◌≤◌, IfSome};
ghost use Rattle.std.specs.List.{All};
ghost use Rattle.wh_maint.specs.Asked.{AreBags};
ghost use Rattle.wh_maint.specs.Comp.{bag_at};
ghost use Rattle.wh_carry.specs.Fit.{AreFitFor};
ghost use Rattle.wh_desk.specs.Askers.{AreAnswered, CanAsk};
ghost use Rattle.wh_desk.specs.Writers.{published};
ghost use Rattle.wh_night.specs.Beside.{AreHad, HasRun};
ghost use Rattle.wh_night.specs.Tonight.{newest_in};
ghost use Rattle.wh_headline.specs.WithReaders.{AreInOneRun, given_by};

use std::sync::Wait;
use std::thread::Threads;
use wh_desk::{Asker, Watch, Writer};
use wh_formula::{RowTest, RowValue};
use wh_night::{Beside, Gate, NightRequest, night_beside};
use wh_row::Bag;

/// Runs a night over a writer and has readers ask beside it, as [`night_beside`] does. The threads that run so come to one legal run of the
/// machine over events, for the night, the nights before it, and all that these readers were ever answered. So its laws hold of running
/// threads.
///
/// It is so for each machine in which this night comes next and which has one desk for each reader. The readers came to their desks without
/// a session. A night that is refused is part of it, so far as it came. Where memory is refused to a reader, nothing is said of the run.
pub fn night_with_readers<
    F: RowTest,
    G: RowValue,
    W: Gate + Watch + Sync,
    R: Threads + Wait + Sync,
>(
    asked: &NightRequest<'_, F, G, W, R>,
    writer: &mut Writer,
    askers: Vec<Asker>,
    tables: Vec<Bag>,
) -> Beside
    requires askers { All (CanAsk (published writer.old)) askers.items }
    requires judged { asked.now.correct.now.children ≡ asked.now.catalog.now.views.children }
    requires tables { AreBags asked.now.catalog.now (newest_in writer.old.ledger) }
    requires current { tables.items ≡ newest_in writer.old.ledger }
    requires changes { AreBags asked.now.catalog.now asked.now.changes.now }
    requires fit { AreFitFor asked.now.catalog.now (bag_at asked.now.changes.now) asked.now.correct.now.list (bag_at (newest_in writer.old.ledger)) }
    requires one { 1 ≤ asked.now.budget.now.threads }
    requires sixteen { asked.now.budget.now.threads ≤ 16 }
    requires least { 1 ≤ asked.now.page_keys }
    requires most { asked.now.page_keys ≤ 256 }
    ensures night { HasRun asked.now.catalog.now asked.now.correct.now.list writer.old asked.now.changes.now asked.now.page_keys result.night writer.new }
    ensures answered { IfSome result.answered (λ all. AreAnswered (published writer.old) askers.items all.items) }
    ensures had { IfSome result.answered (λ all. AreHad writer.new all.items) }
    ensures one_run { AreInOneRun asked.now.catalog.now (given_by asked.now.correct.now.list asked.now.changes.now) writer.old askers.items result writer.new }
{
    night_beside(asked, writer, askers, tables)
}
