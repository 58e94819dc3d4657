//! Runs a night while readers ask at desks of the same warehouse.

ghost use Rattle.std.specs.Prelude.{◌≡◌, ◌≤◌, Some, IfSome};
ghost use Rattle.std.specs.List.{All};
ghost use Rattle.std.specs.Thread.{IsSync};
ghost use Rattle.wh_maint.specs.Asked.{AreBags};
ghost use Rattle.wh_maint.specs.Comp.{bag_at};
ghost use Rattle.wh_carry.specs.Fit.{AreFitFor};
ghost use Rattle.wh_desk.specs.Askers.{AreAnswered, CanAsk};
ghost use Rattle.wh_desk.specs.Writers.{published};
ghost use Rattle.wh_night.specs.Beside.{AreHad, HasRun};
ghost use Rattle.wh_night.specs.Tonight.{newest_in};
ghost use Rattle.wh_night.specs.Inner.Serving.{CanRun};

use crate::gate::Gate;
use crate::left::NightFault;
use crate::means::NightRequest;
use crate::running::night_from;
use std::sync::Wait;
use std::thread::{Threads, join_mut};
use wh_carry::Carried;
use wh_desk::{Answered, Asker, Told, Watch, Writer, answer_each, are_had};
use wh_formula::{RowTest, RowValue};
use wh_row::Bag;

/// The answer of a night, and what the readers beside it were answered.
#[derive(Drop)]
pub struct Beside {
    /// The tables and the report of the night, or why it was refused, as [`night_from`] answers.
    pub night: Result<Carried, NightFault>,
    /// The answers to each reader, in the readers' order; `None` for a reader to which memory was refused. It is `None` for all where
    /// memory was refused to their list. It would be so, too, where the writer had not all that they saw, which no test came to.
    pub answered: Option<Vec<Option<Answered>>>,
}

/// Has readers ask, at desks that see no less than was told, and runs a night from these tables beside them.
fn run_beside<F: RowTest, G: RowValue, W: Gate + Watch + Sync, R: Threads + Wait + Sync>(
    asked: &NightRequest<'_, F, G, W, R>,
    writer: &mut Writer,
    told: &Told,
    askers: &mut Vec<Asker>,
    tables: &mut Vec<Bag>,
) -> (Option<Vec<Option<Answered>>>, Result<Carried, NightFault>)
    requires askers { All (CanAsk told.now) askers.old.items }
    requires current { tables.old.items ≡ newest_in writer.old.ledger }
    requires ready { CanRun asked.now.catalog.now asked.now.correct.now writer.old.ledger asked.now.changes.now asked.now.budget.now.threads asked.now.page_keys }
    ensures answered { IfSome result.0 (λ all. AreAnswered told.now askers.old.items all.items) }
    ensures night { HasRun asked.now.catalog.now asked.now.correct.now.list writer.old asked.now.changes.now asked.now.page_keys result.1 writer.new }
{
    let rt = asked.budget.rt;
    let alloc = asked.budget.alloc;
    let watch = asked.gate;
    join_mut(
        rt,
        &mut || -> Option<Vec<Option<Answered>>>
            requires { IsSync R.row × IsSync W.row × All (CanAsk told.now) askers.now.items }
            ensures { IfSome result (λ all. AreAnswered told.entry.now askers.entry.now.items all.items) }
        {
            let readers = std::mem::replace(askers, Vec::new(alloc));
            answer_each(rt, alloc, readers, told, watch)
        },
        &mut || -> Result<Carried, NightFault>
            requires { CanRun asked.now.catalog.now asked.now.correct.now writer.now.ledger asked.now.changes.now asked.now.budget.now.threads asked.now.page_keys × (tables.now.items ≡ newest_in writer.now.ledger) }
            ensures { HasRun asked.entry.now.catalog.now asked.entry.now.correct.now.list writer.entry.now asked.entry.now.changes.now asked.entry.now.page_keys result writer.exit.now }
        {
            let current = std::mem::replace(tables, Vec::new(alloc));
            night_from(writer, asked, current)
        },
    )
}

/// What readers were answered, where the writer has all that they saw.
fn if_had(writer: &Writer, answered: Option<Vec<Option<Answered>>>) -> Option<Vec<Option<Answered>>>
    requires { IfSome answered (λ all. All (λ a. IfSome a (λ a. a.reader.desk.book ≡ writer.now.book)) all.items) }
    ensures same { IfSome result (λ all. answered ≡ Some all) }
    ensures had { IfSome result (λ all. AreHad writer.now all.items) }
{
    let all = answered?;
    if !are_had(writer, &all) {
        return None;
    }
    Some(all)
}

/// Runs a night as [`night_from`] does, over a writer, and beside it has readers ask at desks of its warehouse. Each reader has a thread of
/// its own where one can be started. Those for which none can be started ask one after another, beside the night or after it. The gate is
/// told of each job, and as a [`Watch`] of each reader.
///
/// A reader asks all that it is to ask, in that order, and goes on after a refusal. Its desk sees no less than what the writer had
/// published when the call began. All that the readers saw is a beginning of what the writer has published when the call ends.
pub fn night_beside<F: RowTest, G: RowValue, W: Gate + Watch + Sync, R: Threads + Wait + Sync>(
    asked: &NightRequest<'_, F, G, W, R>,
    writer: &mut Writer,
    askers: Vec<Asker>,
    tables: Vec<Bag>,
) -> Beside
    requires askers { All (CanAsk (published writer.old)) askers.items }
    requires judged { asked.now.correct.now.children ≡ asked.now.catalog.now.views.children }
    requires tables { AreBags asked.now.catalog.now (newest_in writer.old.ledger) }
    requires current { tables.items ≡ newest_in writer.old.ledger }
    requires changes { AreBags asked.now.catalog.now asked.now.changes.now }
    requires fit { AreFitFor asked.now.catalog.now (bag_at asked.now.changes.now) asked.now.correct.now.list (bag_at (newest_in writer.old.ledger)) }
    requires one { 1 ≤ asked.now.budget.now.threads }
    requires sixteen { asked.now.budget.now.threads ≤ 16 }
    requires least { 1 ≤ asked.now.page_keys }
    requires most { asked.now.page_keys ≤ 256 }
    ensures night { HasRun asked.now.catalog.now asked.now.correct.now.list writer.old asked.now.changes.now asked.now.page_keys result.night writer.new }
    ensures answered { IfSome result.answered (λ all. AreAnswered (published writer.old) askers.items all.items) }
    ensures had { IfSome result.answered (λ all. AreHad writer.new all.items) }
{
    let told = writer.tell();
    let mut askers = askers;
    let mut tables = tables;
    let (answered, night) = run_beside(asked, writer, &told, &mut askers, &mut tables);
    Beside {
        night,
        answered: if_had(writer, answered),
    }
}
