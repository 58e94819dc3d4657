//! Does the command `replay`: from the bytes of a bundle to the replies of a machine that goes through its nights.

ghost use Rattle.std.specs.Prelude.{◌≡◌, IsTrue, IfErr, IfOk, OnOk, false, length, map};
ghost use Rattle.std.specs.List.{list_any};
ghost use Rattle.wh_text_catalogue.specs.Definitions.{shown_view};
ghost use Rattle.wh_text_catalogue.specs.ReadCatalog.{catalog_of};
ghost use Rattle.wh_core.specs.Headline.{ComesTrue};
ghost use Rattle.wh_core.specs.Laws.{IsSetup};
ghost use Rattle.wh_core.specs.Replies.{IsLegalRun};
ghost use Rattle.wh_core.specs.Standing.{AreJudged, nights_of};
ghost use Rattle.wh_formula.specs.Expr.{fits as fits_expr};
ghost use Rattle.wh_formula.specs.Pred.{fits as fits_pred};
ghost use Rattle.wh_load.specs.ReadingShown.{shown_given, shown_opening, shown_replay};
ghost use Rattle.wh_replies.specs.Events.{event_of};
ghost use Rattle.whview.specs.Inner.FitNight.{AreReadTables};
ghost use Rattle.whview.specs.Inner.FitReplay.{AreChangesOf, AreJudgedRightly, IsFitReplay, IsNightsFault, IsReady};
ghost use Rattle.whview.specs.ReplayOutput.{AreCorrect, IsReplayOutput, IsReplayTold, is_memory, machine_of, night_of_machine};
ghost use Rattle.whview.specs.Status.{status_number};
ghost use Rattle.whview.specs.Inner.StoredClosures.{AnswersTests, AnswersValues};

use crate::answer::{Answer, broken_text, cause_text};
use crate::catalogue::catalog_with;
use crate::status::Status;
use std::alloc::{AllocError, Global};
use std::thread::Threads;
use wh_core::{Cause, Core, Event, MachineOptions, Reply};
use wh_dag::{Catalog, Shape};
use wh_formula::{Expr, Native, Pred, RowTest, RowValue};
use wh_load::{
    ChunkedText, GivenNight, Opening, ReplayInput, Schedule, ScheduledEvent, read_for_replay,
};
use wh_maint::opening_contents;
use wh_replies::{event_of, replies_text};
use wh_row::Bag;
use wh_strategy::{CheckFault, Correct, check};
use wh_threads::ThreadBudget;

/// The nights with their strategies judged over this shape. The fault is that of the first night whose strategy is not correct.
fn judged(
    alloc: Global,
    shape: &Shape,
    nights: Vec<GivenNight>,
) -> Result<Vec<(Vec<Bag>, Correct)>, CheckFault>
    ensures nights { IfOk result (λ judged. nights_of judged.items ≡ map night_of_machine (map shown_given nights.items)) }
    ensures judged { IfOk result (λ judged. AreJudgedRightly shape.now.children judged.items) }
    ensures correct { OnOk result (AreCorrect shape.now.children (map shown_given nights.items)) }
    ensures err { IfErr result (IsNightsFault shape.now.children (map shown_given nights.items)) }
{
    let mut judged = Vec::new(alloc);
    for night in nights {
        let GivenNight { changes, strategy } = night;
        let correct = check(alloc, shape, strategy)?;
        let Ok(()) = judged.push((changes, correct)) else {
            return Err(CheckFault::Memory);
        };
    }
    Ok(judged)
}

/// The events of a schedule over so many views.
fn events_of(
    alloc: Global,
    views: usize,
    scheduled: &[ScheduledEvent],
) -> Result<Vec<Event>, AllocError>
    ensures { IfOk result (λ events. events.items ≡ map (event_of views) scheduled.now) }
{
    let mut events = Vec::new(alloc);
    for event in scheduled {
        events.push(event_of(views, event))?;
    }
    Ok(events)
}

/// Whether a reply is that memory was refused.
fn is_memory(reply: &Reply) -> bool
    ensures { result ≡ is_memory reply.now }
{
    matches!(reply, Reply::Refused(Cause::Memory))
}

/// Whether memory was refused at one of these replies.
fn lacks_memory(replies: &[Reply]) -> bool
    ensures { result ≡ list_any is_memory replies.now }
{
    replies.iter().any(|reply| is_memory(reply))
}

/// What a machine replies to the events of a schedule. Where memory is refused at one of them, there are no replies.
fn replies_to<F: RowTest + Drop, G: RowValue + Drop>(
    alloc: Global,
    catalog: Catalog<F, G>,
    tables: Vec<Bag>,
    nights: Vec<(Vec<Bag>, Correct)>,
    schedule: &Schedule,
) -> Result<Vec<Reply>, AllocError>
    requires ready { IsReady catalog tables.items (nights_of nights.items) }
    requires judged { AreJudged catalog nights.items }
    ensures legal { IfOk result (λ replies. IsLegalRun (machine_of catalog schedule.now tables.items (nights_of nights.items))
        (map (event_of (length catalog.views.children)) schedule.now.events) replies.items) }
    ensures setup { IfOk result (λ replies. IsSetup (machine_of catalog schedule.now tables.items (nights_of nights.items))) }
    ensures comes_true { IfOk result (λ replies. ComesTrue (machine_of catalog schedule.now tables.items (nights_of nights.items))
        (map (event_of (length catalog.views.children)) schedule.now.events) replies.items) }
    ensures told { IfOk result (λ replies. list_any is_memory replies.items ≡ false) }
{
    let events = events_of(alloc, catalog.shape().len(), schedule.events())?;
    let options = MachineOptions {
        desks: schedule.desks(),
        workers: schedule.workers(),
        page_keys: schedule.keys(),
        versions: schedule.versions(),
    };
    let mut core = Core::new(alloc, catalog, tables, nights, options)?;
    let replies = core.run(&events)?;
    if lacks_memory(&replies) {
        return Err(AllocError);
    }
    Ok(replies)
}

/// What a replay makes of what it is given, over a catalogue of its views. The contents are opened by as many threads as the schedule has
/// workers.
fn answer_over<F: RowTest + Drop, G: RowValue + Drop, R: Threads + Sync>(
    budget: &ThreadBudget<'_, R>,
    catalog: Catalog<F, G>,
    opening: Opening,
    nights: Vec<GivenNight>,
    schedule: &Schedule,
) -> Result<Answer, AllocError>
    requires shown { catalog ≡ catalog_of catalog.views (map shown_view opening.views.items) }
    requires tables { AreReadTables catalog opening.tables.items }
    requires changes { AreChangesOf catalog (map shown_given nights.items) }
    ensures { IfOk result (λ a. IsReplayTold (record { shape = catalog.views; opening = shown_opening opening; nights = map shown_given nights.items; schedule = schedule.now })
        a.text (status_number a.status)) }
{
    let alloc = budget.alloc;
    let nights = match judged(alloc, catalog.shape(), nights) {
        Ok(nights) => nights,
        Err(CheckFault::Broken { rule, place }) => {
            let text = broken_text(alloc, rule, place)?;
            return Ok(Answer::refused(text));
        }
        Err(CheckFault::Memory) => return Err(AllocError),
    };
    let opened_by = ThreadBudget {
        rt: budget.rt,
        alloc,
        threads: schedule.workers(),
    };
    let tables = match opening_contents(&opened_by, &catalog, opening.tables) {
        Ok(tables) => tables,
        Err(fault) => {
            let text = cause_text(alloc, catalog.shape(), &fault)?;
            return Ok(Answer::refused(text));
        }
    };
    let replies = replies_to(alloc, catalog, tables, nights, schedule)?;
    let text = replies_text(alloc, &replies)?;
    Ok(Answer {
        text: ChunkedText::of(text),
        status: Status::Done,
    })
}

/// What a replay makes of what it is given, where each formula is stored with what these make of it.
fn answer_with<
    F: RowTest + Drop,
    G: RowValue + Drop,
    T: Fn(Pred) -> F,
    V: Fn(Expr) -> G,
    R: Threads + Sync,
>(budget: &ThreadBudget<'_, R>, input: ReplayInput, test: T, value: V) -> Result<Answer, AllocError>
    requires fit { IsFitReplay input }
    requires callable_test { T.IsAlwaysCallable test }
    requires callable_value { V.IsAlwaysCallable value }
    requires tests { AnswersTests (T.post test) F.can_test F.tests }
    requires values { AnswersValues (V.post value) G.can_combine G.combines }
    ensures { IfOk result (λ a. IsReplayTold (shown_replay input) a.text (status_number a.status)) }
{
    let ReplayInput {
        shape,
        opening,
        nights,
        schedule,
    } = input;
    let catalog = catalog_with(budget.alloc, shape, &opening.views, test, value)?;
    answer_over(budget, catalog, opening, nights, &schedule)
}

/// What a replay makes of what it is given. Each formula of the catalogue is stored with a closure.
fn answer_of<R: Threads + Sync>(
    budget: &ThreadBudget<'_, R>,
    input: ReplayInput,
) -> Result<Answer, AllocError>
    requires fit { IsFitReplay input }
    ensures { IfOk result (λ a. IsReplayTold (shown_replay input) a.text (status_number a.status)) }
{
    answer_with(
        budget,
        input,
        |pred: Pred| {
            Native(
                move |row: &[i64]| -> bool
                    requires { IsTrue (fits_pred (length row.now) pred) }
                { pred.holds(row) },
            )
        },
        |expr: Expr| {
            Native(
                move |row: &[i64]| -> Option<i64>
                    requires { IsTrue (fits_expr (length row.now) expr) }
                { expr.value(row) },
            )
        },
    )
}

/// Returns what `replay` answers for the bytes of a bundle. They are read by one thread, since only they say how many workers there are.
/// The contents are opened by as many threads as the schedule has workers, and the events are answered by one.
/// Fails for want of memory.
pub fn answer<R: Threads + Sync>(rt: &R, alloc: Global, bytes: &[u8]) -> Result<Answer, AllocError>
    ensures { IfOk result (λ a. IsReplayOutput bytes.now a.text (status_number a.status)) }
{
    let budget = ThreadBudget {
        rt,
        alloc,
        threads: 1,
    };
    match read_for_replay(&budget, bytes) {
        Ok(input) => answer_of(&budget, input),
        Err(fault) => Answer::fault(alloc, &fault),
    }
}
