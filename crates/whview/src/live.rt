//! Does the command `live`: opens a warehouse from the bytes of a file, and answers commands for as long as they come.

ghost use Rattle.std.specs.Prelude.{◌≡◌, ◌≢◌, ◌<◌, ◌↔◌, IfErr, IfOk, IsTrue, length, map, option_map};
ghost use Rattle.std.specs.Io.KnownBytes.{Appends};
ghost use Rattle.wh_core.specs.Laws.{IsSetup};
ghost use Rattle.wh_core.specs.Log.{Log};
ghost use Rattle.wh_core.specs.Nights.{Setup};
ghost use Rattle.wh_core.specs.Standing.{StandsWith};
ghost use Rattle.wh_dag.specs.Catalog.{IsCatalog};
ghost use Rattle.wh_formula.specs.Expr.{fits as fits_expr};
ghost use Rattle.wh_formula.specs.Pred.{fits as fits_pred};
ghost use Rattle.wh_load.specs.ReadingShown.{shown_opening};
ghost use Rattle.wh_opening.specs.OpeningRead.{IsReadOpening, shown_opening_input};
ghost use Rattle.wh_stay.specs.Standing.{IsLive, core_of, standing_of};
ghost use Rattle.wh_text_catalogue.specs.Definitions.{shown_view};
ghost use Rattle.wh_text_catalogue.specs.ReadCatalog.{catalog_of};
ghost use Rattle.whview.specs.Inner.FitNight.{AreReadTables};
ghost use Rattle.whview.specs.Inner.LiveOutput.{IsFaultOfOpening, IsLiveAnswer, IsOpenedAnswer, IsOpeningWithin};
ghost use Rattle.whview.specs.Inner.StoredClosures.{AnswersTests, AnswersValues};
ghost use Rattle.whview.specs.LiveOutput.{IsEndedWith, IsTalkTold, end_text};
ghost use Rattle.whview.specs.NightOutput.{refused_text};

use crate::answer::{Answer, cause_text};
use crate::catalogue::catalog_with;
use crate::files::{BundleFile, FileFault, bundle_in};
use crate::live_options::LiveOptions;
use crate::status::Status;
use crate::tell::{OUTPUT_FAILED, give, tell, want_of_memory};
use std::alloc::{AllocError, Global};
use std::fs::Files;
use std::thread::Threads;
use wh_core::MachineOptions;
use wh_dag::{Catalog, Shape};
use wh_dialogue::{TalkEnd, talk};
use wh_formula::{Expr, Native, Pred, RowTest, RowValue};
use wh_load::{LentChunks, Opening};
use wh_maint::{MaintFault, opening_contents};
use wh_opening::{OpeningInput, read_opening};
use wh_stay::{Live, StandingTexts};
use wh_stream::{Sink, Source};
use wh_threads::ThreadBudget;

/// A warehouse that is to be opened: how large its machine is, and what it begins from.
#[derive(Clone, Copy)]
pub struct ToOpen<'a> {
    /// The size of its machine.
    pub how: LiveOptions,
    /// The file of its opening.
    pub from: BundleFile<'a>,
}

/// Reads the opening of a warehouse from a file, and from those that it names. What files hold, and when they fail, no contract can say: the
/// answer is the one to some bytes, or to a failure. The bytes themselves are not kept.
fn opening_of<E: Files + Threads + Sync>(
    budget: &ThreadBudget<'_, E>,
    from: &BundleFile<'_>,
) -> Result<OpeningInput, FileFault>
    ensures ok { IfOk result (λ o. IsOpeningWithin from.now.limit (shown_opening_input o)) }
    ensures fit { IfOk result IsReadOpening }
    ensures err { IfErr result (IsFaultOfOpening from.now.limit) }
{
    let bytes = bundle_in(budget.rt, budget.alloc, from)?;
    match read_opening(budget, &bytes) {
        Ok(opened) => Ok(opened),
        Err(fault) => Err(FileFault::Input(fault)),
    }
}

/// The answer where the base that was read has no contents.
fn without_contents(alloc: Global, shape: &Shape, fault: &MaintFault) -> Result<Answer, AllocError>
    ensures text { IfOk result (λ a. a.text ≡ refused_text shape.now.names fault.now) }
    ensures status { IfOk result (λ a. a.status ≡ Status.Negative) }
    ensures told { IfOk result (λ a. fault.now ≢ MaintFault.Memory) }
{
    let text = cause_text(alloc, shape, fault)?;
    Ok(Answer::refused(text))
}

/// Writes what is printed at the end of a talk, and returns the status.
fn tell_end<W: Sink>(out: &mut W, end: TalkEnd) -> u8
    ensures told { result ≢ 5 → Appends (W.contents out.old) (W.contents out.new) (end_text end) × IsEndedWith end result }
    ensures failed { end ≢ TalkEnd.Write → ((result ≡ 5) ↔ (W.faults out.old < W.faults out.new)) }
    ensures write { end ≡ TalkEnd.Write → (result ≡ 5) × (out.new ≡ out.old) }
{
    match end {
        TalkEnd::Done => Status::Done.number(),
        TalkEnd::Read => give(out, LentChunks::of(b"fault read\n"), Status::Fault),
        TalkEnd::Memory => want_of_memory(out),
        TalkEnd::Write => OUTPUT_FAILED,
    }
}

/// Answers commands for as long as they come, and writes what is printed at the end. Returns the status.
fn talk_to_end<F: RowTest + Drop, G: RowValue + Drop, R: Threads + Sync, S: Source, W: Sink>(
    budget: &ThreadBudget<'_, R>,
    live: Live<F, G>,
    input: &mut S,
    out: &mut W,
) -> u8
    requires { IsLive live }
    ensures told { result ≢ 5 → (s : Setup) (log : Log) → IsSetup s → StandsWith s log (core_of live)
        → IsTalkTold s log (standing_of live) (S.remaining input.old) (S.faults input.old) (S.faults input.new) (W.contents out.old) (W.contents out.new) result }
    ensures failed { (result ≡ 5) ↔ (W.faults out.old < W.faults out.new) }
{
    let end = talk(budget, live, input, out);
    tell_end(out, end)
}

/// What a warehouse begins with beside its catalogue: its tables and texts, and the strategy of nights that name none.
#[derive(Drop)]
struct Given {
    opening: Opening,
    strategy: Option<Vec<u8>>,
}

/// An opening that was read, and how its warehouse is to be run.
#[derive(Drop)]
struct ToRun {
    how: LiveOptions,
    opened: OpeningInput,
}

/// Opens the warehouse of a catalogue from what was read, and talks. The contents of its base are worked out by as many threads as there
/// are workers. Returns the status.
fn talk_over<F: RowTest + Drop, G: RowValue + Drop, R: Threads + Sync, S: Source, W: Sink>(
    budget: &ThreadBudget<'_, R>,
    how: LiveOptions,
    catalog: Catalog<F, G>,
    given: Given,
    input: &mut S,
    out: &mut W,
) -> u8
    requires catalogue { IsCatalog catalog }
    requires shown { catalog ≡ catalog_of catalog.views (map shown_view given.opening.views.items) }
    requires tables { AreReadTables catalog given.opening.tables.items }
    ensures told { result ≢ 5 → IsOpenedAnswer how (record { shape = catalog.views; opening = shown_opening given.opening; strategy = option_map (λ own. own.items) given.strategy })
        (S.remaining input.old) (S.faults input.old) (S.faults input.new) (W.contents out.old) (W.contents out.new) result }
    ensures failed { (result ≡ 5) ↔ (W.faults out.old < W.faults out.new) }
{
    let Given { opening, strategy } = given;
    let Opening {
        views,
        texts,
        tables,
    } = opening;
    let contents = match opening_contents(budget, &catalog, tables) {
        Ok(contents) => contents,
        Err(fault) => {
            let answer = without_contents(budget.alloc, catalog.shape(), &fault);
            return tell(out, answer);
        }
    };
    let standing = StandingTexts {
        views,
        texts,
        strategy,
    };
    let options = MachineOptions {
        desks: how.desks,
        workers: how.workers,
        page_keys: how.page_keys,
        versions: how.versions,
    };
    match Live::new(budget.alloc, catalog, contents, standing, options) {
        Ok(live) => talk_to_end(budget, live, input, out),
        Err(AllocError) => want_of_memory(out),
    }
}

/// Opens a warehouse from what was read, where each formula is stored with what these make of it, and talks. Returns the status.
fn talk_with<
    F: RowTest + Drop,
    G: RowValue + Drop,
    T: Fn(Pred) -> F,
    V: Fn(Expr) -> G,
    R: Threads + Sync,
    S: Source,
    W: Sink,
>(budget: &ThreadBudget<'_, R>, to_run: ToRun, test: T, value: V, input: &mut S, out: &mut W) -> u8
    requires fit { IsReadOpening to_run.opened }
    requires callable_test { T.IsAlwaysCallable test }
    requires callable_value { V.IsAlwaysCallable value }
    requires tests { AnswersTests (T.post test) F.can_test F.tests }
    requires values { AnswersValues (V.post value) G.can_combine G.combines }
    ensures told { result ≢ 5 → IsOpenedAnswer to_run.how (shown_opening_input to_run.opened)
        (S.remaining input.old) (S.faults input.old) (S.faults input.new) (W.contents out.old) (W.contents out.new) result }
    ensures failed { (result ≡ 5) ↔ (W.faults out.old < W.faults out.new) }
{
    let ToRun { how, opened } = to_run;
    let OpeningInput {
        shape,
        opening,
        strategy,
    } = opened;
    match catalog_with(budget.alloc, shape, &opening.views, test, value) {
        Ok(catalog) => talk_over(
            budget,
            how,
            catalog,
            Given { opening, strategy },
            input,
            out,
        ),
        Err(AllocError) => want_of_memory(out),
    }
}

/// Opens a warehouse from what was read, and talks. Each formula of the catalogue is stored with a closure. Returns the status.
fn talk_from<R: Threads + Sync, S: Source, W: Sink>(
    budget: &ThreadBudget<'_, R>,
    how: LiveOptions,
    opened: OpeningInput,
    input: &mut S,
    out: &mut W,
) -> u8
    requires fit { IsReadOpening opened }
    ensures told { result ≢ 5 → IsOpenedAnswer how (shown_opening_input opened)
        (S.remaining input.old) (S.faults input.old) (S.faults input.new) (W.contents out.old) (W.contents out.new) result }
    ensures failed { (result ≡ 5) ↔ (W.faults out.old < W.faults out.new) }
{
    talk_with(
        budget,
        ToRun { how, opened },
        |pred: Pred| {
            Native(
                move |row: &[i64]| -> bool
                    requires { IsTrue (fits_pred (length row.now) pred) }
                { pred.holds(row) },
            )
        },
        |expr: Expr| {
            Native(
                move |row: &[i64]| -> Option<i64>
                    requires { IsTrue (fits_expr (length row.now) expr) }
                { expr.value(row) },
            )
        },
        input,
        out,
    )
}

/// Opens a warehouse, and answers the commands of the reader for as long as they come. Writes the whole text of each answer, and of what is
/// printed at the end, or why the warehouse does not open. Returns the status, or 5 where the sink fails.
pub fn open_and_talk<E: Files + Threads + Sync, S: Source, W: Sink>(
    rt: &E,
    alloc: Global,
    warehouse: &ToOpen<'_>,
    input: &mut S,
    out: &mut W,
) -> u8
    ensures told { result ≢ 5 → IsLiveAnswer warehouse.now.how warehouse.now.from.limit
        (S.remaining input.old) (S.faults input.old) (S.faults input.new) (W.contents out.old) (W.contents out.new) result }
    ensures failed { (result ≡ 5) ↔ (W.faults out.old < W.faults out.new) }
{
    let budget = ThreadBudget {
        rt,
        alloc,
        threads: warehouse.how.workers,
    };
    match opening_of(&budget, &warehouse.from) {
        Ok(opened) => talk_from(&budget, warehouse.how, opened, input, out),
        Err(fault) => tell(out, fault.answer(alloc)),
    }
}
