//! Does the command `night`: from the bytes of a bundle to what its strategy makes of the tables, while readers go through those of before.

ghost use Rattle.std.specs.Prelude.{◌≡◌, ◌≢◌, map, length, IsTrue, IfOk};
ghost use Rattle.wh_formula.specs.Expr.{fits as fits_expr};
ghost use Rattle.wh_formula.specs.Pred.{fits as fits_pred};
ghost use Rattle.wh_text_catalogue.specs.Definitions.{shown_view};
ghost use Rattle.wh_text_catalogue.specs.ReadCatalog.{catalog_of};
ghost use Rattle.wh_load.specs.ReadingShown.{shown_given, shown_night, shown_opening};
ghost use Rattle.wh_maint.specs.Asked.{AreBags};
ghost use Rattle.whview.specs.Inner.FitNight.{AreReadTables, IsFitNight};
ghost use Rattle.whview.specs.NightOutput.{IsDecided, IsNightOutput, IsNightTold, status_of, text_of};
ghost use Rattle.whview.specs.Inner.NightOutput.{IsWhole};
ghost use Rattle.whview.specs.Status.{status_number};
ghost use Rattle.whview.specs.Inner.StoredClosures.{AnswersTests, AnswersValues};

mod difference;
mod front;
mod report;
mod serve;
mod shown;

use crate::answer::{Answer, broken_text, cause_text};
use crate::catalogue::catalog_with;
use crate::night_options::NightOptions;
use crate::status::Status;
use report::{Printing, carried_text, refused_text};
use serve::serve;
use shown::Shown;
use std::alloc::{AllocError, Global};
use std::sync::Wait;
use std::thread::Threads;
use wh_carry::CarryFault;
use wh_dag::{Catalog, Shape};
use wh_formula::{Expr, Native, Pred, RowTest, RowValue};
use wh_load::{ChunkedText, Dict, GivenNight, NightInput, Opening, WrittenView, read_for_night};
use wh_maint::{MaintFault, opening_contents};
use wh_night::{Gate, NightRequest, Served, Watch};
use wh_strategy::{CheckFault, Rule, check};
use wh_threads::ThreadBudget;

/// The decision on a night.
#[derive(Drop)]
pub enum Outcome {
    /// The night's strategy breaks a rule.
    Broken {
        /// The first rule that it breaks.
        rule: Rule,
        /// The first place of the list that breaks it, from 1.
        place: usize,
    },
    /// The base that was read has no contents to begin from.
    NoContents(MaintFault),
    /// The night is refused; the contents are as they were.
    Refused(CarryFault),
    /// The night is carried out.
    Carried {
        /// The views, in the order of their numbers.
        views: Vec<WrittenView>,
        /// The texts that cells stand for.
        texts: Dict,
        /// The new tables, the report of each expression, and what readers were given.
        carried: Served,
        /// The tables or the changes that are shown of the derived views.
        shown: Shown,
    },
}

impl Outcome {
    /// What is printed, with the names of these views.
    fn text<R: Threads + Sync>(
        &self,
        budget: &ThreadBudget<'_, R>,
        shape: &Shape,
    ) -> Result<ChunkedText, AllocError>
        requires { IsWhole shape.now self.now }
        ensures { IfOk result (λ text. text ≡ text_of shape.now.names self.now) }
    {
        let alloc = budget.alloc;
        match self {
            Outcome::Broken { rule, place } => {
                Ok(ChunkedText::of(broken_text(alloc, *rule, *place)?))
            }
            Outcome::NoContents(fault) => Ok(ChunkedText::of(cause_text(alloc, shape, fault)?)),
            Outcome::Refused(refused) => {
                Ok(ChunkedText::of(refused_text(alloc, shape, refused)?))
            }
            Outcome::Carried {
                views,
                texts,
                carried,
                shown,
            } => {
                let printing = Printing {
                    budget,
                    shape,
                    views,
                    texts,
                };
                carried_text(&printing, carried, shown)
            }
        }
    }

    /// What the program ends with.
    fn status(&self) -> Status
        ensures { result ≡ status_of self.now }
    {
        match self {
            Outcome::Carried { .. } => Status::Done,
            Outcome::Broken { .. } | Outcome::NoContents(_) | Outcome::Refused(_) => {
                Status::Negative
            }
        }
    }
}

/// What is decided of a night from what it is given, over a catalogue of its views, where it is run so. The watch is told of it.
fn decide<F: RowTest, G: RowValue, R: Threads + Wait + Sync, N: Gate + Watch + Sync>(
    budget: &ThreadBudget<'_, R>,
    catalog: &Catalog<F, G>,
    how: NightOptions,
    opening: Opening,
    given: GivenNight,
    watch: &N,
) -> Result<Outcome, AllocError>
    requires workers { budget.now.threads ≡ how.workers }
    requires shown { catalog.now ≡ catalog_of catalog.now.views (map shown_view opening.views.items) }
    requires tables { AreReadTables catalog.now opening.tables.items }
    requires changes { AreBags catalog.now given.changes.items }
    ensures decided { IfOk result (IsDecided (record { shape = catalog.now.views; opening = shown_opening opening; given = shown_given given }) how.print how.readers) }
    ensures whole { IfOk result (IsWhole catalog.now.views) }
{
    let Opening {
        views,
        texts,
        tables,
    } = opening;
    let GivenNight { changes, strategy } = given;
    let alloc = budget.alloc;
    let correct = match check(alloc, catalog.shape(), strategy) {
        Ok(correct) => correct,
        Err(CheckFault::Broken { rule, place }) => return Ok(Outcome::Broken { rule, place }),
        Err(CheckFault::Memory) => return Err(AllocError),
    };
    let tables = match opening_contents(budget, catalog, tables) {
        Ok(tables) => tables,
        Err(fault) => return no_contents(fault),
    };
    let asked = NightRequest {
        budget,
        catalog,
        changes: &changes,
        correct: &correct,
        page_keys: how.page_keys,
        gate: watch,
    };
    match serve(&asked, how, &views, tables) {
        Ok((carried, shown)) => Ok(Outcome::Carried {
            views,
            texts,
            carried,
            shown,
        }),
        Err(refused) => refusal(refused),
    }
}

/// The outcome where a base has no contents for this reason. Want of memory is none.
fn no_contents(fault: MaintFault) -> Result<Outcome, AllocError>
    ensures { IfOk result (λ outcome. (outcome ≡ Outcome.NoContents fault) × (fault ≢ MaintFault.Memory)) }
{
    match fault {
        MaintFault::Memory => Err(AllocError),
        fault => Ok(Outcome::NoContents(fault)),
    }
}

/// The outcome where a night is refused. Want of memory is none.
fn refusal(refused: CarryFault) -> Result<Outcome, AllocError>
    ensures { IfOk result (λ outcome. (outcome ≡ Outcome.Refused refused) × (refused.fault ≢ MaintFault.Memory)) }
{
    let CarryFault { fault, started } = refused;
    match fault {
        MaintFault::Memory => Err(AllocError),
        fault => Ok(Outcome::Refused(CarryFault { fault, started })),
    }
}

/// What a night makes of what it is given, where each formula is stored with what these make of it.
fn answer_with<
    F: RowTest + Drop,
    G: RowValue + Drop,
    T: Fn(Pred) -> F,
    V: Fn(Expr) -> G,
    R: Threads + Wait + Sync,
    N: Gate + Watch + Sync,
>(
    budget: &ThreadBudget<'_, R>,
    how: NightOptions,
    input: NightInput,
    test: T,
    value: V,
    watch: &N,
) -> Result<Answer, AllocError>
    requires workers { budget.now.threads ≡ how.workers }
    requires fit { IsFitNight input }
    requires callable_test { T.IsAlwaysCallable test }
    requires callable_value { V.IsAlwaysCallable value }
    requires tests { AnswersTests (T.post test) F.can_test F.tests }
    requires values { AnswersValues (V.post value) G.can_combine G.combines }
    ensures { IfOk result (λ a. IsNightTold (shown_night input) how.print how.readers a.text (status_number a.status)) }
{
    let NightInput {
        shape,
        opening,
        given,
    } = input;
    let catalog = catalog_with(budget.alloc, shape, &opening.views, test, value)?;
    let outcome = decide(budget, &catalog, how, opening, given, watch)?;
    let text = outcome.text(budget, catalog.shape())?;
    let status = outcome.status();
    Ok(Answer { text, status })
}

/// What a night makes of what it is given. Each formula of the catalogue is stored with a closure.
fn answer_of<R: Threads + Wait + Sync, N: Gate + Watch + Sync>(
    budget: &ThreadBudget<'_, R>,
    how: NightOptions,
    input: NightInput,
    watch: &N,
) -> Result<Answer, AllocError>
    requires workers { budget.now.threads ≡ how.workers }
    requires fit { IsFitNight input }
    ensures { IfOk result (λ a. IsNightTold (shown_night input) how.print how.readers a.text (status_number a.status)) }
{
    answer_with(
        budget,
        how,
        input,
        |pred: Pred| {
            Native(
                move |row: &[i64]| -> bool
                    requires { IsTrue (fits_pred (length row.now) pred) }
                { pred.holds(row) },
            )
        },
        |expr: Expr| {
            Native(
                move |row: &[i64]| -> Option<i64>
                    requires { IsTrue (fits_expr (length row.now) expr) }
                { expr.value(row) },
            )
        },
        watch,
    )
}

/// Returns what `night` answers for the bytes of a bundle, where the night is run so. The watch is told of it.
/// Fails for want of memory.
pub fn answer<R: Threads + Wait + Sync, N: Gate + Watch + Sync>(
    rt: &R,
    alloc: Global,
    how: NightOptions,
    bytes: &[u8],
    watch: &N,
) -> Result<Answer, AllocError>
    ensures { IfOk result (λ a. IsNightOutput how.print how.readers bytes.now a.text (status_number a.status)) }
{
    let budget = ThreadBudget {
        rt,
        alloc,
        threads: how.workers,
    };
    match read_for_night(&budget, bytes) {
        Ok(input) => answer_of(&budget, how, input, watch),
        Err(fault) => Answer::fault(alloc, &fault),
    }
}
