//! Does the command `plan`: from the bytes of a bundle to a plan of least work.

ghost use Rattle.std.specs.Prelude.{◌≡◌, IfOk, decimal};
ghost use Rattle.wh_text_lines.specs.PlanText.{plan_text};
ghost use Rattle.wh_load.specs.ReadingShown.{shown_measured};
ghost use Rattle.whview.specs.CheckOutput.{line};
ghost use Rattle.whview.specs.PlanOutput.{IsDecided, IsPlanOutput, spent_text, status_of, text_of};
ghost use Rattle.whview.specs.Status.{status_number};
ghost use Rattle.wh_strategy.specs.Prices.{prices_of};

use crate::answer::Answer;
use crate::budget::Budget;
use crate::status::Status;
use std::alloc::{AllocError, Global};
use wh_cert::Planned;
use wh_dag::Shape;
use wh_load::{ChunkedText, MeasuredViews, Names, read_for_plan, write_plan};
use wh_prune::{PruneFault, plan};
use wh_strategy::Costs;

/// The decision for views of some sizes.
#[derive(Drop)]
pub enum Outcome {
    /// There is a plan of least work.
    Planned(Planned),
    /// The budget of the search for a plan is spent.
    Spent {
        /// The number of nodes that were opened.
        opened: u64,
        /// The least work that was found, in cost times rows by weight.
        best: u128,
    },
}

impl Outcome {
    /// What is printed, with the names of these views.
    fn text(&self, alloc: Global, shape: &Shape) -> Result<Vec<u8>, AllocError>
        ensures { IfOk result (λ text. text.items ≡ text_of shape.now.names self.now) }
    {
        match self {
            Outcome::Planned(planned) => planned_text(alloc, shape, planned),
            Outcome::Spent { opened, best } => spent_text(alloc, *opened, *best),
        }
    }

    /// What the program ends with.
    fn status(&self) -> Status
        ensures { result ≡ status_of self.now }
    {
        match self {
            Outcome::Planned(_) => Status::Done,
            Outcome::Spent { .. } => Status::Limit,
        }
    }
}

/// What is printed of a plan over the views of this shape.
fn planned_text(alloc: Global, shape: &Shape, planned: &Planned) -> Result<Vec<u8>, AllocError>
    ensures { IfOk result (λ text. text.items ≡ plan_text shape.now.names planned.now.scope planned.now.work planned.now.correct.list planned.now.certificate) }
{
    let names = Names::of(alloc, shape)?;
    let mut text = Vec::new(alloc);
    write_plan(alloc, &mut text, &names, planned)?;
    Ok(text)
}

/// What is printed of a search that opened so many nodes, and found this work at least.
fn spent_text(alloc: Global, opened: u64, best: u128) -> Result<Vec<u8>, AllocError>
    ensures { IfOk result (λ text. text.items ≡ spent_text opened best) }
{
    let text = format!(in alloc; "budget opened {opened} best {best}\n")?;
    Ok(text.into_bytes())
}

/// What is decided for views that were read.
fn decide(
    alloc: Global,
    costs: Costs,
    budget: Budget,
    measured: &MeasuredViews,
) -> Result<Outcome, AllocError>
    ensures { IfOk result (IsDecided (prices_of costs) budget.nodes (shown_measured measured.now)) }
{
    match plan(alloc, &measured.shape, &measured.sizes, costs, budget.nodes) {
        Ok(planned) => Ok(Outcome::Planned(planned)),
        Err(PruneFault::Budget { opened, best }) => Ok(Outcome::Spent { opened, best }),
        Err(PruneFault::Memory) => Err(AllocError),
    }
}

/// Returns what `plan` answers for the bytes of a bundle, at these costs. A search opens at most so many nodes as the budget says.
/// Fails for want of memory.
pub fn answer(
    alloc: Global,
    costs: Costs,
    budget: Budget,
    bytes: &[u8],
) -> Result<Answer, AllocError>
    ensures { IfOk result (λ a. IsPlanOutput costs budget.nodes bytes.now a.text (status_number a.status)) }
{
    let measured = match read_for_plan(alloc, bytes) {
        Ok(measured) => measured,
        Err(fault) => return Answer::fault(alloc, &fault),
    };
    let outcome = decide(alloc, costs, budget, &measured)?;
    let text = outcome.text(alloc, &measured.shape)?;
    let status = outcome.status();
    Ok(Answer {
        text: ChunkedText::of(text),
        status,
    })
}
