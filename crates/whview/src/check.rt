//! Does the command `check`: from the bytes of a bundle to whether its strategy is correct, and its work.

ghost use Rattle.std.specs.Prelude.{◌≡◌, IfOk, decimal};
ghost use Rattle.wh_load.specs.ReadingShown.{shown_check};
ghost use Rattle.whview.specs.CheckOutput.{IsCheckOutput, IsDecided, correct_text, line, status_of, text_of};
ghost use Rattle.whview.specs.Status.{status_number};

use crate::answer::{Answer, broken_text};
use crate::status::Status;
use std::alloc::{AllocError, Global};
use wh_load::{CheckInput, ChunkedText, MeasuredViews, read_for_check};
use wh_strategy::{CheckFault, Costs, Rule, check, work};

/// The decision on a strategy.
#[derive(Clone, Copy)]
pub enum Outcome {
    /// The strategy is correct, and has this work.
    Correct {
        /// The work, in cost times rows by weight.
        work: u128,
    },
    /// The strategy breaks a rule.
    Broken {
        /// The first rule that it breaks.
        rule: Rule,
        /// The first place of the list that breaks it, from 1.
        place: usize,
    },
}

impl Outcome {
    /// What is printed.
    fn text(&self, alloc: Global) -> Result<Vec<u8>, AllocError>
        ensures { IfOk result (λ text. text.items ≡ text_of self.now) }
    {
        match self {
            Outcome::Correct { work } => correct_text(alloc, *work),
            Outcome::Broken { rule, place } => broken_text(alloc, *rule, *place),
        }
    }

    /// What the program ends with.
    fn status(&self) -> Status
        ensures { result ≡ status_of self.now }
    {
        match self {
            Outcome::Correct { .. } => Status::Done,
            Outcome::Broken { .. } => Status::Negative,
        }
    }
}

/// What is printed of a correct strategy of this work.
fn correct_text(alloc: Global, work: u128) -> Result<Vec<u8>, AllocError>
    ensures { IfOk result (λ text. text.items ≡ correct_text work) }
{
    let text = format!(in alloc; "correct\nwork {work}\n")?;
    Ok(text.into_bytes())
}

/// What is decided of a strategy that was read.
fn decide(alloc: Global, costs: Costs, input: CheckInput) -> Result<Outcome, AllocError>
    ensures { IfOk result (IsDecided costs (shown_check input)) }
{
    let CheckInput { measured, strategy } = input;
    let MeasuredViews { shape, sizes } = measured;
    match check(alloc, &shape, strategy) {
        Ok(correct) => Ok(Outcome::Correct {
            work: work(&shape, &sizes, costs, &correct),
        }),
        Err(CheckFault::Broken { rule, place }) => Ok(Outcome::Broken { rule, place }),
        Err(CheckFault::Memory) => Err(AllocError),
    }
}

/// Returns what `check` answers for the bytes of a bundle, at these costs.
/// Fails for want of memory.
pub fn answer(alloc: Global, costs: Costs, bytes: &[u8]) -> Result<Answer, AllocError>
    ensures { IfOk result (λ a. IsCheckOutput costs bytes.now a.text (status_number a.status)) }
{
    let input = match read_for_check(alloc, bytes) {
        Ok(input) => input,
        Err(fault) => return Answer::fault(alloc, &fault),
    };
    let outcome = decide(alloc, costs, input)?;
    let text = outcome.text(alloc)?;
    let status = outcome.status();
    Ok(Answer {
        text: ChunkedText::of(text),
        status,
    })
}
