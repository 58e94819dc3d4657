//! Does the command `certify`: from the bytes of a bundle to the verdict on its plan.

ghost use Rattle.std.specs.Prelude.{◌≡◌, IfOk, codes, decimal};
ghost use Rattle.wh_load.specs.ReadingShown.{shown_claim};
ghost use Rattle.whview.specs.CertifyOutput.{IsCertifyOutput, IsDecided, status_of, text_of, verdict_text};
ghost use Rattle.whview.specs.CheckOutput.{line};
ghost use Rattle.whview.specs.Status.{status_number};

use crate::answer::{Answer, broken_text};
use crate::status::Status;
use std::alloc::{AllocError, Global};
use wh_cert::{Verdict, certify};
use wh_load::{CertifyInput, ChunkedText, MeasuredViews, Plan, read_for_certify};
use wh_strategy::{CheckFault, Costs, Rule, check, work};

/// The decision on a plan.
#[derive(Clone, Copy)]
pub enum Outcome {
    /// The plan's strategy breaks a rule.
    Broken {
        /// The first rule that it breaks.
        rule: Rule,
        /// The first place of the list that breaks it, from 1.
        place: usize,
    },
    /// The plan's strategy has another work than the plan says.
    OtherWork,
    /// The plan's certificate has this verdict.
    Judged {
        /// The plan's work, in cost times rows by weight.
        work: u128,
        /// The verdict on the certificate.
        verdict: Verdict,
    },
}

impl Outcome {
    /// What is printed.
    fn text(&self, alloc: Global) -> Result<Vec<u8>, AllocError>
        ensures { IfOk result (λ text. text.items ≡ text_of self.now) }
    {
        match self {
            Outcome::Broken { rule, place } => broken_text(alloc, *rule, *place),
            Outcome::OtherWork => b"rejected work\n".to_vec(alloc),
            Outcome::Judged { work, verdict } => verdict_text(alloc, *work, verdict),
        }
    }

    /// What the program ends with.
    fn status(&self) -> Status
        ensures { result ≡ status_of self.now }
    {
        match self {
            Outcome::Judged {
                verdict: Verdict::All | Verdict::OneWay,
                ..
            } => Status::Done,
            Outcome::Judged { .. } | Outcome::OtherWork | Outcome::Broken { .. } => {
                Status::Negative
            }
        }
    }
}

/// What is printed of a plan of this work by the verdict on its certificate.
fn verdict_text(alloc: Global, work: u128, verdict: &Verdict) -> Result<Vec<u8>, AllocError>
    ensures { IfOk result (λ text. text.items ≡ verdict_text work verdict.now) }
{
    let text = match verdict {
        Verdict::All => format!(in alloc; "certified all work {work}\n")?,
        Verdict::OneWay => format!(in alloc; "certified one-way work {work}\n")?,
        Verdict::Rejected(place) => format!(in alloc; "rejected at {place}\n")?,
    };
    Ok(text.into_bytes())
}

/// What is decided of a plan that was read.
fn decide(alloc: Global, costs: Costs, claim: CertifyInput) -> Result<Outcome, AllocError>
    ensures { IfOk result (IsDecided costs (shown_claim claim)) }
{
    let CertifyInput { measured, plan } = claim;
    let MeasuredViews { shape, sizes } = measured;
    let Plan {
        work: claimed,
        strategy,
        certificate,
        ..
    } = plan;
    let correct = match check(alloc, &shape, strategy) {
        Ok(correct) => correct,
        Err(CheckFault::Broken { rule, place }) => return Ok(Outcome::Broken { rule, place }),
        Err(CheckFault::Memory) => return Err(AllocError),
    };
    if work(&shape, &sizes, costs, &correct) != claimed {
        return Ok(Outcome::OtherWork);
    }
    let verdict = certify(&shape, &sizes, costs, &correct, &certificate);
    Ok(Outcome::Judged {
        work: claimed,
        verdict,
    })
}

/// Returns what `certify` answers for the bytes of a bundle, at these costs.
/// Fails for want of memory.
pub fn answer(alloc: Global, costs: Costs, bytes: &[u8]) -> Result<Answer, AllocError>
    ensures { IfOk result (λ a. IsCertifyOutput costs bytes.now a.text (status_number a.status)) }
{
    let claim = match read_for_certify(alloc, bytes) {
        Ok(claim) => claim,
        Err(fault) => return Answer::fault(alloc, &fault),
    };
    let outcome = decide(alloc, costs, claim)?;
    let text = outcome.text(alloc)?;
    let status = outcome.status();
    Ok(Answer {
        text: ChunkedText::of(text),
        status,
    })
}
