//! Holds what the program writes, and the status that it ends with.

ghost use Rattle.std.specs.Prelude.{◌≡◌, ◌≢◌, IfOk, OnOk};
ghost use Rattle.wh_text.specs.FaultText.{fault_text};
ghost use Rattle.whview.specs.CheckOutput.{IsFaultShown, broken_text, line};
ghost use Rattle.whview.specs.NightOutput.{refused_text};
ghost use Rattle.whview.specs.Status.{status_number};

use crate::status::Status;
use std::alloc::{AllocError, Global};
use wh_dag::Shape;
use wh_load::{ChunkedText, LoadFault};
use wh_maint::MaintFault;
use wh_strategy::Rule;

/// A text, built whole and kept in chunks, and the status to end with.
#[derive(Drop)]
pub struct Answer {
    /// The bytes to write: lines, each with its LF.
    pub text: ChunkedText,
    /// The status that the program ends with.
    pub status: Status,
}

impl Answer {
    /// Makes the answer for a fault of the input.
    /// Fails for want of memory, also where this is the fault: it has no answer.
    pub fn fault(alloc: Global, fault: &LoadFault) -> Result<Answer, AllocError>
        ensures shown { IfOk result (λ a. IsFaultShown fault.now a.text (status_number a.status)) }
        ensures told { OnOk result (fault.now ≢ LoadFault.Memory) }
    {
        if let LoadFault::Memory = fault {
            return Err(AllocError);
        }
        let mut text = Vec::new(alloc);
        fault.append_text(alloc, &mut text)?;
        text.push(b'\n')?;
        Ok(Answer {
            text: ChunkedText::of(text),
            status: Status::Fault,
        })
    }

    /// Makes the answer where what was asked is not done, and this text says why.
    pub fn refused(text: Vec<u8>) -> Answer
        ensures text { result.text ≡ text.items }
        ensures status { result.status ≡ Status.Negative }
    {
        Answer {
            text: ChunkedText::of(text),
            status: Status::Negative,
        }
    }

    /// Makes an answer of this text.
    /// Fails for want of memory.
    pub fn of(alloc: Global, text: &str, status: Status) -> Result<Answer, AllocError>
        ensures text { IfOk result (λ a. a.text ≡ text.now) }
        ensures status { IfOk result (λ a. a.status ≡ status) }
    {
        let text = text.as_bytes().to_vec(alloc)?;
        Ok(Answer {
            text: ChunkedText::of(text),
            status,
        })
    }
}

/// Writes the text that is printed of a strategy that breaks this rule at this place.
/// Fails for want of memory.
pub fn broken_text(alloc: Global, rule: Rule, place: usize) -> Result<Vec<u8>, AllocError>
    ensures { IfOk result (λ text. text.items ≡ broken_text rule place) }
{
    let number = rule.number();
    let text = format!(in alloc; "broken S{number} at {place}\n")?;
    Ok(text.into_bytes())
}

/// Writes the text that says why a night or its opening contents are refused.
/// Fails for want of memory, also where this is the cause: nothing is printed of it.
pub fn cause_text(alloc: Global, shape: &Shape, fault: &MaintFault) -> Result<Vec<u8>, AllocError>
    ensures text { IfOk result (λ text. text.items ≡ refused_text shape.now.names fault.now) }
    ensures told { OnOk result (fault.now ≢ MaintFault.Memory) }
{
    let text = match fault {
        MaintFault::Large(view) => format!(in alloc; "refused large {}\n", shape.name(*view))?,
        MaintFault::Range(view) => format!(in alloc; "refused range {}\n", shape.name(*view))?,
        MaintFault::Absent(view, _) => format!(in alloc; "refused absent {}\n", shape.name(*view))?,
        MaintFault::Memory => return Err(AllocError),
    };
    Ok(text.into_bytes())
}
