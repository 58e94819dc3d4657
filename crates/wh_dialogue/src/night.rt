//! Carries a night out up to before its commit, and writes what is printed of it.

ghost use Rattle.std.specs.Prelude.{◌≡◌, ◌↔◌, ◌++◌, IfOk, IsTrue, OnOk};
ghost use Rattle.wh_core.specs.Laws.{IsSetup};
ghost use Rattle.wh_core.specs.Log.{Log};
ghost use Rattle.wh_core.specs.Nights.{Setup};
ghost use Rattle.wh_core.specs.Standing.{StandsWith};
ghost use Rattle.wh_dialogue.specs.Dialogue.{is_refusal};
ghost use Rattle.wh_dialogue.specs.Said.{told_text};
ghost use Rattle.wh_dialogue.specs.Inner.Steps.{CarriedIn, IsAnsweredIn};
ghost use Rattle.wh_live.specs.Commands as command;
ghost use Rattle.wh_stay.specs.Standing.{IsLive, core_of, standing_of};

use crate::page::append_said;
use std::alloc::{AllocError, Global};
use std::thread::Threads;
use wh_core::Reply;
use wh_formula::{RowTest, RowValue};
use wh_stay::{Live, NightTold};
use wh_threads::ThreadBudget;

/// Tells whether the reply is a refusal.
fn is_refusal(reply: &Reply) -> bool
    ensures { result ≡ is_refusal reply.now }
{
    matches!(reply, Reply::Refused(_))
}

/// Appends what is told of a night whose parts came.
fn append_told(alloc: Global, out: &mut Vec<u8>, told: &NightTold) -> Result<(), AllocError>
    ensures { OnOk result (out.new.items ≡ out.old.items ++ told_text told.now) }
{
    match told {
        NightTold::Fault(fault) => {
            fault.append_text(alloc, out)?;
            out.extend_from_slice(b"\n")
        }
        NightTold::Broken { rule, place } => {
            let number = rule.number();
            let text = format!(in alloc; "broken S{number} at {place}\n")?;
            out.extend_from_slice(text.as_bytes())
        }
        NightTold::Replied(reply) => append_said(alloc, out, reply),
    }
}

/// Carries a night on, and appends what is printed of it: up to where it can be committed, or to the first refusal. A refused night stays
/// open, and can be given up.
fn carry_on<F: RowTest + Drop, G: RowValue + Drop>(
    alloc: Global,
    live: &mut Live<F, G>,
    out: &mut Vec<u8>,
) -> Result<(), AllocError>
    requires { IsLive live.old }
    ensures live { IsLive live.new }
    ensures standing { standing_of live.new ≡ standing_of live.old }
    ensures carried { OnOk result ((s : Setup) (log : Log) → IsSetup s → StandsWith s log (core_of live.old) → CarriedIn s log out.old.items out.new.items (core_of live.new)) }
{
    for turn in 0..u64::MAX {
        let Some((_, reply)) = live.carry_on() else {
            return out.extend_from_slice(b"ready\n");
        };
        append_said(alloc, out, &reply)?;
        if is_refusal(&reply) {
            return Ok(());
        }
    }
    unreachable!()
}

/// Returns what is printed of a night with these parts, which is carried out up to before its commit.
/// Fails for want of memory; then the night may stand where nothing was printed of it.
pub(crate) fn night_text<F: RowTest + Drop, G: RowValue + Drop, R: Threads + Sync>(
    budget: &ThreadBudget<'_, R>,
    live: &mut Live<F, G>,
    parts: &[u8],
) -> Result<Vec<u8>, AllocError>
    requires { IsLive live.old }
    ensures live { IsLive live.new }
    ensures answered { IfOk result (λ text. (s : Setup) (log : Log) → IsSetup s → StandsWith s log (core_of live.old)
        → IsAnsweredIn s log (standing_of live.old) (command.Night parts.now) text.items live.new) }
{
    let told = live.begin_night(budget, parts);
    let mut text = Vec::new(budget.alloc);
    append_told(budget.alloc, &mut text, &told)?;
    if !told.has_begun() {
        return Ok(text);
    }
    carry_on(budget.alloc, live, &mut text)?;
    Ok(text)
}
