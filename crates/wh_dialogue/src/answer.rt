//! Answers commands, one at a time.

ghost use Rattle.std.specs.Prelude.{◌≡◌, IfOk, codes};
ghost use Rattle.wh_core.specs.Laws.{IsSetup};
ghost use Rattle.wh_core.specs.Log.{Log};
ghost use Rattle.wh_core.specs.Nights.{Setup};
ghost use Rattle.wh_core.specs.Standing.{StandsWith};
ghost use Rattle.wh_dialogue.specs.Inner.Steps.{IsAnsweredIn};
ghost use Rattle.wh_live.specs.Commands.{shown_command};
ghost use Rattle.wh_live.specs.Commands as command;
ghost use Rattle.wh_live.specs.Requests.{is_asked};
ghost use Rattle.wh_replies.specs.ReplyText.{line};
ghost use Rattle.wh_stay.specs.Standing.{IsLive, core_of, standing_of};

use crate::changes::changes_text;
use crate::night::night_text;
use crate::page::{append_reply, page_text};
use crate::tables::tables_text;
use std::alloc::{AllocError, Global};
use std::thread::Threads;
use wh_formula::{RowTest, RowValue};
use wh_live::Command;
use wh_load::ScheduledEvent;
use wh_replies::event_of;
use wh_stay::Live;
use wh_threads::ThreadBudget;

/// Tells whether a line asks for this event by itself.
fn is_asked(event: &ScheduledEvent) -> bool
    ensures { result ≡ is_asked event.now }
{
    match event {
        ScheduledEvent::Commit
        | ScheduledEvent::GiveUp
        | ScheduledEvent::Open { .. }
        | ScheduledEvent::Read { .. }
        | ScheduledEvent::Close { .. } => true,
        _ => false,
    }
}

/// What is printed of what is not known.
fn unknown(alloc: Global) -> Result<Vec<u8>, AllocError>
    ensures { IfOk result (λ text. text.items ≡ line (codes "unknown")) }
{
    b"unknown\n".as_slice().to_vec(alloc)
}

/// Returns what is printed of the reply to this event.
/// Fails for want of memory; then the event may have been answered.
fn event_text<F: RowTest + Drop, G: RowValue + Drop, R: Threads + Sync>(
    budget: &ThreadBudget<'_, R>,
    live: &mut Live<F, G>,
    event: ScheduledEvent,
) -> Result<Vec<u8>, AllocError>
    requires { IsLive live.old }
    ensures live { IsLive live.new }
    ensures answered { IfOk result (λ text. (s : Setup) (log : Log) → IsSetup s → StandsWith s log (core_of live.old)
        → IsAnsweredIn s log (standing_of live.old) (command.Event event) text.items live.new) }
{
    if !is_asked(&event) {
        return unknown(budget.alloc);
    }
    let asked = event_of(live.names().len(), &event);
    let reply = live.answer(asked);
    let mut text = Vec::new(budget.alloc);
    append_reply(budget, &mut text, live, event, &reply)?;
    Ok(text)
}

/// Returns what is printed of the answer to this command.
/// Fails for want of memory; then the command may have been carried out.
pub(crate) fn answer<F: RowTest + Drop, G: RowValue + Drop, R: Threads + Sync>(
    budget: &ThreadBudget<'_, R>,
    live: &mut Live<F, G>,
    command: Command,
) -> Result<Vec<u8>, AllocError>
    requires { IsLive live.old }
    ensures live { IsLive live.new }
    ensures answered { IfOk result (λ text. (s : Setup) (log : Log) → IsSetup s → StandsWith s log (core_of live.old)
        → IsAnsweredIn s log (standing_of live.old) (shown_command command) text.items live.new) }
{
    match command {
        Command::Night(parts) => night_text(budget, live, &parts),
        Command::Event(event) => event_text(budget, live, event),
        Command::Page {
            desk,
            view,
            limit,
            after,
        } => page_text(budget, live, desk, view, limit, after.as_deref()),
        Command::Tables => tables_text(budget.alloc, live),
        Command::Changes => changes_text(budget, live),
        Command::Quit => Ok(Vec::new(budget.alloc)),
        Command::Unknown => unknown(budget.alloc),
    }
}
