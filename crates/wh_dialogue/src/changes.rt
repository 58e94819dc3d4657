//! Writes by how much the rows of derived views count otherwise in what an open night has written.

ghost use Rattle.std.specs.Prelude.{◌≡◌, ◌⊎◌, ◌++◌, codes, IfOk, OnOk};
ghost use Rattle.wh_core.specs.Changes.{change_written};
ghost use Rattle.wh_core.specs.Laws.{IsSetup};
ghost use Rattle.wh_core.specs.Log.{Log};
ghost use Rattle.wh_core.specs.Nights.{Setup, versions};
ghost use Rattle.wh_core.specs.Standing.{StandsWith};
ghost use Rattle.wh_dag.specs.Written.{name_of};
ghost use Rattle.wh_dialogue.specs.Said.{change_text, change_texts, changes_text};
ghost use Rattle.wh_replies.specs.ReplyText.{line};
ghost use Rattle.wh_stay.specs.Standing.{IsLive, core_of, standing_of};
ghost use Rattle.wh_text_catalogue.specs.Definitions.{shown_view};

use crate::page::append_table;
use std::alloc::{AllocError, Global};
use std::thread::Threads;
use wh_formula::{RowTest, RowValue};
use wh_load::{Names, WrittenView};
use wh_stay::Live;
use wh_threads::ThreadBudget;

/// The name of a view, none where there is no such view.
fn name_of(names: &Names, view: usize) -> &str
    ensures { result.now ≡ name_of names.now view }
{
    if view < names.len() {
        names.name(view)
    } else {
        ""
    }
}

/// Appends the change of a derived view under its name; of a base view nothing.
fn append_change<F: RowTest + Drop, G: RowValue + Drop, R: Threads + Sync>(
    budget: &ThreadBudget<'_, R>,
    out: &mut Vec<u8>,
    live: &Live<F, G>,
    view: usize,
    own: &WrittenView,
) -> Result<(), AllocError>
    requires { IsLive live.now }
    ensures { OnOk result ((s : Setup) (log : Log) → IsSetup s → StandsWith s log (core_of live.now)
        → out.new.items ≡ out.old.items ++ change_text (standing_of live.now) view (shown_view own.now) (change_written (versions s log) view)) }
{
    if own.definition.is_none() {
        return Ok(());
    }
    let change = live.change(view)?;
    out.extend_from_slice(b"changes ")?;
    out.extend_from_slice(name_of(live.names(), view).as_bytes())?;
    out.push(b'\n')?;
    append_table(budget, out, &own.columns, &change, live.texts())?;
    Ok(())
}

/// The text of the changes of all derived views.
fn all_changes<F: RowTest + Drop, G: RowValue + Drop, R: Threads + Sync>(
    budget: &ThreadBudget<'_, R>,
    live: &Live<F, G>,
) -> Result<Vec<u8>, AllocError>
    requires { IsLive live.now }
    ensures { IfOk result (λ text. (s : Setup) (log : Log) → IsSetup s → StandsWith s log (core_of live.now)
        → text.items ≡ changes_text (standing_of live.now) (change_written (versions s log))) }
{
    let mut text = Vec::new(budget.alloc);
    let views = live.views();
    for view in 0..views.len() {
        append_change(budget, &mut text, live, view, &views[view])?;
    }
    text.extend_from_slice(b"end\n")?;
    Ok(text)
}

/// Returns what is printed of what the open night changes: `memory` where memory was refused for it.
/// Fails for want of memory.
pub(crate) fn changes_text<F: RowTest + Drop, G: RowValue + Drop, R: Threads + Sync>(
    budget: &ThreadBudget<'_, R>,
    live: &Live<F, G>,
) -> Result<Vec<u8>, AllocError>
    requires { IsLive live.now }
    ensures { IfOk result (λ text. (s : Setup) (log : Log) → IsSetup s → StandsWith s log (core_of live.now)
        → (text.items ≡ changes_text (standing_of live.now) (change_written (versions s log))) ⊎ (text.items ≡ line (codes "memory"))) }
{
    match all_changes(budget, live) {
        Ok(text) => Ok(text),
        Err(AllocError) => b"memory\n".as_slice().to_vec(budget.alloc),
    }
}
