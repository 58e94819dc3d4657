// What `replay` reads: bundles of several nights, each with what it says or its first fault.

mod given;

use crate::texts::cases::{Reads, agree, chunked_bytes, fault_line, text_of};
use crate::texts::definitions::dict_lines;
use crate::texts::schedules::schedule_lines;
use given::{FAULTS, NIGHTS, NO_NIGHT};
use std::alloc::{AllocError, Global};
use std::thread::Threads;
use wh_load::{
    ChunkedText, Dict, GivenNight, Names, ReplayInput, WrittenView, read_for_replay,
    write_strategy, write_table,
};
use wh_row::Bag;
use wh_threads::ThreadBudget;

/// The tables of these views, as they are written.
fn rows_text<R: Threads + Sync>(
    budget: &ThreadBudget<'_, R>,
    views: &[WrittenView],
    rows: &[Bag],
    dict: &Dict,
) -> Result<String, AllocError> {
    let mut out = ChunkedText::new(budget.alloc);
    for (view, own) in views.iter().zip(rows) {
        write_table(budget, &mut out, &view.columns, own, dict)?;
    }
    text_of(budget.alloc, &chunked_bytes(budget.alloc, &out)?)
}

/// What is given of a night: its changes as tables, and its strategy.
fn night_text<R: Threads + Sync>(
    budget: &ThreadBudget<'_, R>,
    names: &Names,
    views: &[WrittenView],
    night: &GivenNight,
    dict: &Dict,
) -> Result<String, AllocError> {
    let mut text = rows_text(budget, views, &night.changes, dict)?;
    let mut list = Vec::new(budget.alloc);
    write_strategy(&mut list, names, &night.strategy)?;
    text.push_str(text_of(budget.alloc, &list)?.as_str())?;
    Ok(text)
}

/// All that was read for a replay: texts, tables, nights and schedule.
fn input_text<R: Threads + Sync>(
    budget: &ThreadBudget<'_, R>,
    input: &ReplayInput,
) -> Result<String, AllocError> {
    let alloc = budget.alloc;
    let names = Names::of(alloc, &input.shape)?;
    let opening = &input.opening;
    let mut text = dict_lines(alloc, &opening.texts)?;
    let tables = rows_text(budget, &opening.views, &opening.tables, &opening.texts)?;
    text.push_str(tables.as_str())?;
    for night in &input.nights {
        let own = night_text(budget, &names, &opening.views, night, &opening.texts)?;
        text.push_str("night\n")?;
        text.push_str(own.as_str())?;
    }
    text.push_str(schedule_lines(alloc, &input.schedule)?.as_str())?;
    Ok(text)
}

/// The texts that cells stand for, the tables, the changes and the strategy of each night, and the schedule; or the fault.
pub(crate) fn outcome<R: Threads + Sync>(
    budget: &ThreadBudget<'_, R>,
    text: &[u8],
) -> Result<String, AllocError> {
    match read_for_replay(budget, text) {
        Ok(input) => input_text(budget, &input),
        Err(fault) => fault_line(budget.alloc, &fault),
    }
}

#[test]
fn what_is_replayed_is_read(rt: HostRuntime) -> Result<(), AllocError> {
    let alloc = rt.alloc();
    agree(&rt, alloc, Reads::Replay, "", NIGHTS)?;
    agree(&rt, alloc, Reads::Replay, "", NO_NIGHT)
}

#[test]
fn of_two_faults_of_what_is_replayed_the_first_is_told(rt: HostRuntime) -> Result<(), AllocError> {
    agree(&rt, rt.alloc(), Reads::Replay, "", FAULTS)
}
