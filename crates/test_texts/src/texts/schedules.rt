// Schedules over a base a and v over it.

mod given;

use crate::texts::cases::{Reads, agree, beginnings, fault_line};
use given::{EXAMPLES, FAULTS, SCHEDULES, TWO_FAULTS};
use std::alloc::{AllocError, Global};
use wh_load::{LoadFault, Names, Schedule, ScheduledEvent, read_schedule, read_shape};

/// The names of two views, the second over the first.
fn names(alloc: Global) -> Result<Names, LoadFault> {
    let shape = read_shape(
        alloc,
        b"view = [{name = \"a\"}, {name = \"v\", over = [\"a\"]}]",
    )?;
    Ok(Names::of(alloc, &shape)?)
}

/// The line of a read.
fn read_line(
    alloc: Global,
    desk: usize,
    view: Option<usize>,
    limit: usize,
) -> Result<String, AllocError> {
    match view {
        Some(view) => Ok(format!(in alloc; "desk {desk} reads {limit} of {view}\n")?),
        None => Ok(format!(in alloc; "desk {desk} reads {limit} of no view\n")?),
    }
}

/// The line of an event.
fn event_line(alloc: Global, event: ScheduledEvent) -> Result<String, AllocError> {
    match event {
        ScheduledEvent::Begin => String::from_str(alloc, "night\n"),
        ScheduledEvent::Take { worker } => Ok(format!(in alloc; "worker {worker} draws\n")?),
        ScheduledEvent::Done { worker } => Ok(format!(in alloc; "worker {worker} is done\n")?),
        ScheduledEvent::Page => String::from_str(alloc, "put\n"),
        ScheduledEvent::Commit => String::from_str(alloc, "new\n"),
        ScheduledEvent::GiveUp => String::from_str(alloc, "old\n"),
        ScheduledEvent::Open { desk } => Ok(format!(in alloc; "desk {desk} comes\n")?),
        ScheduledEvent::Read { desk, view, limit } => read_line(alloc, desk, view, limit),
        ScheduledEvent::Close { desk } => Ok(format!(in alloc; "desk {desk} goes\n")?),
    }
}

/// The numbers of the head, and a line for each event.
pub(crate) fn schedule_lines(alloc: Global, schedule: &Schedule) -> Result<String, AllocError> {
    let (desks, workers) = (schedule.desks(), schedule.workers());
    let (keys, versions) = (schedule.keys(), schedule.versions());
    let mut text = format!(in alloc; "{desks} {workers} {keys} {versions}\n")?;
    for event in schedule.events() {
        text.push_str(event_line(alloc, *event)?.as_str())?;
    }
    Ok(text)
}

/// What a schedule says, or the fault.
pub(crate) fn outcome(alloc: Global, text: &[u8]) -> Result<String, AllocError> {
    let Ok(names) = names(alloc) else {
        return String::from_str(alloc, "no names");
    };
    match read_schedule(alloc, &names, text) {
        Ok(schedule) => schedule_lines(alloc, &schedule),
        Err(fault) => fault_line(alloc, &fault),
    }
}

#[test]
fn schedules_are_read_or_their_fault_is_told(rt: HostRuntime) -> Result<(), AllocError> {
    let alloc = rt.alloc();
    agree(&rt, alloc, Reads::Schedule, "", SCHEDULES)?;
    agree(
        &rt,
        alloc,
        Reads::Schedule,
        "desks 2\nworkers 1\nkeys 256\n",
        FAULTS,
    )?;
    agree(&rt, alloc, Reads::Schedule, "", TWO_FAULTS)
}

#[test]
fn the_schedules_of_worked_examples_are_read(rt: HostRuntime) -> Result<(), AllocError> {
    agree(&rt, rt.alloc(), Reads::Schedule, "", EXAMPLES)
}

#[test]
fn every_beginning_of_a_schedule_is_read_or_refused(rt: HostRuntime) -> Result<(), AllocError> {
    let text = "desks 2\nworkers 1\nkeys 256\nversions 3\nopen 0\nread 0 a 10\ngiveup\n";
    beginnings(
        &rt,
        rt.alloc(),
        Reads::Schedule,
        text,
        &["9 fault schedule "],
    )
}
