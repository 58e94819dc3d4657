//! A writer and readers at once.

use crate::block::table;
use crate::plan::Plan;
use crate::reading::{Reads, read};
use crate::writing::write;
use std::alloc::{AllocError, Global};
use std::rt::Clock;
use std::sync::Wait;
use std::thread;
use std::thread::Threads;
use wh_desk::{Desk, Writer, open_warehouse};
use wh_store::{MAX_VERSIONS, MIN_VERSIONS, Store};

/// What stands in the way of a run.
#[derive(Clone, Copy)]
pub enum Fault {
    /// Memory or the clock was refused.
    Refused,
    /// The store could not be opened.
    Warehouse,
}

/// What was found.
#[derive(Drop)]
pub struct Found {
    /// By all readers together.
    pub reads: Reads,
    /// How many nights were published meanwhile.
    pub nights: u64,
}

/// A reader's desk and number.
#[derive(Drop)]
struct Seat {
    desk: Desk,
    number: u32,
}

fn seats(alloc: Global, desks: Vec<Desk>) -> Result<Vec<Seat>, AllocError> {
    let mut seats = Vec::new(alloc);
    let mut number = 0u32;
    for desk in desks {
        seats.push(Seat { desk, number })?;
        number = number.wrapping_add(1);
    }
    Ok(seats)
}

/// What all readers found together. None where memory or the clock is refused.
fn sum(alloc: Global, all: Vec<Option<Reads>>) -> Option<Reads> {
    let mut sum = Reads::new(alloc)?;
    for reads in &all {
        match reads {
            Some(reads) => sum.add(reads),
            None => return None,
        }
    }
    Some(sum)
}

/// Each reader in a thread of its own.
fn read_all<R: Threads + Clock + Sync>(
    rt: &R,
    alloc: Global,
    seats: Vec<Seat>,
    plan: &Plan,
) -> Option<Reads> {
    let all = thread::map_vec(
        rt,
        seats,
        &|seat: Seat| {
            let Seat { desk, number } = seat;
            read(rt, alloc, desk, plan, number)
        },
    );
    sum(alloc, all.ok()?)
}

/// Readers in threads of their own, and the writer in this one.
fn at_once<R: Threads + Wait + Clock + Sync>(
    rt: &R,
    alloc: Global,
    writer: &mut Writer,
    seats: Vec<Seat>,
    plan: &Plan,
) -> Option<Found> {
    let (reads, nights) = thread::join(
        rt,
        || read_all(rt, alloc, seats, plan),
        || write(rt, alloc, writer, plan),
    );
    Some(Found {
        reads: reads?,
        nights: nights?,
    })
}

/// A warehouse of one view, the table of the plan.
fn warehouse<R: Wait>(rt: &R, alloc: Global, plan: &Plan) -> Result<(Writer, Vec<Desk>), Fault> {
    let Ok(table) = table(alloc, plan.blocks) else {
        return Err(Fault::Refused);
    };
    if !table.is_table() {
        return Err(Fault::Warehouse);
    }
    let versions = plan.versions.clamp(MIN_VERSIONS, MAX_VERSIONS);
    let Ok(store) = Store::new(alloc, &[table], versions) else {
        return Err(Fault::Refused);
    };
    match open_warehouse(rt, alloc, store, plan.readers.clamp(1, 16)) {
        Ok(made) => Ok(made),
        Err(_) => Err(Fault::Warehouse),
    }
}

/// Carries the plan out.
pub fn run<R: Threads + Wait + Clock + Sync>(
    rt: &R,
    alloc: Global,
    plan: &Plan,
) -> Result<Found, Fault> {
    let (mut writer, desks) = warehouse(rt, alloc, plan)?;
    let found = match seats(alloc, desks) {
        Ok(seats) => at_once(rt, alloc, &mut writer, seats, plan),
        Err(AllocError) => None,
    };
    writer.end(rt);
    found.ok_or(Fault::Refused)
}
