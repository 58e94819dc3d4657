//! The writer.

use crate::block::half;
use crate::plan::{Kind, Plan};
use std::alloc::{AllocError, Global};
use std::rt::Clock;
use std::sync::Wait;
use std::time::Instant;
use wh_desk::Writer;
use wh_store::Op;

/// Publishes an operation.
fn send(rt: &impl Wait, writer: &mut Writer, op: Op) -> Result<(), AllocError> {
    match writer.publish(rt, op) {
        Ok(()) => Ok(()),
        Err(_) => Err(AllocError),
    }
}

/// One night, in which a block is written anew by two operations.
fn night(
    rt: &impl Wait,
    alloc: Global,
    writer: &mut Writer,
    block: u32,
    turn: u64,
) -> Result<(), AllocError> {
    let first = half(alloc, block, false, turn)?;
    let second = half(alloc, block, true, turn)?;
    send(rt, writer, Op::Begin)?;
    send(rt, writer, Op::Put(0, first))?;
    send(rt, writer, Op::Put(0, second))?;
    send(rt, writer, Op::Commit)
}

/// Publishes night after night, until the time is over, and gives their number. None where memory or the clock is refused.
pub fn write<R: Wait + Clock>(
    rt: &R,
    alloc: Global,
    writer: &mut Writer,
    plan: &Plan,
) -> Option<u64> {
    if plan.kind == Kind::Idle {
        return Some(0);
    }
    let begin = Instant::now(rt).ok()?;
    let mut nights = 0;
    for turn in 1..u64::MAX {
        if begin.elapsed(rt).ok()? >= plan.length {
            break;
        }
        let block = (turn % u64::from(plan.blocks.max(1))) as u32;
        night(rt, alloc, writer, block, turn).ok()?;
        nights = turn;
    }
    Some(nights)
}
