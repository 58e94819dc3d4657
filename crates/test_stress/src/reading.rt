//! A reader.

use crate::block::{BLOCK, is_whole, mixed};
use crate::plan::{Kind, Plan};
use crate::times::Times;
use std::alloc::Global;
use std::io;
use std::rt::Clock;
use std::time::Instant;
use wh_desk::{Desk, DeskFault};
use wh_store::Page;

/// What a reader found.
#[derive(Drop)]
pub struct Reads {
    /// How many pages were read.
    pub reads: u64,
    /// How many were not one version's.
    pub torn: u64,
    /// How often no page was answered.
    pub unanswered: u64,
    /// How often the session's version had expired, so that another was opened.
    pub reopened: u64,
    /// The most nanoseconds that a page took.
    pub longest: u64,
    pub times: Times,
}

/// How often another session is opened for a page.
const TRIES: u32 = 1000;

/// The page of the view after this row. Where the session has expired, another is opened, which is counted.
fn page(desk: &mut Desk, after: Option<&[i64]>, rows: usize, reopened: &mut u64) -> Option<Page> {
    for _try in 0..TRIES {
        match desk.page(0, after, rows.clamp(1, 256)) {
            Ok(page) => return Some(page),
            Err(DeskFault::Expired { .. }) => {}
            Err(_) => return None,
        }
        *reopened = reopened.wrapping_add(1);
        if desk.close().is_err() || desk.open().is_err() {
            return None;
        }
    }
    None
}

/// A block that looks drawn.
fn block(plan: &Plan, drawn: u64) -> u32 {
    (drawn % u64::from(plan.blocks.max(1))) as u32
}

/// The last row before a block.
fn before(block: u32) -> [i64; 2] {
    [i64::from(block) - 1, BLOCK - 1]
}

impl Reads {
    pub fn new(alloc: Global) -> Option<Reads> {
        Some(Reads {
            reads: 0,
            torn: 0,
            unanswered: 0,
            reopened: 0,
            longest: 0,
            times: Times::new(alloc).ok()?,
        })
    }

    /// Reads a page, and notes how long it took.
    fn read(
        &mut self,
        rt: &impl Clock,
        desk: &mut Desk,
        after: &[i64],
        rows: usize,
        from: Instant,
    ) -> io::Result<Option<Page>> {
        let page = page(desk, Some(after), rows, &mut self.reopened);
        let took = u64::try_from(from.elapsed(rt)?.as_nanos()).unwrap_or(u64::MAX);
        self.times.note(took);
        self.longest = self.longest.max(took);
        self.reads = self.reads.wrapping_add(1);
        if page.is_none() {
            self.unanswered = self.unanswered.wrapping_add(1);
        }
        Ok(page)
    }

    /// Reads a page as the plan says.
    fn read_by(
        &mut self,
        rt: &impl Clock,
        desk: &mut Desk,
        plan: &Plan,
        drawn: u64,
        from: Instant,
    ) -> io::Result<()> {
        let block = block(plan, drawn);
        match plan.kind {
            Kind::Check => {
                let page = self.read(rt, desk, &before(block), 256, from)?;
                if page.is_some_and(|page| !is_whole(&page, block)) {
                    self.torn = self.torn.wrapping_add(1);
                }
            }
            Kind::Busy | Kind::Idle => {
                let row = (drawn >> 32) as i64 % BLOCK;
                let _page = self.read(rt, desk, &[i64::from(block), row], plan.rows, from)?;
            }
        }
        Ok(())
    }

    /// Reads page after page, until the time is over.
    fn go_on(
        &mut self,
        rt: &impl Clock,
        desk: &mut Desk,
        plan: &Plan,
        seed: u32,
    ) -> io::Result<()> {
        let begin = Instant::now(rt)?;
        for turn in 0..u64::MAX {
            let from = Instant::now(rt)?;
            if from.saturating_duration_since(begin) >= plan.length {
                break;
            }
            self.read_by(rt, desk, plan, mixed(seed, 1, turn), from)?;
        }
        Ok(())
    }

    /// Adds what another found.
    pub fn add(&mut self, other: &Reads) {
        self.reads = self.reads.wrapping_add(other.reads);
        self.torn = self.torn.wrapping_add(other.torn);
        self.unanswered = self.unanswered.wrapping_add(other.unanswered);
        self.reopened = self.reopened.wrapping_add(other.reopened);
        self.longest = self.longest.max(other.longest);
        self.times.add(&other.times);
    }
}

/// What the reader of this number finds at its desk. None where memory or the clock is refused.
pub fn read(
    rt: &impl Clock,
    alloc: Global,
    mut desk: Desk,
    plan: &Plan,
    number: u32,
) -> Option<Reads> {
    let mut reads = Reads::new(alloc)?;
    if desk.open().is_err() {
        return None;
    }
    reads.go_on(rt, &mut desk, plan, number).ok()?;
    Some(reads)
}
