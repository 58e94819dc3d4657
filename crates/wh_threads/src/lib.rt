//! Work that is cut into parts, which threads draw.
//!
//! A [`ThreadBudget`] says how many threads may work on one call, and has the runtime that starts them. It tells how many parts an amount
//! of [`Work`] is worth ([`ThreadBudget::parts`]), and does them ([`ThreadBudget::each`]). There are more parts than threads, and each
//! thread draws the next one when it is done with the last. So none waits for long for one that has a slow processor. The answers come in
//! the order of the parts, whichever thread was faster, so what many threads answer is what one does. This is the only place that calls
//! `rayon`.
#![tactic(auto)]

ghost use Rattle.std.specs.Prelude.{◌≡◌, ◌≤◌, ◌/◌, length, IfOk, OnErr};
ghost use Rattle.std.specs.Fn.{FnReturnsAt};
ghost use Rattle.std.specs.List.{All, AllZip};
ghost use Rattle.wh_threads.specs.Parts.{least_part, parts_of};
ghost use Rattle.wh_threads.specs.Inner.Drawn.{AreDrawn};

mod drawn;

use crate::drawn::{draw, in_order};
use rayon::prelude::*;
use std::alloc::{AllocError, Global};
use std::marker::{Send, Sync};
use std::sync::atomic::AtomicUsize;
use std::thread::Threads;

/// A kind of work that is cut into parts, by what it is counted in.
#[derive(Clone, Copy)]
pub enum Work {
    /// Rows from which combined rows are made, each with rows of other tables.
    DrivingRows,
    /// Records that are put in order, added up or changed.
    Records,
    /// Rows that are written as text.
    WrittenRows,
    /// Bytes of a text that is read.
    Bytes,
}

impl Work {
    /// Returns the amount from which on a part is worth the start of a thread.
    fn least_part(self) -> usize
        ensures part { result ≡ least_part self }
        ensures some { 1 ≤ result }
    {
        match self {
            Work::DrivingRows => 1_000,
            Work::Records => 10_000,
            Work::WrittenRows => 10_000,
            Work::Bytes => 65_536,
        }
    }
}

/// How many threads may work on one call, of which the caller's is one. It has the runtime that starts the others, and what they take
/// memory from.
#[derive(Drop)]
pub struct ThreadBudget<'a, R: Threads + Sync> {
    pub rt: &'a R,
    pub alloc: Global,
    pub threads: usize,
}

impl<R: Threads + Sync> ThreadBudget<'_, R> {
    /// Returns the number of parts into which an amount of work is cut: one for one thread, and some for each of several, as far as each
    /// part is worth a thread's start. There is one at least.
    pub fn parts(&self, work: Work, amount: usize) -> usize
        ensures { result ≡ parts_of self.now.threads (amount / least_part work) }
    {
        if self.threads < 2 {
            return 1;
        }
        let worth = amount / work.least_part();
        self.threads.saturating_mul(EACH).min(worth).max(1)
    }

    /// Calls `work` for each part, and returns its answers in the order of the parts. No more threads work on them than there are parts, the
    /// caller's among them; one part alone is done by the caller's. Fails where there is no memory for the list of answers, and then
    /// returns none of them.
    pub fn each<P: Sync, T: Send + Drop, F: Fn(&P) -> T + Copy + Send + Sync>(
        &self,
        parts: &[P],
        work: F,
    ) -> Result<Vec<T>, AllocError>
        requires { All (λ part. (lent : _) → lent.now ≡ part → F.pre work lent) parts.now }
        ensures answers { IfOk result (λ answers. AllZip (FnReturnsAt F.Fn work) parts.now answers.items) }
        ensures memory { OnErr result (1 ≤ length parts.now) }
    {
        if parts.is_empty() {
            return Ok(Vec::new(self.alloc));
        }
        let alloc = self.alloc;
        let next = &AtomicUsize::new(0);
        let work = &work;
        let hands: Vec<usize> = (0..self.threads.min(parts.len())).collect(alloc)?;
        let drawn = hands
            .par_iter()
            .with_min_len(1)
            .map(
                move |_hand: &usize| -> Result<Vec<(usize, T)>, AllocError>
                    requires { All (λ part. (lent : _) → lent.now ≡ part → F.pre work.now lent) parts.now }
                    ensures { IfOk result (λ done. AreDrawn (FnReturnsAt F.Fn work.entry.now) parts.entry.now done.items) }
                { draw(alloc, parts, work, next) },
            )
            .collect(self.rt, alloc)?;
        in_order(alloc, parts, work, drawn)
    }
}

/// How many parts there are for each of several threads.
const EACH: usize = 4;
