//! Holds what a night is asked for, and how far it has come.

use crate::gate::Gate;
use std::marker::Sync;
use std::thread::Threads;
use wh_carry::NightState;
use wh_dag::Catalog;
use wh_formula::{RowTest, RowValue};
use wh_row::Bag;
use wh_strategy::{Correct, Expression};
use wh_threads::ThreadBudget;

/// The night that is asked for, and the means by which it is carried out. Nothing of it is changed.
#[derive(Drop)]
pub struct NightRequest<'n, F: RowTest, G: RowValue, T: Gate, R: Threads + Sync> {
    /// The budget of threads, 1 to 16, which are the workers that draw jobs; the caller's is one of them.
    pub budget: &'n ThreadBudget<'n, R>,
    pub catalog: &'n Catalog<F, G>,
    /// The change of each view; those of derived views are not read.
    pub changes: &'n [Bag],
    /// The strategy, which was judged over this catalogue's shape (`is_of` tests it).
    pub correct: &'n Correct,
    /// The most rows of a view that one operation writes, 1 to 256, where something is published.
    pub page_keys: usize,
    /// The listener that is told of each job.
    pub gate: &'n T,
}

/// How far a night has come.
#[derive(Drop)]
pub(crate) struct Progress {
    pub(crate) state: NightState,
    /// What is reported so far: each expression with its rows.
    pub(crate) steps: Vec<(Expression, u128)>,
}
