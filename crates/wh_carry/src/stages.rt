//! Cuts a strategy into stages: waves of Comps, and Insts.

ghost use Rattle.std.specs.Prelude.{◌≡◌, ◌≢◌, [], ◌∷◌, ◌++◌, length, IfOk, OnOk, OnErr, List};
ghost use Rattle.wh_strategy.specs.declared.expression.Expression.{Expression};
ghost use Rattle.wh_carry.specs.Waves.{is_target_among, stages_after, stages_of, wave_of};

use std::alloc::{AllocError, Global};
use std::marker::Model;
use wh_dag::has_view;
use wh_strategy::{Correct, Expression, Sources};

/// One Comp of a wave.
#[derive(Debug, Drop)]
pub struct Job {
    /// The view whose changes it computes.
    pub view: usize,
    /// The views from whose changes it computes them.
    pub from: Sources,
}

/// A part of a night that is over before the next one begins.
#[derive(Debug, Drop)]
pub enum Stage {
    /// Comps that may be computed in any order, also at the same time.
    Wave(Jobs),
    /// The Inst of a view.
    Inst(usize),
}

/// The jobs of a wave, numbered from 0 in the order of the strategy.
#[derive(Debug, Drop)]
pub struct Jobs {
    jobs: Vec<Job>,
}

impl Model for Jobs {
    ghost use Rattle.std.specs.Prelude.{List};
    ghost use Rattle.wh_carry.specs.declared.stages.Job.{Job};

    ghost Value = { List Job };

    ghost view = { λ j. j.jobs.items };
}

impl Jobs {
    /// Returns how many jobs there are.
    pub fn len(&self) -> usize
        ensures { result ≡ length self.now }
    {
        self.jobs.len()
    }

    /// Lends the jobs in their order.
    pub fn as_slice(&self) -> &[Job]
        ensures { result.now ≡ self.now }
    {
        self.jobs.as_slice()
    }
}

/// Returns the stages of a correct list in its order. An Inst is a stage of its own and ends the open wave. A Comp joins the open wave,
/// unless it is from a view that a Comp of that wave computes; then it opens the next one.
/// Fails for want of memory, and only where the list is not empty.
/// Takes O(E² C) time for E expressions, each from at most C views.
pub fn waves(alloc: Global, correct: &Correct) -> Result<Vec<Stage>, AllocError>
    ensures stages { IfOk result (λ stages. stages.items ≡ stages_of correct.now.list) }
    ensures memory { OnErr result (correct.now.list ≢ []) }
{
    let list = correct.strategy().as_slice();
    let mut stages = Vec::new(alloc);
    let mut jobs = Vec::new(alloc);
    for expression in list {
        add_expression(alloc, expression, &mut jobs, &mut stages)?;
    }
    end_wave(alloc, &mut jobs, &mut stages)?;
    Ok(stages)
}

/// Takes the next expression in, behind the stages that are over and the jobs of the open wave.
fn add_expression(
    alloc: Global,
    expression: &Expression,
    jobs: &mut Vec<Job>,
    stages: &mut Vec<Stage>,
) -> Result<(), AllocError>
    ensures { OnOk result ((rest : List Expression) → stages.new.items ++ stages_after jobs.new.items rest ≡ stages.old.items ++ stages_after jobs.old.items (expression.now ∷ rest)) }
{
    match expression {
        Expression::Inst(view) => {
            end_wave(alloc, jobs, stages)?;
            stages.push(Stage::Inst(*view))?;
        }
        Expression::Comp(view, from) => {
            if reads_target(from.as_slice(), jobs.as_slice()) {
                end_wave(alloc, jobs, stages)?;
            }
            let from = from.copy(alloc)?;
            jobs.push(Job { view: *view, from })?;
        }
    }
    Ok(())
}

/// Whether one of these views is the target of one of these jobs.
fn reads_target(views: &[usize], jobs: &[Job]) -> bool
    ensures { result ≡ is_target_among views.now jobs.now }
{
    jobs.iter().any(|job| has_view(views, job.view))
}

/// Ends the open wave, if it has a job.
fn end_wave(alloc: Global, jobs: &mut Vec<Job>, stages: &mut Vec<Stage>) -> Result<(), AllocError>
    ensures ended { OnOk result (stages.new.items ≡ stages.old.items ++ wave_of jobs.old.items) }
    ensures none_open { OnOk result (jobs.new.items ≡ []) }
    ensures memory { OnErr result (jobs.old.items ≢ []) }
{
    if jobs.is_empty() {
        return Ok(());
    }
    let jobs = std::mem::replace(jobs, Vec::new(alloc));
    stages.push(Stage::Wave(Jobs { jobs }))?;
    Ok(())
}
