//! The stages of the worked strategies.

use std::alloc::Global;
use std::test::Fail;
use test_given::shapes::shaped;
use wh_carry::{Stage, waves};
use wh_dag::Shape;
use wh_strategy::{Expression, Sources, Strategy, check};

/// comp v from these views
fn comp(alloc: Global, view: usize, from: &[usize]) -> Result<Expression, Fail> {
    Ok(Expression::Comp(view, Sources::new(Vec::from_slice(alloc, from)?)))
}

/// The stages of a list that is correct over the shape. None where it is not.
fn stages(alloc: Global, shape: &Shape, list: Vec<Expression>) -> Result<Option<Vec<Stage>>, Fail> {
    match check(alloc, shape, Strategy::new(list)) {
        Ok(correct) => Ok(Some(waves(alloc, &correct)?)),
        Err(_) => Ok(None),
    }
}

/// Whether the stage is a wave of these targets, each from this one view.
fn is_wave(stage: &Stage, targets: &[(usize, usize)]) -> bool {
    match stage {
        Stage::Wave(jobs) => {
            if jobs.len() != targets.len() {
                return false;
            }
            let jobs = jobs.as_slice();
            for place in 0..jobs.len() {
                let job = &jobs[place];
                let from = job.from.as_slice();
                if place >= targets.len() || from.len() != 1 {
                    return false;
                }
                if (job.view, from[0]) != targets[place] {
                    return false;
                }
            }
            true
        }
        Stage::Inst(_) => false,
    }
}

/// Whether the stage installs this view.
fn is_inst(stage: &Stage, view: usize) -> bool {
    match stage {
        Stage::Wave(_) => false,
        Stage::Inst(installed) => *installed == view,
    }
}

/// Of the bases B 0 and C 1, V1 2 over both, and V2 3 over B and V1.
fn one_way(alloc: Global) -> Result<Vec<Expression>, Fail> {
    let mut list = Vec::new(alloc);
    list.push(comp(alloc, 2, &[0])?)?;
    list.push(comp(alloc, 3, &[0])?)?;
    list.push(Expression::Inst(0))?;
    list.push(comp(alloc, 2, &[1])?)?;
    list.push(comp(alloc, 3, &[2])?)?;
    list.push(Expression::Inst(1))?;
    list.push(Expression::Inst(2))?;
    list.push(Expression::Inst(3))?;
    Ok(list)
}

/// Whether these are the stages of the one-way strategy.
fn are_of_one_way(stages: &[Stage]) -> bool {
    match stages {
        [first, b, second, third, c, v1, v2] => {
            is_wave(first, &[(2, 0), (3, 0)])
                && is_inst(b, 0)
                && is_wave(second, &[(2, 1)])
                && is_wave(third, &[(3, 2)])
                && is_inst(c, 1)
                && is_inst(v1, 2)
                && is_inst(v2, 3)
        }
        _ => false,
    }
}

#[test]
fn waves_of_plan_one_way(rt: HostRuntime) -> Result<(), Fail> {
    let alloc = rt.alloc();
    let shape = shaped(
        alloc,
        &[("B", "-"), ("C", "-"), ("V1", "B C"), ("V2", "B V1")],
    )?;
    let stages = stages(alloc, &shape, one_way(alloc)?)?;
    let right = match &stages {
        Some(stages) => are_of_one_way(stages.as_slice()),
        None => false,
    };
    assert!(rt; right);
    Ok(())
}

#[test]
fn no_expression_has_no_stage(rt: HostRuntime) -> Result<(), Fail> {
    let alloc = rt.alloc();
    let shape = shaped(alloc, &[])?;
    let stages = stages(alloc, &shape, Vec::new(alloc))?;
    let right = match &stages {
        Some(stages) => stages.is_empty(),
        None => false,
    };
    assert!(rt; right);
    Ok(())
}
