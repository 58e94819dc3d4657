//! Nights over a publisher that refuses one of their operations, or the give-ups after it.

use crate::nights::refusing::{Refusals, Refusing};
use crate::nights::run::has_rows;
use crate::nights::tested::tested_night;
use crate::nights::warehouse::{changes, one_thread, opening, store_of};
use std::alloc::{AllocError, Global};
use std::process::Abort;
use std::sync::Wait;
use std::test::Fail;
use std::thread::Threads;
use test_given::catalogs::{Cell, Every, joined, one_way, summed};
use wh_carry::Report;
use wh_dag::Catalog;
use wh_maint::are_bags;
use wh_night::{Aftermath, NightFault, NightRequest, NoGate, are_fit_for, night};
use wh_row::Bag;
use wh_store::{Ended, Op, Publish};
use wh_strategy::{Correct, check};

/// An operation without its rows.
#[derive(Clone, Copy, Debug, PartialEq, Eq)]
enum Step {
    Begin,
    Put(usize),
    Commit,
    GiveUp,
}

/// The night of two tables and the view that joins them: its Insts are those of a, b and v.
const NIGHT: [Step; 5] = [
    Step::Begin,
    Step::Put(0),
    Step::Put(1),
    Step::Put(2),
    Step::Commit,
];

/// The number of the cause that is want of memory.
const MEMORY: u8 = 1;

/// The number of the cause that an operation is held.
const HELD: u8 = 7;

fn steps(alloc: Global, published: &[Op]) -> Result<Vec<Step>, AllocError> {
    let mut steps = Vec::new(alloc);
    for op in published {
        let step = match op {
            Op::Begin => Step::Begin,
            Op::Put(view, _) => Step::Put(*view),
            Op::Commit => Step::Commit,
            Op::GiveUp => Step::GiveUp,
        };
        steps.push(step)?;
    }
    Ok(steps)
}

/// What the nights of this test are of.
#[derive(Drop)]
struct Setting {
    catalog: Catalog<Every, Cell>,
    changes: Vec<Bag>,
    correct: Correct,
}

/// A night of two tables, and a publisher that refuses this.
fn set(alloc: Global, refusals: Refusals) -> Result<(Setting, Refusing), Fail> {
    let catalog = joined(alloc)?;
    let tables = opening(alloc, &[(&[1, 5], 1), (&[2, 5], 1)])?;
    let changes = changes(alloc, &[(&[2, 10], -1), (&[3, 10], 1)])?;
    let Ok(correct) = check(alloc, catalog.shape(), one_way(alloc)?) else {
        return Err(Fail::from("a correct strategy"));
    };
    if !correct.is_of(catalog.shape()) || !are_bags(&catalog, &changes) {
        return Err(Fail::from("what a night asks for"));
    }
    let Some(store) = store_of(alloc, &catalog, tables, &changes, &correct)? else {
        return Err(Fail::from("fit tables"));
    };
    let writer = Refusing::new(alloc, store, refusals)?;
    let setting = Setting {
        catalog,
        changes,
        correct,
    };
    Ok((setting, writer))
}

/// Carries the night out.
fn carry_out<R: Threads + Wait + Sync>(
    rt: &R,
    alloc: Global,
    setting: &Setting,
    writer: &mut Refusing,
) -> Result<Result<Report, NightFault>, Fail> {
    let Setting {
        catalog,
        changes,
        correct,
    } = setting;
    let tables = writer.tables(alloc)?;
    let is_asked = correct.is_of(catalog.shape())
        && are_bags(catalog, changes)
        && are_bags(catalog, &tables);
    if !is_asked {
        return Err(Fail::from("what a night asks for"));
    }
    let Ok(true) = are_fit_for(alloc, catalog, &tables, changes, correct) else {
        return Err(Fail::from("tables that are fit for the night"));
    };
    let budget = one_thread(rt, alloc);
    let asked = NightRequest {
        budget: &budget,
        catalog,
        changes,
        correct,
        page_keys: 256,
        gate: &NoGate,
    };
    Ok(night(writer, &asked))
}

/// The version that the night made; or the number of the cause for which it was refused, and what it left.
fn told(answer: &Result<Report, NightFault>) -> Result<u64, (u8, Aftermath)> {
    match answer {
        Ok(report) => Ok(report.version),
        Err(fault) => Err((fault.cause.number(), fault.left)),
    }
}

/// What is refused where the operation of this number is, counted from 1, and then so many give-ups.
fn at(number: usize, holds: bool, give_ups: usize) -> Refusals {
    Refusals {
        after: number.checked_sub(1),
        holds,
        give_ups,
    }
}

/// Asserts what was published.
fn assert_published<R: Abort>(
    rt: &R,
    alloc: Global,
    writer: &Refusing,
    wanted: &[Step],
) -> Result<(), Fail> {
    let steps = steps(alloc, writer.published())?;
    assert_eq!(rt; steps.as_slice(), wanted);
    Ok(())
}

/// Asserts what the night tells where this is refused, what it has then published, and that nothing is left to give up.
fn assert_night<R: Threads + Wait + Sync + Abort>(
    rt: &R,
    alloc: Global,
    refusals: Refusals,
    wanted: Result<u64, (u8, Aftermath)>,
    published: &[Step],
) -> Result<(), Fail> {
    let (setting, mut writer) = set(alloc, refusals)?;
    let answer = carry_out(rt, alloc, &setting, &mut writer)?;
    assert_eq!(rt; told(&answer), wanted);
    assert_published(rt, alloc, &writer, published)?;
    assert_eq!(rt; writer.give_up(rt), Ok(Ended::NoneOpen));
    assert_published(rt, alloc, &writer, published)
}

/// Asserts that a night is refused while an operation is held, and publishes nothing.
fn assert_held<R: Threads + Wait + Sync + Abort>(
    rt: &R,
    alloc: Global,
    setting: &Setting,
    writer: &mut Refusing,
    published: &[Step],
) -> Result<(), Fail> {
    let answer = carry_out(rt, alloc, setting, writer)?;
    assert_eq!(rt; told(&answer), Err((HELD, Aftermath::Untouched)));
    assert_published(rt, alloc, writer, published)
}

#[test]
fn a_night_whose_begin_is_refused(rt: HostRuntime) -> Result<(), Fail> {
    let alloc = rt.alloc();
    let untouched = Err((MEMORY, Aftermath::Untouched));
    assert_night(&rt, alloc, at(1, false, 0), untouched, &[])?;
    let given_up = Err((MEMORY, Aftermath::GivenUp));
    assert_night(
        &rt,
        alloc,
        at(1, true, 0),
        given_up,
        &[Step::Begin, Step::GiveUp],
    )?;
    let still_open = Err((MEMORY, Aftermath::StillOpen));
    let (setting, mut writer) = set(alloc, at(1, true, 1))?;
    let answer = carry_out(&rt, alloc, &setting, &mut writer)?;
    assert_eq!(rt; told(&answer), still_open);
    assert_published(&rt, alloc, &writer, &[])?;
    assert_held(&rt, alloc, &setting, &mut writer, &[])?;
    assert_eq!(rt; writer.give_up(&rt), Ok(Ended::GivenUp));
    assert_published(&rt, alloc, &writer, &[Step::Begin, Step::GiveUp])
}

#[test]
fn a_night_that_is_refused_in_its_midst(rt: HostRuntime) -> Result<(), Fail> {
    let alloc = rt.alloc();
    let given_up = Err((MEMORY, Aftermath::GivenUp));
    let [begin, a, b, v, _commit] = NIGHT;
    let end = Step::GiveUp;
    assert_night(&rt, alloc, at(2, false, 0), given_up, &[begin, end])?;
    assert_night(&rt, alloc, at(3, false, 0), given_up, &[begin, a, end])?;
    assert_night(&rt, alloc, at(3, true, 0), given_up, &[begin, a, b, end])?;
    assert_night(&rt, alloc, at(4, false, 0), given_up, &[begin, a, b, end])?;
    assert_night(
        &rt,
        alloc,
        at(5, false, 0),
        given_up,
        &[begin, a, b, v, end],
    )
}

#[test]
fn a_night_whose_commit_is_held(rt: HostRuntime) -> Result<(), Fail> {
    let alloc = rt.alloc();
    assert_night(&rt, alloc, at(5, true, 0), Ok(1), &NIGHT)?;
    let (setting, mut writer) = set(alloc, at(5, true, 1))?;
    let answer = carry_out(&rt, alloc, &setting, &mut writer)?;
    assert_eq!(rt; told(&answer), Err((MEMORY, Aftermath::StillOpen)));
    let [begin, a, b, v, _commit] = NIGHT;
    assert_published(&rt, alloc, &writer, &[begin, a, b, v])?;
    assert_held(&rt, alloc, &setting, &mut writer, &[begin, a, b, v])?;
    assert_eq!(rt; writer.give_up(&rt), Ok(Ended::Committed));
    assert_published(&rt, alloc, &writer, &NIGHT)?;
    assert_eq!(rt; writer.current(), 1);
    let tables = writer.tables(alloc)?;
    let is_new = match tables.as_slice() {
        [_a, _b, table] => has_rows(table, &[&[1, 6], &[3, 6]]),
        _ => false,
    };
    assert!(rt; is_new);
    Ok(())
}

#[test]
fn a_night_that_nothing_refuses(rt: HostRuntime) -> Result<(), Fail> {
    assert_night(&rt, rt.alloc(), at(0, false, 0), Ok(1), &NIGHT)
}

// Of two catalogues, one has the three views that are published and one has two.
#[test]
fn a_night_that_is_tested_first(rt: HostRuntime) -> Result<(), Fail> {
    let alloc = rt.alloc();
    let (setting, mut writer) = set(alloc, at(0, false, 0))?;
    let Setting {
        catalog,
        changes,
        correct,
    } = &setting;
    let other = summed(alloc)?;
    let writer = &mut writer;
    let budget = one_thread(&rt, alloc);
    let of_two = NightRequest {
        budget: &budget,
        catalog: &other,
        changes,
        correct,
        page_keys: 256,
        gate: &NoGate,
    };
    let night = tested_night(writer, &of_two)?;
    assert!(rt; night.is_none());
    let of_three = NightRequest {
        budget: &budget,
        catalog,
        changes,
        correct,
        page_keys: 256,
        gate: &NoGate,
    };
    let night = tested_night(writer, &of_three)?;
    assert!(rt; night.is_some_and(|night| told(&night) == Ok(1)));
    Ok(())
}
