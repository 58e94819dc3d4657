// The worked schedules.
ghost use Rattle.std.specs.Prelude.{IfOk};
ghost use Rattle.wh_core.specs.Standing.{IsFresh};

use crate::machine::given::{Lists, add_night, carried, machine};
use crate::machine::schedules::{
    Said, Schedule, assert_further_steps, assert_run, assert_said, assert_steps, events_of,
};
use std::alloc::Global;
use std::process::Abort;
use std::test::Fail;
use std::thread::Threads;
use test_given::catalogs::{Cell, Every};
use wh_core::{Cause, Core, Event, MachineOptions};

static A_CHANGE_AND_NONE: [Lists<'static>; 2] = [&[&[(&[1], -1), (&[2], 1)], &[]], &[&[], &[]]];

/// a holds (1), and v is a copy of it. The first night brings -(1) +(2), the second nothing.
fn two_nights(
    rt: &(impl Abort + Threads + Sync),
    alloc: Global,
    options: MachineOptions,
) -> Result<Core<Every, Cell>, Fail>
    ensures { IfOk result (λ core. IsFresh core) }
{
    machine(rt, alloc, &[&[(&[1], 1)], &[]], &A_CHANGE_AND_NONE, options)
}

static TWO_NIGHTS: [(Event, Said); 13] = [
    (Event::Open(0), Said::Session(0)),
    (Event::Begin, Said::Begun),
    (Event::Take(0), Said::Job(0)),
    (Event::Done(0), Said::Done),
    (Event::PageIn, Said::Paged(2)),
    (Event::Read(0, 0, 10), Said::End(&[1])),
    (Event::PageIn, Said::Paged(2)),
    (Event::Commit, Said::Version(1)),
    (Event::Read(0, 1, 10), Said::End(&[1])),
    (Event::Open(1), Said::Session(1)),
    (Event::Begin, Said::Begun),
    (
        Event::Read(0, 1, 10),
        Said::Refused(Cause::Expired(0, 1, true)),
    ),
    (Event::Read(1, 1, 10), Said::End(&[2])),
];

#[test]
fn replay_two_nights(rt: HostRuntime) -> Result<(), Fail> {
    let options = MachineOptions {
        desks: 2,
        workers: 1,
        page_keys: 256,
        versions: 2,
    };
    let mut core = two_nights(&rt, rt.alloc(), options)?;
    assert_run(&rt, rt.alloc(), &mut core, &TWO_NIGHTS)
}

static NONE_LEFT: [(Event, Said); 1] = [(Event::Begin, Said::Refused(Cause::NoNight))];

/// The second night is added once the first has committed, and both are answered as if they had been there from the start.
#[test]
fn a_night_that_is_added_is_the_next(rt: HostRuntime) -> Result<(), Fail> {
    let options = MachineOptions {
        desks: 2,
        workers: 1,
        page_keys: 256,
        versions: 2,
    };
    let base: Lists<'_> = &[&[(&[1], 1)], &[]];
    let [first, second] = A_CHANGE_AND_NONE;
    let mut core = machine(&rt, rt.alloc(), base, &[first], options)?;
    let (till_commit, behind) = TWO_NIGHTS.split_at(8);
    assert_steps(&rt, &mut core, till_commit);
    assert_further_steps(&rt, &mut core, &NONE_LEFT);
    add_night(&rt, rt.alloc(), &mut core, second)?;
    assert_further_steps(&rt, &mut core, behind);
    Ok(())
}

#[test]
fn two_nights_are_carried_out_by_one_call(rt: HostRuntime) -> Result<(), Fail> {
    let options = MachineOptions {
        desks: 2,
        workers: 1,
        page_keys: 256,
        versions: 2,
    };
    let alloc = rt.alloc();
    let events = events_of(alloc, &TWO_NIGHTS)?;
    let base: Lists<'_> = &[&[(&[1], 1)], &[]];
    let replies = carried(&rt, alloc, base, &A_CHANGE_AND_NONE, options, &events)?;
    assert_said(&rt, &replies, &TWO_NIGHTS);
    Ok(())
}

static GIVE_UP: [(Event, Said); 12] = [
    (Event::Open(0), Said::Session(0)),
    (Event::Begin, Said::Begun),
    (Event::PageIn, Said::Paged(2)),
    (Event::Commit, Said::Version(1)),
    (Event::Open(1), Said::Session(1)),
    (Event::Begin, Said::Begun),
    (Event::PageIn, Said::Paged(2)),
    (Event::GiveUp, Said::Version(2)),
    (
        Event::Read(0, 0, 10),
        Said::Refused(Cause::Expired(0, 2, false)),
    ),
    (Event::Read(1, 0, 10), Said::End(&[2])),
    (Event::Open(2), Said::Session(2)),
    (Event::Read(2, 0, 10), Said::End(&[2])),
];

#[test]
fn replay_give_up(rt: HostRuntime) -> Result<(), Fail> {
    let options = MachineOptions {
        desks: 3,
        workers: 1,
        page_keys: 256,
        versions: 2,
    };
    let changes: [Lists<'_>; 2] = [&[&[(&[1], -1), (&[2], 1)]], &[&[(&[2], -1), (&[3], 1)]]];
    let mut core = machine(&rt, rt.alloc(), &[&[(&[1], 1)]], &changes, options)?;
    assert_run(&rt, rt.alloc(), &mut core, &GIVE_UP)
}

static THREE_VERSIONS: [(Event, Said); 19] = [
    (Event::Open(0), Said::Session(0)),
    (Event::Begin, Said::Begun),
    (Event::PageIn, Said::Paged(2)),
    (Event::Commit, Said::Version(1)),
    (Event::Open(1), Said::Session(1)),
    (Event::Begin, Said::Begun),
    (Event::Read(0, 0, 10), Said::End(&[1])),
    (Event::PageIn, Said::Paged(2)),
    (Event::Commit, Said::Version(2)),
    (Event::Read(0, 0, 10), Said::End(&[1])),
    (Event::Begin, Said::Begun),
    (
        Event::Read(0, 0, 10),
        Said::Refused(Cause::Expired(0, 2, true)),
    ),
    (Event::Read(1, 0, 10), Said::End(&[2])),
    (Event::PageIn, Said::Paged(2)),
    (Event::GiveUp, Said::Version(3)),
    (Event::Read(1, 0, 10), Said::End(&[2])),
    (Event::Open(2), Said::Session(3)),
    (Event::Read(2, 0, 10), Said::End(&[3])),
    (Event::Begin, Said::Refused(Cause::NoNight)),
];

#[test]
fn replay_three_versions(rt: HostRuntime) -> Result<(), Fail> {
    let options = MachineOptions {
        desks: 3,
        workers: 1,
        page_keys: 256,
        versions: 3,
    };
    let changes: [Lists<'_>; 3] = [
        &[&[(&[1], -1), (&[2], 1)]],
        &[&[(&[2], -1), (&[3], 1)]],
        &[&[(&[3], -1), (&[4], 1)]],
    ];
    let mut core = machine(&rt, rt.alloc(), &[&[(&[1], 1)]], &changes, options)?;
    assert_run(&rt, rt.alloc(), &mut core, &THREE_VERSIONS)
}

static AFTER_A_GIVE_UP: [(Event, Said); 29] = [
    (Event::Open(0), Said::Session(0)),
    (Event::Begin, Said::Begun),
    (Event::Take(0), Said::Job(0)),
    (Event::Done(0), Said::Done),
    (Event::PageIn, Said::Paged(2)),
    (Event::PageIn, Said::Paged(2)),
    (Event::GiveUp, Said::Version(1)),
    (Event::Open(1), Said::Session(1)),
    (Event::Read(1, 0, 10), Said::End(&[1])),
    (Event::Read(1, 1, 10), Said::End(&[1])),
    (Event::Begin, Said::Begun),
    (Event::Take(0), Said::Job(0)),
    (Event::Done(0), Said::Done),
    (Event::PageIn, Said::Paged(1)),
    (Event::PageIn, Said::Paged(1)),
    (Event::Commit, Said::Version(2)),
    (Event::Open(2), Said::Session(2)),
    (Event::Read(2, 0, 10), Said::End(&[1, 3])),
    (Event::Read(2, 1, 10), Said::End(&[1, 3])),
    (Event::Begin, Said::Begun),
    (Event::Take(0), Said::Job(0)),
    (Event::Done(0), Said::Done),
    (Event::PageIn, Said::Paged(1)),
    (Event::PageIn, Said::Paged(1)),
    (Event::Commit, Said::Version(3)),
    (Event::Begin, Said::Refused(Cause::Absent)),
    (Event::Open(3), Said::Session(3)),
    (Event::Read(3, 0, 10), Said::End(&[1])),
    (Event::Read(3, 1, 10), Said::End(&[1])),
];

static CHANGES: [Lists<'static>; 4] = [
    &[&[(&[1], -1), (&[2], 1)], &[]],
    &[&[(&[3], 1)], &[]],
    &[&[(&[3], -1)], &[]],
    &[&[(&[2], -1)], &[]],
];

/// A night that brings -(1) +(2) is given up; the nights behind it bring +(3), then -(3), and then -(2), which is not there.
#[test]
fn nights_go_on_after_one_that_was_given_up(rt: HostRuntime) -> Result<(), Fail> {
    let options = MachineOptions {
        desks: 4,
        workers: 1,
        page_keys: 256,
        versions: 4,
    };
    let mut core = machine(&rt, rt.alloc(), &[&[(&[1], 1)], &[]], &CHANGES, options)?;
    assert_run(&rt, rt.alloc(), &mut core, &AFTER_A_GIVE_UP)
}

static ONE_KEY_A_PAGE: [(Event, Said); 13] = [
    (Event::Open(0), Said::Session(0)),
    (Event::Begin, Said::Begun),
    (Event::Read(0, 0, 1), Said::More(&[1])),
    (Event::PageIn, Said::Paged(1)),
    (Event::Read(0, 0, 1), Said::More(&[3])),
    (Event::PageIn, Said::Paged(1)),
    (Event::Read(0, 0, 1), Said::End(&[5])),
    (Event::Commit, Said::Refused(Cause::NotReady)),
    (Event::PageIn, Said::Paged(1)),
    (Event::Commit, Said::Version(1)),
    (Event::Read(0, 0, 10), Said::End(&[1, 3, 5])),
    (Event::Open(1), Said::Session(1)),
    (Event::Read(1, 0, 10), Said::End(&[1, 2, 4, 5])),
];

/// a holds (1), (3), (5), and a night brings +(2) -(3) +(4).
fn one_night(rt: &(impl Abort + Threads + Sync), alloc: Global) -> Result<Core<Every, Cell>, Fail>
    ensures { IfOk result (λ core. IsFresh core) }
{
    let options = MachineOptions {
        desks: 2,
        workers: 1,
        page_keys: 1,
        versions: 2,
    };
    let changes: [Lists<'_>; 1] = [&[&[(&[2], 1), (&[3], -1), (&[4], 1)]]];
    machine(
        rt,
        alloc,
        &[&[(&[1], 1), (&[3], 1), (&[5], 1)]],
        &changes,
        options,
    )
}

#[test]
fn replay_one_key_a_page(rt: HostRuntime) -> Result<(), Fail> {
    let mut core = one_night(&rt, rt.alloc())?;
    assert_run(&rt, rt.alloc(), &mut core, &ONE_KEY_A_PAGE)
}

#[test]
fn steps_answer_as_a_run(rt: HostRuntime) -> Result<(), Fail> {
    let mut core = one_night(&rt, rt.alloc())?;
    assert_steps(&rt, &mut core, &ONE_KEY_A_PAGE);
    Ok(())
}

static REFUSALS: [(Event, Said); 19] = [
    (Event::PageIn, Said::Refused(Cause::NoNight)),
    (Event::Take(1), Said::Refused(Cause::NoWorker)),
    (Event::Read(0, 0, 1), Said::Refused(Cause::NoSession)),
    (Event::Open(0), Said::Session(0)),
    (Event::Open(0), Said::Refused(Cause::SessionOpen)),
    (Event::Read(0, 2, 0), Said::Refused(Cause::NoView)),
    (Event::Read(0, 0, 0), Said::Refused(Cause::Limit)),
    (Event::Begin, Said::Begun),
    (Event::Begin, Said::Refused(Cause::NightOpen)),
    (Event::Done(0), Said::Refused(Cause::Idle)),
    (Event::PageIn, Said::Refused(Cause::NotReady)),
    (Event::Take(0), Said::Job(0)),
    (Event::Take(0), Said::Refused(Cause::Busy)),
    (Event::Done(0), Said::Done),
    (Event::Take(0), Said::Refused(Cause::NoJob)),
    (Event::Commit, Said::Refused(Cause::NotReady)),
    (Event::Close(0), Said::Closed),
    (Event::Close(0), Said::Refused(Cause::NoSession)),
    (Event::Open(1), Said::Refused(Cause::NoDesk)),
];

#[test]
fn replay_refusals(rt: HostRuntime) -> Result<(), Fail> {
    let options = MachineOptions {
        desks: 1,
        workers: 1,
        page_keys: 256,
        versions: 2,
    };
    let mut core = two_nights(&rt, rt.alloc(), options)?;
    assert_run(&rt, rt.alloc(), &mut core, &REFUSALS)
}
