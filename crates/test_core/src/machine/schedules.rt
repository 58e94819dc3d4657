// What a machine answers, event by event, beside what it is to answer.
ghost use Rattle.wh_core.specs.Standing.{IsFresh, IsStanding};

use std::alloc::Global;
use std::process::Abort;
use std::test::Fail;
use test_given::catalogs::{Cell, Every};
use wh_core::{Cause, Core, Event, Reply};
use wh_store::Page;

/// What a machine is to answer. A page has these rows of one cell, each once.
pub(crate) enum Said {
    Begun,
    Job(usize),
    Done,
    Paged(usize),
    Version(u64),
    Session(u64),
    More(&'static [i64]),
    End(&'static [i64]),
    Closed,
    Refused(Cause),
}

/// Events, each with what it is to be answered.
pub(crate) type Schedule = &'static [(Event, Said)];

fn has_rows(page: &Page, cells: &[i64]) -> bool {
    if page.rows.len() != cells.len() {
        return false;
    }
    for place in 0..cells.len() {
        let (row, count) = page.rows.get(place);
        if row != [cells[place]].as_slice() || count != 1 {
            return false;
        }
    }
    true
}

/// Whether this is the answer.
fn is_said(reply: &Reply, said: &Said) -> bool {
    match (reply, said) {
        (Reply::Begun, Said::Begun) => true,
        (Reply::Job(job), Said::Job(wanted)) => job == wanted,
        (Reply::Done, Said::Done) => true,
        (Reply::Paged(rows), Said::Paged(wanted)) => rows == wanted,
        (Reply::Version(version), Said::Version(wanted)) => version == wanted,
        (Reply::Session(version), Said::Session(wanted)) => version == wanted,
        (Reply::Page(page), Said::More(cells)) => !page.last && has_rows(page, cells),
        (Reply::Page(page), Said::End(cells)) => page.last && has_rows(page, cells),
        (Reply::Closed, Said::Closed) => true,
        (Reply::Refused(cause), Said::Refused(wanted)) => cause == wanted,
        _ => false,
    }
}

/// Runs the events of the schedule, and asserts that they are answered as it says.
pub(crate) fn assert_run(
    rt: &impl Abort,
    alloc: Global,
    core: &mut Core<Every, Cell>,
    schedule: Schedule,
) -> Result<(), Fail>
    requires { IsFresh core.old }
{
    let events = events_of(alloc, schedule)?;
    let replies = core.run(&events)?;
    assert_said(rt, &replies, schedule);
    Ok(())
}

/// The events of a schedule.
pub(crate) fn events_of(alloc: Global, schedule: Schedule) -> Result<Vec<Event>, Fail> {
    let mut events = Vec::new(alloc);
    for (event, _) in schedule {
        events.push(*event)?;
    }
    Ok(events)
}

/// Asserts that the replies are those of the schedule.
pub(crate) fn assert_said(rt: &impl Abort, replies: &[Reply], schedule: Schedule) {
    assert_eq!(rt; replies.len(), schedule.len());
    for (place, (_, said)) in schedule.iter().enumerate() {
        assert!(rt; is_said(&replies[place], said), "event {place}");
    }
}

/// Takes the events of the schedule one by one, from a machine that has done nothing yet, and asserts that they are answered as it says.
pub(crate) fn assert_steps(rt: &impl Abort, core: &mut Core<Every, Cell>, schedule: Schedule)
    requires { IsFresh core.old }
    ensures { IsStanding core.new }
{
    assert_further_steps(rt, core, schedule);
}

/// The same of a machine that may have done something.
pub(crate) fn assert_further_steps(
    rt: &impl Abort,
    core: &mut Core<Every, Cell>,
    schedule: Schedule,
)
    requires { IsStanding core.old }
    ensures { IsStanding core.new }
{
    for (place, (event, said)) in schedule.iter().enumerate() {
        let reply = core.step(*event);
        assert!(rt; is_said(&reply, said), "event {place}");
    }
}
