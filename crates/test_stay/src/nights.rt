// Nights and readers, one command after another: the worked nights that are replayed, and those that do not begin.
ghost use Rattle.wh_stay.specs.Standing.{IsLive};

use crate::given::opened;
use crate::told::{fault_text, reply_text};
use std::alloc::{AllocError, Global};
use std::process::Abort;
use std::test::Fail;
use std::thread::Threads;
use test_given::catalogs::{Cell, Every};
use wh_core::{Event, Reply};
use wh_stay::{Live, NightTold};
use wh_threads::ThreadBudget;

/// What is asked: a night with these parts, or an event.
#[derive(Clone, Copy)]
enum Asked {
    Night(&'static str),
    Event(Event),
}

/// The first night brings another text for the one that is there, the second nothing.
static TWO_NIGHTS: [(Asked, &str); 10] = [
    (Asked::Event(Event::Open(0)), "session 0 "),
    (
        Asked::Night("@changes a\n#,x\n-1,one\n1,two\n"),
        "begun job 0 done paged 2 paged 2 ready ",
    ),
    (Asked::Event(Event::Read(0, 1, 10)), "1x0 end "),
    (Asked::Event(Event::Commit), "version 1 "),
    (Asked::Event(Event::Read(0, 1, 10)), "1x0 end "),
    (Asked::Event(Event::Open(1)), "session 1 "),
    (Asked::Night(""), "begun job 0 done ready "),
    (Asked::Event(Event::Read(0, 1, 10)), "expired 0 1 active "),
    (Asked::Event(Event::Read(1, 1, 10)), "1x1 end "),
    (Asked::Event(Event::Commit), "version 2 "),
];

/// Nights that do not begin leave no text: the last one's new text is the second.
static REFUSED: [(Asked, &str); 12] = [
    (Asked::Event(Event::Commit), "NoNight "),
    (
        Asked::Night("@changes a\n#,x\n1,four\nx,five\n"),
        "fault number 3 ",
    ),
    (Asked::Night("@changes a\n#,x\n-1,six\n"), "Absent "),
    (
        Asked::Night("@changes a\n#,x\n1,seven\n@strategy\ninst a\n"),
        "broken 1 ",
    ),
    (
        Asked::Night("@changes a\n#,x\n1,eight\n"),
        "begun job 0 done paged 1 paged 1 ready ",
    ),
    (Asked::Night("@changes a\n#,x\n1,nine\n"), "NightOpen "),
    (Asked::Event(Event::GiveUp), "version 1 "),
    (
        Asked::Night("@changes a\n#,x\n1,ten\n"),
        "begun job 0 done paged 1 paged 1 ready ",
    ),
    (Asked::Event(Event::Commit), "version 2 "),
    (Asked::Event(Event::Open(0)), "session 2 "),
    (Asked::Event(Event::Read(0, 0, 10)), "1x0 1x2 end "),
    (Asked::Event(Event::Open(2)), "NoDesk "),
];

/// What carries the night on, up to where it can be committed or is refused.
fn carried_on(
    alloc: Global,
    live: &mut Live<Every, Cell>,
    text: &mut String,
) -> Result<(), AllocError>
    requires { IsLive live.old }
    ensures { IsLive live.new }
{
    for _ in 0..20 {
        let Some((_, reply)) = live.carry_on() else {
            return text.push_str("ready ");
        };
        text.push_str(reply_text(alloc, &reply)?.as_str())?;
        if let Reply::Refused(_) = reply {
            return Ok(());
        }
    }
    Ok(())
}

/// What is told of a night with these parts.
fn night_text<R: Threads + Sync>(
    budget: &ThreadBudget<'_, R>,
    live: &mut Live<Every, Cell>,
    parts: &str,
) -> Result<String, AllocError>
    requires { IsLive live.old }
    ensures { IsLive live.new }
{
    let alloc = budget.alloc;
    match live.begin_night(budget, parts.as_bytes()) {
        NightTold::Fault(fault) => fault_text(alloc, &fault),
        NightTold::Broken {
            rule,
            place: _place,
        } => {
            let number = rule.number();
            format!(in alloc; "broken {number} ")
        }
        NightTold::Replied(reply) => {
            let mut text = reply_text(alloc, &reply)?;
            if let Reply::Begun = reply {
                carried_on(alloc, live, &mut text)?;
            }
            Ok(text)
        }
    }
}

/// What is told of what is asked.
fn told<R: Threads + Sync>(
    budget: &ThreadBudget<'_, R>,
    live: &mut Live<Every, Cell>,
    asked: Asked,
) -> Result<String, AllocError>
    requires { IsLive live.old }
    ensures { IsLive live.new }
{
    match asked {
        Asked::Night(parts) => night_text(budget, live, parts),
        Asked::Event(event) => reply_text(budget.alloc, &live.answer(event)),
    }
}

/// Asks one after another, and compares what is told.
fn assert_told(
    rt: &(impl Abort + Threads + Sync),
    alloc: Global,
    script: &[(Asked, &str)],
) -> Result<(), Fail> {
    let budget = ThreadBudget {
        rt,
        alloc,
        threads: 1,
    };
    let mut live = opened(rt, alloc)?;
    for (asked, wanted) in script {
        let said = told(&budget, &mut live, *asked)?;
        assert_eq!(rt; said.as_str(), *wanted);
    }
    Ok(())
}

#[test]
fn nights_come_one_after_another(rt: HostRuntime) -> Result<(), Fail> {
    assert_told(&rt, rt.alloc(), &TWO_NIGHTS)
}

#[test]
fn nights_that_do_not_begin_leave_no_text(rt: HostRuntime) -> Result<(), Fail> {
    assert_told(&rt, rt.alloc(), &REFUSED)
}
