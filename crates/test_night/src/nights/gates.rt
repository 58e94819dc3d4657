//! Nights whose gate is told of each job: once, in its order, and while a desk reads.

ghost use Rattle.std.specs.Prelude.{◌≡◌, ◌≤◌};
ghost use Rattle.wh_maint.specs.Asked.{AreBags};
ghost use Rattle.wh_maint.specs.Comp.{bag_at};
ghost use Rattle.wh_carry.specs.Fit.{AreFitFor};
ghost use Rattle.wh_night.specs.Tonight.{newest_in};

use crate::nights::run::{Answer, ends_with, table_of};
use crate::nights::warehouse::{changes, night_at, one_thread, opening, warehouse_of};
use std::alloc::Global;
use std::hint::spin_loop;
use std::process::Abort;
use std::sync::Wait;
use std::sync::atomic::{AtomicBool, AtomicU64, Ordering};
use std::test::Fail;
use std::thread;
use std::thread::Threads;
use test_given::catalogs::{Cell, Every, joined, one_way, second};
use test_given::shapes::shaped;
use test_given::tables::bags;
use wh_carry::Report;
use wh_dag::{Catalog, Definition, Output};
use wh_desk::{Desk, Writer};
use wh_formula::{Filter, Pred};
use wh_maint::are_bags;
use wh_night::{Gate, NightFault, NightRequest, night};
use wh_store::Page;
use wh_strategy::{Expression, Sources, Strategy, check};

/// Notes each call by a hexadecimal digit: 2 n + 1 where job n is drawn, 2 n + 2 where it is done.
#[derive(Drop)]
struct Noting {
    calls: AtomicU64,
}

impl Noting {
    fn new() -> Noting {
        Noting {
            calls: AtomicU64::new(0),
        }
    }

    fn note(&self, digit: usize) {
        let calls = self.calls.load(Ordering::SeqCst);
        let longer = calls.wrapping_mul(16).wrapping_add(digit as u64);
        self.calls.store(longer, Ordering::SeqCst);
    }

    fn calls(&self) -> u64 {
        self.calls.load(Ordering::SeqCst)
    }
}

impl Gate for Noting {
    fn taken(&self, job: usize) {
        self.note(job.wrapping_mul(2).wrapping_add(1));
    }

    fn finished(&self, job: usize) {
        self.note(job.wrapping_mul(2).wrapping_add(2));
    }
}

/// How often a flag is looked at before it is given up.
const TURNS: u32 = 50_000_000;

/// Whether the flag is raised, within so many turns.
fn is_raised(flag: &AtomicBool) -> bool {
    for _turn in 0..TURNS {
        if flag.load(Ordering::SeqCst) {
            return true;
        }
        spin_loop();
    }
    false
}

/// Keeps the first job of each wave until a page was read.
#[derive(Drop)]
struct Keeping {
    is_drawn: AtomicBool,
    is_read: AtomicBool,
    is_late: AtomicBool,
}

impl Keeping {
    fn new() -> Keeping {
        Keeping {
            is_drawn: AtomicBool::new(false),
            is_read: AtomicBool::new(false),
            is_late: AtomicBool::new(false),
        }
    }
}

impl Gate for Keeping {
    fn taken(&self, job: usize) {
        self.is_drawn.store(true, Ordering::SeqCst);
        if job == 0 && !is_raised(&self.is_read) {
            self.is_late.store(true, Ordering::SeqCst);
        }
    }

    fn finished(&self, _job: usize) {}
}

/// Carries the night of a and b, and v over both, out.
fn night_of_one<R: Threads + Wait + Sync + Abort>(
    rt: &R,
    alloc: Global,
    gate: &Noting,
) -> Result<Option<Answer>, Fail> {
    let catalog = joined(alloc)?;
    let tables = opening(alloc, &[(&[1, 5], 1), (&[2, 5], 1)])?;
    let changes = changes(alloc, &[(&[2, 10], -1), (&[3, 10], 1)])?;
    let Ok(correct) = check(alloc, catalog.shape(), one_way(alloc)?) else {
        return Ok(None);
    };
    night_at(
        &one_thread(rt, alloc),
        &catalog,
        tables,
        &changes,
        &correct,
        gate,
    )
}

/// a(g,x), and v and w over it, which each keep a.x.
fn kept_twice(rt: &impl Abort, alloc: Global) -> Result<Catalog<Every, Cell>, Fail> {
    let shape = shaped(alloc, &[("a", "-"), ("v", "a"), ("w", "a")])?;
    let mut definitions = Vec::new(alloc);
    for _view in 1..3 {
        let join = Vec::new(alloc);
        let filter = Filter::new(Pred::always(), 2, Every);
        let out = Output::Keep(second(alloc)?);
        assert!(rt; Definition::fits(&join, &filter, &out));
        definitions.push(Definition::new(join, filter, out))?;
    }
    let widths = vec![in alloc; 2]?;
    assert!(rt; Catalog::fits(&shape, &widths, &definitions));
    Ok(Catalog::new(alloc, shape, widths, definitions)?)
}

/// comp v from a; comp w from a; inst a; inst v; inst w
fn both_from_a(alloc: Global) -> Result<Strategy, Fail> {
    let mut list = Vec::new(alloc);
    for view in 1..3 {
        list.push(Expression::Comp(view, Sources::new(vec![in alloc; 0]?)))?;
    }
    for view in 0..3 {
        list.push(Expression::Inst(view))?;
    }
    Ok(Strategy::new(list))
}

/// Carries a night of v and w out, in which a row comes.
fn night_of_two<R: Threads + Wait + Sync + Abort>(
    rt: &R,
    alloc: Global,
    gate: &Noting,
) -> Result<Option<Answer>, Fail> {
    let catalog = kept_twice(rt, alloc)?;
    let tables = bags(alloc, &[&[(&[1, 5], 1)], &[(&[5], 1)], &[(&[5], 1)]])?;
    let changes = bags(alloc, &[&[(&[1, 6], 1)], &[], &[]])?;
    let Ok(correct) = check(alloc, catalog.shape(), both_from_a(alloc)?) else {
        return Ok(None);
    };
    night_at(
        &one_thread(rt, alloc),
        &catalog,
        tables,
        &changes,
        &correct,
        gate,
    )
}

/// Reads a page of v once a job is kept, and lets it go.
fn read_while_kept(desk: &mut Desk, gate: &Keeping) -> Option<Page> {
    if !is_raised(&gate.is_drawn) || desk.open().is_err() {
        return None;
    }
    let page = desk.page(2, None, 256).ok();
    gate.is_read.store(true, Ordering::SeqCst);
    page
}

/// Whether these are the rows (1,5) and (2,5), once each, and no other.
fn is_before_the_night(page: &Page) -> bool {
    page.last
        && page.rows.len() == 2
        && page.rows.get(0) == (&[1, 5], 1)
        && page.rows.get(1) == (&[2, 5], 1)
}

/// Carries the night out on this thread, while the desk reads in another.
fn read_beside<R: Threads + Wait + Sync>(
    asked: &NightRequest<'_, Every, Cell, Keeping, R>,
    writer: &mut Writer,
    desk: &mut Desk,
) -> (Option<Page>, Result<Report, NightFault>)
    requires judged { asked.now.correct.now.children ≡ asked.now.catalog.now.views.children }
    requires tables { AreBags asked.now.catalog.now (newest_in writer.old.ledger) }
    requires changes { AreBags asked.now.catalog.now asked.now.changes.now }
    requires fit { AreFitFor asked.now.catalog.now (bag_at asked.now.changes.now) asked.now.correct.now.list (bag_at (newest_in writer.old.ledger)) }
    requires workers { (1 ≤ asked.now.budget.now.threads) × (asked.now.budget.now.threads ≤ 16) }
    requires page_keys { (1 ≤ asked.now.page_keys) × (asked.now.page_keys ≤ 256) }
{
    let gate = asked.gate;
    thread::join(
        asked.budget.rt,
        || read_while_kept(desk, gate),
        || -> Result<Report, NightFault>
            requires judged { asked.now.correct.now.children ≡ asked.now.catalog.now.views.children }
            requires tables { AreBags asked.now.catalog.now (newest_in writer.now.ledger) }
            requires changes { AreBags asked.now.catalog.now asked.now.changes.now }
            requires fit { AreFitFor asked.now.catalog.now (bag_at asked.now.changes.now) asked.now.correct.now.list (bag_at (newest_in writer.now.ledger)) }
            requires workers { (1 ≤ asked.now.budget.now.threads) × (asked.now.budget.now.threads ≤ 16) }
            requires page_keys { (1 ≤ asked.now.page_keys) × (asked.now.page_keys ≤ 256) }
        { night(writer, asked) },
    )
}

/// What the desk read, and what the night answered and made of v. None where no night can be tried.
fn night_that_is_read<R: Threads + Wait + Sync + Abort>(
    rt: &R,
    alloc: Global,
    gate: &Keeping,
) -> Result<Option<(Option<Page>, Answer)>, Fail> {
    let catalog = joined(alloc)?;
    let tables = opening(alloc, &[(&[1, 5], 1), (&[2, 5], 1)])?;
    let changes = changes(alloc, &[(&[2, 10], -1), (&[3, 10], 1)])?;
    let Ok(correct) = check(alloc, catalog.shape(), one_way(alloc)?) else {
        return Ok(None);
    };
    if !correct.is_of(catalog.shape()) || !are_bags(&catalog, &changes) {
        return Ok(None);
    }
    let Some((mut writer, mut desks)) = warehouse_of(
        rt, alloc, &catalog, tables, &changes, &correct,
    )?
    else {
        return Ok(None);
    };
    let Some(mut desk) = desks.pop() else {
        writer.end(rt);
        return Ok(None);
    };
    let budget = one_thread(rt, alloc);
    let asked = NightRequest {
        budget: &budget,
        catalog: &catalog,
        changes: &changes,
        correct: &correct,
        page_keys: 256,
        gate,
    };
    let (page, night) = read_beside(&asked, &mut writer, &mut desk);
    let table = table_of(&writer);
    writer.end(rt);
    Ok(Some((page, Answer { night, table })))
}

#[test]
fn reader_in_the_night(rt: HostRuntime) -> Result<(), Fail> {
    let gate = Keeping::new();
    let Some((page, answer)) = night_that_is_read(&rt, rt.alloc(), &gate)? else {
        return Err(Fail::from("a night"));
    };
    assert!(rt; !gate.is_late.load(Ordering::SeqCst));
    assert!(rt; page.is_some_and(|page| is_before_the_night(&page)));
    assert!(rt; ends_with(&Some(answer), &[3, 2, 4, 2, 4], &[&[1, 6], &[3, 6]]));
    Ok(())
}

#[test]
fn each_job_is_told_once_in_its_order(rt: HostRuntime) -> Result<(), Fail> {
    let waves = Noting::new();
    let answer = night_of_one(&rt, rt.alloc(), &waves)?;
    assert!(rt; ends_with(&answer, &[3, 2, 4, 2, 4], &[&[1, 6], &[3, 6]]));
    assert_eq!(rt; waves.calls(), 0x1212);
    let jobs = Noting::new();
    let answer = night_of_two(&rt, rt.alloc(), &jobs)?;
    assert!(rt; ends_with(&answer, &[1, 1, 1, 1, 1], &[&[5], &[6]]));
    assert_eq!(rt; jobs.calls(), 0x1234);
    Ok(())
}
