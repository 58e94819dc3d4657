//! A night beside two readers: what they are answered while it is open, and what one of them is answered after it.

ghost use Rattle.std.specs.Prelude.{◌≡◌, ◌≤◌, IfOk};
ghost use Rattle.std.specs.List.{All};
ghost use Rattle.wh_maint.specs.Asked.{AreBags};
ghost use Rattle.wh_maint.specs.Comp.{bag_at};
ghost use Rattle.wh_carry.specs.Fit.{AreFitFor};
ghost use Rattle.wh_desk.specs.Askers.{CanAsk};
ghost use Rattle.wh_desk.specs.Reading.{IsAskable};
ghost use Rattle.wh_desk.specs.Writers.{published};
ghost use Rattle.wh_night.specs.Tonight.{newest_in};

use crate::nights::run::has_rows;
use crate::nights::warehouse::{changes, one_thread, opening, warehouse_of};
use std::alloc::{AllocError, Global};
use std::hint::spin_loop;
use std::sync::Wait;
use std::sync::atomic::{AtomicBool, AtomicU64, Ordering};
use std::test::Fail;
use std::thread::Threads;
use test_given::catalogs::{Cell, Every, joined, one_way};
use wh_carry::Carried;
use wh_desk::{Answer, Answered, Ask, Asker, Desk, DeskFault, Reader, Writer};
use wh_headline::night_with_readers;
use wh_maint::are_bags;
use wh_night::{Beside, Gate, NightFault, NightRequest, Watch, current_tables};
use wh_store::Page;
use wh_strategy::check;

/// How many readers there are.
const READERS: usize = 2;

/// How often it is looked whether they have left, before that is given up.
const TURNS: u32 = 50_000_000;

/// Keeps the night's first job until both readers have left: all that they are answered, they are answered while the night is open.
#[derive(Drop)]
struct Leaving {
    left: AtomicU64,
    is_late: AtomicBool,
}

impl Leaving {
    fn new() -> Leaving {
        Leaving {
            left: AtomicU64::new(0),
            is_late: AtomicBool::new(false),
        }
    }
}

impl Gate for Leaving {
    fn taken(&self, _job: usize) {
        for _turn in 0..TURNS {
            if self.left.load(Ordering::SeqCst) == READERS as u64 {
                return;
            }
            spin_loop();
        }
        self.is_late.store(true, Ordering::SeqCst);
    }

    fn finished(&self, _job: usize) {}
}

impl Watch for Leaving {
    fn entered(&self, _reader: usize, _version: u64) {}

    fn left(&self, _reader: usize) {
        self.left.fetch_add(1, Ordering::SeqCst);
    }
}

/// A session, v row by row for two rows, v from the beginning again, and the end.
fn row_by_row(alloc: Global) -> Result<Vec<Ask>, AllocError>
    ensures { IfOk result (λ asks. All IsAskable asks.items) }
{
    let mut asks = Vec::new(alloc);
    asks.push(Ask::Open)?;
    asks.push(Ask::Page(2, 1))?;
    asks.push(Ask::Page(2, 1))?;
    asks.push(Ask::Rest(2, 256))?;
    asks.push(Ask::Close)?;
    Ok(asks)
}

/// A page without a session, two sessions, a view that is not there, and the end.
fn refused(alloc: Global) -> Result<Vec<Ask>, AllocError>
    ensures { IfOk result (λ asks. All IsAskable asks.items) }
{
    let mut asks = Vec::new(alloc);
    asks.push(Ask::Page(2, 256))?;
    asks.push(Ask::Open)?;
    asks.push(Ask::Open)?;
    asks.push(Ask::Page(3, 256))?;
    asks.push(Ask::Close)?;
    Ok(asks)
}

/// The two readers, at desks of this writer's warehouse.
fn two_askers(alloc: Global, writer: &Writer, first: Desk, second: Desk) -> Result<Vec<Asker>, Fail>
    requires first { first.book ≡ writer.now.book }
    requires second { second.book ≡ writer.now.book }
    ensures { IfOk result (λ askers. All (CanAsk (published writer.now)) askers.items) }
{
    let by_rows = row_by_row(alloc)?;
    let refused = refused(alloc)?;
    let mut askers = Vec::new(alloc);
    askers.push(Asker {
        number: 0,
        reader: Reader::new(first),
        asks: by_rows,
    })?;
    askers.push(Asker {
        number: 1,
        reader: Reader::new(second),
        asks: refused,
    })?;
    Ok(askers)
}

/// The two readers, at two of these desks.
fn seated(alloc: Global, writer: &Writer, mut desks: Vec<Desk>) -> Result<Vec<Asker>, Fail>
    requires { All (λ d. d.book ≡ writer.now.book) desks.items }
    ensures { IfOk result (λ askers. All (CanAsk (published writer.now)) askers.items) }
{
    let Some(second) = desks.pop() else {
        return Err(Fail::from("two desks"));
    };
    let Some(first) = desks.pop() else {
        return Err(Fail::from("two desks"));
    };
    two_askers(alloc, writer, first, second)
}

/// Runs the night from the tables of the current version, and these readers beside it.
fn run_beside<R: Threads + Wait + Sync>(
    asked: &NightRequest<'_, Every, Cell, Leaving, R>,
    writer: &mut Writer,
    askers: Vec<Asker>,
) -> Result<Beside, Fail>
    requires askers { All (CanAsk (published writer.old)) askers.items }
    requires judged { asked.now.correct.now.children ≡ asked.now.catalog.now.views.children }
    requires tables { AreBags asked.now.catalog.now (newest_in writer.old.ledger) }
    requires changes { AreBags asked.now.catalog.now asked.now.changes.now }
    requires fit { AreFitFor asked.now.catalog.now (bag_at asked.now.changes.now) asked.now.correct.now.list (bag_at (newest_in writer.old.ledger)) }
    requires workers { (1 ≤ asked.now.budget.now.threads) × (asked.now.budget.now.threads ≤ 16) }
    requires page_keys { (1 ≤ asked.now.page_keys) × (asked.now.page_keys ≤ 256) }
{
    if writer.held() {
        return Err(Fail::from("a writer that holds nothing"));
    }
    let views = writer.views();
    let tables = current_tables(asked.budget.alloc, writer, views)?;
    Ok(night_with_readers(asked, writer, askers, tables))
}

/// What a reader is answered that asks for a session and for all of v.
fn asked_again(alloc: Global, mut reader: Reader) -> Result<Vec<Answer>, Fail> {
    let mut asks = Vec::new(alloc);
    asks.push(Ask::Open)?;
    asks.push(Ask::Page(2, 256))?;
    Ok(reader.ask_all(alloc, &asks)?)
}

/// What the night and its readers answered, and what the first of them is answered after it.
#[derive(Drop)]
struct Outcome {
    night: Result<Carried, NightFault>,
    first: Vec<Answer>,
    second: Vec<Answer>,
    later: Vec<Answer>,
}

/// What comes of a night and its two readers.
fn outcome_of(alloc: Global, beside: Beside) -> Result<Outcome, Fail> {
    let Beside { night, answered } = beside;
    let Some(mut all) = answered else {
        return Err(Fail::from("readers that were answered"));
    };
    let (Some(Some(second)), Some(Some(first))) = (all.pop(), all.pop()) else {
        return Err(Fail::from("two readers that were answered"));
    };
    let later = asked_again(alloc, first.reader)?;
    Ok(Outcome {
        night,
        first: first.answers,
        second: second.answers,
        later,
    })
}

/// Seats two readers at these desks, runs the night beside them, and has the first of them ask again.
fn asked_beside<R: Threads + Wait + Sync>(
    asked: &NightRequest<'_, Every, Cell, Leaving, R>,
    writer: &mut Writer,
    desks: Vec<Desk>,
) -> Result<Outcome, Fail>
    requires same { All (λ d. d.book ≡ writer.old.book) desks.items }
    requires judged { asked.now.correct.now.children ≡ asked.now.catalog.now.views.children }
    requires tables { AreBags asked.now.catalog.now (newest_in writer.old.ledger) }
    requires changes { AreBags asked.now.catalog.now asked.now.changes.now }
    requires fit { AreFitFor asked.now.catalog.now (bag_at asked.now.changes.now) asked.now.correct.now.list (bag_at (newest_in writer.old.ledger)) }
    requires workers { (1 ≤ asked.now.budget.now.threads) × (asked.now.budget.now.threads ≤ 16) }
    requires page_keys { (1 ≤ asked.now.page_keys) × (asked.now.page_keys ≤ 256) }
{
    let alloc = asked.budget.alloc;
    let askers = seated(alloc, writer, desks)?;
    outcome_of(alloc, run_beside(asked, writer, askers)?)
}

/// Whether a page has this row alone, once.
fn has_one_row(page: &Page, row: &[i64]) -> bool {
    page.rows.len() == 1 && page.rows.get(0) == (row, 1)
}

/// Whether the first reader went through v as it was before the night: (1,5), then (2,5), then both.
fn went_through(answers: &[Answer]) -> bool {
    match answers {
        [
            Answer::Session(0),
            Answer::Page(one),
            Answer::Page(two),
            Answer::Rows(2),
            Answer::Closed,
        ] => !one.last && has_one_row(one, &[1, 5]) && two.last && has_one_row(two, &[2, 5]),
        _ => false,
    }
}

/// Whether the second reader was refused for each reason.
fn was_refused(answers: &[Answer]) -> bool {
    match answers {
        [
            Answer::Refused(DeskFault::NoSession),
            Answer::Session(0),
            Answer::Refused(DeskFault::SessionOpen),
            Answer::Refused(DeskFault::NoView),
            Answer::Closed,
        ] => true,
        _ => false,
    }
}

/// Whether the reader then has version 1, in which v is (1,6) and (3,6).
fn sees_the_night(answers: &[Answer]) -> bool {
    match answers {
        [Answer::Session(1), Answer::Page(page)] => {
            page.last
                && page.rows.len() == 2
                && page.rows.get(0) == (&[1, 6], 1)
                && page.rows.get(1) == (&[3, 6], 1)
        }
        _ => false,
    }
}

/// Whether the night made version 1, in which v is (1,6) and (3,6).
fn made_version_one(night: &Result<Carried, NightFault>) -> bool {
    match night {
        Ok(Carried { tables, report }) => match tables.as_slice() {
            [_a, _b, table] => report.version == 1 && has_rows(table, &[&[1, 6], &[3, 6]]),
            _ => false,
        },
        Err(_) => false,
    }
}

/// The night of a and b, and v over both, with two readers beside it.
fn night_with_two<R: Threads + Wait + Sync>(
    rt: &R,
    alloc: Global,
    leaving: &Leaving,
) -> Result<Outcome, Fail> {
    let catalog = joined(alloc)?;
    let tables = opening(alloc, &[(&[1, 5], 1), (&[2, 5], 1)])?;
    let changes = changes(alloc, &[(&[2, 10], -1), (&[3, 10], 1)])?;
    let Ok(correct) = check(alloc, catalog.shape(), one_way(alloc)?) else {
        return Err(Fail::from("a correct strategy"));
    };
    if !correct.is_of(catalog.shape()) || !are_bags(&catalog, &changes) {
        return Err(Fail::from("what a night asks for"));
    }
    let Some((mut writer, desks)) = warehouse_of(rt, alloc, &catalog, tables, &changes, &correct)?
    else {
        return Err(Fail::from("a warehouse"));
    };
    let budget = one_thread(rt, alloc);
    let asked = NightRequest {
        budget: &budget,
        catalog: &catalog,
        changes: &changes,
        correct: &correct,
        page_keys: 256,
        gate: leaving,
    };
    let outcome = asked_beside(&asked, &mut writer, desks);
    writer.end(rt);
    outcome
}

#[test]
fn readers_ask_beside_a_night(rt: HostRuntime) -> Result<(), Fail> {
    let leaving = Leaving::new();
    let outcome = night_with_two(&rt, rt.alloc(), &leaving)?;
    assert!(rt; !leaving.is_late.load(Ordering::SeqCst));
    assert!(rt; went_through(&outcome.first));
    assert!(rt; was_refused(&outcome.second));
    assert!(rt; made_version_one(&outcome.night));
    assert!(rt; sees_the_night(&outcome.later));
    Ok(())
}
