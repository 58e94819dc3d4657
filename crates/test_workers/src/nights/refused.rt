//! Nights by two workers, beside a desk that reads the version before, where any call for memory may be refused: `trials/run program/refusals`
//! refuses each in turn. What a refused night leaves is given up; the desk reads version 0 to the end of its pages, and the same
//! night then goes out. A test that lacks memory twice in the same place says so, and fails.

use crate::nights::meeting;
use std::alloc::Global;
use std::process::Abort;
use std::sync::Wait;
use std::test::Fail;
use std::thread;
use std::thread::Threads;
use test_given::catalogs::{Cell, Every, joined, one_way};
use test_given::tables::bags;
use wh_carry::{Report, are_fit};
use wh_dag::Catalog;
use wh_desk::{Desk, DeskFault, Writer, open_warehouse};
use wh_maint::are_bags;
use wh_night::{Aftermath, NightFault, NightRequest, NoGate, are_fit_for, current_tables, night};
use wh_row::{Bag, Row};
use wh_store::{Ended, Publish, Store};
use wh_strategy::{Correct, Strategy, check};
use wh_threads::ThreadBudget;

/// Rows of a view, each with its count.
type Rows<'a> = &'a [(&'a [i64], i64)];

/// How often the desk reads all views beside the night.
const PASSES: usize = 8;

/// How often a call that lacks memory is tried. One refusal is over by the second time.
const TIMES: usize = 2;

/// A night, and its views before and after it.
#[derive(Drop)]
struct Tonight<'a> {
    catalog: Catalog<Every, Cell>,
    changes: Vec<Bag>,
    correct: Correct,
    before: &'a [Rows<'a>],
    after: &'a [Rows<'a>],
}

/// What a reader found.
#[derive(Clone, Copy, Debug, PartialEq, Eq)]
enum Found {
    /// Each view has these rows.
    These,
    /// A view has others, or a page was refused.
    Others,
    /// Memory was refused.
    Memory,
}

fn want_of_memory() -> Fail {
    Fail::from("want of memory")
}

/// How often these rows have this one.
fn count_in(rows: Rows<'_>, row: &[i64]) -> i64 {
    for (cells, count) in rows {
        if *cells == row {
            return *count;
        }
    }
    0
}

/// Whether a view has these rows in the desk's session. It is read a row a page, up to its last one.
fn read_view(alloc: Global, desk: &mut Desk, view: usize, rows: Rows<'_>) -> Found {
    let mut after: Option<Row> = None;
    for read in 0..=rows.len() {
        let from = match &after {
            Some(row) => Some(row.as_slice()),
            None => None,
        };
        let page = match desk.page(view, from, 1) {
            Ok(page) => page,
            Err(DeskFault::Memory) => return Found::Memory,
            Err(_) => return Found::Others,
        };
        if let Some((row, count)) = page.rows.last() {
            if read >= rows.len() || count_in(rows, row) != count {
                return Found::Others;
            }
            match Row::from_slice(alloc, row) {
                Ok(row) => after = Some(row),
                Err(_) => return Found::Memory,
            }
        }
        if page.last {
            let is_all = read.checked_add(page.rows.len()) == Some(rows.len());
            return if is_all { Found::These } else { Found::Others };
        }
    }
    Found::Others
}

/// The same, tried again where memory is refused.
fn read_again(alloc: Global, desk: &mut Desk, view: usize, rows: Rows<'_>) -> Found {
    for _time in 0..TIMES {
        let found = read_view(alloc, desk, view, rows);
        if found != Found::Memory {
            return found;
        }
    }
    Found::Memory
}

/// Whether all views have these rows in the desk's session.
fn read_all(alloc: Global, desk: &mut Desk, views: &[Rows<'_>]) -> Found {
    for view in 0..views.len() {
        let found = read_again(alloc, desk, view, views[view]);
        if found != Found::These {
            return found;
        }
    }
    Found::These
}

/// The same again and again; the first other thing that is found.
fn read_beside(alloc: Global, desk: &mut Desk, views: &[Rows<'_>]) -> Found {
    for _pass in 0..PASSES {
        let found = read_all(alloc, desk, views);
        if found != Found::These {
            return found;
        }
    }
    Found::These
}

/// Carries the night out, once all that it asks for was tested.
fn carry_out<P: Publish, R: Threads + Wait + Sync>(
    rt: &R,
    alloc: Global,
    writer: &mut P,
    tonight: &Tonight<'_>,
) -> Result<Result<Report, NightFault>, Fail> {
    let Tonight {
        catalog,
        changes,
        correct,
        ..
    } = tonight;
    let views = catalog.shape().len();
    if writer.held() || writer.views() != views {
        return Err(Fail::from("nothing held, and all views"));
    }
    let tables = current_tables(alloc, writer, views)?;
    if !correct.is_of(catalog.shape())
        || !are_bags(catalog, changes)
        || !are_bags(catalog, &tables)
    {
        return Err(Fail::from("what a night asks for"));
    }
    let Ok(true) = are_fit_for(alloc, catalog, &tables, changes, correct) else {
        return Err(want_of_memory());
    };
    let budget = ThreadBudget {
        rt,
        alloc,
        threads: 2,
    };
    let asked = NightRequest {
        budget: &budget,
        catalog,
        changes,
        correct,
        page_keys: 256,
        gate: &NoGate,
    };
    Ok(night(writer, &asked))
}

/// Asserts that a refused night lacked memory, and gives up what it has left. The number of the version that the same night
/// makes then; None where a commit was held, which has gone out.
fn give_up<P: Publish, R: Wait + Abort>(
    rt: &R,
    writer: &mut P,
    fault: &NightFault,
) -> Result<Option<u64>, Fail> {
    assert_eq!(rt; fault.cause.number(), 1);
    let mut next = 2;
    match fault.left {
        Aftermath::Untouched => next = 1,
        Aftermath::GivenUp => {}
        Aftermath::StillOpen => {
            let mut ended = writer.give_up(rt);
            if ended.is_err() {
                ended = writer.give_up(rt);
            }
            match ended {
                Ok(Ended::Committed) => return Ok(None),
                Ok(ended) => assert_eq!(rt; ended, Ended::GivenUp),
                Err(_) => return Err(want_of_memory()),
            }
        }
    }
    let current = if next == 1 { 0 } else { 1 };
    assert_eq!(rt;
        (writer.current(), writer.active(), writer.held()),
        (current, false, false)
    );
    Ok(Some(next))
}

/// Whether a table has these rows alone.
fn is_of(table: &Bag, rows: Rows<'_>) -> bool {
    let mut total: u128 = 0;
    for (row, count) in rows {
        if table.count(row) != *count {
            return false;
        }
        total = total.saturating_add(count.unsigned_abs() as u128);
    }
    table.total() == total
}

/// Asserts that the newest version has what the night makes.
fn assert_made<P: Publish, R: Abort>(
    rt: &R,
    alloc: Global,
    writer: &P,
    after: &[Rows<'_>],
) -> Result<(), Fail> {
    let views = writer.views();
    if writer.held() || views != after.len() {
        return Err(Fail::from("nothing held, and all views"));
    }
    let tables = current_tables(alloc, writer, views)?;
    for view in 0..views {
        assert!(rt; view < tables.len() && view < after.len());
        assert!(rt; is_of(&tables[view], after[view]), "view {view}");
    }
    Ok(())
}

/// Asserts that the night goes out, or leaves what there was, and then goes out; and that the desk reads version 0 meanwhile.
fn assert_night<R: Threads + Wait + Sync + Abort>(
    rt: &R,
    alloc: Global,
    writer: &mut Writer,
    desk: &mut Desk,
    tonight: &Tonight<'_>,
) -> Result<(), Fail> {
    assert_eq!(rt; desk.open(), Ok(0));
    let (found, answer) = thread::join(
        rt,
        || read_beside(alloc, desk, tonight.before),
        || carry_out(rt, alloc, writer, tonight),
    );
    assert!(rt; found != Found::Others, "beside the night");
    let next = match answer? {
        Ok(report) => {
            assert_eq!(rt; report.version, 1);
            None
        }
        Err(fault) => give_up(rt, writer, &fault)?,
    };
    let found = read_all(alloc, desk, tonight.before);
    assert!(rt; found != Found::Others, "after the night");
    if let Some(version) = next {
        match carry_out(rt, alloc, writer, tonight)? {
            Ok(report) => assert_eq!(rt; report.version, version),
            Err(fault) => {
                assert_eq!(rt; fault.cause.number(), 1);
                return Err(want_of_memory());
            }
        }
    }
    assert_made(rt, alloc, writer, tonight.after)
}

/// Opens a warehouse of one desk, and asserts what is to be of this night.
fn assert_of<'a, R: Threads + Wait + Sync + Abort + AllocGlobal>(
    rt: &R,
    catalog: Catalog<Every, Cell>,
    list: Strategy,
    changes: &[Rows<'_>],
    before: &'a [Rows<'a>],
    after: &'a [Rows<'a>],
) -> Result<(), Fail> {
    let alloc = rt.alloc();
    let Ok(correct) = check(alloc, catalog.shape(), list) else {
        return Err(want_of_memory());
    };
    let tables = bags(alloc, before)?;
    let changes = bags(alloc, changes)?;
    if !are_bags(&catalog, &tables) || !are_fit(alloc, &catalog, &tables)? {
        return Err(Fail::from("fit tables"));
    }
    let store = Store::new(alloc, &tables, 2)?;
    let Ok((mut writer, mut desks)) = open_warehouse(rt, alloc, store, 1) else {
        return Err(want_of_memory());
    };
    let Some(mut desk) = desks.pop() else {
        writer.end(rt);
        return Err(Fail::from("a desk"));
    };
    let tonight = Tonight {
        catalog,
        changes,
        correct,
        before,
        after,
    };
    let done = assert_night(rt, alloc, &mut writer, &mut desk, &tonight);
    writer.end(rt);
    done
}

/// A row of a leaves and one comes, and the row of b changes.
#[test]
fn two_table_night_where_memory_may_be_refused(rt: HostRuntime) -> Result<(), Fail> {
    let alloc = rt.alloc();
    let changes: [Rows<'_>; 3] = [
        &[(&[2, 10], -1), (&[3, 10], 1)],
        &[(&[10, 5], -1), (&[10, 6], 1)],
        &[],
    ];
    let before: [Rows<'_>; 3] = [
        &[(&[1, 10], 1), (&[2, 10], 1)],
        &[(&[10, 5], 1)],
        &[(&[1, 5], 1), (&[2, 5], 1)],
    ];
    let after: [Rows<'_>; 3] = [
        &[(&[1, 10], 1), (&[3, 10], 1)],
        &[(&[10, 6], 1)],
        &[(&[1, 6], 1), (&[3, 6], 1)],
    ];
    let catalog = joined(alloc)?;
    assert_of(&rt, catalog, one_way(alloc)?, &changes, &before, &after)
}

/// B has 1 and gets 2, C has 5. V1 has B.x of each pair of B and C, and V2 has V1.x of each pair of B and V1.
#[test]
fn two_comps_of_a_wave_where_memory_may_be_refused(rt: HostRuntime) -> Result<(), Fail> {
    let alloc = rt.alloc();
    let changes: [Rows<'_>; 4] = [&[(&[2], 1)], &[], &[], &[]];
    let before: [Rows<'_>; 4] = [&[(&[1], 1)], &[(&[5], 1)], &[(&[1], 1)], &[(&[1], 1)]];
    let after: [Rows<'_>; 4] = [
        &[(&[1], 1), (&[2], 1)],
        &[(&[5], 1)],
        &[(&[1], 1), (&[2], 1)],
        &[(&[1], 2), (&[2], 2)],
    ];
    let catalog = meeting::catalog(&rt, alloc)?;
    let list = meeting::one_way(alloc)?;
    assert_of(&rt, catalog, list, &changes, &before, &after)
}
