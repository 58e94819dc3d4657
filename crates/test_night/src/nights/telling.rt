//! A reader that is told of what a night published.

ghost use Rattle.std.specs.Prelude.{◌≡◌, ◌≤◌, None, IfSome};
ghost use Rattle.wh_maint.specs.Asked.{AreBags};
ghost use Rattle.wh_maint.specs.Comp.{bag_at};
ghost use Rattle.wh_maint.specs.Contents.{AreContents, AreContentsOf};
ghost use Rattle.wh_maint.specs.Definition.{graph_of};
ghost use Rattle.wh_maint.specs.Laws.{changed};
ghost use Rattle.wh_carry.specs.Fit.{AreFitFor};
ghost use Rattle.wh_store.specs.Pages.{page_of};
ghost use Rattle.wh_store.specs.Versions.{table_in};
ghost use Rattle.wh_night.specs.Tonight.{newest_in};

use crate::nights::warehouse::{changes, one_thread, opening, warehouse_of};
use std::sync::Wait;
use std::test::Fail;
use std::thread::Threads;
use test_given::catalogs::{Cell, Every, joined, one_way};
use wh_desk::{Desk, Writer, seen_versions_stay_law};
use wh_maint::are_bags;
use wh_night::{NightRequest, NoGate, night};
use wh_store::Page;
use wh_strategy::check;

/// Tells a desk what is published, has it enter again, and reads the first page of a view in the version that the writer has come to.
/// None where it is not answered so.
fn read_told(writer: &Writer, desk: &mut Desk, view: usize) -> Option<Page>
    requires same { desk.old.book ≡ writer.now.book }
    ensures same { desk.new.book ≡ desk.old.book }
    ensures page { IfSome result (λ page. page ≡ page_of (table_in (newest_in writer.now.ledger) view) None 256) }
{
    seen_versions_stay_law();
    desk.learn(writer.tell());
    let _ = desk.close();
    let Ok(version) = desk.open() else {
        return None;
    };
    if version != writer.current() {
        return None;
    }
    match desk.page(view, None, 256) {
        Ok(page) => Some(page),
        Err(_) => None,
    }
}

/// What a reader is given of a view before a night and after it. Its first session stays open while the night runs.
fn read_before_and_after<R: Threads + Wait + Sync>(
    asked: &NightRequest<'_, Every, Cell, NoGate, R>,
    writer: &mut Writer,
    desk: &mut Desk,
    view: usize,
) -> Option<(Page, Page)>
    requires same { desk.old.book ≡ writer.old.book }
    requires judged { asked.now.correct.now.children ≡ asked.now.catalog.now.views.children }
    requires tables { AreBags asked.now.catalog.now (newest_in writer.old.ledger) }
    requires changes { AreBags asked.now.catalog.now asked.now.changes.now }
    requires fit { AreFitFor asked.now.catalog.now (bag_at asked.now.changes.now) asked.now.correct.now.list (bag_at (newest_in writer.old.ledger)) }
    requires workers { (1 ≤ asked.now.budget.now.threads) × (asked.now.budget.now.threads ≤ 16) }
    requires page_keys { (1 ≤ asked.now.page_keys) × (asked.now.page_keys ≤ 256) }
    ensures before { IfSome result (λ pages. pages.0 ≡ page_of (table_in (newest_in writer.old.ledger) view) None 256) }
    ensures after { IfSome result (λ pages. pages.1 ≡ page_of (table_in (newest_in writer.new.ledger) view) None 256) }
    ensures contents { IfSome result (λ pages. AreContents (graph_of asked.now.catalog.now) (bag_at (newest_in writer.old.ledger))
        → AreContentsOf (graph_of asked.now.catalog.now) (changed (bag_at (newest_in writer.old.ledger)) (bag_at asked.now.changes.now)) (bag_at (newest_in writer.new.ledger))) }
{
    let before = read_told(writer, desk, view)?;
    let Ok(_) = night(writer, asked) else {
        return None;
    };
    let after = read_told(writer, desk, view)?;
    Some((before, after))
}

/// Whether a page has these two rows, once each, and is the last.
fn has_two_rows(page: &Page, first: &[i64], second: &[i64]) -> bool {
    page.last
        && page.rows.len() == 2
        && page.rows.get(0) == (first, 1)
        && page.rows.get(1) == (second, 1)
}

#[test]
fn a_reader_is_told_of_a_night(rt: HostRuntime) -> Result<(), Fail> {
    let alloc = rt.alloc();
    let catalog = joined(alloc)?;
    let tables = opening(alloc, &[(&[1, 5], 1), (&[2, 5], 1)])?;
    let changes = changes(alloc, &[(&[2, 10], -1), (&[3, 10], 1)])?;
    let Ok(correct) = check(alloc, catalog.shape(), one_way(alloc)?) else {
        return Err(Fail::from("a correct strategy"));
    };
    if !correct.is_of(catalog.shape()) || !are_bags(&catalog, &changes) {
        return Err(Fail::from("what a night asks for"));
    }
    let Some((mut writer, mut desks)) = warehouse_of(
        &rt, alloc, &catalog, tables, &changes, &correct,
    )?
    else {
        return Err(Fail::from("a warehouse"));
    };
    let Some(mut desk) = desks.pop() else {
        writer.end(&rt);
        return Err(Fail::from("a desk"));
    };
    let budget = one_thread(&rt, alloc);
    let asked = NightRequest {
        budget: &budget,
        catalog: &catalog,
        changes: &changes,
        correct: &correct,
        page_keys: 256,
        gate: &NoGate,
    };
    let pages = read_before_and_after(&asked, &mut writer, &mut desk, 2);
    let version = writer.current();
    writer.end(&rt);
    assert_eq!(rt; version, 1);
    let are_told = match &pages {
        Some((before, after)) => {
            has_two_rows(before, &[1, 5], &[2, 5]) && has_two_rows(after, &[1, 6], &[3, 6])
        }
        None => false,
    };
    assert!(rt; are_told);
    Ok(())
}
