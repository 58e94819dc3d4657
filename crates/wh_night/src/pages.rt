//! Puts the new counts of a change out in pages, so many rows at a time.

ghost use Rattle.std.specs.Prelude.{true, ◌≡◌, ◌≤◌, ◌<◌, ◌++◌, ◌∷◌, [], None, List, length, map, OnOk, OnErr};
ghost use Rattle.wh_row.specs.Bag.{count, written};
ghost use Rattle.wh_row.specs.Stored.{plain};
ghost use Rattle.wh_row.specs.Weigh.{Counted};
ghost use Rattle.wh_store.specs.Operations.{Operation, Writes};
ghost use Rattle.wh_store.specs.Pages.{is_page};
ghost use Rattle.wh_carry.specs.NightList.{counts_in, pages_of};
ghost use Rattle.wh_night.specs.Tonight.{goes_out};
ghost use Rattle.wh_night.specs.Inner.Underway.{AreGoodPages, TakesPages, GoesOut, IsPartly};

use std::alloc::{AllocError, Global};
use std::sync::Wait;
use wh_row::{Bag, Row};
use wh_store::{Op, Publish, PublishFault};

/// By what pages go out, and how many rows one has at most.
#[derive(Drop)]
pub(crate) struct Pages<'r, R> {
    pub(crate) rt: &'r R,
    pub(crate) alloc: Global,
    /// 1 to 256.
    pub(crate) keys: usize,
}

/// Publishes these rows as a page of its own, and begins the next.
fn publish_page<P: Publish, R: Wait>(
    pages: &Pages<'_, R>,
    writer: &mut P,
    view: usize,
    page: &mut Vec<(Row, i64)>,
) -> Result<(), AllocError>
    requires takes { TakesPages (P.kept writer.old) view }
    requires good { is_page (plain page.old.items) ≡ true }
    ensures home { P.home writer.new ≡ P.home writer.old }
    ensures refused_ends { P.refused_ends writer.new ≡ P.refused_ends writer.old }
    ensures empty { OnOk result (page.new.items ≡ []) }
    ensures out { OnOk result (P.kept writer.new ≡ goes_out (P.kept writer.old) (Writes view (plain page.old.items) ∷ []) None) }
    ensures err { OnErr result ((rest : List Operation) → IsPartly (P.kept writer.old) (Writes view (plain page.old.items) ∷ rest) (P.kept writer.new)) }
{
    let rows = std::mem::replace(page, Vec::new(pages.alloc));
    match writer.publish(pages.rt, Op::Put(view, rows)) {
        Ok(()) => Ok(()),
        Err(PublishFault::Memory { held: _ }) => Err(AllocError),
        Err(_) => unreachable!(),
    }
}

/// Publishes the page if it is full.
fn make_room<P: Publish, R: Wait>(
    pages: &Pages<'_, R>,
    writer: &mut P,
    view: usize,
    page: &mut Vec<(Row, i64)>,
) -> Result<(), AllocError>
    requires takes { TakesPages (P.kept writer.old) view }
    requires some { 1 ≤ pages.now.keys }
    requires few { length page.old.items ≤ pages.now.keys }
    requires good { length page.old.items ≡ pages.now.keys → is_page (plain page.old.items) ≡ true }
    ensures home { P.home writer.new ≡ P.home writer.old }
    ensures refused_ends { P.refused_ends writer.new ≡ P.refused_ends writer.old }
    ensures room { OnOk result (length page.new.items < pages.now.keys) }
    ensures out { OnOk result (GoesOut view pages.now.keys (plain page.old.items) (plain page.new.items) (P.kept writer.old) (P.kept writer.new)) }
    ensures err { OnErr result ((rest : Counted) → IsPartly (P.kept writer.old) (map (Writes view) (pages_of pages.now.keys (plain page.old.items ++ rest))) (P.kept writer.new)) }
{
    if page.len() == pages.keys {
        publish_page(pages, writer, view, page)?;
    }
    Ok(())
}

/// Publishes the page if it has a row.
fn close_last<P: Publish, R: Wait>(
    pages: &Pages<'_, R>,
    writer: &mut P,
    view: usize,
    page: &mut Vec<(Row, i64)>,
) -> Result<(), AllocError>
    requires takes { TakesPages (P.kept writer.old) view }
    requires few { length page.old.items ≤ pages.now.keys }
    requires good { 1 ≤ length page.old.items → is_page (plain page.old.items) ≡ true }
    ensures home { P.home writer.new ≡ P.home writer.old }
    ensures refused_ends { P.refused_ends writer.new ≡ P.refused_ends writer.old }
    ensures out { OnOk result (P.kept writer.new ≡ goes_out (P.kept writer.old) (map (Writes view) (pages_of pages.now.keys (plain page.old.items))) None) }
    ensures err { OnErr result (IsPartly (P.kept writer.old) (map (Writes view) (pages_of pages.now.keys (plain page.old.items))) (P.kept writer.new)) }
{
    if page.len() == 0 {
        return Ok(());
    }
    publish_page(pages, writer, view, page)
}

/// Puts a row behind those of the open page, with its count in the table.
fn put_row(
    alloc: Global,
    table: &Bag,
    row: &[i64],
    page: &mut Vec<(Row, i64)>,
) -> Result<(), AllocError>
    ensures { OnOk result (plain page.new.items ≡ plain page.old.items ++ (row.now, count table.now row.now) ∷ []) }
{
    let copy = Row::from_slice(alloc, row)?;
    page.push((copy, table.count(row)))?;
    Ok(())
}

/// Publishes the rows of a change in rising order, each with its count in the table that has the change, by pages of at
/// most so many rows.
pub(crate) fn publish_change<P: Publish, R: Wait>(
    pages: &Pages<'_, R>,
    writer: &mut P,
    view: usize,
    table: &Bag,
    change: &Bag,
) -> Result<(), AllocError>
    requires takes { TakesPages (P.kept writer.old) view }
    requires some { 1 ≤ pages.now.keys }
    requires good { AreGoodPages pages.now.keys (counts_in table.now change.now) }
    ensures home { P.home writer.new ≡ P.home writer.old }
    ensures refused_ends { P.refused_ends writer.new ≡ P.refused_ends writer.old }
    ensures out { OnOk result (P.kept writer.new ≡ goes_out (P.kept writer.old) (map (Writes view) (pages_of pages.now.keys (counts_in table.now change.now))) None) }
    ensures err { OnErr result (IsPartly (P.kept writer.old) (map (Writes view) (pages_of pages.now.keys (counts_in table.now change.now))) (P.kept writer.new)) }
{
    let mut page = Vec::new(pages.alloc);
    for (row, _) in change.rows() {
        make_room(pages, writer, view, &mut page)?;
        put_row(pages.alloc, table, row, &mut page)?;
    }
    close_last(pages, writer, view, &mut page)
}
