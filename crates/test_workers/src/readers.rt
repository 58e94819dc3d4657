// A reader that asks in turn: the worked example.

ghost use Rattle.std.specs.Prelude.{◌≡◌, [], IfOk};
ghost use Rattle.std.specs.List.{All};
ghost use Rattle.wh_desk.specs.Reading.{IsAskable};
ghost use Rattle.wh_store.specs.Windows.{Shows, current};

use std::alloc::{AllocError, Global};
use std::process::Abort;
use std::test::Fail;
use test_given::tables::bag as bag_of;
use wh_desk::{Answer, Ask, Desk, DeskFault, Reader, open_warehouse};
use wh_store::{Page, Store};

/// A store of one view with the rows (1), (2) and (3), each once.
fn store_of_three(rt: &impl Abort, alloc: Global) -> Result<Store, Fail>
    ensures new { IfOk result (λ store. Shows store (current store) []) }
    ensures limit { IfOk result (λ store. store.limit ≡ 2) }
{
    let table = bag_of(alloc, &[(&[1], 1), (&[2], 1), (&[3], 1)])?;
    assert!(rt; table.is_table());
    let mut tables = Vec::new(alloc);
    tables.push(table)?;
    Ok(Store::new(alloc, &tables, 2)?)
}

/// Row by row for two rows, the rest, then from the beginning again, a view that is not there, and two ends.
fn asks(alloc: Global) -> Result<Vec<Ask>, AllocError>
    ensures { IfOk result (λ asks. All IsAskable asks.items) }
{
    let mut asks = Vec::new(alloc);
    asks.push(Ask::Page(0, 1))?;
    asks.push(Ask::Open)?;
    asks.push(Ask::Page(0, 1))?;
    asks.push(Ask::Page(0, 1))?;
    asks.push(Ask::Rest(0, 256))?;
    asks.push(Ask::Rest(0, 2))?;
    asks.push(Ask::Page(1, 1))?;
    asks.push(Ask::Close)?;
    asks.push(Ask::Close)?;
    Ok(asks)
}

/// Whether the page has one row, this one, and more follow.
fn is_one_of(page: &Page, cell: i64) -> bool {
    if page.last || page.rows.len() != 1 {
        return false;
    }
    let (row, count) = page.rows.get(0);
    row == [cell].as_slice() && count == 1
}

fn assert_read(rt: &impl Abort, alloc: Global, desk: Desk) -> Result<(), Fail> {
    let mut reader = Reader::new(desk);
    let answers = reader.ask_all(alloc, &asks(alloc)?)?;
    let is_right = match answers.as_slice() {
        [
            Answer::Refused(DeskFault::NoSession),
            Answer::Session(0),
            Answer::Page(first),
            Answer::Page(second),
            Answer::Rows(1),
            Answer::Rows(3),
            Answer::Refused(DeskFault::NoView),
            Answer::Closed,
            Answer::Refused(DeskFault::NoSession),
        ] => is_one_of(first, 1) && is_one_of(second, 2),
        _ => false,
    };
    assert!(rt; is_right);
    Ok(())
}

#[test]
fn a_reader_goes_on_where_it_stands(rt: HostRuntime) -> Result<(), Fail> {
    let store = store_of_three(&rt, rt.alloc())?;
    let Ok((writer, mut desks)) = open_warehouse(&rt, rt.alloc(), store, 1) else {
        return Err(Fail::from("a warehouse"));
    };
    let Some(desk) = desks.pop() else {
        writer.end(&rt);
        return Err(Fail::from("a desk"));
    };
    let done = assert_read(&rt, rt.alloc(), desk);
    writer.end(&rt);
    done
}
