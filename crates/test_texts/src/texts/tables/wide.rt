// Tables that several threads write have the text that one thread writes.

use super::columns_of;
use crate::texts::cases::chunked_bytes;
use std::alloc::{AllocError, Global};
use std::process::Abort;
use std::test::Fail;
use std::thread::Threads;
use wh_load::{ChunkedText, Column, Dict, write_table};
use wh_row::{Bag, Records};
use wh_threads::ThreadBudget;

/// The texts of cells. The last number stands for none.
const WORDS: [&str; 5] = ["plain", "", "a,b", "say \"so\"", "two\r\nlines"];

/// So many drawn rows, of which some may be the same.
fn drawn(alloc: Global, rows: usize) -> Result<Records, AllocError> {
    let mut records = Records::new(alloc);
    let mut state = rows as u64;
    for _ in 0..rows {
        state = state
            .wrapping_mul(6_364_136_223_846_793_005)
            .wrapping_add(1);
        let number = (state >> 33) as i64;
        let count = (number % 9).wrapping_add(1);
        records.push(&[number % 6, number.wrapping_sub(1_000_000_000)], count)?;
    }
    Ok(records)
}

/// The words, with a number each.
fn words(alloc: Global) -> Result<Dict, AllocError> {
    let mut dict = Dict::new(alloc);
    for word in &WORDS {
        let _ = dict.intern(alloc, word)?;
    }
    Ok(dict)
}

/// What is appended behind a byte.
fn appended<R: Threads + Sync>(
    budget: &ThreadBudget<'_, R>,
    columns: &[Column],
    bag: &Bag,
    dict: &Dict,
) -> Result<Vec<u8>, AllocError> {
    let mut out = ChunkedText::new(budget.alloc);
    out.extend_from_slice(b">")?;
    write_table(budget, &mut out, columns, bag, dict)?;
    chunked_bytes(budget.alloc, &out)
}

/// Asserts that up to four threads append what one thread appends.
fn assert_written<R: Threads + Sync + Abort>(
    rt: &R,
    alloc: Global,
    columns: &[Column],
    bag: &Bag,
    dict: &Dict,
) -> Result<(), AllocError> {
    let alone = ThreadBudget {
        rt,
        alloc,
        threads: 1,
    };
    let wanted = appended(&alone, columns, bag, dict)?;
    for threads in [0, 2, 3, 4] {
        let budget = ThreadBudget { rt, alloc, threads };
        let found = appended(&budget, columns, bag, dict)?;
        assert!(rt; found.as_slice() == wanted.as_slice());
    }
    Ok(())
}

#[test]
fn threads_write_what_one_writes(rt: HostRuntime) -> Result<(), Fail> {
    let alloc = rt.alloc();
    let columns = columns_of(alloc, "k:text n")?;
    let dict = words(alloc)?;
    for rows in [0, 1, 9_999, 20_000, 25_017, 30_000, 41_234, 60_000] {
        let budget = ThreadBudget {
            rt: &rt,
            alloc,
            threads: 1,
        };
        let bag = Bag::from_records(&budget, &drawn(alloc, rows)?)?;
        assert_written(&rt, alloc, &columns, &bag, &dict)?;
    }
    Ok(())
}
