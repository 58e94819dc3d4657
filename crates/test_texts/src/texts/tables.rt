// Tables and changes: what is read is written again, and of parts with two faults the first is told.

mod given;
mod wide;

use crate::texts::cases::{Reads, agree, chunked_bytes, fault_line, text_of};
use crate::texts::definitions::{dict_lines, read_catalogue};
use given::{
    CHANGES, NIGHT_B, NIGHT_CHANGES, NIGHT_V, NUMBERS, SUMMARY_CHANGES, SUMMARY_TABLE, TABLES,
    TEXTS,
};
use std::alloc::{AllocError, Global};
use std::test::Fail;
use std::thread::Threads;
use wh_load::{ChunkedText, Column, Dict, Kind, LoadFault, read_changes, read_table, write_table};
use wh_row::Bag;
use wh_threads::ThreadBudget;

/// Columns by their names: with `:` behind a name one of texts, without one of numbers.
pub(crate) fn columns_of(alloc: Global, names: &str) -> Result<Vec<Column>, AllocError> {
    let mut columns = Vec::new(alloc);
    for word in names.split_whitespace() {
        let (name, kind) = match word.split_once(':') {
            Some((name, _)) => (name, Kind::Text),
            None => (word, Kind::Int),
        };
        columns.push(Column::new(String::from_str(alloc, name)?, kind))?;
    }
    Ok(columns)
}

/// The table that was read as it is written again, or the line of its fault.
pub(crate) fn written<R: Threads + Sync>(
    budget: &ThreadBudget<'_, R>,
    columns: &[Column],
    read: Result<Bag, LoadFault>,
    dict: &Dict,
) -> Result<String, AllocError> {
    match read {
        Ok(bag) => {
            let mut out = ChunkedText::new(budget.alloc);
            write_table(budget, &mut out, columns, &bag, dict)?;
            text_of(budget.alloc, &chunked_bytes(budget.alloc, &out)?)
        }
        Err(fault) => fault_line(budget.alloc, &fault),
    }
}

/// The table as it is written, or the fault.
pub(crate) fn table_outcome<R: Threads + Sync>(
    budget: &ThreadBudget<'_, R>,
    columns: &str,
    text: &[u8],
) -> Result<String, AllocError> {
    let columns = columns_of(budget.alloc, columns)?;
    let mut dict = Dict::new(budget.alloc);
    let read = read_table(budget, &columns, text, &mut dict);
    written(budget, &columns, read, &dict)
}

/// The changes as a table is written, or the fault.
pub(crate) fn changes_outcome<R: Threads + Sync>(
    budget: &ThreadBudget<'_, R>,
    columns: &str,
    text: &[u8],
) -> Result<String, AllocError> {
    let columns = columns_of(budget.alloc, columns)?;
    let mut dict = Dict::new(budget.alloc);
    let read = read_changes(budget, &columns, text, &mut dict);
    written(budget, &columns, read, &dict)
}

#[test]
fn tables_are_read_or_their_fault_is_told(rt: HostRuntime) -> Result<(), AllocError> {
    let alloc = rt.alloc();
    agree(&rt, alloc, Reads::Table("x y"), "", TABLES)?;
    agree(&rt, alloc, Reads::Table("x y"), "x,y\n", NUMBERS)?;
    agree(&rt, alloc, Reads::Table("k:text n"), "", TEXTS)
}

#[test]
fn changes_are_read_or_their_fault_is_told(rt: HostRuntime) -> Result<(), AllocError> {
    agree(&rt, rt.alloc(), Reads::Changes("x y"), "", CHANGES)
}

#[test]
fn the_parts_of_worked_examples_are_read(rt: HostRuntime) -> Result<(), AllocError> {
    let alloc = rt.alloc();
    agree(&rt, alloc, Reads::Table("y z"), "", NIGHT_B)?;
    agree(&rt, alloc, Reads::Table("x z"), "", NIGHT_V)?;
    agree(&rt, alloc, Reads::Changes("y z"), "", NIGHT_CHANGES)?;
    agree(&rt, alloc, Reads::Table("g x"), "", SUMMARY_TABLE)?;
    agree(&rt, alloc, Reads::Changes("g x"), "", SUMMARY_CHANGES)
}

/// How often each row (x, 10) counts in a table and in the changes to it.
fn counts(alloc: Global, table: &Bag, delta: &Bag) -> Result<String, AllocError> {
    let mut counts = String::new(alloc);
    for x in 0..4 {
        let (old, more) = (table.count(&[x, 10]), delta.count(&[x, 10]));
        counts.push_str(format!(in alloc; "{old} {more};")?.as_str())?;
    }
    Ok(counts)
}

/// The counts of a table and a change that are read one after another.
fn two_table_night<R: Threads + Sync>(budget: &ThreadBudget<'_, R>) -> Result<String, LoadFault> {
    let alloc = budget.alloc;
    let columns = columns_of(alloc, "x y")?;
    let mut dict = Dict::new(alloc);
    let table = read_table(budget, &columns, b"x,y\n1,10\n2,10\n", &mut dict)?;
    let delta = read_changes(budget, &columns, b"#,x,y\n-1,2,10\n1,3,10\n", &mut dict)?;
    Ok(counts(alloc, &table, &delta)?)
}

#[test]
fn the_rows_of_two_table_night_are_read(rt: HostRuntime) -> Result<(), Fail> {
    let counts = two_table_night(&ThreadBudget {
        rt: &rt,
        alloc: rt.alloc(),
        threads: 1,
    })?;
    assert_eq!(&rt; counts.as_str(), "0 0;1 0;1 -1;0 1;");
    Ok(())
}

const NAMED: &str = r#"view = [
  { name = "t", columns = ["k:text", "n"] },
  { name = "v", over = ["t"], keep = [["k", { text = "r" }]], where = ["=", "t.k", { text = "q" }] },
]
"#;

// A table, changes with a fault, and changes, of which those that begin by `#` are changes.
static PARTS: [&str; 3] = [
    "k,n\nz,1\nq,2\ny,3\nz,3\n",
    "#,k,n\n1,u,1\n1,w,x\n",
    "#,k,n\n-1,y,3\n1,x,3\n1,r,3\n",
];

/// What is read of each part, with one dictionary for all of them.
fn read_in_turn<R: Threads + Sync>(
    budget: &ThreadBudget<'_, R>,
    columns: &[Column],
    dict: &mut Dict,
) -> Result<String, AllocError> {
    let mut text = String::new(budget.alloc);
    for part in &PARTS {
        let read = if part.starts_with("#") {
            read_changes(budget, columns, part.as_bytes(), dict)
        } else {
            read_table(budget, columns, part.as_bytes(), dict)
        };
        text.push_str(written(budget, columns, read, dict)?.as_str())?;
    }
    Ok(text)
}

/// Numbers the texts of the catalogue.
fn note_literals(alloc: Global, dict: &mut Dict) -> bool {
    match read_catalogue(alloc, NAMED.as_bytes(), dict) {
        Ok(_written) => true,
        Err(_fault) => false,
    }
}

/// What is read of each part after the catalogue with texts.
fn numbered<R: Threads + Sync>(budget: &ThreadBudget<'_, R>) -> Result<String, AllocError> {
    let mut dict = Dict::new(budget.alloc);
    if !note_literals(budget.alloc, &mut dict) {
        return String::from_str(budget.alloc, "no catalogue");
    }
    numbered_after(budget, &mut dict)
}

/// The parts, and the texts that have numbers then.
fn numbered_after<R: Threads + Sync>(
    budget: &ThreadBudget<'_, R>,
    dict: &mut Dict,
) -> Result<String, AllocError> {
    let columns = columns_of(budget.alloc, "k:text n")?;
    let mut text = read_in_turn(budget, &columns, dict)?;
    text.push_str(dict_lines(budget.alloc, dict)?.as_str())?;
    Ok(text)
}

// Literals of the catalogue, then tables, then changes, each text at its first appearance; a part with a fault adds none.
#[test]
fn texts_are_numbered_as_they_appear(rt: HostRuntime) -> Result<(), AllocError> {
    let want = "#,k,n
1,q,2
1,z,1
1,z,3
1,y,3
6 fault number 3
#,k,n
1,r,3
-1,y,3
1,x,3
q
r
z
y
x
";
    let found = numbered(&ThreadBudget {
        rt: &rt,
        alloc: rt.alloc(),
        threads: 3,
    })?;
    assert_eq!(&rt; found.as_str(), want);
    Ok(())
}
