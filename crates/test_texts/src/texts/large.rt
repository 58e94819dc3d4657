// Large parts, which several threads read: the rows, the numbers of their texts and the first fault are those that one thread finds.

use crate::texts::definitions::dict_lines;
use crate::texts::tables::{columns_of, written};
use std::alloc::{AllocError, Global};
use std::test::Fail;
use std::thread::Threads;
use wh_load::{Dict, read_table};
use wh_threads::ThreadBudget;

/// How many records a part has. It is then large enough for three threads.
const RECORDS: usize = 18_000;

/// How the records of a part are written.
#[derive(Clone, Copy)]
enum Form {
    /// Numbers that rise from record to record.
    Rising,
    /// Numbers in no order.
    Mixed,
    /// Texts that come again and again.
    Named,
    /// Texts in quotes, with line ends and quotes within.
    Quoted,
}

static FORMS: [Form; 4] = [Form::Rising, Form::Mixed, Form::Named, Form::Quoted];

impl Form {
    /// The columns of such a part.
    fn columns(self) -> &'static str {
        match self {
            Form::Rising | Form::Mixed => "k n",
            Form::Named | Form::Quoted => "k:text n",
        }
    }

    /// The record at a place, from 0.
    fn record(self, alloc: Global, place: usize) -> Result<String, AllocError> {
        let mixed = place.wrapping_mul(7919) % RECORDS;
        match self {
            Form::Rising => format!(in alloc; "{place},{mixed}\n"),
            Form::Mixed => format!(in alloc; "{mixed},{place}\n"),
            Form::Named => format!(in alloc; "name {mixed},{place}\n"),
            Form::Quoted => format!(in alloc; "\"a \"\"\n,{mixed}\r\n\",{place}\r\n"),
        }
    }
}

/// A part of such records, but for those at these places, whose number is none.
fn part_of(alloc: Global, form: Form, faults: &[usize]) -> Result<String, AllocError> {
    let mut text = String::from_str(alloc, "k,n\n")?;
    for place in 0..RECORDS {
        let record = match faults.contains(&place) {
            true => String::from_str(alloc, "1,x\n")?,
            false => form.record(alloc, place)?,
        };
        text.push_str(record.as_str())?;
    }
    Ok(text)
}

/// The table as it is written or its fault, and the texts that have numbers then, where so many threads read it.
fn outcome<R: Threads + Sync>(
    rt: &R,
    alloc: Global,
    threads: usize,
    columns: &str,
    text: &str,
) -> Result<String, AllocError> {
    let columns = columns_of(alloc, columns)?;
    let mut dict = Dict::new(alloc);
    let _ = dict.intern(alloc, "name 7")?;
    let budget = ThreadBudget { rt, alloc, threads };
    let read = read_table(&budget, &columns, text.as_bytes(), &mut dict);
    let mut out = written(&budget, &columns, read, &dict)?;
    out.push_str(dict_lines(alloc, &dict)?.as_str())?;
    Ok(out)
}

#[test]
fn threads_read_what_one_reads(rt: HostRuntime) -> Result<(), Fail> {
    let alloc = rt.alloc();
    for form in &FORMS {
        let text = part_of(alloc, *form, &[])?;
        let wanted = outcome(&rt, alloc, 1, form.columns(), text.as_str())?;
        for threads in [2, 3, 16] {
            let found = outcome(&rt, alloc, threads, form.columns(), text.as_str())?;
            assert!(&rt; found.as_str() == wanted.as_str());
        }
    }
    Ok(())
}

#[test]
fn the_first_fault_is_that_of_the_text(rt: HostRuntime) -> Result<(), Fail> {
    let alloc = rt.alloc();
    for form in &FORMS {
        let late = part_of(alloc, *form, &[17_000])?;
        let both = part_of(alloc, *form, &[2_000, 17_000])?;
        for threads in [1, 3] {
            let found = outcome(&rt, alloc, threads, form.columns(), late.as_str())?;
            assert_eq!(&rt; found.as_str(), "6 fault number 17002\nname 7\n");
            let found = outcome(&rt, alloc, threads, form.columns(), both.as_str())?;
            assert_eq!(&rt; found.as_str(), "6 fault number 2002\nname 7\n");
        }
    }
    Ok(())
}

#[test]
fn a_byte_order_mark_is_taken_off_once(rt: HostRuntime) -> Result<(), Fail> {
    let alloc = rt.alloc();
    let text = part_of(alloc, Form::Named, &[])?;
    let marked = format!(in alloc; "\u{feff}{}", text.as_str())?;
    let wanted = outcome(&rt, alloc, 1, "k:text n", text.as_str())?;
    let found = outcome(&rt, alloc, 3, "k:text n", marked.as_str())?;
    assert!(&rt; found.as_str() == wanted.as_str());
    Ok(())
}
