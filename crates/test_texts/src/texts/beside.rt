// Small parts of several views, which several threads read beside each other: the rows, the numbers of their texts and the first fault
// are those that one thread finds.

use crate::texts::replays::outcome;
use std::alloc::{AllocError, Global};
use std::test::Fail;
use std::thread::Threads;
use wh_threads::ThreadBudget;

/// How many base views there are.
const VIEWS: usize = 3;

/// How many records a table has. All tables together are then large enough for two threads, and none is by itself.
const RECORDS: usize = 2_500;

/// What is wrong with a table.
#[derive(Clone, Copy)]
enum Fault {
    Nothing,
    /// These two views have a record of the wrong form, the first one late and the second one early.
    Records(usize, usize),
}

impl Fault {
    /// Whether the record at this place of this view is of the wrong form.
    fn is_at(self, view: usize, place: usize) -> bool {
        match self {
            Fault::Nothing => false,
            Fault::Records(first, second) => {
                (view == first && place == RECORDS - 1) || (view == second && place == 0)
            }
        }
    }
}

/// The catalogue: base views, and one over the first.
fn catalogue(alloc: Global) -> Result<String, AllocError> {
    let mut text = String::from_str(alloc, "@catalogue\n")?;
    for view in 0..VIEWS {
        let own = format!(in alloc;
            "[[view]]\nname = \"v{view}\"\ncolumns = [\"k:text\", \"n\"]\n"
        )?;
        text.push_str(own.as_str())?;
    }
    text.push_str("[[view]]\nname = \"d\"\nover = [\"v0\"]\nkeep = [[\"n\", \"v0.n\"]]\n")?;
    Ok(text)
}

/// The records of a view: texts that other views have too, each view in another order, and texts of its own.
fn records(alloc: Global, view: usize, fault: Fault) -> Result<String, AllocError> {
    let mut text = String::from_str(alloc, "#,k,n\n")?;
    for place in 0..RECORDS {
        let mixed = place.wrapping_mul(7919).wrapping_add(view) % RECORDS;
        let record = match (fault.is_at(view, place), place % 3) {
            (true, _) => String::from_str(alloc, "1,a,x\n")?,
            (false, 0) => format!(in alloc; "1,own {view} {mixed},{place}\n")?,
            (false, _) => format!(in alloc; "2,shared {mixed},{place}\n")?,
        };
        text.push_str(record.as_str())?;
    }
    Ok(text)
}

/// A bundle of such tables and of such changes, the last view's first.
fn bundle(alloc: Global, tables: Fault, changes: Fault) -> Result<String, AllocError> {
    let mut text = catalogue(alloc)?;
    for (part, fault) in [("data", tables), ("changes", changes)] {
        for back in 0..VIEWS {
            let view = VIEWS - 1 - back;
            let own = records(alloc, view, fault)?;
            text.push_str(format!(in alloc; "@{part} v{view}\n{}", own.as_str())?.as_str())?;
        }
    }
    text.push_str("@strategy\ninst v0\n@schedule\ndesks 1\nworkers 4\nkeys 3\nbegin\n")?;
    Ok(text)
}

/// What so many threads read of it.
fn read<R: Threads + Sync>(
    rt: &R,
    alloc: Global,
    threads: usize,
    text: &str,
) -> Result<String, AllocError> {
    outcome(&ThreadBudget { rt, alloc, threads }, text.as_bytes())
}

#[test]
fn views_read_beside_each_other_are_as_read_in_order(rt: HostRuntime) -> Result<(), Fail> {
    let alloc = rt.alloc();
    let text = bundle(alloc, Fault::Nothing, Fault::Nothing)?;
    let wanted = read(&rt, alloc, 1, text.as_str())?;
    // The first text of the first view, though its part is the last.
    assert!(&rt; wanted.as_str().starts_with("own 0 0\n"));
    for threads in [2, 4] {
        let found = read(&rt, alloc, threads, text.as_str())?;
        assert!(&rt; found.as_str() == wanted.as_str());
    }
    Ok(())
}

#[test]
fn the_first_view_with_a_fault_is_told(rt: HostRuntime) -> Result<(), Fail> {
    let alloc = rt.alloc();
    let tables = bundle(alloc, Fault::Records(1, 2), Fault::Records(0, 2))?;
    let changes = bundle(alloc, Fault::Nothing, Fault::Records(1, 2))?;
    for threads in [1, 4] {
        let found = read(&rt, alloc, threads, tables.as_str())?;
        assert_eq!(&rt; found.as_str(), "6 fault number 2501\n");
        let found = read(&rt, alloc, threads, changes.as_str())?;
        assert_eq!(&rt; found.as_str(), "6 fault number 2501\n");
    }
    Ok(())
}
