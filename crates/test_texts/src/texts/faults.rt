// The faults that no text of these tables has: what they are numbered and what is printed for them.

use crate::texts::cases::fault_line;
use std::alloc::{AllocError, Global};
use wh_dag::ShapeFault;
use wh_load::{LoadFault, Word};

const LINES: &str = "10 fault read
11 memory
11 memory
13 fault toolong
9 fault schedule 3
12 fault part \u{ff}
";

/// The fault at a place of the list of cases.
fn fault(alloc: Global, place: usize) -> Result<LoadFault, AllocError> {
    Ok(match place {
        0 => LoadFault::Read,
        1 => LoadFault::Memory,
        2 => LoadFault::Shape(ShapeFault::Memory),
        3 => LoadFault::TooLong,
        4 => LoadFault::Schedule(3),
        _ => LoadFault::Part(Word::new(alloc, b"\xff")?),
    })
}

/// The lines of all faults of the list.
fn lines(alloc: Global) -> Result<String, AllocError> {
    let mut lines = String::new(alloc);
    for place in 0..6 {
        let fault = fault(alloc, place)?;
        lines.push_str(fault_line(alloc, &fault)?.as_str())?;
    }
    Ok(lines)
}

#[test]
fn each_fault_prints_its_line(rt: HostRuntime) -> Result<(), AllocError> {
    assert_eq!(&rt; lines(rt.alloc())?.as_str(), LINES);
    Ok(())
}

#[test]
fn a_fault_displays_its_line(rt: HostRuntime) -> Result<(), AllocError> {
    let alloc = rt.alloc();
    let of_a_line = LoadFault::Schedule(3);
    assert_eq!(&rt;
        format!(in alloc; "{of_a_line}")?.as_str(),
        "fault schedule 3"
    );
    let of_a_word = LoadFault::Part(Word::new(alloc, b"d\xffta")?);
    assert_eq!(&rt;
        format!(in alloc; "{of_a_word}")?.as_str(),
        "fault part d\\xffta"
    );
    Ok(())
}
