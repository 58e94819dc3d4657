// Strategies: an expression a line, over bases A and B and V over both.

use crate::texts::cases::{Reads, agree, fault_line, text_of, two_children_names};
use std::alloc::{AllocError, Global};
use std::test::Fail;
use wh_load::{Names, read_strategy, write_expression, write_strategy};

// Whether an expression may stand where it does is for the check to judge.
const LINES: &str = "----
====
inst A
----
inst A====
inst A
----
inst A
====
comp V from A B
inst V
----
comp V from A B
inst V
====
inst B
----

 \t
inst B

====
comp V from A
----
\tcomp\tV  from\t A 
====
comp V from B A
inst B
----

 comp V  from B\tA
inst B====
comp A from V V
----
comp A from V V====
9 fault strategy 1
----
inst A\r
====
9 fault strategy 1
----
\r====
9 fault strategy 1
----
inst\u{b}A
====
9 fault strategy 1
----
inst\u{c2}\u{a0}A
====
9 fault strategy 3
----
inst A

comp V from
====
9 fault strategy 1
----
inst A B
====
9 fault strategy 1
----
inst
====
9 fault strategy 1
----
comp V A
====
9 fault strategy 1
----
comp V from A Z
====
9 fault strategy 1
----
Inst A
====
9 fault strategy 2
----
inst A
#
inst Q
====
9 fault strategy 1
----
inst \u{ff}
";

/// The strategy as it is written, or the fault.
pub(crate) fn outcome(alloc: Global, text: &[u8]) -> Result<String, AllocError> {
    let Ok(names) = two_children_names(alloc) else {
        return String::from_str(alloc, "no names");
    };
    match read_strategy(alloc, &names, text) {
        Ok(strategy) => {
            let mut out = Vec::new(alloc);
            write_strategy(&mut out, &names, &strategy)?;
            text_of(alloc, &out)
        }
        Err(fault) => fault_line(alloc, &fault),
    }
}

#[test]
fn strategies_are_read_or_their_fault_is_told(rt: HostRuntime) -> Result<(), AllocError> {
    agree(&rt, rt.alloc(), Reads::Strategy, "", LINES)
}

#[test]
fn views_are_found_by_name(rt: HostRuntime) -> Result<(), Fail> {
    let names = two_children_names(rt.alloc())?;
    let found = (
        names.len(),
        names.position(b"V"),
        names.position(b"v"),
        names.position(b"\xff"),
    );
    assert!(&rt; found == (3, Some(2), None, None));
    Ok(())
}

/// Two expressions, each written by itself with nothing between them.
fn written_side_by_side(alloc: Global, names: &Names) -> Result<Vec<u8>, AllocError> {
    let mut out = Vec::new(alloc);
    if let Ok(strategy) = read_strategy(alloc, names, b"comp V from B A\ninst B") {
        for expression in strategy.as_slice() {
            write_expression(&mut out, names, expression)?;
        }
    }
    Ok(out)
}

#[test]
fn an_expression_is_written_as_it_is_read(rt: HostRuntime) -> Result<(), Fail> {
    let names = two_children_names(rt.alloc())?;
    let out = written_side_by_side(rt.alloc(), &names)?;
    assert_eq!(&rt; out.as_slice(), b"comp V from B Ainst B".as_slice());
    Ok(())
}
