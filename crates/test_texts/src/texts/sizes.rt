// Sizes: the rows of bases A and B and of V over both, with weights and without, and of texts with two faults the first.

use crate::texts::cases::{Reads, agree, fault_line, two_children};
use std::alloc::{AllocError, Global};
use wh_load::read_sizes;
use wh_strategy::{SizeRow, Sizes};

// Rows under the header.
const ROWS: &str = "10 12 4 1
100 70 30 1
50 44 6 1
----
A,10,12,4
B,100,70,30
V,50,44,6
====
10 12 4 1
100 70 30 1
50 44 6 1
----
V,50,44,6
A,10,12,4
B,100,70,30====
10 12 4 1
100 70 30 1
50 44 6 1
----


B,100,70,30\r
\r
V,50,44,6\r
A,10,12,4\r

====
10 12 4 1
100 70 30 1
50 44 6 1
----
\"B\",\"100\",70,30
V,+50,044,+006
A,10,12,4
====
0 1099511627776 1099511627776 1
1099511627776 0 1099511627776 1
0 0 0 1
----
A,0,1099511627776,1099511627776
B,1099511627776,0,1099511627776
V,-0,0,0
====
8 fault sizes A
----
A,1099511627777,1099511627776,1
====
8 fault sizes A
----
A,1099511627776,1099511627777,1
====
8 fault sizes A
----
A,1,1,1099511627777
====
8 fault sizes A
----
A,-1,0,1
====
8 fault sizes A
----
A,0,-1,1
====
8 fault sizes A
----
A,0,0,-1
====
8 fault sizes A
----
A,10,15,4
====
8 fault sizes A
----
A,15,10,4
====
8 fault sizes A
----
A,9223372036854775807,0,0
====
8 fault sizes A
----
A,-9223372036854775808,0,0
====
6 fault number 2
----
A,9223372036854775808,0,0
====
6 fault number 2
----
A,0,-9223372036854775809,0
====
6 fault number 2
----
A,0,0,
====
6 fault number 2
----
A,+,0,0
====
6 fault number 2
----
A,+-5,0,0
====
6 fault number 2
----
A, 5,5,0
====
6 fault number 3
----
A,5,5,0
B,1e3,1000,0
====
8 fault sizes A
----
====
8 fault sizes B
----
A,1,1,0
====
8 fault sizes B
----
V,1,1,0
A,1,1,0
====
8 fault sizes V
----
B,1,1,0
A,1,1,0
====
8 fault sizes C
----
C,1,1,0
====
8 fault sizes a
----
a,1,1,0
====
8 fault sizes 
----
,1,1,0
====
8 fault sizes A
B
----
\"A
B\",1,1,0
====
8 fault sizes B
----
A,1,1,0
B,1,1,0
V,1,1,0
B,1,1,0
";

// Of two faults the first: record by record its form, the name, the numbers, the ranges.
const TWO_FAULTS: &str = "5 fault csv 2
----
C,1,1
====
5 fault csv 2
----
A,x,1,0,0
====
8 fault sizes C
----
C,x,1,0
====
8 fault sizes A
----
A,1,1,0
A,x,1,0
====
5 fault csv 3
----
A,1,1,0
A,1,1
====
6 fault number 2
----
A,-1,x,0
====
6 fault number 2
----
A,1,5,x
====
6 fault number 2
----
A,x,1,0
B,1
====
8 fault sizes B
----
B,-1,1,0
C,1,1,0
====
8 fault sizes C
----
C,1,1,0
A,x,1,0
====
5 fault csv 3
----
B,1,1,0
V,1,1
====
6 fault number 3
----
B,1,1,0
V,1,x,0
====
8 fault sizes V
----
B,1,1,0
V,1,2,0
====
5 fault csv 3
----
A,1,1,0


B,1
";

// Rows under the header with weights.
const WEIGHTED: &str = "10 12 4 10
100 70 30 1
50 44 6 1
----
A,10,12,4,10
B,100,70,30,1
V,50,44,6,1
====
10 12 4 7
100 70 30 1
50 44 6 1000
----
V,50,44,6,+1000
\"B\",100,70,30,\"01\"
A,10,12,4,007\r
====
0 1099511627776 1099511627776 1000
1099511627776 0 1099511627776 1000
0 0 0 1000
----
A,0,1099511627776,1099511627776,1000
B,1099511627776,0,1099511627776,1000
V,0,0,0,1000
====
8 fault sizes A
----
A,1,1,0,0
====
8 fault sizes A
----
A,1,1,0,-0
====
8 fault sizes A
----
A,1,1,0,1001
====
8 fault sizes A
----
A,1,1,0,-1
====
8 fault sizes A
----
A,1,1,0,-9223372036854775808
====
8 fault sizes A
----
A,1,1,0,9223372036854775807
====
6 fault number 2
----
A,1,1,0,9223372036854775808
====
6 fault number 2
----
A,1,1,0,x
====
6 fault number 2
----
A,1,1,0,
====
6 fault number 2
----
A,1,1,0,1.5
====
8 fault sizes A
----
A,1099511627777,1,1,1
====
8 fault sizes A
----
A,10,15,4,2
====
5 fault csv 2
----
A,1,1,0
====
5 fault csv 2
----
A,1,1,0,1,1
====
8 fault sizes B
----
A,1,1,0,1
B,1,1,0,0
====
6 fault number 3
----
A,1,1,0,1
B,1,1,0,x
====
8 fault sizes V
----
A,1,1,0,1
B,1,1,0,2
====
8 fault sizes A
----
";

// The same with two faults: record by record its form, the name, the numbers and the weight's among them, then the ranges.
const TWO_FAULTS_WEIGHTED: &str = "6 fault number 2
----
A,1099511627777,1,1,x
====
6 fault number 2
----
A,10,15,4,x
====
6 fault number 2
----
A,x,1,0,0
====
6 fault number 2
----
A,1,1,x,1001
====
8 fault sizes A
----
A,10,15,4,0
====
8 fault sizes A
----
A,1099511627777,1,1,0
====
8 fault sizes C
----
C,1,1,0,x
====
8 fault sizes A
----
A,1,1,0,1
A,1,1,0,x
====
5 fault csv 2
----
C,1,1,x
====
5 fault csv 3
----
A,1,1,0,1
B,1,1,0
====
8 fault sizes B
----
B,1,1,0,0
C,1,1,0,x
====
6 fault number 2
----
A,1,1,0,x
B,1,1,0,0
";

// Whole parts; the header is judged first.
const HEADERS: &str = "7 fault header
----
====
7 fault header
----

\r
====
7 fault header
----
view,pre,post
A,1
====
7 fault header
----
view,pre,post,change,
====
7 fault header
----
view,pre,post,change,weights
====
7 fault header
----
view,pre,post,change,Weight
====
7 fault header
----
view,pre,post,change,weight,weight
====
7 fault header
----
view,pre,post,weight,change
A,1,1,1,0
====
7 fault header
----
view,pre,post,weight
A,1,1,1
====
7 fault header
----
weight,view,pre,post,change
====
7 fault header
----
weight
====
7 fault header
----
view,post,pre,change
A,1,1,0
====
7 fault header
----
View,pre,post,change
====
7 fault header
----
view, pre,post,change
====
8 fault sizes A
----
\"view\",\"pre\",\"post\",\"change\"
====
5 fault csv 2
----


view,pre,post,change
A,1
====
8 fault sizes A
----
view,\"pre\",post,change,\"weight\"
====
5 fault csv 2
----
view,pre,post,change,weight
A,1,1,0
====
1 1 0 1
2 2 0 1
3 3 0 1
----
\u{ef}\u{bb}\u{bf}view,pre,post,change
A,1,1,0
B,2,2,0
V,3,3,0
====
1 1 0 3
2 2 0 2
3 3 0 1
----
\u{ef}\u{bb}\u{bf}view,pre,post,change,weight\r
A,1,1,0,3
B,2,2,0,2
V,3,3,0,1
====
5 fault csv 1
----
\u{ff},pre
A,1
====
5 fault csv 2
----
view,pre,post,change
\u{ff},1,1,0
====
5 fault csv 2
----
view,pre,post,change
C,x,1,\u{c3}
";

/// A line for each view: its rows before, after and of the change, and the weight of each.
fn size_line(alloc: Global, sizes: &Sizes) -> Result<String, AllocError> {
    let mut line = String::new(alloc);
    for view in 0..sizes.len() {
        let SizeRow {
            pre,
            post,
            change,
            weight,
        } = sizes.row(view);
        line.push_str(format!(in alloc; "{pre} {post} {change} {weight}\n")?.as_str())?;
    }
    Ok(line)
}

/// The sizes of the views line by line, or the fault.
pub(crate) fn outcome(alloc: Global, text: &[u8]) -> Result<String, AllocError> {
    let Ok(shape) = two_children(alloc) else {
        return String::from_str(alloc, "no shape");
    };
    match read_sizes(alloc, &shape, text) {
        Ok(sizes) => size_line(alloc, &sizes),
        Err(fault) => fault_line(alloc, &fault),
    }
}

#[test]
fn the_rows_of_sizes_are_read_or_their_fault_is_told(rt: HostRuntime) -> Result<(), AllocError> {
    let header = "view,pre,post,change\n";
    agree(&rt, rt.alloc(), Reads::Sizes, header, ROWS)
}

#[test]
fn of_two_faults_of_sizes_the_first_is_told(rt: HostRuntime) -> Result<(), AllocError> {
    let header = "view,pre,post,change\n";
    agree(&rt, rt.alloc(), Reads::Sizes, header, TWO_FAULTS)
}

#[test]
fn weights_are_read_or_their_fault_is_told(rt: HostRuntime) -> Result<(), AllocError> {
    let header = "view,pre,post,change,weight\n";
    agree(&rt, rt.alloc(), Reads::Sizes, header, WEIGHTED)
}

#[test]
fn of_two_faults_of_weighted_sizes_the_first_is_told(rt: HostRuntime) -> Result<(), AllocError> {
    let header = "view,pre,post,change,weight\n";
    agree(&rt, rt.alloc(), Reads::Sizes, header, TWO_FAULTS_WEIGHTED)
}

#[test]
fn the_header_of_sizes_is_judged_first(rt: HostRuntime) -> Result<(), AllocError> {
    agree(&rt, rt.alloc(), Reads::Sizes, "", HEADERS)
}
