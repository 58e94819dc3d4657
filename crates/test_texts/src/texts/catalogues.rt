// The shapes of catalogues: names and children, and their first fault.

use crate::texts::cases::{Reads, agree, fault_line, times};
use std::alloc::{AllocError, Global};
use std::test::Fail;
use wh_dag::Shape;
use wh_load::read_shape;

const SHAPES: &str = r#"a
b
v a b
----
[[view]]
name = "a"
columns = ["x", "y"]
[[view]]
name = "b"
columns = ["y", "z"]
[[view]]
name = "v"
over = ["a", "b"]
join = [["a.y", "b.y"]]
keep = [["x", "a.x"], ["z", "b.z"]]
====
----
view = []
====
a
----
view = [{ name = "a" }]
====
a
----
view = [{
 name = "a",
}]
====
_
Z_9
----
[[view]]
name = "_"
[[view]]
name = "Z_9"
====
a
----
views = 3
[[view]]
name = "a"
columns = 3
NAME = 4
join = ""
keep = []
====
1 fault toml
----
[[view]
====
2 fault key view
----
====
2 fault key view
----
view = 3
====
2 fault key view
----
[view]
name = "a"
====
2 fault key view
----
view = [{ name = "a" }, 3]
====
2 fault key name
----
[[view]]
columns = []
====
2 fault key name
----
[[view]]
name = 3
====
2 fault key over
----
[[view]]
name = "a"
over = 3
====
2 fault key over
----
[[view]]
name = "a"
over = "a"
====
2 fault key over
----
[[view]]
name = "a"
over = ["a", 3]
====
2 fault key name
----
view = [{ name = "" }]
====
2 fault key name
----
view = [{ name = "9a" }]
====
2 fault key name
----
view = [{ name = "a-b" }]
====
2 fault key name
----
view = [{ name = "a.b" }]
====
2 fault key name
----
view = [{ name = "a " }]
====
14 fault shape duplicate a
----
view = [{ name = "a" }, { name = "a" }]
====
14 fault shape unknown a
b
----
view = [{ name = "v", over = ["a\nb"] }]
====
14 fault shape unknown 
----
view = [{ name = "v", over = [""] }]
====
14 fault shape forward v
----
view = [{ name = "v", over = ["v"] }]
====
14 fault shape forward w
----
view = [{ name = "v", over = ["w"] }, { name = "w" }]
====
14 fault shape repeated a
----
view = [{ name = "a" }, { name = "v", over = ["a", "a"] }]
====
14 fault shape toomany v
----
view = [{ name = "v", over = ["a", "b", "c", "d", "e", "f", "g"] }]
====
14 fault shape empty v
----
view = [{ name = "v", over = [] }]
"#;

// Of two faults the first: the document, then the array of the views, then name and `over` view by view, then the shape.
const TWO_FAULTS: &str = r#"1 fault toml
----
[[view]]
name = 3
[[view]
====
1 fault toml
----
[[view]]
name = "9"
name = "a"
====
2 fault key view
----
view = [{ name = "9" }, 3]
====
2 fault key name
----
[[view]]
over = 3
name = "9"
====
2 fault key over
----
[[view]]
name = "a"
over = 3
[[view]]
name = "9"
====
2 fault key name
----
[[view]]
name = "9"
[[view]]
name = "a"
over = 3
====
2 fault key name
----
[[view]]
name = "v"
over = ["x"]
[[view]]
name = "9"
====
2 fault key over
----
[[view]]
name = "v"
over = []
[[view]]
name = "w"
over = ["a", 3]
====
2 fault key over
----
[[view]]
name = "a"
[[view]]
name = "a"
over = [[]]
====
14 fault shape duplicate a
----
[[view]]
name = "a"
[[view]]
name = "a"
over = []
====
14 fault shape unknown x
----
[[view]]
name = "v"
over = ["x"]
[[view]]
name = "v"
"#;

// The marks of a text that is no TOML, and of one that is.
const BYTES: &str = "1 fault toml
----
\u{ff}
====
1 fault toml
----
view = 3 # \u{ff}
====
2 fault key name
----
view = [{ name = \"\u{c3}\u{a4}\" }]
====
a
----
\u{ef}\u{bb}\u{bf}view = [{ name = \"a\" }]
";

// What the 65th view is over is looked at before the shape is, and the first 64 come before it.
const AFTER_64: &str = "14 fault shape toomany w
----
[[view]]
name = \"w\"
====
2 fault key over
----
[[view]]
name = \"w\"
over = 3
====
14 fault shape toomany w
----
[[view]]
name = \"w\"
over = [\"x\"]
====
2 fault key name
----
[[view]]
name = \"w\"
[[view]]
====
14 fault shape unknown x
----
over = [\"x\"]
[[view]]
name = \"w\"
";

/// The name of a view, `?` where there is none of this number.
fn name(shape: &Shape, view: usize) -> &str {
    if view < shape.len() {
        shape.name(view)
    } else {
        "?"
    }
}

/// The views line by line, each with its children.
fn shape_lines(alloc: Global, shape: &Shape) -> Result<String, AllocError> {
    let mut text = String::new(alloc);
    for view in 0..shape.len() {
        text.push_str(shape.name(view))?;
        for child in shape.children(view) {
            text.push_str(" ")?;
            text.push_str(name(shape, *child))?;
        }
        text.push_str("\n")?;
    }
    Ok(text)
}

/// The views line by line, each with its children, or the fault.
pub(crate) fn outcome(alloc: Global, text: &[u8]) -> Result<String, AllocError> {
    match read_shape(alloc, text) {
        Ok(shape) => shape_lines(alloc, &shape),
        Err(fault) => fault_line(alloc, &fault),
    }
}

#[test]
fn shapes_are_read_or_their_fault_is_told(rt: HostRuntime) -> Result<(), AllocError> {
    agree(&rt, rt.alloc(), Reads::Shape, "", SHAPES)?;
    agree(&rt, rt.alloc(), Reads::Shape, "", BYTES)
}

#[test]
fn of_two_faults_of_shapes_the_first_is_told(rt: HostRuntime) -> Result<(), AllocError> {
    agree(&rt, rt.alloc(), Reads::Shape, "", TWO_FAULTS)
}

/// Base views v0, v1 and so on, as many as count.
fn bases(alloc: Global, count: usize) -> Result<String, AllocError> {
    let mut text = String::new(alloc);
    for number in 0..count {
        text.push_str(format!(in alloc; "[[view]]\nname = \"v{number}\"\n")?.as_str())?;
    }
    Ok(text)
}

#[test]
fn the_65th_view_is_one_too_many(rt: HostRuntime) -> Result<(), Fail> {
    let alloc = rt.alloc();
    let most = bases(alloc, 64)?;
    assert_eq!(&rt; read_shape(alloc, most.as_bytes())?.len(), 64);
    Ok(agree(&rt, alloc, Reads::Shape, &most, AFTER_64)?)
}

/// A view over none, whose name has this many bytes.
fn named(alloc: Global, count: usize) -> Result<String, AllocError> {
    let name = times(alloc, count, "n")?;
    let text = format!(in alloc; "view = [{{over = [], name = \"{name}\"}}]")?;
    outcome(alloc, text.as_bytes())
}

#[test]
fn a_name_has_at_most_64_bytes(rt: HostRuntime) -> Result<(), AllocError> {
    let (most, more) = (named(rt.alloc(), 64)?, named(rt.alloc(), 65)?);
    assert!(&rt; most.starts_with("14 fault shape empty n"));
    assert!(&rt; more.starts_with("2 fault key name"));
    Ok(())
}
