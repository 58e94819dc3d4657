// Every beginning of a text is read or has a fault that its reader can have.

use crate::texts::cases::{Reads, beginnings};
use std::alloc::AllocError;

const CATALOGUE: &str = r#"[[view]]
name = "a"
columns = ["x", "y"]
[[view]]
name = "b"
columns = ["y", "z"]
[[view]]
name = "v"
over = ["a", "b"]
join = [["a.y", "b.y"]]
keep = [["x", "a.x"], ["z", "b.z"]]
"#;

#[test]
fn every_beginning_of_two_table_night_is_read_or_refused(
    rt: HostRuntime,
) -> Result<(), AllocError> {
    let alloc = rt.alloc();
    // A cut catalogue is no TOML, or lacks a key, a column or a view.
    beginnings(
        &rt,
        alloc,
        Reads::Catalogue,
        CATALOGUE,
        &["1 ", "2 ", "3 ", "14 "],
    )?;
    let table = ["5 ", "6 ", "7 "];
    beginnings(&rt, alloc, Reads::Table("x y"), "x,y\n1,10\n2,10\n", &table)?;
    beginnings(&rt, alloc, Reads::Table("y z"), "y,z\n10,5\n", &table)?;
    beginnings(
        &rt,
        alloc,
        Reads::Changes("x y"),
        "#,x,y\n-1,2,10\n1,3,10\n",
        &table,
    )?;
    beginnings(
        &rt,
        alloc,
        Reads::Changes("y z"),
        "#,y,z\n-1,10,5\n1,10,6\n",
        &table,
    )
}
