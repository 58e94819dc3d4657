// The formulas of worked examples, read from catalogues.

use crate::texts::definitions::{holds, read_catalogue, value};
use wh_load::{Dict, LoadFault, Written, WrittenOutput};

const SQUARES: &str = r#"view = [
  { name = "a", columns = ["x"] },
  { name = "v", over = ["a"], where = [">", ["*", "a.x", "a.x"], 0], keep = [["p", ["*", "a.x", "a.x"]]] },
  { name = "w", over = ["a"], where = ["not", [">", ["*", "a.x", "a.x"], 0]], keep = [["p", ["*", "a.x", "a.x"]]] },
  { name = "r", over = ["a"], where = ["<", "a.x", 3037000500], keep = [["p", ["*", "a.x", "a.x"]]] },
]
"#;

/// Whether the filter of a view holds of the two numbers, and the values that the view keeps of them.
fn answers(written: &Written, view: usize) -> Option<(bool, bool, Option<i64>, Option<i64>)> {
    let definition = written.views.get(view)?.definition.as_ref()?;
    let WrittenOutput::Keep(exprs) = &definition.output else {
        return None;
    };
    let square = exprs.first()?;
    let (small, large) = ([3037000499], [3037000500]);
    Some((
        holds(&definition.filter, &small),
        holds(&definition.filter, &large),
        value(square, &small),
        value(square, &large),
    ))
}

// The square of 3037000500 leaves i64, so no comparison with it holds.
#[test]
fn a_square_that_leaves_i64_has_no_value(rt: HostRuntime) -> Result<(), LoadFault> {
    let alloc = rt.alloc();
    let mut dict = Dict::new(alloc);
    let written = read_catalogue(alloc, SQUARES.as_bytes(), &mut dict)?;
    let square = Some(9223372030926249001);
    assert!(&rt; answers(&written, 1) == Some((true, false, square, None)));
    assert!(&rt; answers(&written, 2) == Some((false, true, square, None)));
    assert!(&rt; answers(&written, 3) == Some((true, false, square, None)));
    Ok(())
}
