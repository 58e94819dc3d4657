// Catalogues at their limits: formulas 64 deep, views of 64 columns.

use super::faults::{OPEN_VIEW, TWO_BASES};
use super::outcome;
use crate::texts::cases::times;
use std::alloc::{AllocError, Global};

// A form within itself so many times: what opens it, the kernel, and what closes it.
struct Nest {
    front: &'static str,
    opens: &'static str,
    count: usize,
    kernel: &'static str,
    back: &'static str,
    want: &'static str,
}

const IN_WHERE: &str = "keep = [[\"p\", 1]]\nwhere = ";

const IN_KEEP: &str = "keep = [[\"p\", ";

/// So many levels of a predicate at `where`, and what is read of them.
fn in_where(count: usize, kernel: &'static str, want: &'static str) -> Nest {
    Nest {
        front: IN_WHERE,
        opens: "[\"not\", ",
        count,
        kernel,
        back: "",
        want,
    }
}

/// So many levels of an expression at `keep`, and what is read of them.
fn in_keep(count: usize, kernel: &'static str, want: &'static str) -> Nest {
    Nest {
        front: IN_KEEP,
        opens: "[\"+\", 1, ",
        count,
        kernel,
        back: "]]",
        want,
    }
}

/// A formula's root has depth 1. A formula that is too deep has another form, whatever its columns are; past 80 arrays in
/// one another the text is no TOML.
fn nest_at(place: usize) -> Nest {
    match place {
        0 => in_where(63, "true", "x:int"),
        1 => in_where(64, "true", "2 fault key where"),
        2 => in_where(62, "[\"=\", \"a.x\", 1]", "x:int"),
        3 => in_where(63, "[\"=\", \"a.q\", 1]", "2 fault key where"),
        4 => in_where(62, "[\"=\", \"a.q\", 1]", "3 fault column a.q"),
        5 => in_where(80, "true", "2 fault key where"),
        6 => in_where(81, "true", "1 fault toml"),
        7 => in_keep(63, "1", "x:int"),
        8 => in_keep(64, "1", "2 fault key keep"),
        9 => in_keep(64, "\"a.q\"", "2 fault key keep"),
        _ => in_keep(63, "\"t.k\"", "4 fault kind v"),
    }
}

#[test]
fn a_formula_is_at_most_64_deep(rt: HostRuntime) -> Result<(), AllocError> {
    let alloc = rt.alloc();
    for place in 0..11 {
        let Nest {
            front,
            opens,
            count,
            kernel,
            back,
            want,
        } = nest_at(place);
        let (opened, closed) = (times(alloc, count, opens)?, times(alloc, count, "]")?);
        let text = format!(in alloc;
            "{TWO_BASES}{OPEN_VIEW}{front}{opened}{kernel}{closed}{back}\n"
        )?;
        let found = outcome(alloc, text.as_bytes())?;
        assert!(&rt; found.starts_with(want), "{place}: {found}");
    }
    Ok(())
}

/// So many members of an array, each with its number.
fn members(alloc: Global, count: usize, front: &str, back: &str) -> Result<String, AllocError> {
    let mut text = String::new(alloc);
    for number in 0..count {
        text.push_str(format!(in alloc; "[\"{front}{number}\", \"{back}\"], ")?.as_str())?;
    }
    Ok(text)
}

/// That a summary has more than 64 columns is told after all of its keys.
fn summary(alloc: Global, groups: usize, sums: usize, back: &str) -> Result<String, AllocError> {
    let group = members(alloc, groups, "g", "a.x")?;
    let sum = members(alloc, sums, "s", "a.y")?;
    let text = format!(in alloc; "group = [{group}]\ncount = \"n\"\nsum = [{sum}{back}]\n")?;
    let text = format!(in alloc; "{TWO_BASES}{OPEN_VIEW}{text}")?;
    outcome(alloc, text.as_bytes())
}

/// What is read of a joined view with so many columns.
fn joined(alloc: Global, pairs: usize, back: &str) -> Result<String, AllocError> {
    let keep = members(alloc, pairs, "p", "a.x")?;
    let text = format!(in alloc; "{TWO_BASES}{OPEN_VIEW}keep = [{keep}{back}]\n")?;
    outcome(alloc, text.as_bytes())
}

#[test]
fn a_view_has_at_most_64_columns(rt: HostRuntime) -> Result<(), AllocError> {
    let alloc = rt.alloc();
    let mut found = joined(alloc, 65, "[\"p\", \"a.q\"]")?;
    found.push_str(joined(alloc, 63, "[\"p\", \"a.q\"]")?.as_str())?;
    found.push_str(summary(alloc, 40, 24, "")?.as_str())?;
    found.push_str(summary(alloc, 40, 23, "[\"s\", \"t.k\"]")?.as_str())?;
    found.push_str(summary(alloc, 40, 64, "[\"s\", \"a.q\"]")?.as_str())?;
    let want = "2 fault key keep
3 fault column a.q
2 fault key group
4 fault kind v
3 fault column a.q
";
    assert_eq!(&rt; found.as_str(), want);
    let (most, most_kept) = (summary(alloc, 40, 23, "")?, joined(alloc, 64, "")?);
    assert!(&rt; most.starts_with("x:int") && most_kept.starts_with("x:int"));
    Ok(())
}
