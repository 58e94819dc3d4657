// What becomes of one night.

use crate::machine::given::{comp_and_insts, copied};
use std::alloc::Global;
use std::process::Abort;
use std::test::Fail;
use test_given::tables::bags;
use wh_carry::{Course, Part, are_fit, course_of};
use wh_maint::are_bags;
use wh_row::{Bag, Row};
use wh_store::Op;
use wh_strategy::check;

/// a holds (1), and v is a copy of it; a night brings -(1) +(2).
fn one_night(rt: &impl Abort, alloc: Global) -> Result<(Course, Option<Vec<Bag>>), Fail> {
    let catalog = copied(rt, alloc)?;
    let tables = bags(alloc, &[&[(&[1], 1)], &[(&[1], 1)]])?;
    let changes = bags(alloc, &[&[(&[1], -1), (&[2], 1)], &[]])?;
    assert!(rt; are_bags(&catalog, &tables) && are_bags(&catalog, &changes));
    assert!(rt; are_fit(alloc, &catalog, &tables)?);
    let correct = check(alloc, catalog.shape(), comp_and_insts(alloc)?).ok();
    let correct = correct.expect(rt, "a correct strategy");
    let course = course_of(alloc, &catalog, tables, &changes, &correct, 256)?;
    Ok(course)
}

/// Whether the page puts (1) to 0 and (2) to 1 in the view.
fn puts_the_change(op: &Op, view: usize) -> bool {
    let Op::Put(put, rows) = op else {
        return false;
    };
    match rows.as_slice() {
        [(one, none), (two, once)] => {
            *put == view && has_cell(one, 1) && *none == 0 && has_cell(two, 2) && *once == 1
        }
        _ => false,
    }
}

fn has_cell(row: &Row, cell: i64) -> bool {
    row.as_slice() == [cell].as_slice()
}

#[test]
fn a_wave_and_two_pages_become_of_a_night(rt: HostRuntime) -> Result<(), Fail> {
    let (course, last) = one_night(&rt, rt.alloc())?;
    let right = match course.parts.as_slice() {
        [Part::Wave(outcomes), Part::Page(of_a), Part::Page(of_v)] => {
            outcomes.len() == 1
                && outcomes[0].is_none()
                && puts_the_change(of_a, 0)
                && puts_the_change(of_v, 1)
        }
        _ => false,
    };
    assert!(rt; right && course.stop.is_none());
    let last = last.expect(&rt, "the tables that the night ends with");
    assert!(rt; last.len() == 2);
    for table in &last {
        assert!(rt; table.count(&[1]) == 0 && table.count(&[2]) == 1 && table.total() == 1);
    }
    Ok(())
}
