// By how much the rows of a view count otherwise in what an open night writes.
ghost use Rattle.wh_core.specs.Standing.{IsStanding};

use crate::machine::given::machine;
use crate::machine::schedules::{Said, Schedule, assert_further_steps, assert_steps};
use std::process::Abort;
use std::test::Fail;
use test_given::catalogs::{Cell, Every};
use wh_core::{Core, Event, MachineOptions};

/// The night begins, and its Comp is done.
static COMPUTED: Schedule = &[
    (Event::Begin, Said::Begun),
    (Event::Take(0), Said::Job(0)),
    (Event::Done(0), Said::Done),
];

/// The first of two pages of a, each of one row.
static A_PAGE: Schedule = &[(Event::PageIn, Said::Paged(1))];

/// The second page of a, and both of v.
static ALL_PAGES: Schedule = &[
    (Event::PageIn, Said::Paged(1)),
    (Event::PageIn, Said::Paged(1)),
    (Event::PageIn, Said::Paged(1)),
];

static ENDED: Schedule = &[(Event::Commit, Said::Version(1))];

/// Asserts that (1) counts otherwise in a view by the one number, (2) by the other, and no other row.
fn assert_change(
    rt: &impl Abort,
    core: &Core<Every, Cell>,
    view: usize,
    of_one: i64,
    of_two: i64,
) -> Result<(), Fail>
    requires { IsStanding core.now }
{
    let change = core.change(view)?;
    let rows = usize::from(of_one != 0) + usize::from(of_two != 0);
    assert_eq!(rt; change.len(), rows);
    assert_eq!(rt; change.count(&[1]), of_one);
    assert_eq!(rt; change.count(&[2]), of_two);
    Ok(())
}

#[test]
fn the_change_of_a_view_is_what_its_pages_have_put(rt: HostRuntime) -> Result<(), Fail> {
    let options = MachineOptions {
        desks: 1,
        workers: 1,
        page_keys: 1,
        versions: 2,
    };
    let base: &[&[(&[i64], i64)]] = &[&[(&[1], 1), (&[3], 1)], &[]];
    let night: &[&[(&[i64], i64)]] = &[&[(&[1], -1), (&[2], 2)], &[]];
    let mut core = machine(&rt, rt.alloc(), base, &[night], options)?;
    assert_steps(&rt, &mut core, COMPUTED);
    assert_change(&rt, &core, 0, 0, 0)?;
    assert_further_steps(&rt, &mut core, A_PAGE);
    assert_change(&rt, &core, 0, -1, 0)?;
    assert_further_steps(&rt, &mut core, ALL_PAGES);
    for view in 0..2 {
        assert_change(&rt, &core, view, -1, 2)?;
    }
    assert_change(&rt, &core, 2, 0, 0)?;
    assert_further_steps(&rt, &mut core, ENDED);
    assert_change(&rt, &core, 0, 0, 0)?;
    Ok(())
}
