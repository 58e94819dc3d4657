//! Nights that nobody reads beside: what they answer, and the tables that they hand out.

use crate::nights::run::has_rows;
use crate::nights::warehouse::{changes, opening};
use std::alloc::Global;
use std::test::Fail;
use std::thread::Threads;
use test_given::catalogs::{joined, one_way};
use wh_carry::{Carried, CarryFault, are_fit};
use wh_maint::{MaintFault, are_bags};
use wh_night::{NightRequest, NoGate, night_alone};
use wh_row::Bag;
use wh_strategy::check;
use wh_threads::ThreadBudget;

/// The night over a(x,y) with (1,10) and (2,10), b(y,z) with (10,5) and v, which joins them, by so many workers; a changes so, and b by
/// -(10,5) +(10,6).
fn carried<R: Threads + Sync>(
    rt: &R,
    alloc: Global,
    of_a: &[(&[i64], i64)],
    workers: usize,
) -> Result<Result<Carried, CarryFault>, Fail> {
    let catalog = joined(alloc)?;
    let tables = opening(alloc, &[(&[1, 5], 1), (&[2, 5], 1)])?;
    let changes = changes(alloc, of_a)?;
    let Ok(correct) = check(alloc, catalog.shape(), one_way(alloc)?) else {
        return Err(Fail::from("a correct strategy"));
    };
    if !correct.is_of(catalog.shape()) || !are_bags(&catalog, &changes) {
        return Err(Fail::from("what a night asks for"));
    }
    if !are_bags(&catalog, &tables) || !are_fit(alloc, &catalog, &tables)? {
        return Err(Fail::from("fit tables"));
    }
    if workers == 0 || workers > 16 {
        return Err(Fail::from("1 to 16 workers"));
    }
    let budget = ThreadBudget {
        rt,
        alloc,
        threads: workers,
    };
    let asked = NightRequest {
        budget: &budget,
        catalog: &catalog,
        changes: &changes,
        correct: &correct,
        page_keys: 256,
        gate: &NoGate,
    };
    Ok(night_alone(&asked, tables))
}

/// Whether these are the tables of a, b and v, with these rows, once each.
fn are_tables(tables: &[Bag], a: &[&[i64]], b: &[&[i64]], v: &[&[i64]]) -> bool {
    match tables {
        [of_a, of_b, of_v] => has_rows(of_a, a) && has_rows(of_b, b) && has_rows(of_v, v),
        _ => false,
    }
}

/// Whether the night was carried out, and made these tables: a row of a left, and one came.
fn is_carried(answer: &Result<Carried, CarryFault>) -> bool {
    let Ok(carried) = answer else {
        return false;
    };
    carried.report.version == 1
        && carried.report.steps.len() == 5
        && are_tables(
            &carried.tables,
            &[&[1, 10], &[3, 10]],
            &[&[10, 6]],
            &[&[1, 6], &[3, 6]],
        )
}

#[test]
fn night_without_readers(rt: HostRuntime) -> Result<(), Fail> {
    let of_a: [(&[i64], i64); 2] = [(&[2, 10], -1), (&[3, 10], 1)];
    let by_one = carried(&rt, rt.alloc(), &of_a, 1)?;
    assert!(rt; is_carried(&by_one));
    let by_four = carried(&rt, rt.alloc(), &of_a, 4)?;
    assert!(rt; is_carried(&by_four));
    Ok(())
}

#[test]
fn absent_row_without_readers(rt: HostRuntime) -> Result<(), Fail> {
    let answer = carried(&rt, rt.alloc(), &[(&[9, 9], -1)], 1)?;
    let refused = match &answer {
        Err(
            CarryFault {
                fault: MaintFault::Absent(0, row),
                started: false,
            },
        ) => row.cells() == [9, 9].as_slice(),
        _ => false,
    };
    assert!(rt; refused);
    Ok(())
}

/// 2^57 rows of a, joined with one of b, are more than a Comp may have.
#[test]
fn a_comp_is_too_large_without_readers(rt: HostRuntime) -> Result<(), Fail> {
    let answer = carried(&rt, rt.alloc(), &[(&[3, 10], 1 << 57)], 1)?;
    let refused = matches!(
        &answer,
        Err(CarryFault {
            fault: MaintFault::Large(2),
            started: true
        })
    );
    assert!(rt; refused);
    Ok(())
}
