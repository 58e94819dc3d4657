//! Parts of a work, and what threads answer for them.

use std::test::Fail;
use wh_threads::{ThreadBudget, Work};

#[test]
fn answers_come_in_the_order_of_the_parts(rt: HostRuntime) -> Result<(), Fail> {
    for threads in 1..5 {
        let budget = ThreadBudget {
            rt: &rt,
            alloc: rt.alloc(),
            threads,
        };
        let answers = budget.each(&[7u64, 1, 5, 3, 9], |part: &u64| part.wrapping_mul(10))?;
        assert_eq!(&rt; answers.as_slice(), [70, 10, 50, 30, 90].as_slice());
    }
    Ok(())
}

#[test]
fn parts_are_done_where_the_budget_has_no_thread(rt: HostRuntime) -> Result<(), Fail> {
    let budget = ThreadBudget {
        rt: &rt,
        alloc: rt.alloc(),
        threads: 0,
    };
    let answers = budget.each(&[7u64, 1, 5], |part: &u64| part.wrapping_mul(10))?;
    assert_eq!(&rt; answers.as_slice(), [70, 10, 50].as_slice());
    Ok(())
}

#[test]
fn a_part_is_as_large_as_a_thread_is_worth(rt: HostRuntime) -> Result<(), Fail> {
    let budget = ThreadBudget {
        rt: &rt,
        alloc: rt.alloc(),
        threads: 3,
    };
    assert_eq!(&rt; budget.parts(Work::Records, 0), 1);
    assert_eq!(&rt; budget.parts(Work::Records, 19_999), 1);
    assert_eq!(&rt; budget.parts(Work::Records, 20_000), 2);
    assert_eq!(&rt; budget.parts(Work::Records, 1_000_000), 12);
    assert_eq!(&rt; budget.parts(Work::Bytes, 1_000_000), 12);
    assert_eq!(&rt; budget.parts(Work::Bytes, 700_000), 10);
    let alone = ThreadBudget {
        rt: &rt,
        alloc: rt.alloc(),
        threads: 1,
    };
    assert_eq!(&rt; alone.parts(Work::Bytes, 1_000_000), 1);
    Ok(())
}
