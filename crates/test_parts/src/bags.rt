// Bags: the worked examples, and that ample memory is enough.

use std::alloc::{AllocError, Global};
use std::process::Abort;
use std::test::Fail;
use std::thread::Threads;
use test_given::tables::bag as bag_of;
use wh_row::{Bag, BagFault, ColumnIndex, Records, RecordsFault};
use wh_threads::ThreadBudget;

/// Asserts that the bag lists these rows, with these counts, in this order.
fn assert_lists(rt: &impl Abort, bag: &Bag, wanted: &[(&[i64], i64)]) {
    let mut rows = bag.rows();
    for (row, count) in wanted {
        assert_eq!(rt; rows.next(), Some((*row, *count)));
    }
    assert!(rt; rows.next().is_none());
}

/// The caller's thread alone.
fn alone<R: Threads + Sync>(rt: &R, alloc: Global) -> ThreadBudget<'_, R> {
    ThreadBudget {
        rt,
        alloc,
        threads: 1,
    }
}

#[test]
fn rows_whose_counts_cancel_leave_the_bag(rt: HostRuntime) -> Result<(), Fail> {
    let bag = bag_of(rt.alloc(), &[(&[1], 2), (&[1], -2)])?;
    assert_eq!(rt; bag.total(), 0);
    assert_lists(&rt, &bag, &[]);
    Ok(())
}

#[test]
fn a_count_that_would_leave_i64_is_refused(rt: HostRuntime) -> Result<(), Fail> {
    let mut bag = bag_of(rt.alloc(), &[(&[1], 9223372036854775807)])?;
    let refused = bag.add(&[1], 1);
    assert_eq!(rt; refused, Err(BagFault::Large));
    assert_eq!(rt; BagFault::Large.number(), 2);
    assert_lists(&rt, &bag, &[(&[1], 9223372036854775807)]);
    assert_lists(&rt, &bag.copy(rt.alloc())?, &[(&[1], 9223372036854775807)]);
    Ok(())
}

#[test]
fn rows_rise_cell_by_cell(rt: HostRuntime) -> Result<(), Fail> {
    let rows: [(&[i64], i64); 5] = [(&[2], 1), (&[1, 5], -1), (&[], 4), (&[-3, 9], 2), (&[1], 7)];
    let bag = bag_of(rt.alloc(), &rows)?;
    assert_lists(
        &rt,
        &bag,
        &[(&[], 4), (&[-3, 9], 2), (&[1], 7), (&[1, 5], -1), (&[2], 1)],
    );
    assert_eq!(rt; bag.total(), 15);
    assert!(rt; !bag.is_table());
    assert!(rt; !bag.has_width(1));
    Ok(())
}

#[test]
fn bags_that_cancel_merge_to_an_empty_bag(rt: HostRuntime) -> Result<(), Fail> {
    let mut bag = bag_of(rt.alloc(), &[(&[1, 1], 3), (&[2, 2], -4)])?;
    let opposite = bag_of(rt.alloc(), &[(&[1, 1], -3), (&[2, 2], 4)])?;
    bag.merge(&opposite)?;
    assert_lists(&rt, &bag, &[]);
    Ok(())
}

#[test]
fn a_merge_that_would_leave_i64_changes_nothing(rt: HostRuntime) -> Result<(), Fail> {
    let mut bag = bag_of(rt.alloc(), &[(&[1], 5), (&[2], -9223372036854775808)])?;
    let more = bag_of(rt.alloc(), &[(&[1], 1), (&[2], -1)])?;
    let refused = bag.merge(&more);
    assert_eq!(rt; refused, Err(BagFault::Large));
    assert_lists(&rt, &bag, &[(&[1], 5), (&[2], -9223372036854775808)]);
    Ok(())
}

#[test]
fn records_in_any_order_add_up(rt: HostRuntime) -> Result<(), Fail> {
    let mut records = Records::new(rt.alloc());
    for (row, count) in [(&[3], 1), (&[1], 2), (&[3], -1), (&[2], 5), (&[1], 4)] {
        records.push(row, count)?;
    }
    let bag = Bag::from_records(&alone(&rt, rt.alloc()), &records)?;
    assert_lists(&rt, &bag, &[(&[1], 6), (&[2], 5)]);
    assert!(rt; bag.is_table());
    assert!(rt; bag.has_width(1));
    Ok(())
}

// The total, 9223372036854775803, fits: the running sum at the second record does not.
#[test]
fn records_are_refused_where_a_running_sum_leaves_i64(rt: HostRuntime) -> Result<(), Fail> {
    let mut records = Records::new(rt.alloc());
    for count in [9223372036854775807, 1, -5] {
        records.push(&[1], count)?;
    }
    let refused = Bag::from_records(&alone(&rt, rt.alloc()), &records);
    assert!(rt; refused.is_err());
    if let Err(fault) = refused {
        assert_eq!(rt; fault, RecordsFault::Large(1));
        assert_eq!(rt; fault.number(), 2);
    }
    Ok(())
}

/// How many rows there are for threads.
const MANY: usize = 25_000;

/// Records whose rows come in no order: each row (x, x mod 7) twice, once with 1 and once with 2.
fn shuffled(alloc: Global) -> Result<Records, AllocError> {
    let mut records = Records::new(alloc);
    for count in [1, 2] {
        for place in 0..MANY {
            let x = (place * 7919 % MANY) as i64;
            records.push(&[x, x % 7], count)?;
        }
    }
    Ok(records)
}

#[test]
fn threads_add_up_records_in_any_order(rt: HostRuntime) -> Result<(), Fail> {
    let records = shuffled(rt.alloc())?;
    for threads in [0, 1, 2, 3, 16] {
        let budget = ThreadBudget {
            rt: &rt,
            alloc: rt.alloc(),
            threads,
        };
        let bag = Bag::from_records(&budget, &records)?;
        assert_eq!(&rt; bag.len(), 25_000);
        assert_eq!(&rt; bag.total(), 75_000);
        assert_eq!(&rt; bag.count(&[0, 0]), 3);
        assert_eq!(&rt; bag.count(&[24_999, 2]), 3);
        assert_eq!(&rt; bag.count(&[24_999, 3]), 0);
    }
    Ok(())
}

/// Records whose rows come in no order, with more cells than are sorted as they stand: each row (x mod 5, x mod 7, x, 0) twice.
fn shuffled_wide(alloc: Global) -> Result<Records, AllocError> {
    let mut records = Records::new(alloc);
    for count in [1, 2] {
        for place in 0..MANY {
            let x = (place * 7919 % MANY) as i64;
            records.push(&[x % 5, x % 7, x, 0], count)?;
        }
    }
    Ok(records)
}

#[test]
fn threads_add_up_records_of_four_cells(rt: HostRuntime) -> Result<(), Fail> {
    let records = shuffled_wide(rt.alloc())?;
    for threads in [1, 2, 16] {
        let budget = ThreadBudget {
            rt: &rt,
            alloc: rt.alloc(),
            threads,
        };
        let bag = Bag::from_records(&budget, &records)?;
        assert_eq!(&rt; bag.len(), 25_000);
        assert_eq!(&rt; bag.total(), 75_000);
        assert_eq!(&rt; bag.count(&[4, 2, 24_999, 0]), 3);
        assert_eq!(&rt; bag.count(&[4, 2, 24_999, 1]), 0);
    }
    Ok(())
}

#[test]
fn rows_that_are_above_are_taken_in(rt: HostRuntime) -> Result<(), Fail> {
    let mut bag = bag_of(rt.alloc(), &[(&[1], 5), (&[2], -1)])?;
    bag.absorb(bag_of(rt.alloc(), &[(&[3], 2), (&[4], -7)])?)?;
    assert_lists(&rt, &bag, &[(&[1], 5), (&[2], -1), (&[3], 2), (&[4], -7)]);
    assert_eq!(&rt; bag.total(), 15);
    bag.absorb(bag_of(rt.alloc(), &[(&[0], 1), (&[4], 7)])?)?;
    assert_lists(&rt, &bag, &[(&[0], 1), (&[1], 5), (&[2], -1), (&[3], 2)]);
    Ok(())
}

#[test]
fn room_holds_no_record(rt: HostRuntime) -> Result<(), Fail> {
    let mut records = Records::new(rt.alloc());
    records.reserve(2, 100)?;
    assert!(&rt; records.is_empty());
    records.append(2, &[1, 5], &[3])?;
    assert_records(&rt, &records, &[(&[1, 5], 3)]);
    Ok(())
}

/// Asserts that these are the records, in this order.
fn assert_records(rt: &impl Abort, records: &Records, wanted: &[(&[i64], i64)]) {
    assert_eq!(rt; records.len(), wanted.len());
    for (place, record) in wanted.iter().enumerate() {
        assert_eq!(rt; records.get(place), *record);
    }
    assert_eq!(rt; records.last(), wanted.last().copied());
}

#[test]
fn runs_of_several_widths_are_appended(rt: HostRuntime) -> Result<(), Fail> {
    let mut records = Records::new(rt.alloc());
    records.append(2, &[1, 5, 2, 6], &[1, 3])?;
    records.append(3, &[], &[])?;
    records.append(2, &[3, 7], &[-1])?;
    records.append(1, &[7, 8], &[2, 4])?;
    records.append(0, &[], &[9])?;
    assert_records(
        &rt,
        &records,
        &[
            (&[1, 5], 1),
            (&[2, 6], 3),
            (&[3, 7], -1),
            (&[7], 2),
            (&[8], 4),
            (&[], 9),
        ],
    );
    Ok(())
}

#[test]
fn records_of_several_widths_stand_as_they_came(rt: HostRuntime) -> Result<(), Fail> {
    let wanted: [(&[i64], i64); 6] = [
        (&[], 4),
        (&[], -4),
        (&[1, 5], 1),
        (&[2, 6], 3),
        (&[7], 2),
        (&[], 9),
    ];
    let mut records = Records::new(rt.alloc());
    for place in 0..wanted.len() {
        let (row, count) = wanted[place];
        records.push(row, count)?;
        assert_records(&rt, &records, &wanted[..place + 1]);
    }
    Ok(())
}

#[test]
fn rows_are_cut_where_it_is_asked(rt: HostRuntime) -> Result<(), Fail> {
    let rows: [(&[i64], i64); 5] = [(&[], 4), (&[-3, 9], 2), (&[1], 7), (&[1, 5], -1), (&[2], 1)];
    let bag = bag_of(rt.alloc(), &rows)?;
    for limit in 0..7 {
        let (taken, mut rest) = bag.rows().cut(rt.alloc(), limit)?;
        let count = limit.min(5);
        assert_records(&rt, &taken, &rows[..count]);
        for (row, count) in &rows[count..] {
            assert_eq!(&rt; rest.next(), Some((*row, *count)));
        }
        assert!(&rt; rest.next().is_none());
    }
    Ok(())
}

/// Asserts that just these rows, with these counts, start with the key.
fn assert_finds(rt: &impl Abort, keyed: &ColumnIndex, key: &[i64], wanted: &[(&[i64], i64)]) {
    let mut rows = keyed.rows_starting_with(key);
    for (row, count) in wanted {
        assert_eq!(rt; rows.next(), Some((*row, *count)));
    }
    assert!(rt; rows.next().is_none());
}

/// A hundred rows (k, k mod 40), which the bag keeps behind their last cells too.
fn kept_by_last_cells(alloc: Global) -> Result<Bag, Fail> {
    let mut bag = Bag::new(alloc);
    for k in 0..100_i64 {
        bag.add(&[k, k % 40], 1)?;
    }
    bag.keep_index(alloc, vec![in alloc; 1]?)?;
    Ok(bag)
}

#[test]
fn rows_behind_their_keys_change_with_a_small_merge(rt: HostRuntime) -> Result<(), Fail> {
    let mut bag = kept_by_last_cells(rt.alloc())?;
    let change = bag_of(rt.alloc(), &[(&[3, 3], -1), (&[200, 3], 5)])?;
    bag.merge(&change)?;
    let keyed = bag.keyed_by(&[1]).expect(&rt, "rows behind their keys");
    assert_eq!(rt; keyed.columns(), [1].as_slice());
    let wanted: [(&[i64], i64); 3] = [(&[3, 43, 3], 1), (&[3, 83, 3], 1), (&[3, 200, 3], 5)];
    assert_finds(&rt, keyed, &[3], &wanted);
    Ok(())
}

#[test]
fn rows_behind_their_keys_go_with_what_else_changes_a_bag(rt: HostRuntime) -> Result<(), Fail> {
    let mut bag = kept_by_last_cells(rt.alloc())?;
    assert!(rt; bag.keyed_by(&[0]).is_none());
    assert!(rt; bag.keyed_by(&[1]).is_some());
    bag.add(&[3, 3], 1)?;
    assert!(rt; bag.keyed_by(&[1]).is_none());
    bag.keep_index(rt.alloc(), vec![in rt.alloc(); 1]?)?;
    assert!(rt; bag.keyed_by(&[1]).is_some());
    let as_many = bag.copy(rt.alloc())?;
    assert!(rt; as_many.keyed_by(&[1]).is_none());
    bag.merge(&as_many)?;
    assert!(rt; bag.keyed_by(&[1]).is_none());
    Ok(())
}

#[test]
fn rows_are_laid_out_behind_their_keys(rt: HostRuntime) -> Result<(), Fail> {
    let bag = bag_of(rt.alloc(), &[(&[1, 7], 2), (&[2, 6], -3), (&[3, 7], 4)])?;
    let keyed = ColumnIndex::of(rt.alloc(), &bag, vec![in rt.alloc(); 1]?)?;
    assert_finds(&rt, &keyed, &[6], &[(&[6, 2, 6], -3)]);
    assert_finds(&rt, &keyed, &[7], &[(&[7, 1, 7], 2), (&[7, 3, 7], 4)]);
    assert_finds(&rt, &keyed, &[8], &[]);
    Ok(())
}
