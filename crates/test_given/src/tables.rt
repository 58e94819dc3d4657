//! Bags by their rows with their counts.

use std::alloc::Global;
use std::test::Fail;
use wh_row::{Bag, BagFault};

/// The bag of these rows with their counts.
pub fn bag(alloc: Global, rows: &[(&[i64], i64)]) -> Result<Bag, BagFault> {
    let mut bag = Bag::new(alloc);
    for (row, count) in rows {
        bag.add(row, *count)?;
    }
    Ok(bag)
}

/// The bags of these lists of rows.
pub fn bags(alloc: Global, lists: &[&[(&[i64], i64)]]) -> Result<Vec<Bag>, Fail> {
    let mut bags = Vec::new(alloc);
    for rows in lists {
        bags.push(bag(alloc, rows)?)?;
    }
    Ok(bags)
}

/// Two bags in a list.
pub fn two_bags(
    alloc: Global,
    first: &[(&[i64], i64)],
    second: &[(&[i64], i64)],
) -> Result<Vec<Bag>, Fail> {
    let mut bags = Vec::new(alloc);
    bags.push(bag(alloc, first)?)?;
    bags.push(bag(alloc, second)?)?;
    Ok(bags)
}
