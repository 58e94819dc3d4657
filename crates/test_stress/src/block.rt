//! Blocks of rows, of which the last counts what the others count together.

use std::alloc::{AllocError, Global};
use wh_row::{Bag, BagFault, Row};
use wh_store::Page;

/// How many rows a block has.
pub const BLOCK: i64 = 256;

/// Half of them: what one operation of a night writes.
const HALF: i64 = 128;

/// A number that looks drawn, of these.
pub fn mixed(block: u32, row: i64, turn: u64) -> u64 {
    let begin = turn
        .wrapping_mul(0x9E37_79B9_7F4A_7C15)
        .wrapping_add(u64::from(block).wrapping_mul(0xBF58_476D_1CE4_E5B9))
        .wrapping_add(row.cast_unsigned());
    let once = (begin ^ (begin >> 30)).wrapping_mul(0xBF58_476D_1CE4_E5B9);
    let twice = (once ^ (once >> 27)).wrapping_mul(0x94D0_49BB_1331_11EB);
    twice ^ (twice >> 31)
}

/// How often a row counts that is written at this turn, 1 to 1,000,000.
fn count(block: u32, row: i64, turn: u64) -> i64 {
    (mixed(block, row, turn) % 1_000_000) as i64 + 1
}

/// What the rows of a block count together, but for the last.
fn sum(block: u32, turn: u64) -> i64 {
    let mut sum = 0i64;
    for row in 0..BLOCK - 1 {
        sum = sum.wrapping_add(count(block, row, turn));
    }
    sum
}

/// How often the row counts that is written at this turn; the last counts the sum of the others.
fn count_in(block: u32, row: i64, turn: u64) -> i64 {
    if row == BLOCK - 1 {
        return sum(block, turn);
    }
    count(block, row, turn)
}

/// The table of so many blocks, each at turn 0.
pub fn table(alloc: Global, blocks: u32) -> Result<Bag, BagFault> {
    let mut bag = Bag::new(alloc);
    for block in 0..blocks {
        for row in 0..BLOCK {
            bag.add(&[i64::from(block), row], count_in(block, row, 0))?;
        }
    }
    Ok(bag)
}

/// The first half of a block as it is at this turn, or the second.
pub fn half(
    alloc: Global,
    block: u32,
    second: bool,
    turn: u64,
) -> Result<Vec<(Row, i64)>, AllocError> {
    let begin = if second { HALF } else { 0 };
    let mut rows = Vec::new(alloc);
    for place in 0..HALF {
        let row = begin + place;
        let cells = Row::from_slice(alloc, &[i64::from(block), row])?;
        rows.push((cells, count_in(block, row, turn)))?;
    }
    Ok(rows)
}

/// Whether the page has all rows of the block, and the last counts what the others count together.
pub fn is_whole(page: &Page, block: u32) -> bool {
    let mut sum = 0i64;
    let mut last = 0i64;
    let mut place = 0i64;
    for at in 0..page.rows.len() {
        let (row, count) = page.rows.get(at);
        if row != [i64::from(block), place].as_slice() {
            return false;
        }
        sum = sum.wrapping_add(last);
        last = count;
        place = place.wrapping_add(1);
    }
    place == BLOCK && last == sum
}
