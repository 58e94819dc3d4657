//! How long pages took.

use std::alloc::{AllocError, Global};

/// How many times there are: time n is below 2^n nanoseconds.
const TIMES: usize = 64;

/// How many pages took how long.
#[derive(Drop)]
pub struct Times {
    counts: Vec<u64>,
}

impl Times {
    pub fn new(alloc: Global) -> Result<Times, AllocError> {
        Ok(Times {
            counts: vec![in alloc; 0; TIMES + 1]?,
        })
    }

    /// Notes a page that took so many nanoseconds.
    pub fn note(&mut self, nanos: u64) {
        let place = TIMES - nanos.leading_zeros() as usize;
        if let Some(count) = self.counts.get_mut(place) {
            *count = count.wrapping_add(1);
        }
    }

    /// Adds the others.
    pub fn add(&mut self, others: &Times) {
        for (count, other) in self.counts.iter_mut().zip(&others.counts) {
            *count = count.wrapping_add(*other);
        }
    }

    /// The nanoseconds, a power of two, below which so many of a thousand pages took.
    pub fn below(&self, of_thousand: u64) -> u64 {
        let all = self
            .counts
            .iter()
            .fold(0u64, |all, count| all.wrapping_add(*count));
        let wanted = all.wrapping_mul(of_thousand) / 1000;
        let mut found = 0u64;
        let mut limit = 1u64;
        for count in &self.counts {
            found = found.wrapping_add(*count);
            if found >= wanted {
                return limit;
            }
            limit = limit.wrapping_mul(2);
        }
        limit
    }
}
