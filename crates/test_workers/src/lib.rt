//! Tests of desks that read while a writer publishes, and of workers that draw the jobs of waves, by public calls.
//!
//! They stand beside `test_night`, so that they are proved at once with its tests.
#![tactic(auto)]

#[cfg(test)]
mod desks;
#[cfg(test)]
mod nights;
#[cfg(test)]
mod readers;
