//! Tests of what a night works out, by public calls: a catalogue is made by hand and carried out on tables.
//!
//! They stand beside `test_parts`, so that they are proved at once with its tests, and without waiting for the crates that publish.
#![tactic(auto)]

#[cfg(test)]
mod nights;
