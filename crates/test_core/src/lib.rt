//! Tests of the machine over events, and of nights beside readers, by public calls.
//!
//! They stand beside `test_night`, so that its tests are proved without waiting for the machine.
#![tactic(auto)]

#[cfg(test)]
mod machine;
#[cfg(test)]
mod served;
#[cfg(test)]
mod watched;
