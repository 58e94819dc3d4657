//! Tests of the texts that are read and written, among them those of certificates by search, by public calls.
//!
//! They stand beside `test_parts` and not in it, so that its tests are proved without waiting for the crate of texts.
#![tactic(auto)]

#[cfg(test)]
mod texts;
#[cfg(test)]
mod trees;
