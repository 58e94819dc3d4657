//! Tests of bags, versions, formulas and plans, by public calls.
//!
//! They stand here and not in the crates below, since a crate that has tests is proved a second time with them. Those of
//! nights stand in `test_carry`, `test_night`, `test_workers` and `test_core`, those of texts in `test_texts`.
#![tactic(auto)]

#[cfg(test)]
mod bags;
#[cfg(test)]
mod drawn_nights;
#[cfg(test)]
mod formulas;
#[cfg(test)]
mod plain;
#[cfg(test)]
mod plans;
#[cfg(test)]
mod record_parts;
#[cfg(test)]
mod threads;
#[cfg(test)]
mod versions;
